//! That a command's line stands for it: each function does nothing, and its contract is the law.
ghost use Rattle.hex.specs.Hex.{IsBytes};
ghost use Rattle.press_cmd.specs.View.{token, broken_token};
ghost use Rattle.press_asm.specs.Written.{IsWritten, beginning};

use press_cmd::{Broken, Command, ESCAPE};

/// The elements of a slice are bytes.
fn are_bytes(bytes: &[u8])
    ensures { IsBytes bytes.now }
{
    let _ = bytes;
}

/// So are those of the beginning of a sequence.
fn begins_with_bytes(sequence: Option<(u8, u8)>)
    ensures { IsBytes (beginning sequence) }
{
    match sequence {
        Some((character, group)) => are_bytes(&[ESCAPE, character, group]),
        None => {}
    }
}

/// The line of a broken command stands for it.
fn is_broken_written(broken: &Broken)
    ensures { IsWritten (broken_token broken.now) }
{
    let (sequence, bytes) = broken.parts();
    begins_with_bytes(sequence);
    are_bytes(bytes);
}

/// The line of a command stands for it.
pub fn is_written(command: &Command)
    ensures { IsWritten (token command.now) }
{
    match command {
        Command::Escape(escape) => {
            let _ = escape;
        }
        Command::Control(control) => {
            let _ = control;
        }
        Command::Text(text) => {
            let _ = text;
        }
        Command::Uel => {}
        Command::Param(param) => are_bytes(param.data()),
        Command::Broken(broken) => is_broken_written(broken),
        Command::PjlLine(line) => are_bytes(line.bytes),
        Command::Foreign(byte) => are_bytes(&[*byte]),
    }
}
