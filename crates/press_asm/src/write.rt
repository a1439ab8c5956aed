//! The lines of commands.
ghost use Rattle.std.specs.Prelude.{◌≡◌, ◌∷◌, [], ◌++◌, length, take, OnOk, OnErr};
ghost use Rattle.hex.specs.Hex.{encode_upper};
ghost use Rattle.press_cmd.specs.View.{token, param_token, broken_token};
ghost use Rattle.press_asm.specs.Form.{escape_name, spaced};
ghost use Rattle.press_asm.specs.Written.{written_line, prefix_of, beginning, IsWritten};

use crate::names;
use crate::written::is_written;
use press_cmd::{Broken, Command, ESCAPE, EscapeByte, LINE_FEED, Param};
use std::alloc::AllocError;

/// The sixteen digits.
const DIGITS: [u8; 16] = *b"0123456789ABCDEF";

/// Appends two digits for each byte, in upper case.
fn write_digits(bytes: &[u8], out: &mut Vec<u8>) -> Result<(), AllocError>
    ensures ok { OnOk result (out.new.items ≡ out.old.items ++ encode_upper bytes.now) }
    ensures prefix { take (length out.old.items) out.new.items ≡ out.old.items }
{
    for byte in bytes {
        let high = DIGITS[usize::from(byte / 16)];
        let low = DIGITS[usize::from(byte % 16)];
        out.extend_from_slice(&[high, low])?;
    }
    Ok(())
}

/// Appends a name and two digits for each byte.
pub fn write_named(name: &[u8], bytes: &[u8], out: &mut Vec<u8>) -> Result<(), AllocError>
    ensures ok { OnOk result
        (out.new.items ≡ out.old.items ++ (name.now ++ encode_upper bytes.now)) }
    ensures prefix { take (length out.old.items) out.new.items ≡ out.old.items }
{
    out.extend_from_slice(name)?;
    write_digits(bytes, out)
}

/// Appends the digits of data after a space, if there is any.
fn write_spaced(payload: &[u8], out: &mut Vec<u8>) -> Result<(), AllocError>
    ensures ok { OnOk result (out.new.items ≡ out.old.items ++ spaced (encode_upper payload.now)) }
    ensures prefix { take (length out.old.items) out.new.items ≡ out.old.items }
{
    match payload {
        [] => Ok(()),
        _ => write_named(b" ", payload, out),
    }
}

/// Appends the line of a two-character escape sequence.
fn write_escape(escape: EscapeByte, out: &mut Vec<u8>) -> Result<(), AllocError>
    ensures ok { OnOk result
        (out.new.items ≡ out.old.items ++ (escape_name ++ escape.byte ∷ [])) }
    ensures prefix { take (length out.old.items) out.new.items ≡ out.old.items }
{
    out.extend_from_slice(&names::ESCAPE)?;
    out.extend_from_slice(&[escape.byte])
}

/// Appends the name of a parameter's line, its character, and its group if it has one.
fn write_prefix(param: &Param, out: &mut Vec<u8>) -> Result<(), AllocError>
    ensures ok { OnOk result
        (out.new.items ≡ out.old.items ++ prefix_of (param_token param.now)) }
    ensures prefix { take (length out.old.items) out.new.items ≡ out.old.items }
{
    out.extend_from_slice(&names::PARAM)?;
    let character = param.character();
    match param.group() {
        Some(group) => out.extend_from_slice(&[character, group]),
        None => out.extend_from_slice(&[character]),
    }
}

/// Appends the line of a parameter.
fn write_param(param: &Param, out: &mut Vec<u8>) -> Result<(), AllocError>
    ensures ok { OnOk result
        (out.new.items ≡ out.old.items ++ written_line (param_token param.now)) }
    ensures prefix { take (length out.old.items) out.new.items ≡ out.old.items }
{
    write_prefix(param, out)?;
    out.extend_from_slice(param.field())?;
    out.extend_from_slice(&[param.end()])?;
    write_spaced(param.data(), out)
}

/// Appends the digits of the beginning of a sequence, if it stands apart.
fn write_sequence(sequence: Option<(u8, u8)>, out: &mut Vec<u8>) -> Result<(), AllocError>
    ensures ok { OnOk result (out.new.items ≡ out.old.items ++ encode_upper (beginning sequence)) }
    ensures prefix { take (length out.old.items) out.new.items ≡ out.old.items }
{
    match sequence {
        Some((character, group)) => write_digits(&[ESCAPE, character, group], out),
        None => Ok(()),
    }
}

/// Appends the line of a broken command.
fn write_broken(broken: &Broken, out: &mut Vec<u8>) -> Result<(), AllocError>
    ensures ok { OnOk result
        (out.new.items ≡ out.old.items ++ written_line (broken_token broken.now)) }
    ensures prefix { take (length out.old.items) out.new.items ≡ out.old.items }
{
    let (sequence, bytes) = broken.parts();
    out.extend_from_slice(&names::BROKEN)?;
    write_sequence(sequence, out)?;
    write_digits(bytes, out)
}

/// Appends the line of a command, without a line feed.
fn write_text(command: &Command, out: &mut Vec<u8>) -> Result<(), AllocError>
    ensures ok { OnOk result (out.new.items ≡ out.old.items ++ written_line (token command.now)) }
    ensures prefix { take (length out.old.items) out.new.items ≡ out.old.items }
{
    match command {
        Command::Escape(escape) => write_escape(*escape, out),
        Command::Param(param) => write_param(param, out),
        Command::Control(control) => write_named(&names::CONTROL, &[control.byte], out),
        Command::Text(text) => write_named(&names::TEXT, &[text.byte], out),
        Command::Broken(broken) => write_broken(broken, out),
        Command::Uel => out.extend_from_slice(&names::EXIT),
        Command::PjlLine(line) => write_named(&names::LINE, line.bytes, out),
        Command::Foreign(byte) => write_named(&names::FOREIGN, &[*byte], out),
    }
}

/// Appends the line of a command, with its line feed, or a prefix of it.
fn write_ended(command: &Command, out: &mut Vec<u8>) -> Result<(), AllocError>
    ensures ok { OnOk result
        (out.new.items ≡ out.old.items ++ (written_line (token command.now) ++ (10 ∷ []))) }
    ensures prefix { take (length out.old.items) out.new.items ≡ out.old.items }
{
    write_text(command, out)?;
    out.extend_from_slice(&[LINE_FEED])
}

/// Appends the line of a command, with its line feed.
///
/// The line stands for the command, whatever command it is, and has printable characters of ASCII alone.
///
/// # Errors
///
/// Where memory ran out; nothing is appended then.
pub fn write_line(command: &Command, out: &mut Vec<u8>) -> Result<(), AllocError>
    ensures ok { OnOk result
        (out.new.items ≡ out.old.items ++ (written_line (token command.now) ++ (10 ∷ []))) }
    ensures err { OnErr result (out.new.items ≡ out.old.items) }
    ensures written { IsWritten (token command.now) }
{
    is_written(command);
    let length = out.len();
    let written = write_ended(command, out);
    if written.is_err() {
        out.truncate(length);
    }
    written
}
