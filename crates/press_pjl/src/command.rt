//! The commands of PJL lines (PJL Technical Reference Manual, the PJL commands).

ghost use Rattle.std.specs.Prelude.{◌≡◌};

use crate::named::{Named, find_named};
use press_cmd::{PJL_MARK, pjl};

/// The command of a PJL line that has effect.
///
/// Source: PJL Technical Reference Manual, the PJL commands.
#[derive(Clone, Copy)]
pub(crate) enum Command {
    Job,
    /// EOJ.
    EndOfJob,
    Reset,
    Initialize,
    Set,
    Default,
    Inquire,
    /// DINQUIRE.
    InquireDefault,
    Echo,
    Info,
    /// USTATUS.
    Status,
    /// USTATUSOFF.
    StatusOff,
}

const COMMANDS: [Command; 12] = [
    Command::Job,
    Command::EndOfJob,
    Command::Reset,
    Command::Initialize,
    Command::Set,
    Command::Default,
    Command::Inquire,
    Command::InquireDefault,
    Command::Echo,
    Command::Info,
    Command::Status,
    Command::StatusOff,
];

impl Named for Command {
    ghost use Rattle.press_pjl.specs.Lines.{command_name};

    ghost spelled = { command_name };

    fn name(&self) -> &'static [u8] {
        match self {
            Command::Job => b"JOB",
            Command::EndOfJob => b"EOJ",
            Command::Reset => b"RESET",
            Command::Initialize => b"INITIALIZE",
            Command::Set => b"SET",
            Command::Default => b"DEFAULT",
            Command::Inquire => b"INQUIRE",
            Command::InquireDefault => b"DINQUIRE",
            Command::Echo => b"ECHO",
            Command::Info => b"INFO",
            Command::Status => b"USTATUS",
            Command::StatusOff => b"USTATUSOFF",
        }
    }
}

impl Command {
    ghost use Rattle.press_pjl.specs.Lines.{command_of};

    /// The command of a line, if it has one.
    pub(crate) fn of_line(line: &[u8]) -> Option<Command>
        ensures { result ≡ command_of line.now }
    {
        let (word, _) = pjl::command_of(line);
        if line.starts_with(&PJL_MARK) && pjl::begins_white(pjl::line_text(line)) {
            find_named(&COMMANDS, word)
        } else {
            None
        }
    }
}
