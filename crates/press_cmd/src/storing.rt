//! Commands beside the number of their variant and their bytes, from which they are lent again (PCL 5 Printer Language
//! Technical Reference Manual, the syntax of escape sequences).

ghost use Rattle.std.specs.Prelude.{◌≡◌, ◌≤◌, length, position};
ghost use Rattle.std.specs.List.{position_or_len};
ghost use Rattle.press_cmd.specs.Token.{bytes_of, param_of};
ghost use Rattle.press_cmd.specs.View.{token, param_token, broken_token};
ghost use Rattle.press_cmd.specs.Stored.{variant_of, is_past_field, field_split, ending, param_from, token_from, IsSound, longest_command};

use crate::command::Command;
use crate::marks::UEL;
use crate::payload::{Broken, ControlByte, EscapeByte, Param, PjlLine, TextByte};

/// The number of the command's variant.
pub(crate) fn variant_number(command: &Command) -> u8
    ensures { result ≡ variant_of (token command.now) }
{
    match command {
        Command::Escape(_) => 0,
        Command::Param(_) => 1,
        Command::Control(_) => 2,
        Command::Text(_) => 3,
        Command::Broken(_) => 4,
        Command::Uel => 5,
        Command::PjlLine(_) => 6,
        Command::Foreign(_) => 7,
    }
}

/// How many bytes the command has.
pub fn bytes_count(command: &Command) -> usize
    ensures count { result ≡ length (bytes_of (token command.now)) }
    ensures bound { result ≤ longest_command }
{
    count(command)
}

/// How many bytes the command has.
fn count(command: &Command) -> usize
    ensures { result ≡ length (bytes_of (token command.now)) }
{
    match command {
        Command::Escape(_) => 2,
        Command::Param(param) => param_count(param),
        Command::Control(_) | Command::Text(_) | Command::Foreign(_) => 1,
        Command::Broken(broken) => broken_count(broken),
        Command::Uel => UEL.len(),
        Command::PjlLine(line) => line.bytes.len(),
    }
}

/// How many bytes the parameter has as a sequence of its own.
fn param_count(param: &Param) -> usize
    ensures { result ≡ length (bytes_of (param_token param.now)) }
{
    let head = if param.group.is_some() { 3 } else { 2 };
    head + param.field.len() + 1 + param.payload.len()
}

/// How many bytes stand in what broke, with the beginning of its sequence.
fn broken_count(broken: &Broken) -> usize
    ensures { result ≡ length (bytes_of (broken_token broken.now)) }
{
    let head = if broken.sequence.is_some() { 3 } else { 0 };
    head + broken.bytes.len()
}

/// The command with this number of its variant and these bytes, which it lends: the bytes of a record
/// ([`crate::grammar_laws::stored_reads_back`]).
pub(crate) fn stored(variant: u8, bytes: &[u8]) -> Command<'_>
    requires bytes { bytes_of (token_from variant bytes.now) ≡ bytes.now }
    requires sound { IsSound (token_from variant bytes.now) }
    ensures { token result ≡ token_from variant bytes.now }
{
    match variant {
        0 => Command::Escape(EscapeByte { byte: bytes[1] }),
        1 => Command::Param(stored_param(bytes)),
        2 => Command::Control(ControlByte { byte: bytes[0] }),
        3 => Command::Text(TextByte { byte: bytes[0] }),
        4 => Command::Broken(Broken {
            sequence: None,
            bytes,
        }),
        5 => Command::Uel,
        6 => Command::PjlLine(PjlLine { bytes }),
        _ => Command::Foreign(bytes[0]),
    }
}

/// The parameter with these bytes.
fn stored_param(bytes: &[u8]) -> Param<'_>
    requires bytes { bytes_of (param_from bytes.now) ≡ bytes.now }
    requires sound { IsSound (param_from bytes.now) }
    ensures { param_token result ≡ param_from bytes.now }
{
    if 96 <= bytes[2] {
        ended_param(bytes[1], Some(bytes[2]), &bytes[3..])
    } else {
        ended_param(bytes[1], None, &bytes[2..])
    }
}

/// The parameter with this character and this group, and with the value field, the termination character and the data
/// that stand one after another.
fn ended_param<'a>(character: u8, group: Option<u8>, bytes: &'a [u8]) -> Param<'a>
    requires { IsSound (ending (param_of character group) (field_split bytes.now)) }
    ensures { param_token result
        ≡ ending (param_of character group) (field_split bytes.now) }
{
    let length = field_length(bytes);
    Param {
        character,
        group,
        end: bytes[length],
        field: &bytes[..length],
        payload: &bytes[length + 1..],
    }
}

/// How many bytes of a value field stand in front.
fn field_length(bytes: &[u8]) -> usize
    ensures { result ≡ position_or_len is_past_field bytes.now }
{
    end_place(bytes).unwrap_or(bytes.len())
}

/// The first place where a byte stands that is none of a value field.
fn end_place(bytes: &[u8]) -> Option<usize>
    ensures { result ≡ position is_past_field bytes.now }
{
    bytes.iter().position(|byte| 64 <= *byte)
}
