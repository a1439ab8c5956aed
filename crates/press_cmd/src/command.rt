//! Commands that lend their bytes (PCL 5 Printer Language Technical Reference Manual, the syntax of escape sequences;
//! PJL Technical Reference Manual, the universal exit and PJL commands).

ghost use Rattle.std.specs.Prelude.{◌≡◌, ◌∷◌, ◌++◌, length, take, option_to_list, OnOk, OnErr};
ghost use Rattle.press_units.specs.Value.{tenthousandths_of, is_signed};
ghost use Rattle.press_cmd.specs.Token.{escape_byte, bytes_of, field_of, data_of, line_of};
ghost use Rattle.press_cmd.specs.Split.{IsReadBack};
ghost use Rattle.press_cmd.specs.Kinds.{kind_of};
ghost use Rattle.press_cmd.specs.View.{token, param_token, broken_token};

use crate::marks::{ESCAPE, UEL};
use crate::payload::{Broken, ControlByte, EscapeByte, Param, PjlLine, TextByte};
use crate::variant::Kind;
use press_units::{Value, read_value};
use std::alloc::AllocError;

/// A command of a stream: one of its split into commands, or one that its rest stands for where it ends.
///
/// Source: PCL 5 Printer Language Technical Reference Manual, the syntax of escape sequences; PJL Technical Reference
/// Manual, the universal exit and the syntax of PJL commands. Broken and foreign bytes are this profile's.
#[derive(Clone, Copy, Debug)]
pub enum Command<'a> {
    /// A two-character escape sequence.
    Escape(EscapeByte),
    /// A parameter of a parameterized escape sequence: its parameterized character, group character, value field and
    /// parameter or termination character, with its data.
    Param(Param<'a>),
    /// A control byte.
    Control(ControlByte),
    /// A text byte.
    Text(TextByte),
    /// Bytes that begin a sequence or a line which does not go on.
    Broken(Broken<'a>),
    /// The universal exit, `ESC%-12345X`.
    Uel,
    /// A PJL line with its line feed.
    PjlLine(PjlLine<'a>),
    /// A byte of another language than PCL.
    Foreign(u8),
}

/// The kind of a command.
pub fn kind(command: &Command) -> Kind
    ensures { result ≡ kind_of (token command.now) }
{
    match command {
        Command::Escape(escape) => Kind::Escape(escape.byte),
        Command::Param(param) => Kind::Param {
            character: param.character(),
            group: param.group(),
            end: param.end(),
        },
        Command::Control(control) => Kind::Control(control.byte),
        Command::Text(text) => Kind::Text(text.byte),
        Command::Broken(_) => Kind::Broken,
        Command::Uel => Kind::Uel,
        Command::PjlLine(_) => Kind::PjlLine,
        Command::Foreign(byte) => Kind::Foreign(*byte),
    }
}

/// Appends the command's bytes.
///
/// # Errors
///
/// Where memory ran out; the vector is then as it was.
pub fn write_command(command: &Command, out: &mut Vec<u8>) -> Result<(), AllocError>
    ensures ok { OnOk result (out.new.items ≡ out.old.items ++ bytes_of (token command.now)) }
    ensures err { OnErr result (out.new.items ≡ out.old.items) }
    // These bytes, whatever follows them, are read as the command, with all of them used.
    ensures read_back { IsReadBack (token command.now) }
{
    let start = out.len();
    let written = append(command, out);
    if written.is_err() {
        out.truncate(start);
    }
    written
}

/// Appends the command's bytes. An error leaves the vector longer, with its old front.
fn append(command: &Command, out: &mut Vec<u8>) -> Result<(), AllocError>
    ensures ok { OnOk result (out.new.items ≡ out.old.items ++ bytes_of (token command.now)) }
    ensures prefix { take (length out.old.items) out.new.items ≡ out.old.items }
{
    match command {
        Command::Escape(escape) => out.extend_from_slice(&[ESCAPE, escape.byte]),
        Command::Param(param) => append_param(param, out),
        Command::Control(control) => out.extend_from_slice(&[control.byte]),
        Command::Text(text) => out.extend_from_slice(&[text.byte]),
        Command::Broken(broken) => append_broken(broken, out),
        Command::Uel => out.extend_from_slice(&UEL),
        Command::PjlLine(line) => out.extend_from_slice(line.bytes),
        Command::Foreign(byte) => out.extend_from_slice(&[*byte]),
    }
}

/// Appends the parameter as a sequence of its own. An error leaves the vector longer, with its old front.
fn append_param(param: &Param, out: &mut Vec<u8>) -> Result<(), AllocError>
    ensures ok { OnOk result (out.new.items ≡ out.old.items ++ bytes_of (param_token param.now)) }
    ensures prefix { take (length out.old.items) out.new.items ≡ out.old.items }
{
    append_head(param, out)?;
    out.extend_from_slice(param.field)?;
    out.push(param.end)?;
    out.extend_from_slice(param.payload)
}

/// Appends what stands in front of the parameter's field. An error leaves the vector as it was.
fn append_head(param: &Param, out: &mut Vec<u8>) -> Result<(), AllocError>
    ensures ok { OnOk result (out.new.items
        ≡ out.old.items ++ (escape_byte ∷ param.now.character ∷ option_to_list param.now.group)) }
    ensures err { OnErr result (out.new.items ≡ out.old.items) }
{
    match param.group {
        Some(group) => out.extend_from_slice(&[ESCAPE, param.character, group]),
        None => out.extend_from_slice(&[ESCAPE, param.character]),
    }
}

/// Appends the bytes, with the beginning of their sequence. An error leaves the vector longer, with its old front.
pub fn append_broken(broken: &Broken, out: &mut Vec<u8>) -> Result<(), AllocError>
    ensures ok { OnOk result (out.new.items ≡ out.old.items ++ bytes_of (broken_token broken.now)) }
    ensures prefix { take (length out.old.items) out.new.items ≡ out.old.items }
{
    if let Some((character, group)) = broken.sequence {
        out.extend_from_slice(&[ESCAPE, character, group])?;
    }
    out.extend_from_slice(broken.bytes)
}

impl<'a> Command<'a> {
    /// The number of a parameter's value field; of any other command, that of an empty field.
    pub fn value(&self) -> Value
        ensures value { result.tenthousandths ≡ tenthousandths_of (field_of (token self.now)) }
        ensures signed { result.signed ≡ is_signed (field_of (token self.now)) }
    {
        match self {
            Command::Param(param) => param.value(),
            _ => read_value(&[]),
        }
    }

    /// The data of a parameter; of any other command, nothing.
    pub fn data(&self) -> &'a [u8]
        ensures { result.now ≡ data_of (token self.now) }
    {
        match self {
            Command::Param(param) => param.data(),
            _ => &[],
        }
    }

    /// The bytes of a PJL line; of any other command, nothing.
    pub fn line(&self) -> &'a [u8]
        ensures { result.now ≡ line_of (token self.now) }
    {
        match self {
            Command::PjlLine(line) => line.bytes,
            _ => &[],
        }
    }
}
