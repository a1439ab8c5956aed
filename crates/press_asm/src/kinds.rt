//! Kinds of commands as lines of assembly text, without fields and data.
ghost use Rattle.std.specs.Prelude.{◌≡◌, ◌++◌, length, take, OnOk, OnErr};
ghost use Rattle.press_asm.specs.Kinds.{kind_in, kind_line, param_kind_line};

use crate::form::{Form, form_of};
use crate::names;
use crate::write::write_named;
use press_cmd::Kind;
use std::alloc::AllocError;

/// The kind that a line names: an escape sequence, a parameter without field and data, a control byte, or a universal exit.
pub fn kind_named(line: &[u8]) -> Option<Kind>
    ensures { result ≡ kind_in line.now }
{
    match form_of(line)? {
        Form::Uel => Some(Kind::Uel),
        Form::Escape(escape) => Some(Kind::Escape(escape.byte)),
        Form::Param(word, []) if word.field.is_empty() => Some(Kind::Param {
            character: word.character,
            group: word.group,
            end: word.end,
        }),
        Form::Control(control) => Some(Kind::Control(control.byte)),
        _ => None,
    }
}

/// Appends the line of the kind of a parameter.
fn write_param_kind(
    character: u8,
    group: Option<u8>,
    end: u8,
    out: &mut Vec<u8>,
) -> Result<(), AllocError>
    ensures ok { OnOk result
        (out.new.items ≡ out.old.items ++ param_kind_line character group end) }
    ensures prefix { take (length out.old.items) out.new.items ≡ out.old.items }
{
    out.extend_from_slice(&names::PARAM)?;
    match group {
        Some(group) => out.extend_from_slice(&[character, group, end]),
        None => out.extend_from_slice(&[character, end]),
    }
}

/// Appends the line of a kind, or a prefix of it.
fn write_whole_kind(kind: Kind, out: &mut Vec<u8>) -> Result<(), AllocError>
    ensures ok { OnOk result (out.new.items ≡ out.old.items ++ kind_line kind) }
    ensures prefix { take (length out.old.items) out.new.items ≡ out.old.items }
{
    match kind {
        Kind::Escape(byte) => {
            out.extend_from_slice(&names::ESCAPE)?;
            out.extend_from_slice(&[byte])
        }
        Kind::Param {
            character,
            group,
            end,
        } => write_param_kind(character, group, end, out),
        Kind::Control(byte) => write_named(&names::CONTROL, &[byte], out),
        Kind::Text(_) => out.extend_from_slice(&names::TEXT[..3]),
        Kind::Broken => out.extend_from_slice(&names::BROKEN[..3]),
        Kind::Uel => out.extend_from_slice(&names::EXIT),
        Kind::PjlLine => out.extend_from_slice(&names::LINE[..3]),
        Kind::Foreign(_) => out.extend_from_slice(&names::FOREIGN[..3]),
    }
}

/// Appends the line of a kind: that of its commands, without fields and data. Of text, of bytes that broke, of a PJL line and of
/// another language it is the name alone. No line feed is appended.
///
/// # Errors
///
/// Where memory ran out; nothing is appended then.
pub fn write_kind(kind: Kind, out: &mut Vec<u8>) -> Result<(), AllocError>
    ensures ok { OnOk result (out.new.items ≡ out.old.items ++ kind_line kind) }
    ensures err { OnErr result (out.new.items ≡ out.old.items) }
{
    let length = out.len();
    let written = write_whole_kind(kind, out);
    if written.is_err() {
        out.truncate(length);
    }
    written
}
