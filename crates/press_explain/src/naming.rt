//! What a command is called, and its value.
ghost use Rattle.std.specs.Prelude.{◌≡◌, ◌++◌, OnOk, codes, option_map};
ghost use Rattle.press_cmd.specs.View.{param_token, token};
ghost use Rattle.press_cmd.specs.Kinds.{kind_of};
ghost use Rattle.press_cmd.specs.Token.{bytes_of, field_of};
ghost use Rattle.press_explain.specs.Remarks.{field_said, in_brackets, integer, meaning_key, named, shown, value_said};
ghost use Rattle.press_explain.specs.Titles.{meanings, text_at, title_of};
ghost use Rattle.press_units.specs.Value.{tenthousandths_of, whole_part};

use crate::saying::append_shown;
use crate::titles::{meaning_of, title_of};
use press_asm::write_kind;
use press_cmd::{Command, Kind, Param, kind, write_command};
use press_trace::appending::append_integer;
use std::alloc::{AllocError, Global};

/// Appends the title of a kind.
fn append_title(alloc: Global, kind: Kind, text: &mut Vec<u8>) -> Result<(), AllocError>
    ensures { OnOk result (text.new.items ≡ text.old.items ++ title_of kind) }
{
    let mut line = Vec::new(alloc);
    write_kind(kind, &mut line)?;
    text.extend_from_slice(title_of(kind, &line).as_bytes())
}

/// Appends a meaning in brackets, if there is one.
fn append_brackets(meaning: Option<&str>, text: &mut Vec<u8>) -> Result<(), AllocError>
    ensures { OnOk result (text.new.items
        ≡ text.old.items ++ in_brackets (option_map (λ one. one.now) meaning.entry)) }
{
    let Some(meaning) = meaning else {
        return Ok(());
    };
    text.extend_from_slice(b" (")?;
    text.extend_from_slice(meaning.as_bytes())?;
    text.extend_from_slice(b")")
}

/// Appends the whole part of the value of a parameter.
fn append_whole(param: &Param, key: &mut Vec<u8>) -> Result<(), AllocError>
    ensures { OnOk result (key.new.items ≡ key.old.items
        ++ integer (whole_part (tenthousandths_of (field_of (param_token param.now))))) }
{
    append_integer(param.value().whole(), key)
}

/// Appends the key under which what the value of a parameter means is listed.
fn append_key(kind: Kind, param: &Param, key: &mut Vec<u8>) -> Result<(), AllocError>
    ensures { OnOk result (key.new.items
        ≡ key.old.items ++ meaning_key kind (field_of (param_token param.now))) }
{
    write_kind(kind, key)?;
    key.push(b' ')?;
    append_whole(param, key)
}

/// Appends what the value of a parameter means, where its whole part has a meaning.
fn append_meaning(
    alloc: Global,
    kind: Kind,
    param: &Param,
    text: &mut Vec<u8>,
) -> Result<(), AllocError>
    ensures { OnOk result (text.new.items ≡ text.old.items ++ in_brackets
        (text_at (meaning_key kind (field_of (param_token param.now))) meanings)) }
{
    let mut key = Vec::new(alloc);
    append_key(kind, param, &mut key)?;
    append_brackets(meaning_of(&key), text)
}

/// Appends the value field of a parameter behind its title, where it has one.
fn append_field(
    alloc: Global,
    kind: Kind,
    param: &Param,
    text: &mut Vec<u8>,
) -> Result<(), AllocError>
    ensures { OnOk result (text.new.items
        ≡ text.old.items ++ field_said kind (field_of (param_token param.now))) }
{
    let field = param.field();
    if field.is_empty() {
        return Ok(());
    }
    text.extend_from_slice(b": ")?;
    text.extend_from_slice(field)?;
    append_meaning(alloc, kind, param, text)
}

/// Appends the bytes of a command behind its title.
fn append_bytes(alloc: Global, command: &Command, text: &mut Vec<u8>) -> Result<(), AllocError>
    ensures { OnOk result (text.new.items
        ≡ text.old.items ++ (codes ": " ++ shown (bytes_of (token command.now)))) }
{
    let mut bytes = Vec::new(alloc);
    write_command(command, &mut bytes)?;
    text.extend_from_slice(b": ")?;
    append_shown(&bytes, text)
}

/// Appends the value of a command behind its title.
fn append_value(
    alloc: Global,
    kind: Kind,
    command: &Command,
    text: &mut Vec<u8>,
) -> Result<(), AllocError>
    requires kind { kind ≡ kind_of (token command.now) }
    ensures { OnOk result (text.new.items ≡ text.old.items ++ value_said (token command.now)) }
{
    match command {
        Command::Param(param) => append_field(alloc, kind, param, text),
        Command::Text(_) | Command::Foreign(_) | Command::Broken(_) | Command::PjlLine(_) => {
            append_bytes(alloc, command, text)
        }
        Command::Escape(_) | Command::Control(_) | Command::Uel => Ok(()),
    }
}

/// Appends what a command is called, and its value.
pub(crate) fn append_named(
    alloc: Global,
    command: &Command,
    text: &mut Vec<u8>,
) -> Result<(), AllocError>
    ensures { OnOk result (text.new.items ≡ text.old.items ++ named (token command.now)) }
{
    let kind = kind(command);
    append_title(alloc, kind, text)?;
    append_value(alloc, kind, command, text)
}
