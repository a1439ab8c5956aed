//! Forms judged, and their commands' bytes.
ghost use Rattle.std.specs.Prelude.{◌≡◌, ◌↔◌, ◌++◌, ◌⊎◌, OnOk, IfOk, IfErr, IsTrue};
ghost use Rattle.std.specs.Str.{IsUtf8};
ghost use Rattle.hex.specs.Hex.{decode_of};
ghost use Rattle.press_cmd.specs.Token.{bytes_of};
ghost use Rattle.press_cmd.specs.View.{token};
ghost use Rattle.press_asm.specs.declared.fault.LineFault.TheVariants.{Data, NoMemory};
ghost use Rattle.press_asm.specs.Form.{BrokenForm, LineForm};
ghost use Rattle.press_asm.specs.Judged.{NoBytes, HasFormFault, HasLineFault, FormAdds, LineAdds};
ghost use Rattle.press_asm.specs.View.{form_seen, param_form};

use crate::fault::LineFault;
use crate::form::{Form, form_of};
use crate::word::Word;
use hex::FromHexError;
use press_cmd::pjl::is_line;
use press_cmd::{Command, Param, PjlLine, data_count, write_command};
use press_units::is_field;
use std::alloc::Global;
use std::str;

/// The bytes of digits.
fn decoded(alloc: Global, digits: &[u8]) -> Result<Vec<u8>, LineFault>
    ensures ok { IfOk result (λ bytes. decode_of digits.now ≡ Ok bytes.items) }
    ensures err { IfErr result (λ fault.
        (fault ≡ NoMemory) ⊎ ((fault ≡ Data) × NoBytes digits.now)) }
{
    match hex::decode(alloc, digits) {
        Ok(bytes) => Ok(bytes),
        Err(FromHexError::OutOfMemory) => Err(LineFault::NoMemory),
        Err(_) => Err(LineFault::Data),
    }
}

/// Appends the bytes of a command.
fn add_command(command: &Command, out: &mut Vec<u8>) -> Result<(), LineFault>
    ensures ok { OnOk result (out.new.items ≡ out.old.items ++ bytes_of (token command.now)) }
    ensures err { IfErr result (λ fault. fault ≡ NoMemory) }
{
    write_command(command, out)?;
    Ok(())
}

/// Appends a parameter, if its field is a value field and its data as long as its value says.
fn add_param(alloc: Global, word: &Word, digits: &[u8], out: &mut Vec<u8>) -> Result<(), LineFault>
    ensures ok { OnOk result (FormAdds
        (param_form word.now digits.now) out.old.items out.new.items) }
    ensures err { IfErr result (HasFormFault (param_form word.now digits.now)) }
{
    if !is_field(word.field) {
        return Err(LineFault::Value);
    }
    let payload = decoded(alloc, digits)?;
    if payload.len() != data_count(word.character, word.group, word.field, word.end) {
        return Err(LineFault::Data);
    }
    let param = Param::new(word.character, word.group, word.field, word.end, &payload);
    add_command(&Command::Param(param), out)
}

/// Appends bytes that broke.
fn add_broken(alloc: Global, digits: &[u8], out: &mut Vec<u8>) -> Result<(), LineFault>
    ensures ok { OnOk result (FormAdds (BrokenForm digits.now) out.old.items out.new.items) }
    ensures err { IfErr result (HasFormFault (BrokenForm digits.now)) }
{
    let bytes = decoded(alloc, digits)?;
    out.extend_from_slice(&bytes)?;
    Ok(())
}

/// Appends a PJL line, if it is one.
fn add_line(alloc: Global, digits: &[u8], out: &mut Vec<u8>) -> Result<(), LineFault>
    ensures ok { OnOk result (FormAdds (LineForm digits.now) out.old.items out.new.items) }
    ensures err { IfErr result (HasFormFault (LineForm digits.now)) }
{
    let bytes = decoded(alloc, digits)?;
    if !is_line(&bytes) {
        return Err(LineFault::Data);
    }
    add_command(&Command::PjlLine(PjlLine::new(&bytes)), out)
}

/// Appends the bytes of what a form stands for.
fn add_form(alloc: Global, form: &Form, out: &mut Vec<u8>) -> Result<(), LineFault>
    ensures ok { OnOk result (FormAdds (form_seen form.now) out.old.items out.new.items) }
    ensures err { IfErr result (HasFormFault (form_seen form.now)) }
{
    match form {
        Form::Blank => Ok(()),
        Form::Uel => add_command(&Command::Uel, out),
        Form::Escape(escape) => add_command(&Command::Escape(*escape), out),
        Form::Param(word, digits) => add_param(alloc, word, digits, out),
        Form::Control(control) => add_command(&Command::Control(*control), out),
        Form::Text(text) => add_command(&Command::Text(*text), out),
        Form::Foreign(byte) => add_command(&Command::Foreign(*byte), out),
        Form::Broken(digits) => add_broken(alloc, digits, out),
        Form::PjlLine(digits) => add_line(alloc, digits, out),
    }
}

/// Whether the bytes are text: UTF-8.
fn is_text(line: &[u8]) -> bool
    ensures { IsTrue result ↔ IsUtf8 line.now }
{
    line.is_ascii() || str::from_utf8(line).is_ok()
}

/// Appends the bytes of what a line stands for. What is no UTF-8 has no form.
pub fn add_text_line(alloc: Global, line: &[u8], out: &mut Vec<u8>) -> Result<(), LineFault>
    ensures ok { OnOk result (LineAdds line.now out.old.items out.new.items) }
    ensures err { IfErr result (HasLineFault line.now) }
{
    if !is_text(line) {
        return Err(LineFault::Line);
    }
    match form_of(line) {
        Some(form) => add_form(alloc, &form, out),
        None => Err(LineFault::Line),
    }
}
