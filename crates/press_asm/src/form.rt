//! The forms of lines.
ghost use Rattle.std.specs.Prelude.{◌≡◌, ◌++◌, option_map, option_to_list, position};
ghost use Rattle.std.specs.Option.{ForSome};
ghost use Rattle.std.specs.List.{list_all};
ghost use Rattle.hex.specs.Hex.{is_hex_digit};
ghost use Rattle.press_cmd.specs.Grammar.{IsGroup};
ghost use Rattle.press_asm.specs.Form.{is_space};
ghost use Rattle.press_asm.specs.Reading.{are_digits, byte_of, escape_in, control_form, text_form, param_in, word_in};
ghost use Rattle.press_asm.specs.Reading.{split_group, named_in, form_of, is_blank};
ghost use Rattle.press_asm.specs.View.{form_seen};

use crate::names;
use crate::word::Word;
use hex::FromHex;
use press_cmd::{
    ControlByte, EscapeByte, TextByte, is_character, is_control, is_end, is_escape_end, is_group,
    is_text,
};

/// What a line says, before its field and its digits are judged.
#[derive(Clone, Copy)]
pub enum Form<'a> {
    Blank,
    Uel,
    Escape(EscapeByte),
    Param(Word<'a>, &'a [u8]),
    Control(ControlByte),
    Text(TextByte),
    Foreign(u8),
    Broken(&'a [u8]),
    PjlLine(&'a [u8]),
}

/// Whether the byte is a hexadecimal digit, in either case.
fn is_digit(byte: u8) -> bool
    ensures { result ≡ is_hex_digit byte }
{
    matches!(byte, b'0'..=b'9' | b'A'..=b'F' | b'a'..=b'f')
}

/// Whether all bytes are digits.
fn all_digits(text: &[u8]) -> bool
    ensures { result ≡ list_all is_hex_digit text.now }
{
    text.iter().all(|byte| is_digit(*byte))
}

/// Whether there are one or more digits and nothing else.
fn are_digits(text: &[u8]) -> bool
    ensures { result ≡ are_digits text.now }
{
    match text {
        [] => false,
        _ => all_digits(text),
    }
}

/// The byte of two digits.
fn byte_of(digits: &[u8]) -> Option<u8>
    ensures { result ≡ byte_of digits.now }
{
    let [byte] = <[u8; 1] as FromHex>::from_hex(digits).ok()?;
    Some(byte)
}

/// The form of `ctl`.
fn control_in<'a>(byte: u8) -> Option<Form<'a>>
    ensures { option_map form_seen result ≡ control_form byte }
{
    if is_control(byte) {
        Some(Form::Control(ControlByte::new(byte)))
    } else {
        None
    }
}

/// The form of `txt`.
fn text_in<'a>(byte: u8) -> Option<Form<'a>>
    ensures { option_map form_seen result ≡ text_form byte }
{
    if is_text(byte) {
        Some(Form::Text(TextByte::new(byte)))
    } else {
        None
    }
}

/// The form of `esc`.
fn escape_in(text: &[u8]) -> Option<Form<'_>>
    ensures { option_map form_seen result ≡ escape_in text.now }
{
    match text {
        [byte] if is_escape_end(*byte) => Some(Form::Escape(EscapeByte::new(*byte))),
        _ => None,
    }
}

/// The group character at the front, if one stands there, and what follows it.
fn split_group(text: &[u8]) -> (Option<u8>, &[u8])
    ensures group { result.0 ≡ (split_group text.now).0 }
    ensures rest { result.1.now ≡ (split_group text.now).1 }
    ensures class { ForSome result.0 IsGroup }
    ensures spelled { text.now ≡ option_to_list result.0 ++ result.1.now }
{
    match text {
        [byte, rest @ ..] if is_group(*byte) => (Some(*byte), rest),
        _ => (None, text),
    }
}

/// The parameter of a word, with these digits.
fn word_in<'a>(word: &'a [u8], digits: &'a [u8]) -> Option<Form<'a>>
    ensures { option_map form_seen result ≡ word_in word.now digits.now }
{
    let [character, rest @ ..] = word else {
        return None;
    };
    let (group, rest) = split_group(rest);
    let (end, field) = rest.split_last()?;
    if word == b"%-12345X".as_slice() || !is_character(*character) || !is_end(*end) {
        return None;
    }
    let parts = Word {
        character: *character,
        group,
        field,
        end: *end,
    };
    Some(Form::Param(parts, digits))
}

/// Where the first space stands.
fn space_place(text: &[u8]) -> Option<usize>
    ensures { result ≡ position is_space text.now }
{
    text.iter().position(|byte| *byte == b' ')
}

/// The form of `par`.
fn param_in(text: &[u8]) -> Option<Form<'_>>
    ensures { option_map form_seen result ≡ param_in text.now }
{
    match space_place(text) {
        Some(place) if are_digits(&text[place + 1..]) => {
            word_in(&text[..place], &text[place + 1..])
        }
        Some(_) => None,
        None => word_in(text, &[]),
    }
}

/// The form of a line that begins with the name.
fn named_in<'a>(name: &[u8], rest: &'a [u8]) -> Option<Form<'a>>
    ensures { option_map form_seen result ≡ named_in name.now rest.now }
{
    if name == names::ESCAPE.as_slice() {
        escape_in(rest)
    } else if name == names::PARAM.as_slice() {
        param_in(rest)
    } else if name == names::CONTROL.as_slice() {
        control_in(byte_of(rest)?)
    } else if name == names::TEXT.as_slice() {
        text_in(byte_of(rest)?)
    } else if name == names::FOREIGN.as_slice() {
        Some(Form::Foreign(byte_of(rest)?))
    } else if name == names::BROKEN.as_slice() {
        are_digits(rest).then_some(Form::Broken(rest))
    } else if name == names::LINE.as_slice() {
        are_digits(rest).then_some(Form::PjlLine(rest))
    } else {
        None
    }
}

/// Whether the line stands for nothing: it is empty, or begins with a semicolon.
fn is_blank(line: &[u8]) -> bool
    ensures { result ≡ is_blank line.now }
{
    matches!(line, [] | [b';', ..])
}

/// The form of a line, if it has one.
pub fn form_of(line: &[u8]) -> Option<Form<'_>>
    ensures { option_map form_seen result ≡ form_of line.now }
{
    if is_blank(line) {
        return Some(Form::Blank);
    }
    if line == names::EXIT.as_slice() {
        return Some(Form::Uel);
    }
    let (name, rest) = line.split_at(line.len().min(4));
    named_in(name, rest)
}
