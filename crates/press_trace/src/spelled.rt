//! A text of JSON in which no character stands that a terminal takes as a control.

ghost use Rattle.std.specs.Prelude.{◌≡◌, ◌<◌, ◌≤◌, ◌++◌, drop, length, IfOk, OnOk};
ghost use Rattle.std.specs.List.{list_all};
ghost use Rattle.press_trace.specs.Spelled.{escape_of, is_plain, is_control, spelled_byte, spelled};

use std::alloc::{AllocError, Global};

/// The delete character, U+007F.
const DELETE: u8 = 0x7F;

/// The first byte in UTF-8 of the characters from U+0080 to U+00BF.
const BEFORE_CONTROL: u8 = 0xC2;

/// Whether a byte stands for itself, whatever comes behind it.
fn is_plain(byte: u8) -> bool
    ensures { result ≡ is_plain byte }
{
    byte < DELETE
}

/// Whether all these bytes stand for themselves.
fn are_plain(bytes: &[u8]) -> bool
    ensures { result ≡ list_all is_plain bytes.now }
{
    bytes.iter().all(|byte| is_plain(*byte))
}

/// Whether two bytes are a character from U+0080 to U+009F in UTF-8.
fn is_control(first: u8, second: u8) -> bool
    ensures { result ≡ is_control first second }
{
    first == BEFORE_CONTROL && 0x80 <= second && second <= 0x9F
}

/// Appends the escape of the character of this number.
fn append_escape(alloc: Global, number: u8, text: &mut Vec<u8>) -> Result<(), AllocError>
    ensures { OnOk result (text.new.items ≡ text.old.items ++ escape_of number) }
{
    let digits = hex::encode(alloc, [number])?;
    text.extend_from_slice(b"\\u00")?;
    text.extend_from_slice(digits.as_bytes())?;
    Ok(())
}

/// Appends a byte, or the escape of the delete character.
fn append_byte(alloc: Global, byte: u8, text: &mut Vec<u8>) -> Result<(), AllocError>
    ensures { OnOk result (text.new.items ≡ text.old.items ++ spelled_byte byte) }
{
    if byte == DELETE {
        return append_escape(alloc, byte, text);
    }
    text.push(byte)?;
    Ok(())
}

/// Appends what stands at the front of a text, spelled, and answers how many bytes that is of it.
fn append_front(alloc: Global, rest: &[u8], text: &mut Vec<u8>) -> Result<usize, AllocError>
    requires { 0 < length rest.now }
    ensures some { IfOk result (λ count. 0 < count) }
    ensures within { IfOk result (λ count. count ≤ length rest.now) }
    ensures spelled { IfOk result (λ count.
        text.new.items ++ spelled (drop count rest.now) ≡ text.old.items ++ spelled rest.now) }
{
    if rest.len() > 1 && is_control(rest[0], rest[1]) {
        append_escape(alloc, rest[1], text)?;
        return Ok(2);
    }
    append_byte(alloc, rest[0], text)?;
    Ok(1)
}

/// A text of JSON in UTF-8, with the escape of JSON for each character from U+007F to U+009F.
pub(crate) fn spelled(alloc: Global, text: Vec<u8>) -> Result<Vec<u8>, AllocError>
    ensures { IfOk result (λ bytes. bytes.items ≡ spelled text.items) }
{
    if are_plain(&text) {
        return Ok(text);
    }
    let mut bytes = Vec::new(alloc);
    let mut rest = text.as_slice();
    while !rest.is_empty() {
        let count = append_front(alloc, rest, &mut bytes)?;
        rest = &rest[count..];
    }
    Ok(bytes)
}
