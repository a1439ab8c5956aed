//! Values of JSON, written to the end of a text.

ghost use Rattle.std.specs.Prelude.{◌≡◌, ◌++◌, ◌∷◌, ◌<◌, [], OnOk, slice_index};
ghost use Rattle.std.specs.List.{list_all};
ghost use Rattle.hex.specs.Hex.{encode_upper, upper_digits};
ghost use Rattle.json.specs.Print.{quoted};
ghost use Rattle.serde_json.specs.Data.{boolean, number, unsigned};
ghost use Rattle.serde_json.specs.Find.{of_integer};
ghost use Rattle.serde_json.specs.Written.{comma_if, compact_text};
ghost use Rattle.press_trace.specs.Slots.{key_text};
ghost use Rattle.press_trace.specs.Texts.{text_of};
ghost use Rattle.press_trace.specs.Unescaped.{is_unescaped};

use itoa::Buffer;
use serde_json::Value;
use std::alloc::{AllocError, Global};

/// Appends a whole number.
pub fn append_number(count: u64, text: &mut Vec<u8>) -> Result<(), AllocError>
    ensures { OnOk result (text.new.items
        ≡ text.old.items ++ compact_text (number (unsigned count))) }
{
    let mut digits = Buffer::new();
    text.extend_from_slice(digits.format(count).as_bytes())
}

/// Appends an integer.
pub fn append_integer(distance: i64, text: &mut Vec<u8>) -> Result<(), AllocError>
    ensures { OnOk result (text.new.items
        ≡ text.old.items ++ compact_text (number (of_integer distance))) }
{
    let mut digits = Buffer::new();
    text.extend_from_slice(digits.format(distance).as_bytes())
}

/// Appends a flag.
pub(crate) fn append_flag(flag: bool, text: &mut Vec<u8>) -> Result<(), AllocError>
    ensures { OnOk result (text.new.items ≡ text.old.items ++ compact_text (boolean flag)) }
{
    text.extend_from_slice(if flag { b"true" } else { b"false" })
}

/// Whether a byte stands for itself in a text of JSON.
fn is_unescaped(byte: u8) -> bool
    ensures { result ≡ is_unescaped byte }
{
    32 <= byte && byte < 127 && byte != b'"' && byte != b'\\'
}

/// Whether all these bytes stand for themselves.
fn are_unescaped(bytes: &[u8]) -> bool
    ensures { result ≡ list_all is_unescaped bytes.now }
{
    bytes.iter().all(|byte| is_unescaped(*byte))
}

/// Appends bytes as a text: each byte as the character of its number.
pub(crate) fn append_text(alloc: Global, bytes: &[u8], text: &mut Vec<u8>) -> Result<(), AllocError>
    ensures { OnOk result (text.new.items ≡ text.old.items ++ quoted (text_of bytes.now)) }
{
    if !are_unescaped(bytes) {
        return append_escaped(alloc, bytes, text);
    }
    text.push(b'"')?;
    text.extend_from_slice(bytes)?;
    text.push(b'"')?;
    Ok(())
}

/// Appends bytes as a text in which some characters are escaped.
fn append_escaped(alloc: Global, bytes: &[u8], text: &mut Vec<u8>) -> Result<(), AllocError>
    ensures { OnOk result (text.new.items ≡ text.old.items ++ quoted (text_of bytes.now)) }
{
    let mut characters = String::new(alloc);
    for byte in bytes {
        characters.push(char::from(*byte))?;
    }
    let quoted = Value::String(characters).to_vec(alloc)?;
    text.extend_from_slice(&quoted)
}

/// The digit of a number below 16, in upper case.
fn digit_of(four: u8) -> u8
    requires { four < 16 }
    ensures { result ≡ slice_index upper_digits four }
{
    b"0123456789ABCDEF"[usize::from(four)]
}

/// Appends the two digits of a byte.
fn append_digits(byte: u8, text: &mut Vec<u8>) -> Result<(), AllocError>
    ensures { OnOk result (text.new.items ≡ text.old.items ++ encode_upper (byte ∷ [])) }
{
    text.push(digit_of(byte / 16))?;
    text.push(digit_of(byte % 16))?;
    Ok(())
}

/// Appends bytes in hexadecimal, as a text.
pub(crate) fn append_hexadecimal(bytes: &[u8], text: &mut Vec<u8>) -> Result<(), AllocError>
    ensures { OnOk result (text.new.items
        ≡ text.old.items ++ quoted (encode_upper bytes.now)) }
{
    text.push(b'"')?;
    for byte in bytes {
        append_digits(*byte, text)?;
    }
    text.push(b'"')?;
    Ok(())
}

/// Appends a comma where something stands before.
pub(crate) fn append_comma(later: bool, text: &mut Vec<u8>) -> Result<(), AllocError>
    ensures { OnOk result (text.new.items ≡ text.old.items ++ comma_if later) }
{
    if later {
        text.push(b',')?;
    }
    Ok(())
}

/// Appends the key of a member, behind a comma where something stands before it.
pub(crate) fn append_key(
    alloc: Global,
    later: bool,
    key: &str,
    text: &mut Vec<u8>,
) -> Result<(), AllocError>
    requires { text_of key.now ≡ key.now }
    ensures { OnOk result (text.new.items ≡ text.old.items ++ key_text later key.now) }
{
    append_comma(later, text)?;
    append_text(alloc, key.as_bytes(), text)?;
    text.push(b':')?;
    Ok(())
}
