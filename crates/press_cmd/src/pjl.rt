//! The words of a PJL line.
//!
//! Source: PJL Technical Reference Manual, the syntax of PJL commands.
ghost use Rattle.std.specs.Prelude.{◌≡◌, ◌↔◌, true, false, IsTrue, MatchOption, position, bytes_eq};
ghost use Rattle.std.specs.List.{before_first, after_first, list_all};
ghost use Rattle.press_cmd.specs.Language.{is_white, is_equals, begins_white, trimmed_prefix, trimmed_end, trimmed, without_end};
ghost use Rattle.press_cmd.specs.Language.{line_text, command_word, command_rest, name_of, assigned_value, raised};
ghost use Rattle.press_cmd.specs.Language.{enters_language};
ghost use Rattle.press_cmd.specs.Grammar.{BeginsLine, IsPjlLine, is_line_byte};

use crate::marks::{ESCAPE, LINE_FEED, LONGEST_LINE, PJL_MARK, differs};

/// Whether the byte is a space or a tab.
fn is_white(byte: u8) -> bool
    ensures { result ≡ is_white byte }
{
    byte == b' ' || byte == b'\t'
}

/// Whether white space stands at the front.
pub fn begins_white(bytes: &[u8]) -> bool
    ensures { result ≡ begins_white bytes.now }
{
    match bytes.split_first() {
        Some((first, _)) => is_white(*first),
        None => false,
    }
}

/// The bytes without the white space at their front.
pub fn trimmed_prefix(bytes: &[u8]) -> &[u8]
    ensures { result.now ≡ trimmed_prefix bytes.now }
{
    let mut start = 0;
    while start < bytes.len() && is_white(bytes[start]) {
        start += 1;
    }
    &bytes[start..]
}

/// The bytes without the white space at their end.
fn trimmed_end(bytes: &[u8]) -> &[u8]
    ensures { result.now ≡ trimmed_end bytes.now }
{
    let mut length = bytes.len();
    while 0 < length && is_white(bytes[length - 1]) {
        length -= 1;
    }
    &bytes[..length]
}

/// The bytes without the white space at both ends.
pub fn trimmed(bytes: &[u8]) -> &[u8]
    ensures { result.now ≡ trimmed bytes.now }
{
    trimmed_end(trimmed_prefix(bytes))
}

/// The bytes without this one at their end, if it stands there.
fn without_end(byte: u8, bytes: &[u8]) -> &[u8]
    ensures { result.now ≡ without_end byte bytes.now }
{
    match bytes.split_last() {
        Some((last, front)) if *last == byte => front,
        _ => bytes,
    }
}

/// Where the first white space stands.
fn white_place(text: &[u8]) -> Option<usize>
    ensures { result ≡ position is_white text.now }
{
    text.iter().position(|byte| is_white(*byte))
}

/// Where the first equals sign stands.
fn equals_place(text: &[u8]) -> Option<usize>
    ensures { result ≡ position is_equals text.now }
{
    text.iter().position(|byte| *byte == b'=')
}

/// What stands before the first white space, and after it; all and nothing where there is none.
fn split_word(text: &[u8]) -> (&[u8], &[u8])
    ensures word { result.0.now ≡ before_first is_white text.now }
    ensures rest { result.1.now ≡ after_first is_white text.now }
{
    match white_place(text) {
        Some(place) => (&text[..place], &text[place + 1..]),
        None => (text, &[]),
    }
}

/// What stands before the first equals sign, and after it; all and nothing where there is none.
pub fn split_name(text: &[u8]) -> (&[u8], &[u8])
    ensures name { result.0.now ≡ before_first is_equals text.now }
    ensures value { result.1.now ≡ after_first is_equals text.now }
{
    match equals_place(text) {
        Some(place) => (&text[..place], &text[place + 1..]),
        None => (text, &[]),
    }
}

/// Whether the bytes are a word, without regard to ASCII case. The word is given in upper case.
pub fn is_word(bytes: &[u8], word: &[u8]) -> bool
    ensures { result ≡ bytes_eq (raised bytes.now) word.now }
{
    if bytes.len() != word.len() {
        return false;
    }
    for (place, byte) in bytes.iter().enumerate() {
        if byte.to_ascii_uppercase() != word[place] {
            return false;
        }
    }
    true
}

/// What stands in a PJL line after `@PJL`, without its line feed and one carriage return before that.
pub fn line_text(line: &[u8]) -> &[u8]
    ensures { result.now ≡ line_text line.now }
{
    let text = without_end(b'\r', without_end(LINE_FEED, line));
    &text[text.len().min(PJL_MARK.len())..]
}

/// The command word of a PJL line, and what stands after it, without the white space byte between them.
pub fn command_of(line: &[u8]) -> (&[u8], &[u8])
    ensures word { result.0.now ≡ command_word line.now }
    ensures rest { result.1.now ≡ command_rest line.now }
{
    split_word(trimmed_prefix(line_text(line)))
}

/// The name before the first equals sign behind the command word, and the value after it, both without white space
/// round them; all and nothing where no equals sign stands.
pub fn assignment_of(line: &[u8]) -> (&[u8], &[u8])
    ensures name { result.0.now ≡ name_of line.now }
    ensures value { result.1.now ≡ assigned_value line.now }
{
    let (_, rest) = command_of(line);
    let (name, value) = split_name(rest);
    (trimmed(name), trimmed(value))
}

/// The language that a PJL line enters, if it is `ENTER LANGUAGE=x` with x not empty.
///
/// Source: PJL Technical Reference Manual, the ENTER command.
pub fn language(line: &[u8]) -> Option<&[u8]>
    ensures { MatchOption result (enters_language line.now ≡ false)
        (λ language. (enters_language line.now ≡ true) × (language.now ≡ assigned_value line.now)) }
{
    let (word, _) = command_of(line);
    if !is_word(word, b"ENTER") || !begins_white(line_text(line)) {
        return None;
    }
    let (name, value) = assignment_of(line);
    let enters = is_word(name, b"LANGUAGE") && !value.is_empty();
    if enters { Some(value) } else { None }
}

/// Whether the bytes begin a PJL line: `@PJL`, and behind it neither a line feed nor an escape character.
pub fn begins_line(bytes: &[u8]) -> bool
    ensures { IsTrue result ↔ BeginsLine bytes.now }
{
    if bytes.len() < PJL_MARK.len() || differs(&PJL_MARK, bytes) {
        return false;
    }
    are_line_bytes(&bytes[PJL_MARK.len()..])
}

/// Whether neither a line feed nor an escape character stands in the bytes.
fn are_line_bytes(bytes: &[u8]) -> bool
    ensures { result ≡ list_all is_line_byte bytes.now }
{
    bytes
        .iter()
        .all(|byte| *byte != LINE_FEED && *byte != ESCAPE)
}

/// Whether the bytes are a PJL line: up to and with its line feed, in at most 4,096 bytes.
pub fn is_line(bytes: &[u8]) -> bool
    ensures { IsTrue result ↔ IsPjlLine bytes.now }
{
    match bytes.split_last() {
        Some((&LINE_FEED, prefix)) if bytes.len() <= LONGEST_LINE => begins_line(prefix),
        _ => false,
    }
}
