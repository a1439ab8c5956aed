//! Words and numbers of lines, and the lines of texts.
ghost use Rattle.std.specs.Prelude.{◌≡◌, ◌∷◌, ◌++◌, [], map, position, IfOk};
ghost use Rattle.press_words.specs.Lines.{is_space, words_of, number_in, number_word};

use press_cmd::LINE_FEED;
use std::alloc::{AllocError, Global};

/// What a line is answered that asks nothing.
pub const WHAT: &[u8] = b"what?";

/// What stands between two words of a line.
const BETWEEN_WORDS: u8 = b' ';

/// The words of a line: what stands before the first space, between two, and behind the last.
///
/// # Errors
///
/// Where memory ran out.
pub fn words_of<'a>(alloc: Global, line: &'a [u8]) -> Result<Vec<&'a [u8]>, AllocError>
    ensures { IfOk result (λ words. map (λ word. word.now) words.items ≡ words_of line.now) }
{
    line.split(|byte| *byte == BETWEEN_WORDS).collect(alloc)
}

/// Where the first space of a line stands.
pub fn space_place(line: &[u8]) -> Option<usize>
    ensures { result ≡ position is_space line.now }
{
    line.iter().position(|byte| *byte == BETWEEN_WORDS)
}

/// The number that a word is: digits, and at most 18,446,744,073,709,551,615.
pub fn number_in(word: &[u8]) -> Option<u64>
    ensures { result ≡ number_in word.now }
{
    let mut number = 0u64;
    for byte in word {
        if !byte.is_ascii_digit() {
            return None;
        }
        let digit = u64::from(*byte - b'0');
        number = number.checked_mul(10)?.checked_add(digit)?;
    }
    Some(number)
}

/// The number that a word is: one or more digits, and at most 18,446,744,073,709,551,615.
pub fn number_word(word: &[u8]) -> Option<u64>
    ensures { result ≡ number_word word.now }
{
    match word {
        [] => None,
        _ => number_in(word),
    }
}

/// The line of a text: the text, and a line feed.
///
/// # Errors
///
/// Where memory ran out.
pub fn line_of(alloc: Global, text: &[u8]) -> Result<Vec<u8>, AllocError>
    ensures { IfOk result (λ line. line.items ≡ text.now ++ 10 ∷ []) }
{
    let mut line = Vec::new(alloc);
    line.extend_from_slice(text)?;
    line.push(LINE_FEED)?;
    Ok(line)
}
