//! Words as they are told to somebody who has a terminal (this profile).
use press_ticket::Key;
use std::alloc::{AllocError, Global};

/// Whether a word has a control character.
fn has_control(word: &str) -> bool {
    word.contains(char::is_control)
}

/// Whether one of the words has a control character.
pub(crate) fn has_controls(words: &[&str]) -> bool {
    words.iter().any(|word| has_control(word))
}

/// A word as it is told, which is how a key of a ticket is: each control character is escaped, and of a long word it is the beginning.
///
/// # Errors
///
/// Where memory ran out.
pub(crate) fn told_word(alloc: Global, word: &str) -> Result<String, AllocError> {
    let key = Key::new(alloc, word)?;
    format!(in alloc; "{key}")
}

/// Words, of which those that have a control character are as they are told.
///
/// # Errors
///
/// Where memory ran out.
pub(crate) fn told_words(alloc: Global, words: &[&str]) -> Result<Vec<String>, AllocError> {
    let mut told = Vec::new(alloc);
    for word in words {
        let as_told = if has_control(word) {
            told_word(alloc, word)?
        } else {
            String::from_str(alloc, word)?
        };
        told.push(as_told)?;
    }
    Ok(told)
}
