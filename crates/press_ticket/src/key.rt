//! A key of a JSON object that an answer names.

use std::alloc::{AllocError, Global};
use std::fmt;
use std::marker::Model;

/// How many characters of a key are told at most.
const LONGEST_TOLD: usize = 64;

/// A key of a JSON object. Contracts see its bytes.
#[derive(Debug, Drop)]
pub struct Key {
    name: String,
}

impl Model for Key {
    ghost use Rattle.std.specs.Prelude.{List, ℕ, string_bytes};

    ghost Value = { List ℕ };

    ghost view = { λ key. string_bytes key.name };
}

impl Key {
    ghost use Rattle.std.specs.Prelude.{◌≡◌, IfOk};

    /// The key of this name.
    ///
    /// # Errors
    ///
    /// Where memory ran out.
    pub fn new(alloc: Global, name: &str) -> Result<Self, AllocError>
        ensures { IfOk result (λ key. key ≡ name.now) }
    {
        Ok(Key {
            name: String::from_str(alloc, name)?,
        })
    }

    /// Its name.
    pub fn as_str(&self) -> &str
        ensures { result.now ≡ self.now }
    {
        self.name.as_str()
    }
}

/// A key is told as JSON spells it between quotes, so that none forges a line; of a long one its beginning, and `...`.
///
/// Source: RFC 8259, section 7.
impl fmt::Display for Key {
    fn fmt<W: fmt::Write>(&self, f: &mut fmt::Formatter<W>) -> fmt::Result {
        for (told, character) in self.as_str().chars().enumerate() {
            if told == LONGEST_TOLD {
                return f.write_str("...");
            }
            write_spelled(f, character)?;
        }
        Ok(())
    }
}

/// Writes a character of a string of JSON. Each control character is escaped.
fn write_spelled<W: fmt::Write>(f: &mut fmt::Formatter<W>, character: char) -> fmt::Result {
    match character {
        '"' => f.write_str("\\\""),
        '\\' => f.write_str("\\\\"),
        '\n' => f.write_str("\\n"),
        '\r' => f.write_str("\\r"),
        '\t' => f.write_str("\\t"),
        '\u{8}' => f.write_str("\\b"),
        '\u{c}' => f.write_str("\\f"),
        _ if character.is_control() => write!(f, "\\u{:04x}", u32::from(character)),
        _ => f.write_char(character),
    }
}
