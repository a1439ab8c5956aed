//! Patterns that are repeated along a line, sixty-four dots at a time.
#![tactic(auto)]

ghost use Rattle.std.specs.Prelude.{◌≡◌, ℕ, ◌+◌, ◌%◌, ◌<◌, ◌≤◌, ◌*◌, true, IfSome};
ghost use Rattle.press_bits.specs.Mark.{IsBlack, row, row_dot, repeated};
ghost use Rattle.press_bits.specs.Words.{word_dot};

use crate::dot_bytes::byte_at;
use crate::dot_row::DotRow;
use crate::word::{joined, word_at, word_from};

/// A word that begins with the dots of a pattern, as far as it has so many.
#[inline(always)]
fn front_word(pattern: DotRow<'_>) -> u64
    ensures { (j : ℕ) → j < 64 → j < (row pattern.entry).dots
        → word_dot result j ≡ row_dot (row pattern.entry).bits j }
{
    if pattern.dots > 16 {
        return word_at(pattern.bits, 0);
    }
    u64::from_be_bytes([
        byte_at(pattern.bits, 0),
        byte_at(pattern.bits, 1),
        0,
        0,
        0,
        0,
        0,
        0,
    ])
}

/// A pattern that is repeated along a line, and its first sixty-four dots.
#[derive(Clone, Copy)]
pub(crate) struct Repeats<'p> {
    pub(crate) pattern: DotRow<'p>,
    prefix: u64,
    /// Whether its width divides sixty-four.
    divides: bool,
    ghost some: { 1 ≤ pattern.dots },
    ghost dots: { (j : ℕ) → j < 64 → word_dot prefix j ≡ repeated (row pattern) j },
    ghost turns: { divides ≡ true → 64 % pattern.dots ≡ 0 },
}

impl<'p> Repeats<'p> {
    /// A pattern, repeated.
    #[inline(always)]
    pub(crate) fn of(pattern: DotRow<'p>) -> Self
        requires { 1 ≤ pattern.dots }
        ensures { result.pattern ≡ pattern.entry }
    {
        let mut prefix = front_word(pattern);
        let mut known = pattern.dots;
        while known < 64 {
            prefix = joined(prefix, known, prefix);
            known *= 2;
        }
        Repeats {
            pattern,
            prefix,
            divides: matches!(pattern.dots, 1 | 2 | 4 | 8 | 16 | 32 | 64),
        }
    }

    /// Whether it is known to be black everywhere.
    pub(crate) fn is_black(&self) -> bool
        ensures { result ≡ true → IsBlack (row self.now.pattern) }
    {
        self.divides && self.prefix == u64::MAX
    }

    /// Sixty-four of its dots, from dot `first` on, if they come again each sixty-four dots: where its width divides sixty-four, those of
    /// the front, turned.
    #[inline(always)]
    pub(crate) fn each_word(&self, first: usize) -> Option<u64>
        ensures { IfSome result (λ word. (k j : ℕ) → j < 64
            → word_dot word j ≡ repeated (row self.now.pattern) (first + 64 * k + j)) }
    {
        if self.divides {
            Some(self.prefix.rotate_left((first % 64) as u32))
        } else {
            None
        }
    }

    /// Sixty-four of its dots, from dot `first` on.
    #[inline(always)]
    pub(crate) fn word(&self, first: usize) -> u64
        ensures { (j : ℕ) → j < 64
            → word_dot result j ≡ repeated (row self.now.pattern) (first + j) }
    {
        if let Some(word) = self.each_word(first) {
            return word;
        }
        let phase = first % self.pattern.dots;
        let word = word_from(self.pattern.bits, phase);
        let known = self.pattern.dots - phase;
        if known < 64 {
            joined(word, known, self.prefix)
        } else {
            word
        }
    }
}
