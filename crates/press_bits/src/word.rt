//! Sixty-four dots in a number: the most significant bit is the leftmost dot, and 1 is black (PCL 5 Printer Language Technical
//! Reference Manual, Raster Graphics, the bits of a raster row).
#![tactic(auto)]

ghost use Rattle.std.specs.Prelude.{◌≡◌, ℕ, ◌+◌, ◌-◌, ◌*◌, ◌/◌, ◌^◌, ◌<◌, ◌≤◌, ◌⊎◌, length, count_ones};
ghost use Rattle.std.specs.List.{count_by, range_with_len};
ghost use Rattle.press_bits.specs.Mark.{row_dot};
ghost use Rattle.press_bits.specs.DotRows.{mixed_dot};
ghost use Rattle.press_bits.specs.Words.{word_dot};

use crate::dot_bytes::byte_at;
use crate::mode::Mode;

/// The sixty-four dots of the eight bytes from one on, all of which stand: no bound is asked.
#[inline(always)]
pub(crate) fn whole_word_at(bits: &[u8], index: usize) -> u64
    requires { index + 8 ≤ length bits.now }
    ensures dots { (j : ℕ) → j < 64 → word_dot result j ≡ row_dot bits.now (8 * index + j) }
    ensures count { count_by (row_dot bits.now) (range_with_len 0 (8 * (index + 8)))
        ≡ count_by (row_dot bits.now) (range_with_len 0 (8 * index)) + count_ones result }
{
    let mut bytes = [0; 8];
    bytes.copy_from_slice(&bits[index..index + 8]);
    u64::from_be_bytes(bytes)
}

/// The sixty-four dots of the eight bytes from one on, white past the last byte.
#[inline(always)]
pub fn word_at(bits: &[u8], index: usize) -> u64
    requires { index + 8 < 2 ^ 64 }
    ensures dots { (j : ℕ) → j < 64 → word_dot result j ≡ row_dot bits.now (8 * index + j) }
    ensures count { count_by (row_dot bits.now) (range_with_len 0 (8 * (index + 8)))
        ≡ count_by (row_dot bits.now) (range_with_len 0 (8 * index)) + count_ones result }
{
    if index + 8 <= bits.len() {
        whole_word_at(bits, index)
    } else {
        u64::from_be_bytes([
            byte_at(bits, index),
            byte_at(bits, index + 1),
            byte_at(bits, index + 2),
            byte_at(bits, index + 3),
            byte_at(bits, index + 4),
            byte_at(bits, index + 5),
            byte_at(bits, index + 6),
            byte_at(bits, index + 7),
        ])
    }
}

/// Sixty-four dots of the bytes from dot `first` on, white past the last byte.
#[inline(always)]
pub fn word_from(bits: &[u8], first: usize) -> u64
    ensures { (j : ℕ) → j < 64 → word_dot result j ≡ row_dot bits.now (first + j) }
{
    let left = word_at(bits, first / 8);
    let right = byte_at(bits, first / 8 + 8) as u64;
    (left << (first % 8)) | (right >> (8 - first % 8))
}

/// Sixty-four dots of the nine bytes from one on, all of which stand: from dot `shift` of the first byte on.
#[inline(always)]
pub(crate) fn whole_word_from(bits: &[u8], index: usize, shift: usize) -> u64
    requires low { shift < 8 }
    requires room { index + 9 ≤ length bits.now }
    ensures { (j : ℕ) → j < 64 → word_dot result j ≡ row_dot bits.now (8 * index + shift + j) }
{
    let left = whole_word_at(bits, index);
    let right = bits[index + 8] as u64;
    (left << shift) | (right >> (8 - shift))
}

/// Puts sixty-four dots into the eight bytes from one on. Swapped as a number, and put one by one, they are one store.
#[inline(always)]
pub fn put_word(rows: &mut [u8], index: usize, word: u64)
    requires { index + 8 ≤ length rows.old }
    ensures here { (j : ℕ) → j < 64 → row_dot rows.new (8 * index + j) ≡ word_dot word j }
    ensures elsewhere { (p : ℕ) → (p < 8 * index) ⊎ (8 * index + 64 ≤ p)
        → row_dot rows.new p ≡ row_dot rows.old p }
{
    let bytes = word.swap_bytes().to_le_bytes();
    for place in 0..8 {
        rows[index + place] = bytes[place];
    }
}

/// The first `count` dots of one word, and then dots of another from its first on.
#[inline(always)]
pub(crate) fn joined(prefix: u64, count: usize, rest: u64) -> u64
    requires some { 1 ≤ count }
    requires few { count < 64 }
    ensures prefix { (j : ℕ) → j < count → word_dot result j ≡ word_dot prefix j }
    ensures rest { (j : ℕ) → count ≤ j → j < 64 → word_dot result j ≡ word_dot rest (j - count) }
{
    let past = 64 - count;
    ((prefix >> past) << past) | (rest >> count)
}

/// Sixty-four dots that are all black, or all white.
#[inline(always)]
pub(crate) fn alike(black: bool) -> u64
    ensures { (j : ℕ) → j < 64 → word_dot result j ≡ black }
{
    if black { u64::MAX } else { 0 }
}

/// Sixty-four dots of a page after as many source dots were painted on them, through as many pattern dots, where the mask is
/// black.
#[inline(always)]
pub(crate) fn mixed_word(before: u64, source: u64, pattern: u64, mask: u64, mode: Mode) -> u64
    ensures { (j : ℕ) → j < 64 → word_dot result j ≡ mixed_dot (word_dot mask j) mode
        (word_dot source j) (word_dot pattern j) (word_dot before j) }
{
    let black = mask & (source & pattern);
    if !mode.whitens() {
        return before | black;
    }
    let source_white = alike(mode.source_opaque) & !source;
    let pattern_white = alike(mode.pattern_opaque) & (source & !pattern);
    let white = mask & (source_white | pattern_white);
    (before & !white) | black
}
