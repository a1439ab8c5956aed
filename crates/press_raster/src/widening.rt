//! Rows of dots each of which is widened to so many.

ghost use Rattle.std.specs.Prelude.{◌≡◌, ℕ, ◌+◌, ◌-◌, ◌*◌, ◌/◌, ◌^◌, ◌<◌, ◌≤◌, length};
ghost use Rattle.press_bits.specs.Mark.{byte_dot, row, row_dot};
ghost use Rattle.press_bits.specs.Words.{word_dot};
ghost use Rattle.press_raster.specs.Widening.{AreFours, IsWide};

use press_bits::{DotRow, put_word};

/// Each four dots, each of them twice.
static TWICE: [u64; 16] = [
    0x00, 0x03, 0x0C, 0x0F, 0x30, 0x33, 0x3C, 0x3F, 0xC0, 0xC3, 0xCC, 0xCF, 0xF0, 0xF3, 0xFC, 0xFF,
];

/// Each four dots, each of them three times.
static THRICE: [u64; 16] = [
    0x000, 0x007, 0x038, 0x03F, 0x1C0, 0x1C7, 0x1F8, 0x1FF, 0xE00, 0xE07, 0xE38, 0xE3F, 0xFC0,
    0xFC7, 0xFF8, 0xFFF,
];

/// Each four dots, each of them four times.
static FOUR_TIMES: [u64; 16] = [
    0x0000, 0x000F, 0x00F0, 0x00FF, 0x0F00, 0x0F0F, 0x0FF0, 0x0FFF, 0xF000, 0xF00F, 0xF0F0, 0xF0FF,
    0xFF00, 0xFF0F, 0xFFF0, 0xFFFF,
];

/// Each four dots, each of them six times.
static SIX_TIMES: [u64; 16] = [
    0x00_0000, 0x00_003F, 0x00_0FC0, 0x00_0FFF, 0x03_F000, 0x03_F03F, 0x03_FFC0, 0x03_FFFF,
    0xFC_0000, 0xFC_003F, 0xFC_0FC0, 0xFC_0FFF, 0xFF_F000, 0xFF_F03F, 0xFF_FFC0, 0xFF_FFFF,
];

/// Each four dots, each of them eight times.
static EIGHT_TIMES: [u64; 16] = [
    0x00000000, 0x000000FF, 0x0000FF00, 0x0000FFFF, 0x00FF0000, 0x00FF00FF, 0x00FFFF00, 0x00FFFFFF,
    0xFF000000, 0xFF0000FF, 0xFF00FF00, 0xFF00FFFF, 0xFFFF0000, 0xFFFF00FF, 0xFFFFFF00, 0xFFFFFFFF,
];

/// The eight dots of a byte, each so many times, from the most significant bit of a word on.
#[inline(always)]
fn widened(fours: &[u64; 16], byte: u8, size: usize) -> u64
    requires wide { IsWide size }
    requires fours { AreFours size fours.now }
    ensures { (j : ℕ) → j < 8 * size → word_dot result j ≡ byte_dot byte (j / size) }
{
    let prefix = fours[byte as usize / 16] << (64 - 4 * size);
    prefix | (fours[byte as usize % 16] << (64 - 8 * size))
}

/// Widens a row by a table of four dots, a byte of it after another, each to a word whose rear the next one covers.
#[inline(always)]
fn widen_by(fours: &[u64; 16], source: DotRow<'_>, size: usize, out: &mut [u8])
    requires wide { IsWide size }
    requires fours { AreFours size fours.now }
    requires room { 8 ≤ length out.old }
    requires small { length out.old < 2 ^ 32 }
    ensures { (i : ℕ) → i < 8 * (length out.old - 7)
        → row_dot out.new i ≡ row_dot (row source.entry).bits (i / size) }
{
    for byte in 0..(out.len() - 8) / size + 1 {
        let wide = widened(fours, source.eight_of(byte), size);
        put_word(out, size * byte, wide);
    }
}

/// Widens a row, each of its dots to so many, as far as there is room, of which the last seven bytes are left over.
pub(crate) fn widen(source: DotRow<'_>, size: usize, out: &mut [u8])
    requires wide { IsWide size }
    requires room { 8 ≤ length out.old }
    requires small { length out.old < 2 ^ 32 }
    ensures { (i : ℕ) → i < 8 * (length out.old - 7)
        → row_dot out.new i ≡ row_dot (row source.entry).bits (i / size) }
{
    match size {
        2 => widen_by(&TWICE, source, 2, out),
        3 => widen_by(&THRICE, source, 3, out),
        4 => widen_by(&FOUR_TIMES, source, 4, out),
        6 => widen_by(&SIX_TIMES, source, 6, out),
        _ => widen_by(&EIGHT_TIMES, source, 8, out),
    }
}
