//! Rows of dots that are read backwards, and lines of a page that are written.

ghost use Rattle.std.specs.Prelude.{◌≡◌, ℕ, ◌+◌, ◌-◌, ◌*◌, ◌<◌, ◌≤◌, false, length, OnOk};
ghost use Rattle.press_bits.specs.Mark.{row_dot};
ghost use Rattle.press_bits.specs.Page.{black_at};
ghost use Rattle.press_bits.specs.Words.{word_dot};
ghost use Rattle.press_canvas.specs.Strip.{place_at};
ghost use Rattle.press_canvas.specs.Turned.{with_line};

use crate::block::reversed;
use press_bits::{Bitmap, DotRow, MAX_SIDE, OPAQUE, WIDEST_ROW, put_word, word_from};
use std::alloc::AllocError;

/// Sixty-four dots of so many, from the last one back, after so many others.
fn word_back(bits: &[u8], dots: usize, after: usize) -> u64
    requires { after < dots }
    ensures { (i : ℕ) → i < 64 → after + i < dots
        → word_dot result i ≡ row_dot bits.now (dots - 1 - (after + i)) }
{
    let left = dots - after;
    let word = if left < 64 {
        word_from(bits, 0) >> (64 - left)
    } else {
        word_from(bits, left - 64)
    };
    reversed(word)
}

/// So many dots of a row, from the last one back.
fn reverse(bits: &[u8], dots: usize, out: &mut [u8])
    requires dots { dots ≤ MAX_SIDE }
    requires long { length out.old ≡ WIDEST_ROW }
    ensures long { length out.new ≡ WIDEST_ROW }
    ensures dots { (x : ℕ) → x < dots → row_dot out.new x ≡ row_dot bits.now (dots - 1 - x) }
{
    for word in 0..dots.div_ceil(64) {
        put_word(out, 8 * word, word_back(bits, dots, 64 * word));
    }
}

/// The one of so many places that stands at a place, from the first on or from the last one back.
pub(crate) fn place_at(back: bool, places: u32, place: u32) -> u32
    requires { place < places }
    ensures is { result ≡ place_at back places place }
    ensures inside { result < places }
{
    if back { places - 1 - place } else { place }
}

/// Writes a line of a page that is white there.
///
/// # Errors
///
/// Where memory ran out.
fn put_line(page: &mut Bitmap, y: u32, bits: &[u8]) -> Result<(), AllocError>
    requires enough { page.old.width ≤ 8 * length bits.now }
    requires white { (x : ℕ) → x < page.old.width → y < page.old.height
        → black_at page.old x y ≡ false }
    ensures { OnOk result (page.new ≡ with_line page.old y (row_dot bits.now)) }
{
    let dots = page.width() as usize;
    let bits = &bits[..dots.div_ceil(8)];
    let row = DotRow { bits, dots };
    page.paint_row(0, i64::from(y), row, DotRow::black(), OPAQUE)
}

/// Writes a row as a line of a page that is white there, from its first dot on or from its last one back; there is room for it. A
/// white one takes no memory.
///
/// # Errors
///
/// Where memory ran out.
pub(crate) fn put_row(
    page: &mut Bitmap,
    y: u32,
    bits: &[u8],
    back: bool,
    room: &mut [u8],
) -> Result<(), AllocError>
    requires enough { page.old.width ≤ 8 * length bits.now }
    requires room { length room.old ≡ WIDEST_ROW }
    requires white { (x : ℕ) → x < page.old.width → y < page.old.height
        → black_at page.old x y ≡ false }
    ensures put { OnOk result (page.new ≡ with_line page.old y
        (λ x. row_dot bits.now (place_at back page.old.width x))) }
    ensures room { length room.new ≡ WIDEST_ROW }
{
    let dots = page.width() as usize;
    let front = &bits[..dots.div_ceil(8)];
    if (DotRow { bits: front, dots }).is_white() {
        return Ok(());
    }
    if !back {
        return put_line(page, y, bits);
    }
    reverse(bits, dots, room);
    put_line(page, y, room)
}
