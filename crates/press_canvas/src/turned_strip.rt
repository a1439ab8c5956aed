//! Strips of a frame: sixty-four columns of it as lines.

ghost use Rattle.std.specs.Prelude.{◌≡◌, ℕ, ◌+◌, ◌*◌, ◌/◌, ◌%◌, ◌<◌, nat_eq, if◌then◌else◌, length};
ghost use Rattle.press_bits.specs.Bands.{band_lines};
ghost use Rattle.press_canvas.specs.Block.{block_dot};
ghost use Rattle.press_canvas.specs.Strip.{column_dot, strip_dot, strip_dots};

use crate::block::transpose;
use press_bits::{BAND_LINES, Bitmap, put_word, word_at};

/// The bytes of a line of a strip: those of the widest row, and some more, so that lines below each other stand apart in a cache.
pub(crate) const STRIDE: usize = 2112;

/// The bytes of a strip.
pub(crate) const STRIP: usize = 64 * STRIDE;

/// The block of the sixty-four columns of a strip in the lines of a band.
fn gather(frame: &Bitmap, strip: u32, band: u32, words: &mut [u64])
    requires long { length words.old ≡ 64 }
    requires inside { 64 * strip < frame.now.width }
    requires here { band_lines * band < frame.now.height }
    ensures long { length words.new ≡ 64 }
    ensures dots { (i j : ℕ) → i < 64 → j < 64 → 64 * strip + j < frame.now.width
        → block_dot words.new i j ≡ column_dot frame.now (64 * strip + j) (64 * band + i) }
{
    let bytes = (frame.width() as usize + 7) / 8;
    let _height = frame.height();
    let lines = frame.band(band);
    for line in 0..64 {
        words[line] = word_at(lines, line * bytes + 8 * strip as usize);
    }
}

/// Writes a block into a strip, at a word of each line.
fn put_block(strip: &mut [u8], word: usize, words: &[u64])
    requires long { length strip.old ≡ STRIP }
    requires inside { word < 256 }
    requires block { length words.now ≡ 64 }
    ensures long { length strip.new ≡ STRIP }
    ensures dots { (j x : ℕ) → j < 64 → x < strip_dots → strip_dot strip.new j x
        ≡ (if nat_eq (x / 64) word then block_dot words.now j (x % 64)
        else strip_dot strip.old j x) }
{
    for line in 0..64 {
        put_word(strip, STRIDE * line + 8 * word, words[line]);
    }
}

/// Writes the columns of a strip of the frame as its lines.
pub(crate) fn fill_strip(frame: &Bitmap, index: u32, strip: &mut [u8])
    requires long { length strip.old ≡ STRIP }
    requires inside { 64 * index < frame.now.width }
    ensures long { length strip.new ≡ STRIP }
    ensures dots { (j x : ℕ) → j < 64 → x < frame.now.height → 64 * index + j < frame.now.width
        → strip_dot strip.new j x ≡ column_dot frame.now (64 * index + j) x }
{
    let mut words = [0; 64];
    for band in 0..frame.height().div_ceil(BAND_LINES) {
        gather(frame, index, band, &mut words);
        transpose(&mut words);
        put_block(strip, band as usize, &words);
    }
}
