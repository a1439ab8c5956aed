//! Frames whose columns are lines of the page.

ghost use Rattle.std.specs.Prelude.{◌≡◌, ℕ, ◌+◌, ◌*◌, ◌%◌, ◌<◌, ◌≤◌, false, not, length, OnOk};
ghost use Rattle.press_bits.specs.Page.{black_at, blank};
ghost use Rattle.press_canvas.specs.Strip.{across, place_at, strip_dot, with_column};
ghost use Rattle.press_canvas.specs.Turned.{page_of_frame};

use crate::lines::{place_at, put_row};
use crate::turned_strip::{STRIDE, STRIP, fill_strip};
use press_bits::{Bitmap, WIDEST_ROW, white_bytes};
use std::alloc::{AllocError, Global};

/// Writes a column of the frame, which has so many columns, as a line of the page, where the frame has that column.
fn put_column(
    page: &mut Bitmap,
    strip: &[u8],
    columns: u32,
    column: u32,
    back: bool,
    room: &mut [u8],
) -> Result<(), AllocError>
    requires long { length strip.now ≡ STRIP }
    requires most { page.old.width ≤ 8 * WIDEST_ROW }
    requires room { length room.old ≡ WIDEST_ROW }
    requires white { (x : ℕ) → x < page.old.width → column < columns
        → black_at page.old x (place_at (not back) columns column) ≡ false }
    ensures put { OnOk result (page.new ≡ with_column page.old back columns column
        (λ x. strip_dot strip.now (column % 64) (place_at back page.old.width x))) }
    ensures room { length room.new ≡ WIDEST_ROW }
{
    if column >= columns {
        return Ok(());
    }
    let start = (column % 64) as usize * STRIDE;
    let bits = &strip[start..start + WIDEST_ROW];
    put_row(page, place_at(!back, columns, column), bits, back, room)
}

/// Writes the columns of the frame as lines of a white page, read from the first line on or from the last one back, strip by strip.
fn put_strips(
    page: &mut Bitmap,
    frame: &Bitmap,
    strip: &mut [u8],
    back: bool,
) -> Result<(), AllocError>
    requires page { page.old ≡ blank frame.now.height frame.now.width }
    requires long { length strip.old ≡ STRIP }
    ensures { OnOk result (page.new ≡ page_of_frame (across back) frame.now) }
{
    let columns = frame.width();
    let _lines = frame.height();
    let mut room = [0; WIDEST_ROW];
    for index in 0..columns.div_ceil(64) {
        fill_strip(frame, index, strip);
        for line in 0..64 {
            put_column(page, strip, columns, 64 * index + line, back, &mut room)?;
        }
    }
    Ok(())
}

/// Writes the columns of the frame as lines of a white page, read from the first line on or from the last one back.
pub(crate) fn put_columns(
    page: &mut Bitmap,
    frame: &Bitmap,
    alloc: Global,
    back: bool,
) -> Result<(), AllocError>
    requires { page.old ≡ blank frame.now.height frame.now.width }
    ensures { OnOk result (page.new ≡ page_of_frame (across back) frame.now) }
{
    let mut strip = white_bytes(alloc, STRIP)?;
    put_strips(page, frame, &mut strip, back)
}
