//! Frames that are turned into the physical page (PCL 5 Printer Language Technical Reference Manual, the PCL coordinate system
//! and Logical Page Orientation command).

ghost use Rattle.std.specs.Prelude.{◌≡◌, true, IfOk, OnOk};
ghost use Rattle.press_bits.specs.Page.{blank, is_page_size};
ghost use Rattle.press_page.specs.PageSetup.{turned};
ghost use Rattle.press_canvas.specs.Turned.{page_of_frame, upright};

use crate::columns::put_columns;
use crate::lines::{place_at, put_row};
use press_bits::{Bitmap, BlankError, WIDEST_ROW};
use press_page::{Extent, Orientation};
use std::alloc::{AllocError, Global};

/// A white page.
///
/// # Errors
///
/// Where memory ran out.
pub(crate) fn white(alloc: Global, size: Extent) -> Result<Bitmap, AllocError>
    requires { is_page_size size.width size.height ≡ true }
    ensures { IfOk result (λ page. page ≡ blank size.width size.height) }
{
    match Bitmap::blank(alloc, size.width, size.height) {
        Ok(page) => Ok(page),
        Err(BlankError::NoMemory) => Err(AllocError),
        Err(BlankError::BadSize) => unreachable!(),
    }
}

/// The size of the physical page of a frame, and of the frame of a page.
pub(crate) fn turned_size(orientation: Orientation, page: Extent) -> Extent
    requires { is_page_size page.width page.height ≡ true }
    ensures size { result ≡ turned orientation page }
    ensures fits { is_page_size result.width result.height ≡ true }
{
    match orientation {
        Orientation::Portrait | Orientation::ReversePortrait => page,
        Orientation::Landscape | Orientation::ReverseLandscape => Extent {
            width: page.height,
            height: page.width,
        },
    }
}

/// Writes the lines of the frame as lines of a white page, from the first one on or from the last one back, and each so.
fn put_lines(page: &mut Bitmap, frame: &Bitmap, back: bool) -> Result<(), AllocError>
    requires { page.old ≡ blank frame.now.width frame.now.height }
    ensures { OnOk result (page.new ≡ page_of_frame (upright back) frame.now) }
{
    let lines = frame.height();
    let mut room = [0; WIDEST_ROW];
    for y in 0..lines {
        let line = frame.line(place_at(back, lines, y));
        put_row(page, y, line, back, &mut room)?;
    }
    Ok(())
}

/// The physical page of a frame, in memory of its own, which may be that of a page that is no longer needed.
///
/// # Errors
///
/// Where memory ran out.
pub fn turned(
    frame: &Bitmap,
    alloc: Global,
    orientation: Orientation,
    spare: Option<Bitmap>,
) -> Result<Bitmap, AllocError>
    ensures { IfOk result (λ page. page ≡ page_of_frame orientation frame.now) }
{
    let (width, height) = (frame.width(), frame.height());
    let mut page = white(alloc, turned_size(orientation, Extent { width, height }))?;
    if let Some(spare) = spare {
        page.reuse(spare);
    }
    match orientation {
        Orientation::Portrait => put_lines(&mut page, frame, false)?,
        Orientation::Landscape => put_columns(&mut page, frame, alloc, false)?,
        Orientation::ReversePortrait => put_lines(&mut page, frame, true)?,
        Orientation::ReverseLandscape => put_columns(&mut page, frame, alloc, true)?,
    }
    Ok(page)
}
