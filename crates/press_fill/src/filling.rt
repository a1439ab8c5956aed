//! Rectangles that are filled (PCL 5 Printer Language Technical Reference Manual, Rectangular Area Fill Graphics).

ghost use Rattle.std.specs.Prelude.{◌≡◌, None, IsOk, OnOk, OnErr};
ghost use Rattle.press_bits.specs.Mark.{painted};
ghost use Rattle.press_pattern.specs.Brush.{brush_of};
ghost use Rattle.press_fill.specs.Fill.{fill_mark, filled};

use crate::paint::fill_rect;
use crate::rect::Rect;
use press_bits::{Bitmap, Mode};
use press_canvas::Canvas;
use press_page::{Orientation, PageEnv};
use press_pattern::{Brush, Pattern, Patterns};
use std::alloc::{AllocError, Global};

/// Fills a rectangle of the frame with a brush. Dots outside the page are dropped.
///
/// # Errors
///
/// Where memory ran out; the page is then as it was.
///
/// Source: PCL 5 Printer Language Technical Reference Manual, Rectangular Area Fill Graphics, and Logical Page Orientation
/// command.
fn fill_with(
    page: &mut Canvas,
    alloc: Global,
    orientation: Orientation,
    rect: Rect,
    brush: &Brush<'_>,
) -> Result<(), AllocError>
    ensures filled { OnOk result (page.new
        ≡ painted page.old (fill_mark orientation page.old rect brush.now.tile brush.now.mode)) }
    ensures unchanged { OnErr result (page.new ≡ page.old) }
{
    let frame = page.frame();
    frame.lie_as(alloc, orientation)?;
    fill_rect(&mut frame.bitmap, rect, &brush.tile, brush.mode)
}

/// Fills a rectangle of the frame with a pattern in a mode: all source dots are black, and the pattern's dots lie in the
/// frame. A pattern that does not exist changes nothing. Dots outside the page are dropped.
///
/// # Errors
///
/// Where memory ran out for a pattern that exists; the page is then as it was.
///
/// Source: PCL 5 Printer Language Technical Reference Manual, Rectangular Area Fill Graphics, and The PCL Print Model.
pub fn fill_canvas(
    page: &mut Canvas,
    environment: &PageEnv,
    patterns: &Patterns,
    area: Rect,
    pattern: Pattern,
    mode: Mode,
) -> Result<(), AllocError>
    ensures filled { OnOk result (page.new ≡ filled environment.now.page_setup.orientation area
        (brush_of patterns.now pattern mode) page.old) }
    // a pattern that does not exist takes no memory
    ensures missing { brush_of patterns.now pattern mode ≡ None → IsOk result }
    ensures unchanged { OnErr result (page.new ≡ page.old) }
{
    let Some(brush) = patterns.brush(pattern, mode) else {
        return Ok(());
    };
    let orientation = environment.page_setup.orientation;
    fill_with(page, patterns.allocator(), orientation, area, &brush)
}

/// Fills a rectangle of the frame of a bitmap, as [`fill_canvas`] fills that of a canvas.
///
/// # Errors
///
/// Where memory ran out for a pattern that exists; the page is then as it was.
///
/// Source: PCL 5 Printer Language Technical Reference Manual, Rectangular Area Fill Graphics, and The PCL Print Model.
pub fn fill(
    page: &mut Bitmap,
    environment: &PageEnv,
    patterns: &Patterns,
    area: Rect,
    pattern: Pattern,
    mode: Mode,
) -> Result<(), AllocError>
    ensures filled { OnOk result (page.new ≡ filled environment.now.page_setup.orientation area
        (brush_of patterns.now pattern mode) page.old) }
    // a pattern that does not exist takes no memory
    ensures missing { brush_of patterns.now pattern mode ≡ None → IsOk result }
    ensures unchanged { OnErr result (page.new ≡ page.old) }
{
    if patterns.brush(pattern, mode).is_none() {
        return Ok(());
    }
    let mut canvas = Canvas::of_page(page.copy()?);
    fill_canvas(&mut canvas, environment, patterns, area, pattern, mode)?;
    *page = canvas.page(patterns.allocator())?;
    Ok(())
}
