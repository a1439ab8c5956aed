//! Rectangles of a page that are painted line by line through a tile.

ghost use Rattle.std.specs.Prelude.{◌≡◌, ◌<◌, ◌≤◌, ◌+◌, ◌*◌, ◌⊎◌, pos, true, replicate, OnOk, OnErr};
ghost use Rattle.press_bits.specs.Mark.{IsBlack, IsWhite, painted, row, row_mark};
ghost use Rattle.press_bits.specs.Bands.{AreReady};
ghost use Rattle.press_pattern.specs.Tiling.{IsWhiteTile};
ghost use Rattle.press_fill.specs.Fill.{rect_mark};

use crate::rect::Rect;
use press_bits::{Bands, Bitmap, DotRow, Mode, WIDEST_ROW, cut_length};
use press_pattern::Tile;
use std::alloc::AllocError;

/// Paints so many columns of one line of the page, from x on, through a row of a pattern, which may be solid black.
fn paint_line(
    page: &mut Bands,
    x: u32,
    y: u32,
    columns: u32,
    pattern: DotRow<'_>,
    mode: Mode,
    solid: bool,
)
    requires solid { solid ≡ true → IsBlack (row pattern) }
    requires inside { 0 < columns → x + columns ≤ page.old.page.width }
    requires line { y < page.old.page.height }
    requires narrow { columns ≤ 8 * WIDEST_ROW }
    requires some { 1 ≤ pattern.dots }
    requires ready { IsWhite (row pattern) ⊎ AreReady page.old (pos y) 1 }
    ensures painted { page.new.page ≡ painted page.old.page (row_mark (pos x) (pos y)
        (record { bits = replicate WIDEST_ROW 255; dots = columns }) (row pattern.entry) mode) }
    ensures ready { page.new.ready ≡ page.old.ready }
{
    if solid && columns > 0 {
        page.blacken(x, y, columns);
        return;
    }
    page.ink(x, y, columns, pattern, mode);
}

/// Paints a rectangle of a page, whose lines are ready, or white and stay so, through a tile. Dots outside the
/// page are dropped.
fn paint_rect(page: &mut Bands, rect: Rect, tile: &Tile<'_>, mode: Mode)
    requires ready { IsWhiteTile tile.now
        ⊎ AreReady page.old (pos rect.y) rect.height }
    ensures { page.new.page ≡ painted page.old.page (rect_mark rect tile.now mode) }
{
    let (x, y) = (rect.x, rect.y);
    let columns = cut_length(x, rect.width as usize, page.width());
    let lines = cut_length(y, rect.height as usize, page.height());
    let solid = tile.is_solid_black();
    for line in 0..lines {
        paint_line(page, x, y + line, columns, tile.line(y + line), mode, solid);
    }
}

/// Makes the lines of a rectangle of the page ready that is painted through a tile. Through a white one, what is white stays so, and
/// no line is made.
fn ready_rect(page: &mut Bands, rect: Rect, tile: &Tile<'_>) -> Result<(), AllocError>
    ensures dots { page.new.page ≡ page.old.page }
    ensures ready { OnOk result (IsWhiteTile tile.now
        ⊎ AreReady page.new (pos rect.y) rect.height) }
{
    if tile.is_white() {
        return Ok(());
    }
    page.ready(i64::from(rect.y), rect.height as usize)
}

/// Fills a rectangle of a page through a tile: all lines that it needs are made before the first dot. Dots
/// outside the page are dropped.
///
/// # Errors
///
/// Where memory ran out; the page is then as it was.
pub(crate) fn fill_rect(
    page: &mut Bitmap,
    rect: Rect,
    tile: &Tile<'_>,
    mode: Mode,
) -> Result<(), AllocError>
    ensures filled { OnOk result (page.new ≡ painted page.old (rect_mark rect tile.now mode)) }
    ensures unchanged { OnErr result (page.new ≡ page.old) }
{
    let bands = page.bands();
    ready_rect(bands, rect, tile)?;
    paint_rect(bands, rect, tile, mode);
    Ok(())
}
