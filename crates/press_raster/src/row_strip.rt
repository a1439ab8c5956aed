//! Strips of the frame whose lines have the same dots.

ghost use Rattle.std.specs.Prelude.{◌≡◌, ◌*◌, ◌≤◌, ◌<◌, ◌^◌, length, pos, true, false, Ok, IsOk, OnOk, OnErr};
ghost use Rattle.press_bits.specs.Bands.{AreReady};
ghost use Rattle.press_bits.specs.Mark.{painted, row, row_dot};
ghost use Rattle.press_page.specs.declared.media.Orientation.TheVariants.{Portrait};
ghost use Rattle.press_raster.specs.Across.{AcrossReady, HasRoom, across_of, covered_columns, room_for};
ghost use Rattle.press_raster.specs.Mark.{strip_mark, row_on_frame};
ghost use Rattle.press_raster.specs.Widening.{IsDotSize};

use crate::widening::widen;
use press_bits::{Bands, DotRow, cut_length};
use press_page::{Dot, FrameLines};
use press_pattern::Brush;
use std::alloc::AllocError;

/// Paints a strip of the frame, whose lines have these source dots.
fn paint_lines(frame: &mut Bands, corner: Dot, lines: usize, source: DotRow<'_>, brush: &Brush<'_>)
    requires ready { AreReady frame.old (pos corner.y) lines }
    ensures painted { frame.new.page ≡ painted frame.old.page
        (strip_mark Portrait frame.old.page.width frame.old.page.height corner.x corner.y
        (row source.entry).dots lines (row_dot (row source.entry).bits) brush.now.tile
        brush.now.mode) }
    ensures ready { frame.new.ready ≡ frame.old.ready }
{
    let lines = cut_length(corner.y, lines, frame.height());
    for line in 0..lines {
        let y = corner.y + line;
        let pattern = brush.tile.line(y);
        frame.paint_row(
            i64::from(corner.x),
            i64::from(y),
            source,
            pattern,
            brush.mode,
        );
    }
}

/// How rows of dots lie across the frame of a page.
#[derive(Clone, Copy)]
pub(crate) struct Across {
    /// The column of the frame at which they begin.
    pub(crate) column: u32,
    /// How many columns of the frame they cover.
    pub(crate) columns: u32,
    /// How many dots of the page a dot of a row is wide and high.
    pub(crate) size: u32,
}

impl Across {
    /// How rows of so many dots lie across a frame.
    pub(crate) fn new(frame: &Bands, column: u32, size: u32, dots: usize) -> Self
        requires most { size ≤ 8 }
        requires dots { dots < 2 ^ 29 }
        ensures across { result ≡ across_of frame.now.page.width column size dots }
    {
        let columns = cut_length(column, size as usize * dots, frame.width());
        Across {
            column,
            columns,
            size,
        }
    }

    /// How many bytes of room the dots of a row take that are widened before they are painted.
    pub(crate) fn room_for(self) -> usize
        ensures { result ≡ room_for self }
    {
        if self.size == 1 {
            0
        } else {
            self.columns as usize / 8 + 8
        }
    }

    /// Whether a row on lines of the frame marks nothing: it lies beside the frame, or is white and transparent.
    fn marks_nothing(
        self,
        frame: &Bands,
        lines: FrameLines,
        source: DotRow<'_>,
        brush: &Brush<'_>,
    ) -> bool
        requires columns { self.columns
            ≡ covered_columns frame.now.page.width self.column self.size source.dots }
        ensures unmarked { result ≡ true → frame.now.page ≡ painted frame.now.page
            (row_on_frame self.column lines self.size (row source.entry) brush.now
            frame.now.page) }
        ensures met { result ≡ false → 1 ≤ self.columns }
    {
        if cut_length(lines.first, lines.count as usize, frame.height()) == 0 {
            return true;
        }
        if self.columns == 0 {
            return true;
        }
        !brush.mode.source_opaque && source.is_white()
    }

    /// Makes so many lines of the frame ready, from a line on. Where they are, it takes no memory.
    pub(crate) fn ready(self, frame: &mut Bands, line: u32, lines: u32) -> Result<(), AllocError>
        ensures dots { frame.new.page ≡ frame.old.page }
        ensures ready { OnOk result (AcrossReady self frame.new line lines) }
        ensures takes_none { AcrossReady self frame.old line lines → IsOk result }
        ensures same { AcrossReady self frame.old line lines → frame.new ≡ frame.old }
    {
        if self.columns == 0 || frame.are_ready(i64::from(line), lines as usize) {
            return Ok(());
        }
        frame.ready(i64::from(line), lines as usize)
    }
}

/// Has so many bytes stand there, whichever.
///
/// # Errors
///
/// Where memory ran out.
pub(crate) fn make_room(bytes: &mut Vec<u8>, count: usize) -> Result<(), AllocError>
    ensures { OnOk result (length bytes.new.items ≡ count) }
{
    if bytes.len() != count {
        bytes.resize(count, 0)?;
    }
    Ok(())
}

/// Paints a raster row on lines of the frame, each of its dots so many dots wide. Dots outside the frame are dropped. Takes no
/// memory.
fn paint_wide(
    frame: &mut Bands,
    across: Across,
    lines: FrameLines,
    source: DotRow<'_>,
    brush: &Brush<'_>,
    scratch: &mut Vec<u8>,
)
    requires some { 1 ≤ across.columns }
    requires size { IsDotSize across.size }
    requires columns { across.columns
        ≡ covered_columns frame.old.page.width across.column across.size source.dots }
    requires ready { AcrossReady across frame.old lines.first lines.count }
    requires room { HasRoom across scratch.old.items }
    ensures painted { frame.new.page ≡ painted frame.old.page
        (row_on_frame across.column lines across.size (row source.entry) brush.now frame.old.page) }
    ensures ready { frame.new.ready ≡ frame.old.ready }
    ensures room { HasRoom across scratch.new.items }
{
    let dots = across.columns as usize;
    let corner = Dot {
        x: across.column,
        y: lines.first,
    };
    let (size, lines) = (across.size as usize, lines.count as usize);
    if size == 1 {
        let bits = source.bits;
        paint_lines(frame, corner, lines, DotRow { bits, dots }, brush);
        return;
    }
    widen(source, size, scratch);
    let bits = &*scratch;
    paint_lines(frame, corner, lines, DotRow { bits, dots }, brush);
}

/// Makes the lines of the frame ready that a raster row needs, paints the row on them as `paint_wide` does, and answers whether
/// it may mark the frame. A row beside the frame marks nothing, nor does a white row where white is transparent. Such a row
/// takes no memory.
///
/// # Errors
///
/// Where memory ran out; no dot changes.
pub(crate) fn paint_across(
    frame: &mut Bands,
    across: Across,
    lines: FrameLines,
    source: DotRow<'_>,
    brush: &Brush<'_>,
    scratch: &mut Vec<u8>,
) -> Result<bool, AllocError>
    requires size { IsDotSize across.size }
    requires columns { across.columns
        ≡ covered_columns frame.old.page.width across.column across.size source.dots }
    requires room { HasRoom across scratch.old.items }
    ensures painted { OnOk result (frame.new.page ≡ painted frame.old.page
        (row_on_frame across.column lines across.size (row source.entry) brush.now
        frame.old.page)) }
    ensures unmarked { result ≡ Ok false → frame.new.page ≡ frame.old.page }
    ensures same_page { OnErr result (frame.new.page ≡ frame.old.page) }
    ensures takes_none { AcrossReady across frame.old lines.first lines.count → IsOk result }
    ensures ready { AcrossReady across frame.old lines.first lines.count
        → frame.new.ready ≡ frame.old.ready }
    ensures room { HasRoom across scratch.new.items }
{
    if across.marks_nothing(frame, lines, source, brush) {
        return Ok(false);
    }
    across.ready(frame, lines.first, lines.count)?;
    paint_wide(frame, across, lines, source, brush, scratch);
    Ok(true)
}
