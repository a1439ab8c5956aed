//! Rows of raster graphics that are drawn one below the other (PCL 5 Printer Language Technical Reference Manual, Raster
//! Graphics, Transfer Raster Data by Row and Set Compression Method commands).

ghost use Rattle.std.specs.Prelude.{◌≡◌, ◌≤◌, ◌<◌, ◌-◌, ◌^◌, ℕ, false, true, length, min, pos, replicate, Some, Ok, IsOk, OnOk, OnErr};
ghost use Rattle.press_bits.specs.Lines.{bytes_per_line};
ghost use Rattle.press_bits.specs.Page.{longest_side};
ghost use Rattle.press_cursor.specs.Cursor.{moved_y};
ghost use Rattle.press_page.specs.Environment.{logical_page_of};
ghost use Rattle.press_rows.specs.Blocks.{count_rows};
ghost use Rattle.press_rows.specs.Row.{fitted};
ghost use Rattle.press_raster.specs.Across.{HasRoom};
ghost use Rattle.press_raster.specs.Drawing.{IsSetUp, RowsReady, drawn_by, last_line, layout, lines_at, lines_of_row};
ghost use Rattle.press_raster.specs.Drawing.{one_row_on, setup_of};
ghost use Rattle.press_raster.specs.Graphics.{is_below_height};
ghost use Rattle.press_raster.specs.Rows.{with_item, with_items};
ghost use Rattle.press_raster.specs.Settings.{items_of, row_height};

use crate::raster::{MOST_ROWS, RasterPosition, RowData, RowPlace, is_within};
use crate::row_strip::{Across, make_room, paint_across};
use crate::settings::{RasterSettings, RowCoding};
use press_bits::{Bands, DotRow, MAX_SIDE, line_bytes};
use press_cursor::Cursor;
use press_page::{FrameLines, PageEnv};
use press_pattern::Brush;
use press_rows::{Blocks, Method, Run, decode};
use press_units::Pos;
use std::alloc::{AllocError, Global};
use std::mem;

/// What the rows of a transfer have in common.
#[derive(Clone, Copy)]
pub(crate) struct RowSetup {
    environment: PageEnv,
    settings: RasterSettings,
    across: Across,
    /// How many dots a row has.
    dots: usize,
}

impl RowSetup {
    /// What rows that begin at a distance from the left edge of the logical page have in common.
    pub(crate) fn new(
        frame: &Bands,
        environment: &PageEnv,
        settings: RasterSettings,
        left: u32,
    ) -> Self
        ensures setup { result ≡ setup_of frame.now.page.width environment.now settings left }
        ensures small { result.dots < 2 ^ 29 }
    {
        let page_setup = environment.page_setup;
        let place = RowPlace {
            environment: *environment,
            y: 0,
        };
        let size = settings.resolution.dot_size(page_setup.resolution);
        let dots = settings.dots_of_row(page_setup.logical_width(), left);
        let column = place.corner(left).x;
        RowSetup {
            environment: *environment,
            settings,
            across: Across::new(frame, column, size, dots),
            dots,
        }
    }

    /// The lines of the frame that a row at the cursor covers.
    fn lines(&self, cursor: &Cursor) -> FrameLines
        ensures { result ≡ lines_at self.now cursor.now.y }
    {
        let place = RowPlace {
            environment: self.environment,
            y: cursor.y(),
        };
        place.corner(0).lines(self.across.size)
    }

    /// The line of the frame at the lower edge of the logical page.
    fn last_line(&self) -> u32
        ensures { result ≡ last_line self.now.environment }
    {
        let dot = u32::from(self.environment.page_setup.resolution.positions_per_dot());
        self.environment.logical_page().length / dot
    }

    /// How many lines of the frame a row takes down the page.
    fn lines_of_row(&self) -> usize
        ensures lines { result ≡ lines_of_row self.now }
        ensures most { result ≤ 8 }
    {
        let dot = usize::from(self.environment.page_setup.resolution.positions_per_dot());
        (usize::from(self.settings.resolution.row_height()) + (dot - 1)) / dot
    }

    /// Makes the lines ready that so many rows cross, the first of them at the cursor. More rows than a page has lines count as so
    /// many.
    ///
    /// # Errors
    ///
    /// Where memory ran out; no dot changes.
    fn ready(&self, frame: &mut Bands, cursor: &Cursor, rows: usize) -> Result<(), AllocError>
        requires most { rows ≤ longest_side }
        ensures dots { frame.new.page ≡ frame.old.page }
        ensures ready { OnOk result ((count : ℕ) → rows ≡ min longest_side count
            → RowsReady self.now (layout frame.new) cursor.now.y count) }
    {
        let line = self.lines(cursor).first;
        let first = line.min(self.last_line());
        let lines = (line - first) as usize + rows * self.lines_of_row();
        let lines = lines.min(frame.height() as usize) as u32;
        self.across.ready(frame, first, lines)
    }

    /// Moves the cursor a row down, and says whether it moved.
    fn move_down(&self, cursor: &mut Cursor) -> bool
        ensures down { cursor.new ≡ moved_y (pos (row_height self.now.settings.resolution)) true
            (logical_page_of self.now.environment) cursor.old }
        ensures same { result ≡ false → cursor.new ≡ cursor.old }
    {
        let before = cursor.y();
        let height = i64::from(self.settings.resolution.row_height());
        cursor.move_y(Pos(height), true, self.environment.logical_page());
        cursor.y() != before
    }
}

/// Raster graphics whose rows are drawn, and room for a row. The room is kept from one transfer to the next.
#[derive(Drop)]
pub(crate) struct Drawing {
    pub(crate) position: RasterPosition,
    pub(crate) seed: Vec<u8>,
    row: Vec<u8>,
    /// Room for the dots of a row along the frame, where they are widened before they are painted.
    scratch: Vec<u8>,
}

impl Drawing {
    /// Where nothing is drawn yet, without room.
    pub(crate) fn new(alloc: Global) -> Self {
        Drawing {
            position: RasterPosition { left: 0, rows: 0 },
            seed: Vec::new(alloc),
            row: Vec::new(alloc),
            scratch: Vec::new(alloc),
        }
    }

    /// Begins where raster graphics stands so, with this seed row, and makes room for rows.
    ///
    /// # Errors
    ///
    /// Where memory ran out.
    pub(crate) fn begin(
        &mut self,
        position: RasterPosition,
        seed: &[u8],
        setup: &RowSetup,
    ) -> Result<(), AllocError>
        requires { setup.now.dots < 2 ^ 32 }
        ensures position { OnOk result (self.new.position ≡ position) }
        ensures seed { OnOk result (self.new.seed.items
            ≡ fitted (bytes_per_line setup.now.dots) seed.now) }
        ensures row { OnOk result (length self.new.row.items ≡ bytes_per_line setup.now.dots) }
        ensures room { OnOk result (HasRoom setup.now.across self.new.scratch.items) }
    {
        let width = line_bytes(setup.dots);
        make_room(&mut self.row, width)?;
        make_room(&mut self.seed, width)?;
        make_room(&mut self.scratch, setup.across.room_for())?;
        decode(Method::Unencoded, seed, &self.row, &mut self.seed);
        self.position = position;
        Ok(())
    }

    /// The row that was decoded is the seed row now, and counts. Says whether that changes something.
    fn take_row(&mut self) -> bool
        requires { length self.old.seed.items ≡ length self.old.row.items }
        ensures seed { self.new.seed.items ≡ self.old.row.items }
        ensures position { self.new.position ≡ one_row_on self.old.position }
        ensures row { length self.new.row.items ≡ length self.old.row.items }
        ensures scratch { self.new.scratch ≡ self.old.scratch }
        ensures same_position { result ≡ false → self.new.position ≡ self.old.position }
        ensures same_seed { result ≡ false → self.new.seed.items ≡ self.old.seed.items }
    {
        let rows = self.position.rows.saturating_add(1).min(MOST_ROWS);
        if rows == self.position.rows && self.row == self.seed {
            return false;
        }
        self.position.rows = rows;
        mem::swap(&mut self.seed, &mut self.row);
        true
    }

    /// Whether the next row has effect.
    fn takes_row(&self, setup: &RowSetup) -> bool
        ensures { result
            ≡ is_below_height setup.now.settings.source_height self.now.position.rows }
    {
        is_within(setup.settings.source_height, self.position.rows)
    }

    /// Draws a row, if it has effect, makes the lines ready that it needs, and says whether the same row again may change something.
    ///
    /// # Errors
    ///
    /// Where memory ran out; no dot changes, and the cursor stays.
    fn draw_row(
        &mut self,
        frame: &mut Bands,
        cursor: &mut Cursor,
        setup: &RowSetup,
        brush: &Brush<'_>,
        row: RowData<'_>,
    ) -> Result<bool, AllocError>
        requires { IsSetUp setup.now (layout frame.old) self.old }
        ensures item { OnOk result (drawn_by setup.now self.new frame.new cursor.new
            ≡ with_item setup.now.environment setup.now.settings brush.now
            (drawn_by setup.now self.old frame.old cursor.old)
            (Some (row.entry.method, row.entry.bytes.now))) }
        ensures same { result ≡ Ok false
            → drawn_by setup.now self.new frame.new cursor.new
            ≡ drawn_by setup.now self.old frame.old cursor.old }
        ensures same_page { OnErr result (frame.new.page ≡ frame.old.page) }
        ensures same_cursor { OnErr result (cursor.new ≡ cursor.old) }
        ensures takes_none { RowsReady setup.now (layout frame.old) cursor.old.y 1 → IsOk result }
        ensures layout { RowsReady setup.now (layout frame.old) cursor.old.y 1
            → layout frame.new ≡ layout frame.old }
        ensures setup { IsSetUp setup.now (layout frame.old) self.new }
    {
        if !self.takes_row(setup) {
            return Ok(false);
        }
        decode(row.method, row.bytes, &self.seed, &mut self.row);
        let bits = &self.row;
        let dots = setup.dots;
        let source = DotRow { bits, dots };
        let lines = setup.lines(cursor);
        let painted = paint_across(frame, setup.across, lines, source, brush, &mut self.scratch)?;
        let moved = setup.move_down(cursor);
        let taken = self.take_row();
        Ok(painted | moved | taken)
    }

    /// Draws so many rows with the same data, whose lines are ready. Where a row changes nothing more, neither does one behind it.
    fn draw_run(
        &mut self,
        frame: &mut Bands,
        cursor: &mut Cursor,
        setup: &RowSetup,
        brush: &Brush<'_>,
        row: RowData<'_>,
        count: usize,
    ) -> Result<(), AllocError>
        requires setup { IsSetUp setup.now (layout frame.old) self.old }
        requires ready { RowsReady setup.now (layout frame.old) cursor.old.y count }
        ensures items { drawn_by setup.now self.new frame.new cursor.new
            ≡ with_items setup.now.environment setup.now.settings brush.now
            (replicate count (Some (row.entry.method, row.entry.bytes.now)))
            (drawn_by setup.now self.old frame.old cursor.old) }
        ensures layout { layout frame.new ≡ layout frame.old }
        ensures setup { IsSetUp setup.now (layout frame.old) self.new }
        ensures takes_none { IsOk result }
    {
        for drawn in 0..count {
            if !self.draw_row(frame, cursor, setup, brush, row)? {
                break;
            }
        }
        Ok(())
    }

    /// Draws what blocks stand for, a run after another; their lines are ready.
    fn draw_blocks(
        &mut self,
        frame: &mut Bands,
        cursor: &mut Cursor,
        setup: &RowSetup,
        brush: &Brush<'_>,
        mut blocks: Blocks<'_>,
    ) -> Result<(), AllocError>
        requires setup { IsSetUp setup.now (layout frame.old) self.old }
        requires ready { RowsReady setup.now (layout frame.old) cursor.old.y (count_rows blocks) }
        ensures items { drawn_by setup.now self.new frame.new cursor.new
            ≡ with_items setup.now.environment setup.now.settings brush.now blocks.entry
            (drawn_by setup.now self.old frame.old cursor.old) }
        ensures takes_none { IsOk result }
    {
        while let Some(run) = blocks.next_run() {
            match run {
                Run::WhiteSeed => self.seed.fill(0),
                Run::Rows {
                    method,
                    data,
                    count,
                } => {
                    let row = RowData {
                        method,
                        bytes: data,
                    };
                    self.draw_run(frame, cursor, setup, brush, row, count)?;
                }
            }
        }
        Ok(())
    }

    /// Draws what the data of a transfer stands for, and makes the lines ready that it needs: those of all rows of blocks first.
    ///
    /// # Errors
    ///
    /// Where memory ran out; no dot changes, and the cursor stays.
    pub(crate) fn draw(
        &mut self,
        frame: &mut Bands,
        cursor: &mut Cursor,
        setup: &RowSetup,
        brush: &Brush<'_>,
        bytes: &[u8],
    ) -> Result<(), AllocError>
        requires setup { IsSetUp setup.now (layout frame.old) self.old }
        ensures items { OnOk result (drawn_by setup.now self.new frame.new cursor.new
            ≡ with_items setup.now.environment setup.now.settings brush.now
            (items_of setup.now.settings.coding bytes.now)
            (drawn_by setup.now self.old frame.old cursor.old)) }
        ensures same_page { OnErr result (frame.new.page ≡ frame.old.page) }
        ensures same_cursor { OnErr result (cursor.new ≡ cursor.old) }
    {
        match setup.settings.coding {
            RowCoding::By(method) => {
                self.draw_row(frame, cursor, setup, brush, RowData { method, bytes })?;
                Ok(())
            }
            RowCoding::Adaptive => {
                let rows = count_rows(Blocks::new(bytes));
                setup.ready(frame, cursor, rows)?;
                self.draw_blocks(frame, cursor, setup, brush, Blocks::new(bytes))
            }
        }
    }
}

/// How many rows there are in blocks, at most as many as a page has lines.
pub(crate) fn count_rows(mut blocks: Blocks<'_>) -> usize
    ensures count { result ≡ min longest_side (count_rows blocks.entry) }
{
    let most = MAX_SIDE as usize;
    let mut rows: usize = 0;
    while let Some(run) = blocks.next_run() {
        if let Run::Rows { count, .. } = run {
            rows = rows.saturating_add(count).min(most);
        }
    }
    rows
}
