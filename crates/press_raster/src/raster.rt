//! Raster graphics, and the transfer of its rows (PCL 5 Printer Language Technical Reference Manual, Raster Graphics).

ghost use Rattle.std.specs.Prelude.{◌≡◌, ◌<◌, ◌^◌, false, true, None, Some, IfSome, IfOk, IsOk, OnOk, OnErr, is_none, is_some, unsigned_abs};
ghost use Rattle.std.specs.List.{list_any};
ghost use Rattle.press_raster.specs.Graphics.{raster_position, started, moved_down, is_below_height, takes_row, takes_rows, passed, trimmed};
ghost use Rattle.press_raster.specs.Settings.{items_of};
ghost use Rattle.press_raster.specs.Rows.{drawn, drawn_rows};
ghost use Rattle.press_raster.specs.Transfer.{row_corner};
ghost use Rattle.press_canvas.specs.Turned.{page_of_frame};

use crate::drawing::{Drawing, RowSetup, count_rows};
use crate::settings::{RasterSettings, RowCoding};
use press_bits::Bitmap;
use press_canvas::Canvas;
use press_cursor::{Cursor, CursorPosition};
use press_page::{CursorDot, PageEnv};
use press_pattern::Brush;
use press_rows::{Blocks, Method, Run};
use press_units::{GREATEST_VALUE, Pos};
use std::alloc::{AllocError, Global};
use std::marker::Model;
use std::mem;

/// The most rows that are counted: the greatest value.
pub(crate) const MOST_ROWS: u32 = GREATEST_VALUE;

/// Where raster graphics that is on stands.
#[derive(Clone, Copy, Debug, PartialEq, Eq)]
pub struct RasterPosition {
    /// Where rows begin, in positions (1/7200 inch) from the left edge of the logical page.
    pub left: u32,
    /// How many rows there were, at most 65,535.
    pub rows: u32,
}

/// Where the next row lies on a page.
#[derive(Clone, Copy, Debug)]
pub struct RowPlace {
    pub environment: PageEnv,
    /// The cursor's y: how far below the top margin the row begins, in positions (1/7200 inch).
    pub y: i64,
}

impl RowPlace {
    /// The row's upper left dot, where rows begin at a distance from the left edge of the logical page.
    pub(crate) fn corner(&self, left: u32) -> CursorDot
        requires { unsigned_abs self.now.y < 2 ^ 33 }
        ensures { result ≡ row_corner self.now left }
    {
        let cursor = CursorPosition { x: left, y: self.y };
        self.environment.cursor_dot(cursor)
    }
}

/// Whether so many rows are fewer than the height of the source; no number is where it is unset.
pub(crate) fn is_within(height: Option<u16>, rows: u32) -> bool
    ensures { result ≡ is_below_height height rows }
{
    match height {
        None => true,
        Some(height) => rows < u32::from(height),
    }
}

/// The data of a row, and its method.
#[derive(Clone, Copy)]
pub(crate) struct RowData<'a> {
    pub(crate) method: Method,
    pub(crate) bytes: &'a [u8],
}

/// Whether data stands for a row.
fn has_row(coding: RowCoding, data: &[u8]) -> bool
    ensures { result ≡ list_any is_some (items_of coding «data».now) }
{
    match coding {
        RowCoding::By(_) => true,
        RowCoding::Adaptive => count_rows(Blocks::new(data)) > 0,
    }
}

/// Whether data makes the seed row white in place of a row.
fn has_white_seed(coding: RowCoding, data: &[u8]) -> bool
    ensures { result ≡ list_any is_none (items_of coding «data».now) }
{
    match coding {
        RowCoding::By(_) => false,
        RowCoding::Adaptive => blocks_have_white_seed(Blocks::new(data)),
    }
}

/// Whether there is a white seed row in blocks.
fn blocks_have_white_seed(mut blocks: Blocks<'_>) -> bool
    ensures { result ≡ list_any is_none blocks.entry }
{
    while let Some(run) = blocks.next_run() {
        if let Run::WhiteSeed = run {
            return true;
        }
    }
    false
}

/// Raster graphics, off or on. Contracts see, where it is on, where its rows begin, how many there were, and the seed row, and
/// not what is kept to draw rows with.
#[derive(Drop)]
pub struct Raster {
    position: Option<RasterPosition>,
    seed: Vec<u8>,
    drawing: Drawing,
}

impl Model for Raster {
    ghost use Rattle.std.specs.Prelude.{Option};
    ghost use Rattle.press_raster.specs.Graphics.{RasterGraphics, graphics_code, graphics};

    ghost Value = { Option RasterGraphics };

    ghost coded = { graphics_code };

    ghost view = { λ raster. graphics raster.position raster.seed.items };
}

impl Raster {
    /// Raster graphics that is off.
    pub fn new(alloc: Global) -> Self
        ensures { result ≡ None }
    {
        Raster {
            position: None,
            seed: Vec::new(alloc),
            drawing: Drawing::new(alloc),
        }
    }

    /// An equal one.
    ///
    /// # Errors
    ///
    /// Where memory ran out.
    pub fn copy(&self) -> Result<Self, AllocError>
        ensures { IfOk result (λ copy. copy ≡ self.now) }
    {
        Ok(Raster {
            position: self.position,
            seed: self.seed.clone()?,
            drawing: Drawing::new(*self.seed.allocator()),
        })
    }

    /// Whether it is on.
    pub fn is_on(&self) -> bool
        ensures { result ≡ is_some self.now }
    {
        self.position.is_some()
    }

    /// Where it stands, if it is on. Of every raster graphics that is on: no white byte stands at the end of the seed row, so that
    /// seed rows that are white behind the same bytes are the same.
    pub fn position(&self) -> Option<RasterPosition>
        ensures position { result ≡ raster_position self.now }
        ensures seed { IfSome self.now (λ on. trimmed on.seed ≡ on.seed) }
    {
        self.position
    }

    /// Whether data has a row that has effect: it is on, its rows have not reached the source height, and the data has a row.
    ///
    /// Source: PCL 5 Printer Language Technical Reference Manual, Raster Graphics, Raster Height command.
    pub fn takes_rows(&self, settings: RasterSettings, data: &[u8]) -> bool
        ensures { result ≡ takes_rows settings «data».now self.now }
    {
        self.takes_row(settings) && has_row(settings.coding, data)
    }

    /// Whether the next row has effect: it is on, and its rows have not reached the source height.
    fn takes_row(&self, settings: RasterSettings) -> bool
        ensures { result ≡ takes_row settings self.now }
    {
        match self.position {
            None => false,
            Some(position) => is_within(settings.source_height, position.rows),
        }
    }

    /// `ESC * r # A`: raster graphics that is off begins, with its rows at a distance from the left edge of the logical
    /// page, in positions (1/7200 inch); one that is on goes on.
    ///
    /// Source: PCL 5 Printer Language Technical Reference Manual, Raster Graphics, Start Raster Graphics command.
    pub fn start(&mut self, left: u32)
        ensures { self.new ≡ started left self.old }
    {
        if self.position.is_none() {
            self.position = Some(RasterPosition { left, rows: 0 });
            self.seed.clear();
        }
    }

    /// `ESC * r B`, `ESC * r C`, and whatever else ends raster graphics.
    ///
    /// Source: PCL 5 Printer Language Technical Reference Manual, Raster Graphics, End Raster Graphics command.
    pub fn end(&mut self)
        ensures { self.new ≡ None }
    {
        self.position = None;
    }

    /// `ESC * b # Y`: so many rows are left out, and the seed row is white then. No effect where it is off.
    ///
    /// Source: PCL 5 Printer Language Technical Reference Manual, Raster Graphics, Raster Y Offset command.
    pub fn offset(&mut self, rows: u32)
        ensures { self.new ≡ moved_down rows self.old }
    {
        if let Some(position) = &mut self.position {
            position.rows = position.rows.saturating_add(rows).min(MOST_ROWS);
            self.seed.clear();
        }
    }

    /// Passes data of which no row has effect: the seed row is white where a block of empty or repeated rows asks for none.
    pub fn pass(&mut self, settings: RasterSettings, data: &[u8])
        ensures { self.new ≡ passed settings «data».now self.old }
    {
        if self.position.is_some() && has_white_seed(settings.coding, data) {
            self.seed.fill(0);
        }
    }

    /// `ESC * b # W`: transfers rows, by a method one. Each that raster graphics takes is painted with the brush, each of its dots
    /// as many dots wide and high as the resolution says, and becomes the seed row, and the cursor moves down by it. Dots
    /// outside the page are dropped.
    ///
    /// # Errors
    ///
    /// Where memory ran out for rows that are taken; page, raster graphics and cursor are then as they were.
    ///
    /// Source: PCL 5 Printer Language Technical Reference Manual, Raster Graphics, Transfer Raster Data by Row command.
    pub fn transfer(
        &mut self,
        page: &mut Canvas,
        environment: &PageEnv,
        cursor: &mut Cursor,
        settings: RasterSettings,
        brush: &Brush<'_>,
        data: &[u8],
    ) -> Result<(), AllocError>
        ensures rows { OnOk result (drawn self.new page.new cursor.new ≡ drawn_rows environment.now
            settings brush.now «data».now (drawn self.old page.old cursor.old)) }
        // what has no row with effect takes no memory
        ensures untaken { takes_rows settings «data».now self.old ≡ false → IsOk result }
        ensures same_page { OnErr result (page.new ≡ page.old) }
        ensures same_raster { OnErr result (self.new ≡ self.old) }
        ensures same_cursor { OnErr result (cursor.new ≡ cursor.old) }
    {
        if !self.takes_rows(settings, data) {
            self.pass(settings, data);
            return Ok(());
        }
        let frame = page.frame();
        frame.lie_as(*self.seed.allocator(), environment.page_setup.orientation)?;
        self.draw_rows(
            &mut frame.bitmap,
            environment,
            cursor,
            settings,
            brush,
            data,
        )
    }

    /// Draws the rows of a transfer, one of which has effect, on the frame of a page.
    fn draw_rows(
        &mut self,
        frame: &mut Bitmap,
        environment: &PageEnv,
        cursor: &mut Cursor,
        settings: RasterSettings,
        brush: &Brush<'_>,
        data: &[u8],
    ) -> Result<(), AllocError>
        requires { takes_rows settings «data».now self.old ≡ true }
        ensures rows { OnOk result (drawn self.new
            (page_of_frame environment.now.page_setup.orientation frame.new) cursor.new
            ≡ drawn_rows environment.now settings brush.now «data».now (drawn self.old
            (page_of_frame environment.now.page_setup.orientation frame.old) cursor.old)) }
        ensures same_page { OnErr result (frame.new ≡ frame.old) }
        ensures same_raster { OnErr result (self.new ≡ self.old) }
        ensures same_cursor { OnErr result (cursor.new ≡ cursor.old) }
    {
        let Some(position) = self.position else {
            return Ok(());
        };
        let bands = frame.bands();
        let setup = RowSetup::new(bands, environment, settings, position.left);
        self.drawing.begin(position, &self.seed, &setup)?;
        self.drawing.draw(bands, cursor, &setup, brush, data)?;
        self.position = Some(self.drawing.position);
        mem::swap(&mut self.seed, &mut self.drawing.seed);
        Ok(())
    }
}
