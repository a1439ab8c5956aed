//! The rows of raster graphics.

ghost use Rattle.std.specs.Prelude.{◌≡◌};
ghost use Rattle.press_units.specs.Value.{whole_part};
ghost use Rattle.press_table.specs.Raster.{start_of, asked_offset};

use crate::effect::Effect;
use crate::state::State;
use press_pattern::Brush;
use press_raster::RowCoding;
use press_rows::Method;
use press_units::{Pos, Value};
use std::alloc::{AllocError, Global};

/// Where rows begin by the number of `ESC * r # A`, with the cursor at `x`.
pub(crate) fn start_of(number: i64, x: u32) -> Option<u32>
    ensures { result ≡ start_of number x }
{
    match number {
        0 | 2 => Some(0),
        1 | 3 => Some(x),
        _ => None,
    }
}

/// How many rows the number of `ESC * b # Y` leaves out, at least one.
pub(crate) fn rows_of(value: Value) -> Option<u16>
    ensures { result ≡ asked_offset (whole_part value.tenthousandths) }
{
    u16::try_from(value.whole()).ok().filter(|rows| *rows > 0)
}

impl State {
    ghost use Rattle.std.specs.Prelude.{◌≡◌, IfOk, IsErr};
    ghost use Rattle.press_units.specs.Value.{whole_part};
    ghost use Rattle.press_raster.specs.Settings.{set_source_width, set_source_height};
    ghost use Rattle.press_table.specs.Effects.{effect_of};
    ghost use Rattle.press_table.specs.Memory.{TakesMemory};
    ghost use Rattle.press_table.specs.Raster.{set_raster_resolution, while_off, start_at, start_raster, end_raster_and_method, rows_down};
    ghost use Rattle.press_table.specs.Raster.{offset_raster, with_rows, transfer_rows, transfer};

    /// `*t#R`: the resolution of raster graphics on the page of now, while it is off.
    pub(crate) fn set_raster_resolution(&mut self, value: Value)
        ensures { self.new ≡ set_raster_resolution value.tenthousandths self.old }
    {
        if !self.graphics.is_on() {
            let page = self.environment.page_setup.resolution;
            self.drawing.raster.set_resolution(page, value);
        }
    }

    /// `*r#S`: the width of rows, while raster graphics is off.
    pub(crate) fn set_source_width(&mut self, value: Value)
        ensures { self.new ≡ while_off (set_source_width value.tenthousandths) self.old }
    {
        if !self.graphics.is_on() {
            self.drawing.raster.set_source_width(value);
        }
    }

    /// `*r#T`: how many rows have effect, while raster graphics is off.
    pub(crate) fn set_source_height(&mut self, value: Value)
        ensures { self.new ≡ while_off (set_source_height value.tenthousandths) self.old }
    {
        if !self.graphics.is_on() {
            self.drawing.raster.set_source_height(value);
        }
    }

    /// Raster graphics is on from a place of the line on, and there the cursor is.
    fn start_at(&mut self, left: Option<u32>)
        ensures { self.new ≡ start_at left self.old }
    {
        if let Some(left) = left {
            let page = self.bounds();
            self.cursor.move_x(Pos(i64::from(left)), false, page);
            self.graphics.start(left);
        }
    }

    /// `*r#A`: starts raster graphics, where it is off.
    pub(crate) fn start_raster(&mut self, number: i64)
        ensures { self.new ≡ start_raster number self.old }
    {
        if !self.graphics.is_on() {
            let left = start_of(number, self.cursor.x());
            self.start_at(left);
        }
    }

    /// `*r#C`: ends raster graphics; the compression method is 0 then.
    pub(crate) fn end_raster_and_method(&mut self)
        ensures { self.new ≡ end_raster_and_method self.old }
    {
        self.graphics.end();
        self.drawing.raster.coding = RowCoding::By(Method::Unencoded);
    }

    /// Moves so many rows of raster graphics down.
    fn move_rows_down(&mut self, rows: u16)
        ensures { self.new ≡ rows_down rows self.old }
    {
        let page = self.bounds();
        let height = i64::from(self.drawing.raster.resolution.row_height());
        self.cursor
            .move_y(Pos(i64::from(rows) * height), true, page);
    }

    /// `*b#Y`: leaves out rows of raster graphics, where it is on.
    pub(crate) fn offset_raster(&mut self, value: Value)
        ensures { self.new ≡ offset_raster (whole_part value.tenthousandths) self.old }
    {
        if !self.graphics.is_on() {
            return;
        }
        if let Some(rows) = rows_of(value) {
            self.move_rows_down(rows);
            self.graphics.offset(u32::from(rows));
        }
    }

    /// Transfers rows of which one has effect; the page has a mark then.
    fn take_rows(&mut self, alloc: Global, bytes: &[u8]) -> Result<(), AllocError>
        ensures { IfOk result (λ _. self.new ≡ with_rows bytes.now self.old) }
    {
        let mut page = self.take_page(alloc)?;
        let (pattern, settings) = (self.drawing.pattern, self.drawing.raster);
        let mode = self.drawing.mode;
        let brush = self
            .patterns
            .brush(pattern, mode)
            .unwrap_or(Brush::black(mode));
        self.graphics.transfer(
            &mut page,
            &self.environment,
            &mut self.cursor,
            settings,
            &brush,
            bytes,
        )?;
        self.page.put(page);
        Ok(())
    }

    /// Transfers the rows that have effect.
    fn transfer_rows(&mut self, alloc: Global, bytes: &[u8]) -> Result<Effect, AllocError>
        ensures effect { IfOk result (λ effect.
            effect_of self.new effect ≡ transfer_rows bytes.now self.old) }
        ensures memory { IsErr result → TakesMemory (transfer_rows bytes.now self.old) }
    {
        if !self.graphics.takes_rows(self.drawing.raster, bytes) {
            self.graphics.pass(self.drawing.raster, bytes);
            return Ok(Effect::Changes);
        }
        self.take_rows(alloc, bytes)?;
        Ok(Effect::Makes)
    }

    /// `*b#W`: transfers rows; where raster graphics is off, it starts at the left edge.
    pub(crate) fn transfer(&mut self, alloc: Global, bytes: &[u8]) -> Result<Effect, AllocError>
        ensures effect { IfOk result (λ effect.
            effect_of self.new effect ≡ transfer bytes.now self.old) }
        ensures memory { IsErr result → TakesMemory (transfer bytes.now self.old) }
    {
        self.start_raster(0);
        self.transfer_rows(alloc, bytes)
    }
}
