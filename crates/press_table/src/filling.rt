//! The rows that fill rectangles.

use crate::effect::Effect;
use crate::patterns::kind_of_number;
use crate::rectangle::dots_up;
use crate::state::State;
use press_fill::{Rect, fill_canvas};
use press_pattern::Pattern;
use press_units::Value;
use std::alloc::{AllocError, Global};

impl State {
    ghost use Rattle.std.specs.Prelude.{◌≡◌, IfOk, IsErr};
    ghost use Rattle.press_units.specs.Value.{whole_part};
    ghost use Rattle.press_table.specs.Effects.{effect_of};
    ghost use Rattle.press_table.specs.Memory.{TakesMemory};
    ghost use Rattle.press_table.specs.Filling.{rect_now, fill_rectangle, fill_with, fill_pattern, fill};

    /// The rectangle at the cursor, in dots of the frame. What lies above the frame is dropped.
    fn rect_now(&self) -> Rect
        ensures { result ≡ rect_now self.now }
    {
        let corner = self.environment.cursor_dot(self.cursor.position());
        let resolution = self.environment.page_setup.resolution;
        let rectangle = self.drawing.rectangle;
        let lines = corner.lines(dots_up(resolution, rectangle.height));
        Rect {
            x: corner.x,
            y: lines.first,
            width: dots_up(resolution, rectangle.width),
            height: lines.count,
        }
    }

    /// Fills the rectangle at the cursor with a pattern; the page has a mark then.
    fn fill_rectangle(&mut self, alloc: Global, pattern: Pattern) -> Result<(), AllocError>
        ensures { IfOk result (λ _. self.new ≡ fill_rectangle pattern self.old) }
    {
        let mut page = self.take_page(alloc)?;
        let rect = self.rect_now();
        let mode = self.drawing.mode;
        fill_canvas(
            &mut page,
            &self.environment,
            &self.patterns,
            rect,
            pattern,
            mode,
        )?;
        self.page.put(page);
        Ok(())
    }

    /// Fills the rectangle at the cursor with a pattern, if that exists and both sizes of the rectangle are above 0.
    fn fill_with(&mut self, alloc: Global, pattern: Pattern) -> Result<Effect, AllocError>
        ensures effect { IfOk result (λ effect.
            effect_of self.new effect ≡ fill_with pattern self.old) }
        ensures memory { IsErr result → TakesMemory (fill_with pattern self.old) }
    {
        let rectangle = self.drawing.rectangle;
        if !self.has_pattern(pattern) || rectangle.width == 0 || rectangle.height == 0 {
            return Ok(Effect::Changes);
        }
        self.fill_rectangle(alloc, pattern)?;
        Ok(Effect::Makes)
    }

    /// The pattern that the number of a fill names: 5 the current one, others a kind under the pattern ID.
    fn fill_pattern(&self, number: i64) -> Option<Pattern>
        ensures { result ≡ fill_pattern number self.now }
    {
        if number == 5 {
            return Some(self.pattern_now());
        }
        let kind = kind_of_number(number)?;
        Some(self.pattern_of_kind(kind))
    }

    /// `*c#P`: fills the rectangle at the cursor.
    pub(crate) fn fill(&mut self, alloc: Global, value: Value) -> Result<Effect, AllocError>
        ensures effect { IfOk result (λ effect.
            effect_of self.new effect ≡ fill (whole_part value.tenthousandths) self.old) }
        ensures memory { IsErr result
            → TakesMemory (fill (whole_part value.tenthousandths) self.old) }
    {
        match self.fill_pattern(value.whole()) {
            Some(pattern) => self.fill_with(alloc, pattern),
            None => Ok(Effect::Changes),
        }
    }
}
