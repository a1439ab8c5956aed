//! The commands that do no more than change the state.

use crate::operation::{Operation, operation_of};
use crate::refusal::Refusal;
use crate::state::State;
use press_cmd::{Command, Kind};
use press_units::{Unit, Value};
use std::alloc::{AllocError, Global};

/// What became of a command that may do no more than change the state.
#[derive(Clone, Copy, Debug, PartialEq, Eq)]
pub enum Changed {
    /// It may do more, and nothing changed.
    Other,
    /// It was taken, and refused for this reason, if it was.
    Took(Option<Refusal>),
}

impl Changed {
    ghost use Rattle.std.specs.Prelude.{◌≡◌};
    ghost use Rattle.press_table.specs.Changing.{changed_if};

    /// What became of a command that was taken or not, and that is refused for this reason, if it is.
    fn by(taken: bool, refusal: Option<Refusal>) -> Self
        ensures { result ≡ changed_if taken refusal }
    {
        if taken {
            Changed::Took(refusal)
        } else {
            Changed::Other
        }
    }
}

impl State {
    ghost use Rattle.std.specs.Prelude.{◌≡◌, true, false, IsTrue, IfOk, IsErr};
    ghost use Rattle.press_cmd.specs.Kinds.{kind_of};
    ghost use Rattle.press_cmd.specs.View.{token};
    ghost use Rattle.press_table.specs.declared.effect.Source.{Source};
    ghost use Rattle.press_cmd.specs.Token.{Token};
    ghost use Rattle.press_table.specs.Changing.{ChangesOrStays, IfTook, IsValueOf, RowOrStays, is_plain, took};
    ghost use Rattle.press_table.specs.Memory.{TakesMemory};
    ghost use Rattle.press_table.specs.Outcome.{Changes};
    ghost use Rattle.press_table.specs.Refusals.{refusal_of, row_refusal};
    ghost use Rattle.press_table.specs.Table.{effect_on, table_row, value_of, works_in_overlay};

    /// Carries a command out where it does no more than change the state, wherever it comes from, and answers whether it does, and why it
    /// is refused, if it is. Where it is another, nothing changes. Of some that do no more, too, it answers that they are others.
    ///
    /// Source: PCL 5 Printer Language Technical Reference Manual, the commands by their sequences.
    ///
    /// # Errors
    ///
    /// Where memory ran out.
    #[inline(always)]
    pub fn change(
        &mut self,
        alloc: Global,
        command: &Command<'_>,
        kind: Kind,
    ) -> Result<Changed, AllocError>
        requires { kind ≡ kind_of (token command.now) }
        ensures changes { IfOk result (λ changed.
            ChangesOrStays (took changed) (token command.now) self.old self.new) }
        ensures refusal { IfOk result (λ changed. IfTook changed (λ refusal. (source : Source)
            → refusal ≡ refusal_of source (token command.now) self.old)) }
        ensures memory { IsErr result
            → (source : Source) → TakesMemory (effect_on source (token command.now) self.old) }
    {
        if self.hp_gl || self.is_recording() {
            return Ok(Changed::Other);
        }
        self.change_by(alloc, operation_of(kind), command)
    }

    /// Carries a row out where it does no more than change the state, and answers whether it does, and why it is refused.
    #[inline(always)]
    fn change_by(
        &mut self,
        alloc: Global,
        operation: Operation,
        command: &Command<'_>,
    ) -> Result<Changed, AllocError>
        ensures changes { IfOk result (λ changed.
            RowOrStays (took changed) operation (token command.now) self.old self.new) }
        ensures refusal { IfOk result (λ changed. IfTook changed (λ refusal.
            refusal ≡ row_refusal operation (value_of (token command.now)) self.old.environment)) }
        ensures works { IsErr result → works_in_overlay operation ≡ true }
        ensures memory { IsErr result → (source : Source)
            → TakesMemory (table_row source operation (token command.now) self.old) }
    {
        match operation {
            Operation::TransferRow => {
                self.transfer(alloc, command.data())?;
                Ok(Changed::Took(None))
            }
            Operation::Fill => {
                let refusal = operation.refusal(command.value(), &self.environment);
                self.fill(alloc, command.value())?;
                Ok(Changed::Took(refusal))
            }
            Operation::CarriageReturn => Ok(Changed::by(self.return_alone(), None)),
            Operation::LineFeed => Ok(Changed::by(self.feed_alone(), None)),
            plain => {
                let value = command.value();
                let refusal = plain.refusal(value, &self.environment);
                Ok(Changed::by(self.set_by(plain, value), refusal))
            }
        }
    }

    /// Carries a row out that does no more than change the state, whatever the value is, and answers whether it is such a row.
    #[inline(always)]
    pub(crate) fn set_by(&mut self, operation: Operation, value: Value) -> bool
        ensures changed { IsTrue result → (source : Source) (command : Token)
            → IsValueOf command value → table_row source operation command self.old ≡ Changes self.new }
        ensures unchanged { result ≡ false → self.new ≡ self.old }
        ensures plain { result ≡ is_plain operation }
    {
        match operation {
            Operation::Nothing => {}
            Operation::ClearMargins => self.environment.clear_margins(),
            Operation::EnterHpGl => self.hp_gl = true,
            Operation::LeaveHpGl => self.hp_gl = false,
            Operation::UnitOfMeasure => self.environment.set_unit_of_measure(value),
            Operation::MoveColumns => self.move_along(self.column(), value),
            Operation::MoveRows => self.move_rows(value),
            Operation::MoveHorizontally => self.move_along(Unit::decipoint(), value),
            Operation::MoveVertically => self.move_down(Unit::decipoint(), value),
            Operation::LeftMargin => self.change_left_margin(value),
            Operation::RightMargin => self.change_right_margin(value),
            Operation::PushOrPop => self.push_or_pop(value),
            Operation::LineTermination => self.environment.set_line_termination(value),
            Operation::HorizontalMotion => self.environment.set_horizontal_motion(value),
            Operation::VerticalMotion => self.environment.set_vertical_motion(value),
            Operation::LineSpacing => self.environment.set_line_spacing(value),
            Operation::TopMargin => self.change_top_margin(value),
            Operation::TextLength => {
                self.environment.set_text_length(value);
            }
            Operation::PerforationSkip => self.change_perforation_skip(value),
            Operation::Copies => self.environment.set_copies(value),
            Operation::RectangleWidth => {
                let unit = self.pcl_unit();
                self.drawing.set_rectangle_width(value, unit);
            }
            Operation::RectangleHeight => {
                let unit = self.pcl_unit();
                self.drawing.set_rectangle_height(value, unit);
            }
            Operation::PatternId => self.drawing.set_pattern_id(value),
            Operation::RectangleWidthInDecipoints => {
                self.drawing.set_rectangle_width(value, Unit::decipoint());
            }
            Operation::ControlPatterns => self.control_patterns(value),
            Operation::RectangleHeightInDecipoints => {
                self.drawing.set_rectangle_height(value, Unit::decipoint());
            }
            Operation::SourceTransparency => self.drawing.set_source_transparency(value),
            Operation::PatternTransparency => self.drawing.set_pattern_transparency(value),
            Operation::SelectPattern => self.select_pattern(value),
            Operation::RasterResolution => self.set_raster_resolution(value),
            Operation::StartRaster => self.start_raster(value.whole()),
            Operation::EndRaster => self.graphics.end(),
            Operation::EndRasterAndMethod => self.end_raster_and_method(),
            Operation::SourceWidth => self.set_source_width(value),
            Operation::SourceHeight => self.set_source_height(value),
            Operation::SetMethod => self.drawing.raster.set_method(value),
            Operation::OffsetRaster => self.offset_raster(value),
            Operation::MoveX => self.move_along(self.pcl_unit(), value),
            Operation::MoveY => self.move_down(self.pcl_unit(), value),
            Operation::MacroId => self.set_macro_id(value),
            _ => return false,
        }
        true
    }
}
