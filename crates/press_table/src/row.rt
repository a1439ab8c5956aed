//! The row of a command.

use crate::effect::{Effect, Source};
use crate::operation::{Operation, operation_of};
use crate::state::State;
use press_cmd::{Command, Kind};
use std::alloc::{AllocError, Global};

impl Operation {
    ghost use Rattle.std.specs.Prelude.{◌≡◌};
    ghost use Rattle.press_table.specs.Table.{works_in_hp_gl, works_in_overlay};

    /// Whether the row has effect while HP-GL/2 is on.
    pub(crate) fn works_in_hp_gl(self) -> bool
        ensures { result ≡ works_in_hp_gl self }
    {
        matches!(
            self,
            Operation::Reset | Operation::LeaveHpGl | Operation::JobLanguage
        )
    }

    /// Whether the row has effect in an overlay, where no page closes.
    pub(crate) fn works_in_overlay(self) -> bool
        ensures { result ≡ works_in_overlay self }
    {
        !matches!(
            self,
            Operation::FormFeed
                | Operation::SelectPageSize
                | Operation::SelectOrientation
                | Operation::SelectDuplex
                | Operation::EjectPage
                | Operation::SelectPageSide
        )
    }
}

impl State {
    ghost use Rattle.std.specs.Prelude.{◌≡◌, IfOk, IsErr};
    ghost use Rattle.press_cmd.specs.View.{token};
    ghost use Rattle.press_table.specs.Effects.{effect_of};
    ghost use Rattle.press_table.specs.Memory.{TakesMemory};
    ghost use Rattle.press_cmd.specs.Kinds.{kind_of};
    ghost use Rattle.press_table.specs.Table.{table_row, is_recorded, is_skipped, effect_on};

    /// What a row does with a command, by where the command comes from.
    fn apply(
        &mut self,
        alloc: Global,
        source: Source,
        operation: Operation,
        command: &Command<'_>,
    ) -> Result<Effect, AllocError>
        ensures effect { IfOk result (λ effect.
            effect_of self.new effect ≡ table_row source operation (token command.now) self.old) }
        ensures memory { IsErr result
            → TakesMemory (table_row source operation (token command.now) self.old) }
    {
        match operation {
            Operation::CarriageReturn => Ok(self.carriage_return(source)),
            Operation::LineFeed => Ok(self.line_feed(source)),
            Operation::FormFeed => Ok(self.form_feed()),
            Operation::HalfLineFeed => Ok(self.half_line_feed(source)),
            Operation::Reset => Ok(self.reset()),
            Operation::SelectPageSide => Ok(self.select_page_side(command.value())),
            Operation::SelectPageSize => Ok(self.select_page_size(command.value())),
            Operation::EjectPage => Ok(self.eject_page()),
            Operation::SelectOrientation => Ok(self.select_orientation(command.value())),
            Operation::SelectDuplex => Ok(self.select_duplex(command.value())),
            Operation::Fill => self.fill(alloc, command.value()),
            Operation::DefinePattern => self.define_pattern(command.data()),
            // taken before this match by `row`
            Operation::TransferRow => self.transfer(alloc, command.data()),
            Operation::ControlMacro => self.control_macro(source, command.value()),
            Operation::JobLanguage => self.job_language(alloc, command.line()),
            plain => {
                self.set_by(plain, command.value());
                Ok(Effect::Changes)
            }
        }
    }

    /// Whether a command has no effect where it stands: HP-GL/2 is skipped, and no page closes in an overlay.
    fn is_skipped(&self, source: Source, operation: Operation) -> bool
        ensures { result ≡ is_skipped source operation self.now }
    {
        (self.hp_gl && !operation.works_in_hp_gl())
            || (source.in_overlay() && !operation.works_in_overlay())
    }

    /// What a command of this kind does: it is recorded and does nothing else, or its kind's row gives what it does.
    ///
    /// Source: PCL 5 Printer Language Technical Reference Manual, the commands by their sequences; PJL Technical Reference Manual,
    /// the PJL commands. Which commands have a row, and what each row leaves, is this profile's.
    ///
    /// # Errors
    ///
    /// Where memory ran out.
    pub fn row(
        &mut self,
        alloc: Global,
        source: Source,
        command: &Command<'_>,
        kind: Kind,
        records: bool,
    ) -> Result<Effect, AllocError>
        requires kind { kind ≡ kind_of (token command.now) }
        requires recorded { records ≡ is_recorded (token command.now) self.old }
        ensures effect { IfOk result (λ effect.
            effect_of self.new effect ≡ effect_on source (token command.now) self.old) }
        ensures memory { IsErr result
            → TakesMemory (effect_on source (token command.now) self.old) }
    {
        if records {
            self.macros.record(command)?;
            return Ok(Effect::Makes);
        }
        let operation = operation_of(kind);
        if self.is_skipped(source, operation) {
            return Ok(Effect::Changes);
        }
        // rows of raster graphics come most often, and their value is not read again
        if matches!(operation, Operation::TransferRow) {
            return self.transfer(alloc, command.data());
        }
        self.apply(alloc, source, operation, command)
    }
}
