//! The rows of macros.

ghost use Rattle.std.specs.Prelude.{◌≡◌};
ghost use Rattle.press_units.specs.Value.{whole_part};
ghost use Rattle.press_table.specs.Macros.{is_stop};

use crate::effect::{BodyStart, Effect, Source};
use crate::macro_control::MacroControl;
use crate::operation::{Operation, operation_of};
use crate::state::State;
use press_cmd::{Command, kind};
use press_units::Value;
use std::alloc::AllocError;

/// The greatest macro ID.
const GREATEST_MACRO_ID: i64 = 32_767;

/// Whether a value of `ESC & f # X` ends a macro definition.
fn is_stop(value: Value) -> bool
    ensures { result ≡ is_stop (whole_part value.tenthousandths) }
{
    matches!(
        MacroControl::of_number(value.whole()),
        Some(MacroControl::Stop)
    )
}

impl Operation {
    ghost use Rattle.std.specs.Prelude.{◌≡◌};
    ghost use Rattle.press_units.specs.Value.{whole_part};
    ghost use Rattle.press_table.specs.Table.{passes_definition};

    /// Whether a command with this row is not recorded while a macro definition is open.
    fn passes_definition(self, value: Value) -> bool
        ensures { result ≡ passes_definition self (whole_part value.tenthousandths) }
    {
        match self {
            Operation::ControlMacro => is_stop(value),
            Operation::Reset | Operation::JobLanguage => true,
            _ => false,
        }
    }
}

impl State {
    ghost use Rattle.std.specs.Prelude.{◌≡◌, IfOk, IsErr};
    ghost use Rattle.press_cmd.specs.View.{token};
    ghost use Rattle.press_units.specs.Value.{whole_part};
    ghost use Rattle.press_table.specs.Calls.{end_of};
    ghost use Rattle.press_table.specs.Effects.{effect_of};
    ghost use Rattle.press_table.specs.Memory.{TakesMemory};
    ghost use Rattle.press_table.specs.Macros.{set_macro_id, recording, start_from, stop, run_macro, controlled, control_macro};
    ghost use Rattle.press_table.specs.Table.{is_recorded};

    /// `&f#Y`: the macro ID.
    pub(crate) fn set_macro_id(&mut self, value: Value)
        ensures { self.new ≡ set_macro_id (whole_part value.tenthousandths) self.old }
    {
        let number = value.whole();
        if (0..=GREATEST_MACRO_ID).contains(&number) {
            self.macro_id = number as u16;
        }
    }

    /// Whether a macro definition is open.
    pub(crate) fn is_recording(&self) -> bool
        ensures { result ≡ recording self.now }
    {
        self.macros.defining().is_some()
    }

    /// Whether a command is recorded, and does nothing else.
    ///
    /// Source: PCL 5 Printer Language Technical Reference Manual, Macros, Macro Control.
    pub fn records(&self, command: &Command<'_>) -> bool
        ensures { result ≡ is_recorded (token command.now) self.now }
    {
        self.is_recording() && !operation_of(kind(command)).passes_definition(command.value())
    }

    /// Starts a macro definition, where none is open and no body runs.
    fn start_definition(&mut self, source: Source)
        ensures { self.new ≡ start_from source self.old }
    {
        if matches!(source, Source::Stream) && !self.is_recording() {
            self.macros.begin(self.macro_id);
        }
    }

    /// Ends the open macro definition, if one is open.
    fn stop_definition(&mut self) -> Result<Effect, AllocError>
        ensures effect { IfOk result (λ effect. effect_of self.new effect ≡ stop self.old) }
        ensures memory { IsErr result → TakesMemory (stop self.old) }
    {
        if !self.is_recording() {
            return Ok(Effect::Changes);
        }
        self.macros.stop()?;
        Ok(Effect::Makes)
    }

    /// The body of the macro under the macro ID starts, if there is such a macro.
    fn run_macro(&self, start: BodyStart) -> Result<Effect, AllocError>
        ensures effect { IfOk result (λ effect.
            effect_of self.now effect ≡ run_macro (end_of start self.now) self.now) }
        ensures memory { IsErr result → TakesMemory (run_macro (end_of start self.now) self.now) }
    {
        match self.macros.body(self.macro_id)? {
            Some(body) => Ok(Effect::Starts(body, start)),
            None => Ok(Effect::Changes),
        }
    }

    /// Does what macro control asks for.
    fn control(&mut self, control: MacroControl, source: Source) -> Result<Effect, AllocError>
        ensures effect { IfOk result (λ effect.
            effect_of self.new effect ≡ controlled control source self.old) }
        ensures memory { IsErr result → TakesMemory (controlled control source self.old) }
    {
        let id = self.macro_id;
        match control {
            MacroControl::Start => self.start_definition(source),
            MacroControl::Stop => return self.stop_definition(),
            MacroControl::Execute => return self.run_macro(BodyStart::Execute),
            MacroControl::Call => return self.run_macro(BodyStart::Call),
            MacroControl::EnableOverlay => self.overlay = Some(id),
            MacroControl::DisableOverlay => self.overlay = None,
            MacroControl::DeleteAll => self.macros.delete_all(),
            MacroControl::DeleteTemporary => self.macros.delete_temporary(),
            MacroControl::Delete => self.macros.delete(id),
            MacroControl::MakeTemporary => self.macros.set_permanent(id, false),
            MacroControl::MakePermanent => self.macros.set_permanent(id, true),
        }
        Ok(Effect::Changes)
    }

    /// `&f#X`: macro control.
    pub(crate) fn control_macro(
        &mut self,
        source: Source,
        value: Value,
    ) -> Result<Effect, AllocError>
        ensures effect { IfOk result (λ effect. effect_of self.new effect
            ≡ control_macro source (whole_part value.tenthousandths) self.old) }
        ensures memory { IsErr result
            → TakesMemory (control_macro source (whole_part value.tenthousandths) self.old) }
    {
        match MacroControl::of_number(value.whole()) {
            Some(control) => self.control(control, source),
            None => Ok(Effect::Changes),
        }
    }
}
