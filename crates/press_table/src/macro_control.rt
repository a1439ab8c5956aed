//! What macro control asks for (PCL 5 Printer Language Technical Reference Manual, Macro Control command).

ghost use Rattle.std.specs.Prelude.{◌≡◌};
ghost use Rattle.press_table.specs.Macros.{control_of};

/// What macro control does, with the macro under the macro ID or with all macros.
#[derive(Clone, Copy, PartialEq, Eq)]
pub enum MacroControl {
    Start,
    Stop,
    Execute,
    Call,
    EnableOverlay,
    DisableOverlay,
    DeleteAll,
    DeleteTemporary,
    Delete,
    MakeTemporary,
    MakePermanent,
}

impl MacroControl {
    /// What `ESC & f # X` does by its number.
    pub(crate) fn of_number(number: i64) -> Option<Self>
        ensures { result ≡ control_of number }
    {
        match number {
            0 => Some(MacroControl::Start),
            1 => Some(MacroControl::Stop),
            2 => Some(MacroControl::Execute),
            3 => Some(MacroControl::Call),
            4 => Some(MacroControl::EnableOverlay),
            5 => Some(MacroControl::DisableOverlay),
            6 => Some(MacroControl::DeleteAll),
            7 => Some(MacroControl::DeleteTemporary),
            8 => Some(MacroControl::Delete),
            9 => Some(MacroControl::MakeTemporary),
            10 => Some(MacroControl::MakePermanent),
            _ => None,
        }
    }
}
