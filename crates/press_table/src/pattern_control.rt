//! What pattern control asks for (PCL 5 Printer Language Technical Reference Manual, Pattern Control command).

ghost use Rattle.std.specs.Prelude.{◌≡◌};
ghost use Rattle.press_table.specs.Patterns.{pattern_control_of, pattern_controlled};

use press_pattern::Patterns;

/// What a pattern control command does, with all patterns or with the one under the pattern ID.
#[derive(Clone, Copy, PartialEq, Eq)]
pub enum PatternControl {
    DeleteAll,
    DeleteTemporary,
    Delete,
    MakeTemporary,
    MakePermanent,
}

impl PatternControl {
    /// What `ESC * c # Q` does by its number.
    pub(crate) fn of_number(number: i64) -> Option<Self>
        ensures { result ≡ pattern_control_of number }
    {
        match number {
            0 => Some(PatternControl::DeleteAll),
            1 => Some(PatternControl::DeleteTemporary),
            2 => Some(PatternControl::Delete),
            4 => Some(PatternControl::MakeTemporary),
            5 => Some(PatternControl::MakePermanent),
            _ => None,
        }
    }

    /// Does it.
    pub(crate) fn apply(self, id: u16, patterns: &mut Patterns)
        ensures { patterns.new ≡ pattern_controlled self id patterns.old }
    {
        match self {
            PatternControl::DeleteAll => patterns.delete_all(),
            PatternControl::DeleteTemporary => patterns.delete_temporary(),
            PatternControl::Delete => patterns.delete(id),
            PatternControl::MakeTemporary => patterns.set_permanent(id, false),
            PatternControl::MakePermanent => patterns.set_permanent(id, true),
        }
    }
}
