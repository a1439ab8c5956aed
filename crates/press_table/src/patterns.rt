//! The rows of patterns.

ghost use Rattle.std.specs.Prelude.{◌≡◌};
ghost use Rattle.press_table.specs.Patterns.{kind_of_number};

use crate::effect::Effect;
use crate::pattern_control::PatternControl;
use crate::state::State;
use press_pattern::{DefineError, Pattern, PatternKind};
use press_units::Value;
use std::alloc::AllocError;

/// The kind of pattern that a number names, of `ESC * v # T` and `ESC * c # P`.
pub(crate) fn kind_of_number(number: i64) -> Option<PatternKind>
    ensures { result ≡ kind_of_number number }
{
    match number {
        0 => Some(PatternKind::Black),
        1 => Some(PatternKind::White),
        2 => Some(PatternKind::Shading),
        3 => Some(PatternKind::CrossHatch),
        4 => Some(PatternKind::User),
        _ => None,
    }
}

impl State {
    ghost use Rattle.std.specs.Prelude.{◌≡◌, IfOk, IsErr};
    ghost use Rattle.press_units.specs.Value.{whole_part};
    ghost use Rattle.press_table.specs.Effects.{effect_of};
    ghost use Rattle.press_table.specs.Memory.{TakesMemory};
    ghost use Rattle.press_table.specs.Patterns.{exists, pattern_of_kind, pattern_now, select_pattern, define_pattern, control_patterns};

    /// Whether there is a pattern.
    pub(crate) fn has_pattern(&self, pattern: Pattern) -> bool
        ensures { result ≡ exists pattern self.now }
    {
        self.patterns.tile(pattern).is_some()
    }

    /// The pattern of a kind under the pattern ID; the solid ones have none.
    pub(crate) fn pattern_of_kind(&self, kind: PatternKind) -> Pattern
        ensures { result ≡ pattern_of_kind kind self.now }
    {
        let id = match kind {
            PatternKind::Black | PatternKind::White => 0,
            PatternKind::Shading | PatternKind::CrossHatch | PatternKind::User => self
                .drawing
                .pattern_id,
        };
        Pattern { kind, id }
    }

    /// The pattern that marks are painted with: the current one, or solid black where that is gone.
    pub(crate) fn pattern_now(&self) -> Pattern
        ensures { result ≡ pattern_now self.now }
    {
        let pattern = self.drawing.pattern;
        if self.has_pattern(pattern) {
            return pattern;
        }
        Pattern {
            kind: PatternKind::Black,
            id: 0,
        }
    }

    /// `*v#T`: selects the current pattern, if it exists.
    pub(crate) fn select_pattern(&mut self, value: Value)
        ensures { self.new ≡ select_pattern (whole_part value.tenthousandths) self.old }
    {
        if let Some(kind) = kind_of_number(value.whole()) {
            let pattern = self.pattern_of_kind(kind);
            if self.has_pattern(pattern) {
                self.drawing.pattern = pattern;
            }
        }
    }

    /// `*c#W`: defines the pattern of the bytes under the pattern ID. Bytes that stand for none have no effect.
    pub(crate) fn define_pattern(&mut self, bytes: &[u8]) -> Result<Effect, AllocError>
        ensures effect { IfOk result (λ effect.
            effect_of self.new effect ≡ define_pattern bytes.now self.old) }
        ensures memory { IsErr result → TakesMemory (define_pattern bytes.now self.old) }
    {
        match self.patterns.define(self.drawing.pattern_id, bytes) {
            Ok(()) => Ok(Effect::Makes),
            Err(DefineError::BadHeader | DefineError::ShortData) => Ok(Effect::Changes),
            Err(DefineError::NoMemory) => Err(AllocError),
        }
    }

    /// `*c#Q`: deletes patterns, or makes one temporary or permanent.
    pub(crate) fn control_patterns(&mut self, value: Value)
        ensures { self.new ≡ control_patterns (whole_part value.tenthousandths) self.old }
    {
        if let Some(control) = PatternControl::of_number(value.whole()) {
            control.apply(self.drawing.pattern_id, &mut self.patterns);
        }
    }
}
