//! The machine round the state: a command that is taken, and bodies that start and end (PCL 5 Printer Language Technical
//! Reference Manual, Macros).

ghost use Rattle.std.specs.Prelude.{◌≡◌};
ghost use Rattle.press_engine.specs.Machine.{source_at, carried};

use press_cmd::{Command, Kind, kind};
use press_table::{BodyEnd, Changed, Effect, Refusal, Source, State};
use std::alloc::{AllocError, Global};

/// How many macros may run at a time outside an overlay.
pub const MACRO_LEVELS: u8 = 2;

/// How many macros an overlay may run at a time.
pub const OVERLAY_LEVELS: u8 = 1;

/// What the last step took.
#[derive(Clone, Copy, Debug, PartialEq, Eq)]
pub enum Last {
    /// No step was taken yet.
    Nothing,
    /// A command of this kind was taken, and neither recorded nor refused.
    Ran(Kind),
    /// A command of this kind was recorded in the open macro definition.
    Recorded(Kind),
    /// A command of this kind was refused, and had no effect.
    Refused(Kind, Refusal),
}

/// What a step took that did not record a command of this kind.
fn carried(kind: Kind, refusal: Option<Refusal>) -> Last
    ensures { result ≡ carried kind refusal }
{
    match refusal {
        Some(refusal) => Last::Refused(kind, refusal),
        None => Last::Ran(kind),
    }
}

/// The state with the count of steps.
#[derive(Drop)]
pub struct Machine {
    pub state: State,
    /// How many steps were taken; the greatest number stays.
    pub step: u64,
    /// How many bodies run: macros, and an overlay.
    pub depth: u8,
    pub last: Last,
}

/// Where commands come from outside an overlay, where so many macros may start.
pub fn source_at(macro_levels: u8) -> Source
    ensures { result ≡ source_at macro_levels }
{
    if macro_levels == MACRO_LEVELS {
        Source::Stream
    } else {
        Source::Macro
    }
}

impl Machine {
    ghost use Rattle.std.specs.Prelude.{◌≡◌, IfOk, IsErr};
    ghost use Rattle.press_cmd.specs.View.{token};
    ghost use Rattle.press_table.specs.Effects.{effect_of};
    ghost use Rattle.press_table.specs.Memory.{TakesMemory};
    ghost use Rattle.press_engine.specs.Machine.{power_on, with_state, taken, enter_body, leave_body};
    ghost use Rattle.press_engine.specs.Changing.{ChangesOrStays};
    ghost use Rattle.press_table.specs.Table.{effect_on};
    ghost use Rattle.press_table.specs.declared.effect.Source.{Source};

    /// The machine after power on.
    pub fn power_on(alloc: Global) -> Self
        ensures { result ≡ power_on }
    {
        Machine {
            state: State::power_on(alloc),
            step: 0,
            depth: 0,
            last: Last::Nothing,
        }
    }

    /// An equal machine, in memory of its own.
    pub fn copy(&self) -> Result<Self, AllocError>
        ensures { IfOk result (λ machine. machine ≡ self.now) }
    {
        Ok(Machine {
            state: self.state.copy()?,
            step: self.step,
            depth: self.depth,
            last: self.last,
        })
    }

    /// Takes a command, which is one more step: it is recorded, or its row is carried out.
    pub fn take(
        &mut self,
        alloc: Global,
        source: Source,
        command: &Command<'_>,
    ) -> Result<Effect, AllocError>
        ensures effect { IfOk result (λ effect. effect_of self.new.state effect
            ≡ effect_on source (token command.now) self.old.state) }
        ensures taken { IfOk result (λ _.
            self.new ≡ with_state self.new.state (taken source (token command.now) self.old)) }
        ensures memory { IsErr result
            → TakesMemory (effect_on source (token command.now) self.old.state) }
    {
        let kind = kind(command);
        let records = self.state.records(command);
        let last = if records {
            Last::Recorded(kind)
        } else {
            carried(kind, self.state.refusal(source, command, kind))
        };
        let effect = self.state.row(alloc, source, command, kind, records)?;
        self.step = self.step.saturating_add(1);
        self.last = last;
        Ok(effect)
    }

    /// Takes a command where it does no more than change the state, and answers whether it does. Where it is another, nothing changes.
    #[inline(always)]
    pub fn change(&mut self, alloc: Global, command: &Command<'_>) -> Result<bool, AllocError>
        ensures changes { IfOk result (λ changes.
            ChangesOrStays changes (token command.now) self.old self.new) }
        ensures memory { IsErr result → (source : Source)
            → TakesMemory (effect_on source (token command.now) self.old.state) }
    {
        let kind = kind(command);
        let Changed::Took(refusal) = self.state.change(alloc, command, kind)? else {
            return Ok(false);
        };
        self.step = self.step.saturating_add(1);
        self.last = carried(kind, refusal);
        Ok(true)
    }

    /// The body of a macro starts.
    pub fn enter_body(&mut self, end: &BodyEnd)
        ensures { self.new ≡ enter_body end.now self.old.state self.old }
    {
        self.state.start_body(end);
        self.depth = self.depth.saturating_add(1);
    }

    /// The body of a macro is used up; so many bodies run then.
    pub fn leave_body(&mut self, end: BodyEnd, depth: u8)
        ensures { self.new ≡ leave_body end depth self.old }
    {
        self.state.end_body(end);
        self.depth = depth;
    }
}
