//! Breakpoints, and the table of their numbers.
ghost use Rattle.std.specs.Prelude.{◌≡◌, ◌<◌, Some, None};
ghost use Rattle.press_debug.specs.Breaks.{same_kind};

use crate::fault::BreakError;
use press_cmd::Kind;
use press_engine::{Last, View};
use std::marker::Model;

/// How many breakpoints there may be.
pub const MOST_BREAKS: usize = 32;

/// Where to stop.
#[derive(Clone, Copy, Debug, PartialEq, Eq)]
pub enum Break {
    /// Where the last step took a command of this kind, and did not record it.
    Kind(Kind),
    /// Behind so many steps.
    Step(u64),
    /// Where at least so many sheets were delivered.
    Sheets(u64),
}

/// Whether two kinds are the same.
fn is_same_kind(one: Kind, other: Kind) -> bool
    ensures { result ≡ same_kind one other }
{
    one == other
}

impl Break {
    ghost use Rattle.press_debug.specs.Breaks.{meets};

    /// Whether what is seen meets it.
    fn meets(self, view: &View<'_>) -> bool
        ensures { result ≡ meets self view.now }
    {
        match self {
            Break::Kind(kind) => match view.last {
                Last::Ran(last) | Last::Refused(last, _) => is_same_kind(last, kind),
                _ => false,
            },
            Break::Step(step) => view.step == step,
            Break::Sheets(count) => view.sheets >= count,
        }
    }
}

/// The table of breakpoints. Contracts see what stands at each number.
#[derive(Drop)]
pub struct Breakpoints {
    table: [Option<Break>; MOST_BREAKS],
}

impl Model for Breakpoints {
    ghost use Rattle.std.specs.Prelude.{◌≡◌, List, Option, length};
    ghost use Rattle.press_debug.specs.declared.breakpoints.Break.{Break};

    ghost Value = { List (Option Break) };

    ghost view = { λ breaks. breaks.table };

    ghost invariant = { λ breaks. length breaks.table ≡ 32 };
}

impl Breakpoints {
    ghost use Rattle.std.specs.Prelude.{length};
    ghost use Rattle.press_debug.specs.Breaks.{most_breaks, no_breaks, Sets, Clears, met};

    /// A table with no breakpoint.
    pub fn new() -> Self
        ensures { result ≡ no_breaks }
    {
        Breakpoints {
            table: [None; MOST_BREAKS],
        }
    }

    /// Sets a breakpoint at the lowest free number.
    ///
    /// # Errors
    ///
    /// `TooMany` (501): no number is free, and nothing changes.
    pub fn set(&mut self, one: Break) -> Result<u8, BreakError>
        ensures { Sets self.old one result self.new }
    {
        for number in 0..self.table.len() {
            if self.table[number].is_none() {
                self.table[number] = Some(one);
                return Ok(number as u8);
            }
        }
        Err(BreakError::TooMany)
    }

    /// Frees a number.
    ///
    /// # Errors
    ///
    /// `NoSuch` (502): no breakpoint stands there, and nothing changes.
    pub fn clear(&mut self, number: u8) -> Result<(), BreakError>
        ensures clears { Clears self.old number result self.new }
        ensures numbers { length self.old ≡ most_breaks }
    {
        let number = usize::from(number);
        match self.table.get(number) {
            Some(Some(_)) => {
                self.table[number] = None;
                Ok(())
            }
            _ => Err(BreakError::NoSuch),
        }
    }

    /// The least number of a breakpoint that is met.
    pub fn met(&self, view: &View<'_>) -> Option<u8>
        ensures { result ≡ met self.now view.now }
    {
        for number in 0..self.table.len() {
            if let Some(one) = self.table[number]
                && one.meets(view)
            {
                return Some(number as u8);
            }
        }
        None
    }
}
