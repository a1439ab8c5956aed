//! The engines of a press, and which entries they run (this profile).

ghost use Rattle.std.specs.Prelude.{◌≡◌, ◌<◌, if◌then◌else◌, None, Some, IfOk, IsTrue, is_ok, length, replicate, slice_get, slice_set, unwrap_or};
ghost use Rattle.press_core.specs.Engines.{are_engines, is_number, left_by};

use crate::fault::BAD_ENGINES;
use press_units::ToldFault;
use std::error::Error;
use std::fmt;
use std::marker::Model;

/// The most engines that a press has.
pub const MOST_ENGINES: usize = 4;

/// A press has one to four engines.
#[derive(Debug, Drop)]
pub struct BadEngines;

impl BadEngines {
    ghost use Rattle.press_core.specs.TurnErrors.{bad_engines};

    /// Its number: 701.
    pub fn number(&self) -> u16
        ensures { result ≡ bad_engines }
    {
        BAD_ENGINES
    }
}

impl fmt::Display for BadEngines {
    ghost use Rattle.press_units.specs.Faults.{fault_text};
    ghost use Rattle.press_core.specs.TurnErrors.{bad_engines};

    ghost output = { λ error. Some (fault_text (Some bad_engines)) };

    fn fmt<W: fmt::Write>(&self, f: &mut fmt::Formatter<W>) -> fmt::Result {
        write!(f, "{}", ToldFault(Some(self.number())))
    }
}

impl Error for BadEngines {}

/// The engines of a press. Contracts see for each the number of the entry that it runs, if it runs one.
#[derive(Drop)]
pub(crate) struct Engines {
    running: [Option<u64>; MOST_ENGINES],
    count: usize,
}

impl Model for Engines {
    ghost use Rattle.std.specs.Prelude.{◌≡◌, ◌≤◌, ℕ, List, Option, length, take};

    ghost Value = { List (Option ℕ) };

    ghost view = { λ engines. take engines.count engines.running };

    ghost invariant = { λ engines. (length engines.running ≡ 4)
        × (1 ≤ engines.count) × (engines.count ≤ 4) };
}

impl Engines {
    /// So many engines, none of which runs an entry.
    ///
    /// # Errors
    ///
    /// [`BadEngines`] (701) unless they are 1 to 4.
    pub fn new(count: u64) -> Result<Self, BadEngines>
        ensures ok { IfOk result (λ engines. engines ≡ replicate count None) }
        ensures are { is_ok result ≡ are_engines count }
    {
        if count == 0 || count > MOST_ENGINES as u64 {
            return Err(BadEngines);
        }
        Ok(Engines {
            running: [None; MOST_ENGINES],
            count: count as usize,
        })
    }

    /// How many there are.
    pub fn count(&self) -> u64
        ensures count { result ≡ length self.now }
        ensures are { IsTrue (are_engines result) }
    {
        self.count as u64
    }

    /// The entry that an engine runs, if it runs one; of an engine that is not there none.
    pub fn running(&self, engine: u64) -> Option<u64>
        ensures { result ≡ unwrap_or (slice_get self.now engine) None }
    {
        if engine < self.count as u64 {
            self.running[engine as usize]
        } else {
            None
        }
    }

    /// An engine runs an entry from now on.
    pub fn run(&mut self, engine: u64, number: u64)
        requires { engine < length self.old }
        ensures { self.new ≡ slice_set self.old engine (Some number) }
    {
        prove!(engine < self.count as u64);
        self.running[engine as usize] = Some(number);
    }

    /// An entry leaves its engine, if it is on one.
    pub fn leave(&mut self, number: u64)
        ensures { self.new ≡ left_by number self.old }
    {
        for engine in 0..self.count {
            self.running[engine] = after_leaving(number, self.running[engine]);
        }
    }
}

/// What an engine runs once an entry left it, if it ran that.
fn after_leaving(number: u64, running: Option<u64>) -> Option<u64>
    ensures { result ≡ (if is_number number running then None else running) }
{
    if running == Some(number) {
        None
    } else {
        running
    }
}
