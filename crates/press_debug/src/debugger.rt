//! A debugger of streams: steps, breakpoints and a watch.

ghost use Rattle.std.specs.Prelude.{◌≡◌, IfErr, IfOk, IfSome};
ghost use Rattle.press_devices.specs.Reading.{ReadFails};
ghost use Rattle.press_engine.specs.Engine.{view_of};
ghost use Rattle.press_debug.specs.declared.fault.OpenError.{OpenError};

use crate::breakpoints::{Break, Breakpoints};
use crate::fault::{BreakError, OpenError};
use crate::stepper::{Stepper, Taken};
use crate::watch::Watch;
use press_cmd::Kind;
use press_devices::ReadDevice;
use press_engine::View;
use std::alloc::{AllocError, Global};

/// Why a debugger stands where it does.
#[derive(Clone, Copy, Debug, PartialEq, Eq)]
pub enum Stop {
    /// The state meets the breakpoint of this number, and none of a smaller one; `WATCH` is the watch.
    AtBreak(u8),
    /// The step that was asked for was taken.
    Stepped,
    /// No step is left.
    Ended,
    /// As many steps were taken as were asked for, and none of their states met a breakpoint.
    LimitReached,
    /// Memory ran out in a step, or did so before.
    Failed,
}

/// The number of the watch among the breakpoints.
pub const WATCH: u8 = 32;

/// A debugger of a stream. Contracts see what of the stream was taken, the table of breakpoints, and the watch.
///
/// After `Failed` it answers `Failed` from then on.
#[derive(Drop)]
pub struct Debugger<F> {
    stepper: Stepper,
    breaks: Breakpoints,
    watch: Watch<F>,
}

impl<F: Fn(&View<'_>) -> bool + Drop> Debugger<F> {
    ghost use Rattle.std.specs.Prelude.{◌≤◌, ◌↔◌, ℕ, List, length, slice_get, None};
    ghost use Rattle.press_engine.specs.Machine.{StepResult};
    ghost use Rattle.press_debug.specs.Places.{ShowsItem, StandsBehind};
    ghost use Rattle.std.specs.Fn.{FnReturnsAt};
    ghost use Rattle.press_debug.specs.Breaks.{most_breaks, no_breaks, Sets, Clears};
    ghost use Rattle.press_debug.specs.Steps.{at_start, IsReadAtStart, most_recent};
    ghost use Rattle.press_debug.specs.Stops.{ContinuesTo, StopsInto, StopsOver, StateMeets};

    /// A debugger of the stream of these bytes, before its first step.
    ///
    /// # Errors
    ///
    /// Where memory ran out.
    pub fn open(alloc: Global, bytes: &[u8], watch: Watch<F>) -> Result<Self, AllocError>
        ensures stepper { IfOk result (λ debugger. debugger.stepper ≡ at_start bytes.now) }
        ensures breaks { IfOk result (λ debugger. debugger.breaks ≡ no_breaks) }
        ensures watch { IfOk result (λ debugger. debugger.watch ≡ watch) }
    {
        Ok(Debugger {
            stepper: Stepper::open(alloc, bytes)?,
            breaks: Breakpoints::new(),
            watch,
        })
    }

    /// A debugger of the stream that a reader has, read to its end, before its first step. Its bytes are held once.
    ///
    /// # Errors
    ///
    /// `ReadFault` (304): a read failed, or there were too many. `NoMemory`.
    pub fn read<R: ReadDevice>(
        alloc: Global,
        reader: &mut R,
        watch: Watch<F>,
    ) -> Result<Self, OpenError>
        ensures stepper { IfOk result (λ debugger. IsReadAtStart
            (R.remaining reader.old) (R.remaining reader.new) debugger.stepper) }
        ensures breaks { IfOk result (λ debugger. debugger.breaks ≡ no_breaks) }
        ensures watch { IfOk result (λ debugger. debugger.watch ≡ watch) }
        ensures cause { IfErr result (λ why. why ≡ OpenError.ReadFault
            → ReadFails (R.failed reader.new) (R.reads reader.new)) }
    {
        Ok(Debugger {
            stepper: Stepper::read(alloc, reader)?,
            breaks: Breakpoints::new(),
            watch,
        })
    }

    /// Takes one step, into a body that it starts.
    pub fn step_into(&mut self) -> Stop
        ensures steps { StopsInto self.old.stepper result self.new.stepper }
        ensures breaks { self.new.breaks ≡ self.old.breaks }
        ensures watch { self.new.watch ≡ self.old.watch }
        ensures failed { self.old.stepper.job.machine ≡ None → result ≡ Stop.Failed }
        ensures unchanged { self.old.stepper.job.machine ≡ None
            → self.new.stepper ≡ self.old.stepper }
        ensures lost { (result ≡ Stop.Failed) ↔ (self.new.stepper.job.machine ≡ None) }
    {
        match self.stepper.take() {
            Taken::Steps => Stop::Stepped,
            Taken::Nothing => Stop::Ended,
            Taken::Fault => Stop::Failed,
        }
    }

    /// Takes steps to the first state in which no more bodies run than now, whatever breakpoints the states before it meet.
    pub fn step_over(&mut self) -> Stop
        ensures steps { StopsOver self.old.stepper result self.new.stepper }
        ensures breaks { self.new.breaks ≡ self.old.breaks }
        ensures watch { self.new.watch ≡ self.old.watch }
        ensures failed { self.old.stepper.job.machine ≡ None → result ≡ Stop.Failed }
        ensures unchanged { self.old.stepper.job.machine ≡ None
            → self.new.stepper ≡ self.old.stepper }
        ensures lost { (result ≡ Stop.Failed) ↔ (self.new.stepper.job.machine ≡ None) }
    {
        match self.stepper.over() {
            Taken::Steps => Stop::Stepped,
            Taken::Nothing => Stop::Ended,
            Taken::Fault => Stop::Failed,
        }
    }

    /// Takes at most so many steps, to the first state that one of them gives and that meets a breakpoint or the watch.
    pub fn go(&mut self, max: u64) -> Stop
        requires { F.IsAlwaysCallable self.old.watch.test }
        ensures goes { ContinuesTo (FnReturnsAt F.Fn self.old.watch.test) self.old.breaks
            self.old.stepper max result self.new.stepper }
        ensures breaks { self.new.breaks ≡ self.old.breaks }
        ensures watch { self.new.watch ≡ self.old.watch }
        ensures failed { self.old.stepper.job.machine ≡ None → result ≡ Stop.Failed }
        ensures unchanged { self.old.stepper.job.machine ≡ None
            → self.new.stepper ≡ self.old.stepper }
        ensures lost { (result ≡ Stop.Failed) ↔ (self.new.stepper.job.machine ≡ None) }
    {
        if self.stepper.has_failed() {
            return Stop::Failed;
        }
        for _step in 0..max {
            match self.stepper.take() {
                Taken::Steps => {}
                Taken::Nothing => return Stop::Ended,
                Taken::Fault => return Stop::Failed,
            }
            if let Some(number) = self.met() {
                return Stop::AtBreak(number);
            }
        }
        if self.stepper.ended() {
            Stop::Ended
        } else {
            Stop::LimitReached
        }
    }

    /// The least number of what the state of now meets, the watch among them.
    fn met(&self) -> Option<u8>
        requires { F.IsAlwaysCallable self.now.watch.test }
        ensures { IfSome self.now.stepper.job.machine (λ machine.
            StateMeets (FnReturnsAt F.Fn self.now.watch.test) self.now.breaks result machine) }
    {
        let view = self.stepper.view();
        match self.breaks.met(&view) {
            Some(number) => Some(number),
            None if self.watch.meets(&view) => Some(WATCH),
            None => None,
        }
    }

    /// Sets a breakpoint at the lowest free number.
    ///
    /// # Errors
    ///
    /// `TooMany` (501): no number is free, and nothing changes.
    pub fn break_on(&mut self, one: Break) -> Result<u8, BreakError>
        ensures sets { Sets self.old.breaks one result self.new.breaks }
        ensures stepper { self.new.stepper ≡ self.old.stepper }
        ensures watch { self.new.watch ≡ self.old.watch }
    {
        self.breaks.set(one)
    }

    /// Frees the number of a breakpoint.
    ///
    /// # Errors
    ///
    /// `NoSuch` (502): no breakpoint stands there, and nothing changes.
    pub fn clear(&mut self, number: u8) -> Result<(), BreakError>
        ensures clears { Clears self.old.breaks number result self.new.breaks }
        ensures numbers { length self.old.breaks ≡ most_breaks }
        ensures stepper { self.new.stepper ≡ self.old.stepper }
        ensures watch { self.new.watch ≡ self.old.watch }
    {
        self.breaks.clear(number)
    }

    /// What can be seen of the state of now: behind k steps that of item k of the trace, by its number. After `Failed` nothing is said.
    pub fn state(&self) -> View<'_>
        ensures view { IfSome self.now.stepper.job.machine (λ machine.
            result ≡ view_of result.stack machine) }
        ensures stack { IfSome self.now.stepper.job.machine
            (λ machine. result.stack.now ≡ machine.state.cursor.stack) }
        ensures item { (bytes : List ℕ) (items : List StepResult)
            → StandsBehind bytes items self.now.stepper → ShowsItem result items }
    {
        self.stepper.view()
    }

    /// The kind of one of the last 64 commands that were taken, the oldest at 0. A recorded command has its own kind.
    pub fn recent(&self, index: usize) -> Option<Kind>
        ensures kind { result ≡ slice_get self.now.stepper.recent index }
        ensures few { length self.now.stepper.recent ≤ most_recent }
    {
        self.stepper.recent(index)
    }
}
