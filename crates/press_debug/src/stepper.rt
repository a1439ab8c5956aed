//! A stream whose end was given, carried out step by step (PCL 5 Printer Language Technical Reference Manual, Macros).

ghost use Rattle.std.specs.Prelude.{◌≡◌, IfErr, IfOk, IfSome, List, OnOk, ℕ};
ghost use Rattle.std.specs.Io.KnownBytes.{Consumes, IsAtEnd};
ghost use Rattle.press_devices.specs.Reading.{ReadFails};
ghost use Rattle.press_engine.specs.Engine.{view_of};
ghost use Rattle.press_stream.specs.State.{IsOver, opened, with_piece};
ghost use Rattle.press_debug.specs.declared.fault.OpenError.{OpenError};

use crate::fault::OpenError;
use circular_buffer::HeapCircularBuffer;
use press_canvas::Canvas;
use press_cmd::Kind;
use press_devices::{PIECE, ReadCount, ReadDevice, read_next};
use press_engine::View;
use press_engine::trace_laws::{at_most_four_bodies, trace_tells_the_run};
use press_stream::call_laws::what_is_left;
use press_stream::{Job, JobStep};
use std::alloc::{AllocError, Global};
use std::marker::Model;

/// How many kinds of commands are kept.
pub const RECENT: usize = 64;

/// What a call of a stepper did.
#[derive(Clone, Copy, Debug, PartialEq, Eq)]
pub enum Taken {
    /// It took steps.
    Steps,
    /// No step was left.
    Nothing,
    /// Memory ran out in a step, or did so before.
    Fault,
}

/// A stream whose end was given, carried out step by step. Contracts see its job, and the kinds of the last commands that it
/// took, oldest first.
#[derive(Drop)]
pub struct Stepper {
    job: Job,
    recent: HeapCircularBuffer<Kind>,
    failed: bool,
}

impl Model for Stepper {
    ghost use Rattle.std.specs.Coded.{codes};
    ghost use Rattle.press_cmd.specs.contracts.variant.Kind as kinds;
    ghost use Rattle.press_stream.specs.contracts.job.Job as jobs;
    ghost use Rattle.press_debug.specs.Steps.{DebuggerState, IsSound};

    ghost Value = { DebuggerState };

    ghost coded = { Prim.hlevel (codes, jobs.the_row.coded, kinds.the_row.coded) };

    ghost view = { λ stepper. record { job = stepper.job; recent = stepper.recent.items } };

    ghost invariant = { λ stepper. IsSound stepper.job stepper.recent stepper.failed };
}

impl Stepper {
    ghost use Rattle.std.specs.Prelude.{◌≤◌, length, slice_get, IsTrue, IsFalse, IsSome, None, ◌↔◌, [], option_map};
    ghost use Rattle.press_debug.specs.declared.stepper.Taken.TheVariants.{Steps, Nothing, Fault};
    ghost use Rattle.press_debug.specs.Steps.{at_start, IsReadAtStart, Advances, TakesOne, TakesOver, IsOutside, IsDeeper, IsBack, Remains, most_recent};

    /// A stream of these bytes, of which no step was taken.
    pub fn open(alloc: Global, bytes: &[u8]) -> Result<Self, AllocError>
        ensures { IfOk result (λ stepper. stepper ≡ at_start bytes.now) }
    {
        let mut job = Job::open(alloc)?;
        if job.push(bytes).is_err() {
            return Err(AllocError);
        }
        Stepper::of(alloc, job)
    }

    /// The stream that a reader has, read to its end, of which no step was taken. Its bytes are held once.
    ///
    /// # Errors
    ///
    /// `ReadFault` (304): a read failed, or there were too many. `NoMemory`.
    pub fn read<R: ReadDevice>(alloc: Global, reader: &mut R) -> Result<Self, OpenError>
        ensures stream { IfOk result
            (IsReadAtStart (R.remaining reader.old) (R.remaining reader.new)) }
        ensures cause { IfErr result (λ why. why ≡ OpenError.ReadFault
            → ReadFails (R.failed reader.new) (R.reads reader.new)) }
    {
        let mut job = Job::open(alloc)?;
        push_all(&mut job, reader)?;
        Ok(Stepper::of(alloc, job)?)
    }

    /// The stream of a job that holds all its bytes, of which no step was taken.
    fn of(alloc: Global, mut job: Job) -> Result<Self, AllocError>
        requires { (bytes : List ℕ) × (job ≡ with_piece bytes opened) }
        ensures { IfOk result (λ stepper. (bytes : List ℕ) → job ≡ with_piece bytes opened
            → stepper ≡ at_start bytes) }
    {
        at_most_four_bodies();
        trace_tells_the_run();
        job.end_input();
        Ok(Stepper {
            job,
            recent: HeapCircularBuffer::with_capacity(alloc, RECENT)?,
            failed: false,
        })
    }

    /// Takes a step, if one is left. What goes out in it goes nowhere; the engine counts the sheets.
    pub fn take(&mut self) -> Taken
        ensures takes { TakesOne self.old result self.new }
        ensures none { result ≡ Nothing → Advances self.old [] self.new }
        ensures outside { result ≡ Nothing → IsOutside self.new.job }
        ensures failed { self.old.job.machine ≡ None → self.new ≡ self.old }
        ensures lost { (result ≡ Fault) ↔ (self.new.job.machine ≡ None) }
    {
        what_is_left();
        match self.job.take_step() {
            Ok(JobStep::Ran(step)) => {
                self.recent.push_back(step.kind);
                self.job.reuse(step.sent);
                Taken::Steps
            }
            Ok(JobStep::Hungry) => unreachable!(),
            Ok(JobStep::Ended) => Taken::Nothing,
            Err(_) => {
                self.failed = true;
                Taken::Fault
            }
        }
    }

    /// Takes steps to the first state of no greater depth.
    pub fn over(&mut self) -> Taken
        ensures takes { TakesOver self.old result self.new }
        ensures failed { self.old.job.machine ≡ None → self.new ≡ self.old }
        ensures lost { (result ≡ Fault) ↔ (self.new.job.machine ≡ None) }
    {
        let depth = self.depth();
        let mut taken = self.take();
        while self.is_deeper(taken, depth) {
            taken = self.take();
        }
        taken
    }

    /// Whether a step was taken, and to a state of a greater depth than this.
    fn is_deeper(&self, taken: Taken, depth: u8) -> bool
        ensures deeper { IsTrue result → (taken ≡ Steps) × IsDeeper self.now.job depth }
        ensures back { IsFalse result → taken ≡ Steps → IsBack self.now.job depth }
    {
        match taken {
            Taken::Steps => self.depth() > depth,
            _ => false,
        }
    }

    /// Whether no step is left.
    pub fn ended(&self) -> bool
        ensures over { IsTrue result ↔ IsOver self.now.job }
        ensures left { IsFalse result → Remains self.now.job }
        ensures none { IfSome self.now.job.machine (λ _. Advances self.now [] self.now) }
    {
        self.job.ended()
    }

    /// Whether memory ran out in a step.
    pub fn has_failed(&self) -> bool
        ensures failed { IsTrue result → self.now.job.machine ≡ None }
        ensures running { IsFalse result → IsSome self.now.job.machine }
    {
        self.failed
    }

    /// How many bodies run.
    fn depth(&self) -> u8
        ensures { IfSome self.now.job.machine (λ machine. result ≡ machine.depth) }
    {
        self.job.view().depth
    }

    /// What can be seen of the engine. Where memory ran out nothing is said.
    pub fn view(&self) -> View<'_>
        ensures view { IfSome self.now.job.machine (λ machine.
            result ≡ view_of result.stack machine) }
        ensures stack { IfSome self.now.job.machine
            (λ machine. result.stack.now ≡ machine.state.cursor.stack) }
    {
        self.job.view()
    }

    /// The page that is being printed; none is a blank page without a mark. Where memory ran out nothing is said.
    pub fn page(&self) -> Option<&Canvas>
        ensures { IfSome self.now.job.machine (λ machine.
            option_map (λ page. page.now) result ≡ machine.state.page) }
    {
        self.job.page()
    }

    /// The kind of one of the last commands that were taken, the oldest at 0.
    pub fn recent(&self, index: usize) -> Option<Kind>
        ensures kind { result ≡ slice_get self.now.recent index }
        ensures few { length self.now.recent ≤ most_recent }
    {
        self.recent.get(index).copied()
    }
}

/// Hands a job all that a reader has.
fn push_all<R: ReadDevice>(job: &mut Job, reader: &mut R) -> Result<(), OpenError>
    requires { job.old ≡ opened }
    ensures holds { OnOk result ((bytes : List ℕ)
        × Consumes (R.remaining reader.old) (R.remaining reader.new) bytes
        × IsAtEnd (R.remaining reader.new) × (job.new ≡ with_piece bytes opened)) }
    ensures cause { IfErr result (λ why. why ≡ OpenError.ReadFault
        → ReadFails (R.failed reader.new) (R.reads reader.new)) }
{
    let mut count = ReadCount::none();
    let mut piece = [0; PIECE];
    loop {
        let length = read_next(reader, &mut piece, &mut count)?;
        if length == 0 {
            return Ok(());
        }
        if job.push(&piece[..length]).is_err() {
            return Err(OpenError::NoMemory);
        }
    }
}
