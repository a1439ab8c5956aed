//! A stream that is carried out as its pieces come.

use crate::carrying::{pass, take, take_on};
use crate::fault::JobError;
use crate::phase::Phase;
use crate::step::{JobStep, Step};
use press_canvas::Canvas;
use press_devices::{PIECE, ReadCount, ReadDevice, read_next};
use press_engine::{Engine, Sent, View};
use press_scan::Scanner;
use press_sink::{ReplySink, SheetSink};
use std::alloc::{AllocError, Global};
use std::marker::Model;

/// A stream that is carried out as its pieces come: what a scanner finds in them is handed to an engine.
///
/// Contracts see what the scanner holds, the engine's machine (none once the job has failed), the bodies that run in it, and
/// whether the universal exit that is added at the end of the stream was taken. Each call speaks from what was held before it;
/// the law `laws::chain` says that what went out is then that of all bytes handed in.
///
/// Every call that is lent sinks delivers sheets under the tag. After `SinkFault` (301), `ReplyFault` (302), `ReadFault`
/// (304) and `NoMemory` the job has failed, and answers `Failed` (303) from then on.
#[derive(Drop)]
pub struct Job {
    scanner: Scanner,
    engine: Engine,
    phase: Phase,
}

impl Model for Job {
    ghost use Rattle.press_stream.specs.State.{JobState, job_state, Fits};
    ghost use Rattle.std.specs.Coded.{codes};
    ghost use Rattle.press_engine.specs.contracts.activation.Activation as activation;
    ghost use Rattle.press_engine.specs.contracts.machine.Machine as machine;

    ghost Value = { JobState };

    ghost coded = { Prim.hlevel (codes, machine.the_row.coded, activation.the_row.coded) };

    ghost view = { λ job. job_state job.scanner job.engine job.phase };

    ghost invariant = { λ job. Fits job.scanner job.engine job.phase };
}

impl Job {
    ghost use Rattle.std.specs.Prelude.{◌≡◌, ◌≢◌, ◌<◌, ◌≤◌, ◌↔◌, ℕ, List, [], length, take, true, false, None, IfOk, IfErr, OnErr, OnOk, IfSome, IsTrue, IsSome, IsErrOf, MatchResult, option_map};
    ghost use Rattle.press_sink.specs.SinkLog.{logs, HasFaultRoom, under};
    ghost use Rattle.press_sink.specs.Sending.{HandsOut, WentOut};
    ghost use Rattle.press_engine.specs.Engine.{view_of};
    ghost use Rattle.press_engine.specs.Machine.{StepResult};
    ghost use Rattle.press_table.specs.Outputs.{all_outputs};
    ghost use Rattle.press_engine.specs.Stack.{IsReady};
    ghost use Rattle.press_stream.specs.Left.{LeftWith};
    ghost use Rattle.press_stream.specs.State.{opened, with_piece, input_ended, most_commands, NeedsInput, IsOver, IsAfterEnd};
    ghost use Rattle.press_stream.specs.Steps.{PassesOrStays};
    ghost use Rattle.press_stream.specs.Answers.{fault_of, ending_by, Pushes, IsGoing, IsEarly, IsStill, StandsStill, TakesStep, Takes, WantsMemory, CarriesOrStops, TakesOn, StepsOn, IsIdle, ComesToWant, Feeds, Finishes, RunsReader, Answered};
    ghost use Rattle.press_devices.specs.Reading.{most_reads, no_reads, HasFault, ReadFails};

    /// A job at the beginning of a stream, with an engine after power on.
    ///
    /// # Errors
    ///
    /// Where memory ran out.
    pub fn open(alloc: Global) -> Result<Self, AllocError>
        ensures { IfOk result (λ job. job ≡ opened) }
    {
        let mut scanner = Scanner::new(alloc);
        scanner.reserve()?;
        Ok(Job {
            scanner,
            engine: Engine::power_on(alloc)?,
            phase: Phase::Running,
        })
    }

    /// Takes the next piece of the stream, and carries nothing out.
    ///
    /// # Errors
    ///
    /// `Failed` (303); `AfterEnd` (305): the end of input was given, and nothing changes. After `NoMemory` the job has failed.
    pub fn push(&mut self, piece: &[u8]) -> Result<(), JobError>
        ensures pushes { Pushes self.old piece.now result self.new }
        ensures failed { IsErrOf result JobError.Failed ↔ (self.old.machine ≡ None) }
        ensures unchanged { IsEarly result → self.new ≡ self.old }
        ensures lost { IfErr result
            (λ error. error ≢ JobError.AfterEnd → self.new.machine ≡ None) }
    {
        self.check_going()?;
        if self.scanner.feed(piece).is_err() {
            self.phase = Phase::Failed;
            return Err(JobError::NoMemory);
        }
        Ok(())
    }

    /// Gives the end of input: what is held is closed, and one universal exit comes after it.
    pub fn end_input(&mut self)
        ensures { self.new ≡ input_ended self.old }
    {
        self.scanner.end_input();
    }

    /// Takes a table step, and answers what goes out in it: one command of the innermost body that runs, or, where none runs, of
    /// the stream. In the same step each innermost body that is used up ends, and a page close that waited for its overlay is
    /// finished. After the end of input the last command of the stream is the universal exit that is added. `Hungry`: no whole
    /// command is there, and no body runs; `Ended`: no step is left; neither changes anything.
    ///
    /// Source: PCL 5 Printer Language Technical Reference Manual, Macros.
    ///
    /// # Errors
    ///
    /// `Failed` (303). After `NoMemory` the job has failed, and nothing goes out.
    #[inline(always)]
    pub fn take_step(&mut self) -> Result<JobStep, JobError>
        ensures takes { TakesStep self.old result self.new }
        ensures ready { IsReady self.old.bodies }
    {
        if !self.is_idle() {
            return self.take_inside();
        }
        match self.phase {
            Phase::Failed => Err(JobError::Failed),
            Phase::Exited => Ok(JobStep::Ended),
            Phase::Running => {
                let answer = take(&mut self.scanner, &mut self.engine, &mut self.phase);
                if answer.is_err() {
                    self.phase = Phase::Failed;
                }
                answer
            }
        }
    }

    /// Takes the next command of the innermost body that runs.
    #[inline(always)]
    fn take_inside(&mut self) -> Result<JobStep, JobError>
        requires { self.old.bodies ≢ [] }
        ensures takes { TakesStep self.old result self.new }
    {
        match self.engine.take_inner() {
            Ok(step) => Ok(JobStep::Ran(step)),
            Err(fault) => {
                self.phase = Phase::Failed;
                Err(JobError::from(fault))
            }
        }
    }

    /// Takes the next commands of the stream at once, as long as no body runs and each has one byte and no effect, and answers how many: each
    /// is a table step, and nothing goes out. It may end before such a command, too.
    #[inline(always)]
    pub fn pass(&mut self) -> usize
        ensures { PassesOrStays self.old result self.new }
    {
        match self.phase {
            Phase::Running if self.engine.needs_command() => {
                pass(&mut self.scanner, &mut self.engine)
            }
            _ => 0,
        }
    }

    /// Hands what goes out in a step to the sinks, in order: each sheet in its copies, and the replies.
    ///
    /// # Errors
    ///
    /// `SinkFault` (301) and `ReplyFault` (302): a sink had a fault, and nothing came after it. `NoMemory`, where something goes out.
    /// The job has failed then.
    #[inline(always)]
    pub fn hand_over<S: SheetSink, P: ReplySink>(
        &mut self,
        sent: &[Sent],
        tag: u64,
        sheets: &mut S,
        replies: &mut P,
    ) -> Result<(), JobError>
        requires { HasFaultRoom (logs (S.told sheets.old) (P.told replies.old)) }
        ensures hands { WentOut tag (all_outputs sent.now) (ending_by (fault_of result))
            (logs (S.told sheets.old) (P.told replies.old))
            (logs (S.told sheets.new) (P.told replies.new)) }
        ensures left { MatchResult result
            (λ _. self.new ≡ self.old)
            (λ _. self.new.machine ≡ None) }
        ensures memory { IsErrOf result JobError.NoMemory → all_outputs sent.now ≢ [] }
    {
        match self.engine.hand_over(sent, tag, sheets, replies) {
            Ok(()) => Ok(()),
            Err(fault) => {
                self.phase = Phase::Failed;
                Err(JobError::from(fault))
            }
        }
    }

    /// Takes the memory of what went out, for the pages that come. Nothing changes that can be seen.
    pub fn reuse(&mut self, sent: Vec<Sent>)
        ensures { self.new ≡ self.old }
    {
        self.engine.reuse(sent);
    }

    /// Takes a table step as [`Job::take_step`] does, and hands what goes out in it to the sinks. `Hungry` is answered exactly where no
    /// item of the trace of the bytes handed in is left and the end of input was not given, `Ended` exactly where no step is left.
    ///
    /// Source: PCL 5 Printer Language Technical Reference Manual, Macros.
    ///
    /// # Errors
    ///
    /// `SinkFault` (301) and `ReplyFault` (302): a sink had a fault, and nothing came after it. `Failed` (303). `NoMemory`: a front of what
    /// goes out in the step did. The job has failed then, as at each of the others.
    pub fn step<S: SheetSink, P: ReplySink>(
        &mut self,
        tag: u64,
        sheets: &mut S,
        replies: &mut P,
    ) -> Result<Step, JobError>
        requires { HasFaultRoom (logs (S.told sheets.old) (P.told replies.old)) }
        ensures takes { HandsOut (ending_by (fault_of result)) (Takes self.old result self.new)
            (under tag (logs (S.told sheets.old) (P.told replies.old))
            (logs (S.told sheets.new) (P.told replies.new))) }
        ensures still { IsStill result
            → logs (S.told sheets.new) (P.told replies.new)
            ≡ logs (S.told sheets.old) (P.told replies.old) }
        ensures stands { StandsStill self.old result }
        ensures memory { IsErrOf result JobError.NoMemory → WantsMemory self.old }
        ensures answered { Answered self.old result self.new
            (logs (S.told sheets.old) (P.told replies.old))
            (logs (S.told sheets.new) (P.told replies.new)) }
        ensures lost { OnErr result (self.new.machine ≡ None) }
    {
        match self.take_step()? {
            JobStep::Ran(step) => {
                self.hand_over(&step.sent, tag, sheets, replies)?;
                self.reuse(step.sent);
                Ok(Step::Ran(step.kind))
            }
            JobStep::Hungry => Ok(Step::Hungry),
            JobStep::Ended => Ok(Step::Ended),
        }
    }

    /// Whether no step is left. Before the end of input, and in a job that has failed, it is false.
    pub fn ended(&self) -> bool
        ensures over { IsTrue result ↔ IsOver self.now }
        ensures left { (bytes : List ℕ) (items : List StepResult) → LeftWith self.now bytes items
            → IsTrue result ↔ (items ≡ []) }
    {
        match self.phase {
            Phase::Exited => self.is_idle(),
            _ => false,
        }
    }

    /// Whether no body runs: the next step takes a command of the stream.
    pub fn is_idle(&self) -> bool
        ensures none { IsTrue result ↔ (self.now.bodies ≡ []) }
        ensures ready { IsReady self.now.bodies }
    {
        matches!(self.phase, Phase::Failed) || self.engine.needs_command()
    }

    /// How many bytes are held that stand in no command which was taken.
    pub fn held(&self) -> usize
        ensures { result ≡ length self.now.held.bytes }
    {
        self.scanner.held()
    }

    /// What can be seen of the engine. Of a job that has failed nothing is said.
    pub fn view(&self) -> View<'_>
        ensures view { IfSome self.now.machine (λ machine.
            result ≡ view_of result.stack machine) }
        ensures stack { IfSome self.now.machine
            (λ machine. result.stack.now ≡ machine.state.cursor.stack) }
    {
        self.engine.view()
    }

    /// The page that is being printed; none is a blank page without a mark. Of a job that has failed nothing is said.
    pub fn page(&self) -> Option<&Canvas>
        ensures { IfSome self.now.machine (λ machine.
            option_map (λ page. page.now) result ≡ machine.state.page) }
    {
        self.engine.page()
    }

    /// Takes the next piece of the stream, and carries out the commands so far: those of all bytes handed in.
    ///
    /// # Errors
    ///
    /// `SinkFault` (301) and `ReplyFault` (302): a sink had a fault, and nothing came after it. `Failed` (303). `AfterEnd`
    /// (305): the end of input was given, and nothing changes. After `NoMemory` the job has failed, and what went out is a front of what
    /// the piece has go out.
    pub fn feed<S: SheetSink, P: ReplySink>(
        &mut self,
        piece: &[u8],
        tag: u64,
        sheets: &mut S,
        replies: &mut P,
    ) -> Result<(), JobError>
        requires { HasFaultRoom (logs (S.told sheets.old) (P.told replies.old)) }
        ensures feeds { HandsOut (ending_by (fault_of result))
            (Feeds self.old piece.now result self.new)
            (under tag (logs (S.told sheets.old) (P.told replies.old))
            (logs (S.told sheets.new) (P.told replies.new))) }
        ensures refused { IsAfterEnd self.old → IsErrOf result JobError.AfterEnd }
        ensures answered { Answered self.old result self.new
            (logs (S.told sheets.old) (P.told replies.old))
            (logs (S.told sheets.new) (P.told replies.new)) }
    {
        self.check_going()?;
        self.drain(tag, sheets, replies)?;
        self.feed_by_parts(piece, tag, sheets, replies)
    }

    /// Takes the front of a piece into reserved memory: all of it, or as much as there is room for.
    fn take(&mut self, piece: &[u8]) -> usize
        requires { NeedsInput self.old }
        ensures within { result ≤ length piece.now }
        ensures some { 0 < length piece.now → 0 < result }
        ensures taken { self.new ≡ with_piece (take result piece.now) self.old }
    {
        self.scanner.take(piece)
    }

    /// Takes a piece part by part, and carries out the commands of each part before the next one is taken.
    fn feed_by_parts<S: SheetSink, P: ReplySink>(
        &mut self,
        piece: &[u8],
        tag: u64,
        sheets: &mut S,
        replies: &mut P,
    ) -> Result<(), JobError>
        requires hungry { NeedsInput self.old }
        requires has_fault_room { HasFaultRoom (logs (S.told sheets.old) (P.told replies.old)) }
        ensures goes { HandsOut (ending_by (fault_of result))
            (CarriesOrStops self.old piece.now result self.new)
            (under tag (logs (S.told sheets.old) (P.told replies.old))
            (logs (S.told sheets.new) (P.told replies.new))) }
        ensures fed { OnOk result (NeedsInput self.new) }
    {
        let mut rest = piece;
        while !rest.is_empty() {
            let count = self.take(rest);
            rest = &rest[count..];
            self.drain(tag, sheets, replies)?;
        }
        Ok(())
    }

    /// Gives the end of input, and carries out all that is left: what closes the bytes handed in, and one universal exit.
    ///
    /// # Errors
    ///
    /// `SinkFault` (301) and `ReplyFault` (302): a sink had a fault, and nothing came after it. `Failed` (303). After `NoMemory` the job
    /// has failed, and what went out is a front of what was left.
    pub fn finish<S: SheetSink, P: ReplySink>(
        &mut self,
        tag: u64,
        sheets: &mut S,
        replies: &mut P,
    ) -> Result<(), JobError>
        requires { HasFaultRoom (logs (S.told sheets.old) (P.told replies.old)) }
        ensures finishes { HandsOut (ending_by (fault_of result))
            (Finishes self.old result self.new)
            (under tag (logs (S.told sheets.old) (P.told replies.old))
            (logs (S.told sheets.new) (P.told replies.new))) }
        ensures memory { IsErrOf result JobError.NoMemory → ComesToWant (input_ended self.old) }
        ensures answered { Answered self.old result self.new
            (logs (S.told sheets.old) (P.told replies.old))
            (logs (S.told sheets.new) (P.told replies.new)) }
        ensures lost { OnErr result (self.new.machine ≡ None) }
    {
        if matches!(self.phase, Phase::Failed) {
            return Err(JobError::Failed);
        }
        self.end_input();
        self.drain(tag, sheets, replies)
    }

    /// Reads the rest of a stream to its end, and carries it out piece by piece: the commands of a piece before the next one
    /// is read. It reads at most 4,294,967,295 times; a read that was interrupted is one of them.
    ///
    /// # Errors
    ///
    /// `SinkFault` (301) and `ReplyFault` (302): a sink had a fault, and nothing came after it. `Failed` (303) and `AfterEnd`
    /// (305), where the end of input was given: nothing was read. `ReadFault` (304): a read failed, or one more would be too
    /// many; the commands of the bytes so far were carried out. After `NoMemory` the job has failed, and what went out is a front of what
    /// the whole stream has go out.
    pub fn run<R: ReadDevice, S: SheetSink, P: ReplySink>(
        &mut self,
        reader: &mut R,
        tag: u64,
        sheets: &mut S,
        replies: &mut P,
    ) -> Result<(), JobError>
        requires { HasFaultRoom (logs (S.told sheets.old) (P.told replies.old)) }
        ensures runs { HandsOut (ending_by (fault_of result))
            (RunsReader self.old (R.remaining reader.old) (R.remaining reader.new) result self.new)
            (under tag (logs (S.told sheets.old) (P.told replies.old))
            (logs (S.told sheets.new) (P.told replies.new))) }
        ensures unread { IsEarly result → reader.new ≡ reader.old }
        ensures refused { IsAfterEnd self.old → IsErrOf result JobError.AfterEnd }
        ensures answered { Answered self.old result self.new
            (logs (S.told sheets.old) (P.told replies.old))
            (logs (S.told sheets.new) (P.told replies.new)) }
        ensures cause { IsErrOf result JobError.ReadFault
            → ReadFails (R.failed reader.new) (R.reads reader.new) }
    {
        self.run_counted(reader, &mut ReadCount::none(), tag, sheets, replies)
    }

    /// Reads the rest of a stream to its end, as [`Job::run`] does, and counts the reads, of which there were none.
    ///
    /// # Errors
    ///
    /// Those of [`Job::run`]. `ReadFault` (304) comes only where a read failed, or where the most were made and none gave no bytes.
    pub fn run_counted<R: ReadDevice, S: SheetSink, P: ReplySink>(
        &mut self,
        reader: &mut R,
        count: &mut ReadCount,
        tag: u64,
        sheets: &mut S,
        replies: &mut P,
    ) -> Result<(), JobError>
        requires none { count.old ≡ no_reads }
        requires has_fault_room { HasFaultRoom (logs (S.told sheets.old) (P.told replies.old)) }
        ensures runs { HandsOut (ending_by (fault_of result))
            (RunsReader self.old (R.remaining reader.old) (R.remaining reader.new) result self.new)
            (under tag (logs (S.told sheets.old) (P.told replies.old))
            (logs (S.told sheets.new) (P.told replies.new))) }
        ensures unread { IsEarly result → reader.new ≡ reader.old }
        ensures refused { IsAfterEnd self.old → IsErrOf result JobError.AfterEnd }
        ensures answered { Answered self.old result self.new
            (logs (S.told sheets.old) (P.told replies.old))
            (logs (S.told sheets.new) (P.told replies.new)) }
        ensures bound { count.new.reads ≤ most_reads }
        ensures fault { IsErrOf result JobError.ReadFault → HasFault count.new }
        ensures cause { IsErrOf result JobError.ReadFault
            → ReadFails (R.failed reader.new) (R.reads reader.new) }
    {
        self.check_going()?;
        self.read_through(reader, count, tag, sheets, replies)
    }

    /// The job has not failed, and the end of input was not given.
    fn check_going(&self) -> Result<(), JobError>
        ensures { IsGoing self.now result }
    {
        let ended = self.scanner.ended();
        match self.phase {
            Phase::Failed => Err(JobError::Failed),
            _ if ended => Err(JobError::AfterEnd),
            _ => Ok(()),
        }
    }

    /// Takes steps until no body runs.
    fn run_out<S: SheetSink, P: ReplySink>(
        &mut self,
        tag: u64,
        sheets: &mut S,
        replies: &mut P,
    ) -> Result<(), JobError>
        requires running { IsSome self.old.machine }
        requires has_fault_room { HasFaultRoom (logs (S.told sheets.old) (P.told replies.old)) }
        ensures runs_out { HandsOut (ending_by (fault_of result))
            (CarriesOrStops self.old [] result self.new)
            (under tag (logs (S.told sheets.old) (P.told replies.old))
            (logs (S.told sheets.new) (P.told replies.new))) }
        ensures idle { OnOk result ((self.new.bodies ≡ [])
            × (most_commands self.new ≤ most_commands self.old)
            × (self.new.held.ended ≡ self.old.held.ended)) }
        ensures memory { IsErrOf result JobError.NoMemory → ComesToWant self.old }
    {
        while !self.is_idle() {
            self.step_on(tag, sheets, replies)?;
        }
        Ok(())
    }

    /// Takes the next commands of the innermost body that runs at once, as long as each does no more than change the machine and another is
    /// left in it, and then a step.
    #[inline(always)]
    fn run_inside(&mut self) -> Result<JobStep, JobError>
        requires { self.old.bodies ≢ [] }
        ensures takes { TakesOn self.old result self.new }
    {
        match self.engine.run_inner() {
            Ok(step) => Ok(JobStep::Ran(step)),
            Err(fault) => {
                self.phase = Phase::Failed;
                Err(JobError::from(fault))
            }
        }
    }

    /// Takes the next commands at once, of the innermost body that runs or, where none runs, of the stream, as long as each does no more
    /// than change the machine, and then a step.
    #[inline(always)]
    fn take_on(&mut self) -> Result<JobStep, JobError>
        requires running { IsSome self.old.machine }
        ensures takes { TakesOn self.old result self.new }
    {
        if !self.is_idle() {
            return self.run_inside();
        }
        match self.phase {
            Phase::Running => {
                let answer = take_on(&mut self.scanner, &mut self.engine, &mut self.phase);
                if answer.is_err() {
                    self.phase = Phase::Failed;
                }
                answer
            }
            _ => self.take_step(),
        }
    }

    /// Takes the next commands as [`Job::take_on`] does, and hands what goes out in the last step to the sinks.
    fn step_on<S: SheetSink, P: ReplySink>(
        &mut self,
        tag: u64,
        sheets: &mut S,
        replies: &mut P,
    ) -> Result<Step, JobError>
        requires running { IsSome self.old.machine }
        requires has_fault_room { HasFaultRoom (logs (S.told sheets.old) (P.told replies.old)) }
        ensures { HandsOut (ending_by (fault_of result)) (StepsOn self.old result self.new)
            (under tag (logs (S.told sheets.old) (P.told replies.old))
            (logs (S.told sheets.new) (P.told replies.new))) }
    {
        match self.take_on()? {
            JobStep::Ran(taken) => {
                self.hand_over(&taken.sent, tag, sheets, replies)?;
                self.reuse(taken.sent);
                Ok(Step::Ran(taken.kind))
            }
            JobStep::Hungry => Ok(Step::Hungry),
            JobStep::Ended => Ok(Step::Ended),
        }
    }

    /// Takes steps until there is none to take.
    fn drain<S: SheetSink, P: ReplySink>(
        &mut self,
        tag: u64,
        sheets: &mut S,
        replies: &mut P,
    ) -> Result<(), JobError>
        requires running { IsSome self.old.machine }
        requires has_fault_room { HasFaultRoom (logs (S.told sheets.old) (P.told replies.old)) }
        ensures drains { HandsOut (ending_by (fault_of result))
            (CarriesOrStops self.old [] result self.new)
            (under tag (logs (S.told sheets.old) (P.told replies.old))
            (logs (S.told sheets.new) (P.told replies.new))) }
        ensures idle { OnOk result (IsIdle self.new × (self.new.held.ended ≡ self.old.held.ended)) }
        ensures memory { IsErrOf result JobError.NoMemory → ComesToWant self.old }
    {
        self.run_out(tag, sheets, replies)?;
        while let Step::Ran(_) = self.step_on(tag, sheets, replies)? {
            self.run_out(tag, sheets, replies)?;
        }
        Ok(())
    }

    /// Reads the rest of a stream piece by piece, and counts the reads.
    fn read_through<R: ReadDevice, S: SheetSink, P: ReplySink>(
        &mut self,
        reader: &mut R,
        count: &mut ReadCount,
        tag: u64,
        sheets: &mut S,
        replies: &mut P,
    ) -> Result<(), JobError>
        requires running { IsSome self.old.machine }
        requires going { self.old.held.ended ≡ false }
        requires none { count.old ≡ no_reads }
        requires has_fault_room { HasFaultRoom (logs (S.told sheets.old) (P.told replies.old)) }
        ensures runs { HandsOut (ending_by (fault_of result))
            (RunsReader self.old (R.remaining reader.old) (R.remaining reader.new) result self.new)
            (under tag (logs (S.told sheets.old) (P.told replies.old))
            (logs (S.told sheets.new) (P.told replies.new))) }
        ensures bound { count.new.reads ≤ most_reads }
        ensures fault { IsErrOf result JobError.ReadFault → HasFault count.new }
        ensures cause { IsErrOf result JobError.ReadFault
            → ReadFails (R.failed reader.new) (R.reads reader.new) }
    {
        self.drain(tag, sheets, replies)?;
        let mut piece = [0; PIECE];
        loop {
            let Ok(length) = read_next(reader, &mut piece, count) else {
                return Err(self.read_fault());
            };
            if length == 0 {
                return self.finish(tag, sheets, replies);
            }
            self.feed(&piece[..length], tag, sheets, replies)?;
        }
    }

    /// The job has failed, since a read failed or there were too many.
    fn read_fault(&mut self) -> JobError
        ensures failed { self.new.machine ≡ None }
        ensures fault { result ≡ JobError.ReadFault }
    {
        self.phase = Phase::Failed;
        JobError::ReadFault
    }
}
