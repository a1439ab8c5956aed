//! The command table at work, over sinks of sheets and replies.

use crate::bodies::Bodies;
use crate::fault::EngineError;
use crate::machine::Machine;
use crate::sender::send_all;
use crate::step_output::StepOutput;
use crate::view::View;
use press_canvas::Canvas;
use press_cmd::{Command, Kind};
use press_sink::{ReplySink, SheetSink};
use press_table::Sent;
use press_units::Pos;
use std::alloc::{AllocError, Global};

/// The command table at work: it carries commands out one after another, and hands sheets and replies to their sinks.
///
/// Source: PCL 5 Printer Language Technical Reference Manual, the commands by their sequences; PJL Technical Reference Manual,
/// the PJL commands. Which commands have a row, and what each row leaves, is this profile's.
#[derive(Drop)]
pub struct Engine {
    alloc: Global,
    /// On the heap, so that an engine is moved as cheaply as what holds it.
    machine: Box<Machine>,
    /// The bodies that run.
    bodies: Bodies,
    /// Whether an earlier command had a fault.
    failed: bool,
}

impl Engine {
    ghost use Rattle.std.specs.Prelude.{◌≡◌, ◌≢◌, ◌≤◌, ◌⊎◌, ◌↔◌, [], length, IsTrue, IfOk, IfErr, IfSome, IsErrOf, MatchResult, Some, None, option_map};
    ghost use Rattle.press_sink.specs.SinkLog.{logs, HasFaultRoom, under};
    ghost use Rattle.press_sink.specs.Sending.{WentOut};
    ghost use Rattle.press_cmd.specs.View.{token};
    ghost use Rattle.press_engine.specs.Machine.{power_on, macro_levels};
    ghost use Rattle.press_cmd.specs.Kinds.{kind_of};
    ghost use Rattle.press_engine.specs.TraceLaws.{most_bodies};
    ghost use Rattle.press_engine.specs.Stack.{HasNext, IsReady, continuation};
    ghost use Rattle.press_engine.specs.Trace.{trace_at};
    ghost use Rattle.press_table.specs.Outputs.{all_outputs};
    ghost use Rattle.press_table.specs.Passing.{SkipsBytes, SkipsControls};
    ghost use Rattle.press_engine.specs.Changing.{Changed};
    ghost use Rattle.press_engine.specs.Passing.{passed};
    ghost use Rattle.press_engine.specs.Running.{RunsInner, ComesToNeedMemory};
    ghost use Rattle.press_engine.specs.Engine.{machine_of, bodies, HasFailed, ending_of, Steps, Runs, TakesNext, NeedsMemory, InnerNeedsMemory, view_of};

    /// An engine after power on.
    ///
    /// # Errors
    ///
    /// Where memory ran out.
    pub fn power_on(alloc: Global) -> Result<Self, AllocError>
        ensures on { IfOk result (λ engine. machine_of engine ≡ Some power_on) }
        ensures none { IfOk result (λ engine. bodies engine ≡ []) }
    {
        Ok(Engine {
            alloc,
            machine: Box::new(alloc, Machine::power_on(alloc))?,
            bodies: Bodies::none(alloc),
            failed: false,
        })
    }

    /// Whether the next step is one of the stream: no body runs. At most four run at a time, and the innermost has a command.
    ///
    /// Source: PCL 5 Printer Language Technical Reference Manual, Macros, Macro Control.
    pub fn needs_command(&self) -> bool
        ensures none { IsTrue result ↔ (bodies self.now ≡ []) }
        ensures few { length (bodies self.now) ≤ most_bodies }
        ensures ready { IsReady (bodies self.now) }
    {
        self.failed || self.bodies.is_empty()
    }

    /// Takes a command of the stream, where no body runs: one step, which answers what goes out in it. Where the body of a
    /// macro starts, or an overlay before its page closes, that runs from then on: its commands are taken by
    /// [`Engine::take_inner`].
    ///
    /// Source: PCL 5 Printer Language Technical Reference Manual, Page Control Commands, and Macros.
    ///
    /// # Errors
    ///
    /// `NoMemory` where memory ran out: the engine has failed then, and answers `Failed` (303) from then on.
    #[inline(always)]
    pub fn take_step(&mut self, command: Command<'_>) -> Result<StepOutput, EngineError>
        requires none { bodies self.old ≡ [] }
        ensures steps { MatchResult result
            (λ step. Steps (machine_of self.old) (trace_at macro_levels (token command.entry)) step
            (machine_of self.new) (bodies self.new))
            (λ _. HasFailed self.new) }
        ensures kind { IfOk result (λ step. step.kind ≡ kind_of (token command.entry)) }
        ensures failed { IsErrOf result EngineError.Failed ↔ (machine_of self.old ≡ None) }
        ensures refused { IfErr result
            (λ error. (error ≡ EngineError.Failed) ⊎ (error ≡ EngineError.NoMemory)) }
        ensures memory { IsErrOf result EngineError.NoMemory →
            NeedsMemory (machine_of self.old) (token command.entry) }
    {
        if self.failed {
            return Err(EngineError::Failed);
        }
        let Ok(step) = self.bodies.step(&mut self.machine, self.alloc, command) else {
            self.failed = true;
            return Err(EngineError::NoMemory);
        };
        Ok(step)
    }

    /// Takes the first command that is left of the innermost body that runs: one step, which answers what goes out in it. In the
    /// same step each innermost body that is used up ends, and a page close that waited for its overlay is finished.
    ///
    /// Source: PCL 5 Printer Language Technical Reference Manual, Macros.
    ///
    /// # Errors
    ///
    /// As [`Engine::take_step`].
    #[inline(always)]
    pub fn take_inner(&mut self) -> Result<StepOutput, EngineError>
        requires running { bodies self.old ≢ [] }
        ensures steps { MatchResult result
            (λ step. Steps (machine_of self.old) (continuation (bodies self.old)) step
            (machine_of self.new) (bodies self.new))
            (λ _. HasFailed self.new) }
        ensures next { HasNext (bodies self.old) }
        ensures failed { IsErrOf result EngineError.Failed ↔ (machine_of self.old ≡ None) }
        ensures refused { IfErr result
            (λ error. (error ≡ EngineError.Failed) ⊎ (error ≡ EngineError.NoMemory)) }
        ensures memory { IsErrOf result EngineError.NoMemory →
            InnerNeedsMemory (machine_of self.old) (bodies self.old) }
    {
        if self.failed {
            return Err(EngineError::Failed);
        }
        let Ok(step) = self.bodies.step_inner(&mut self.machine, self.alloc) else {
            self.failed = true;
            return Err(EngineError::NoMemory);
        };
        Ok(step)
    }

    /// Takes the first commands that are left of the innermost body that runs at once, as long as each does no more than change the
    /// machine and another is left in it: each is one step, in which nothing goes out and no body starts or ends. Then it takes a step as
    /// [`Engine::take_inner`] does, and answers what goes out in that.
    ///
    /// Source: PCL 5 Printer Language Technical Reference Manual, Macros.
    ///
    /// # Errors
    ///
    /// As [`Engine::take_step`].
    #[inline(always)]
    pub fn run_inner(&mut self) -> Result<StepOutput, EngineError>
        requires running { bodies self.old ≢ [] }
        ensures runs { MatchResult result
            (λ step. RunsInner (machine_of self.old) (bodies self.old) step
            (machine_of self.new) (bodies self.new))
            (λ _. HasFailed self.new) }
        ensures failed { IsErrOf result EngineError.Failed ↔ (machine_of self.old ≡ None) }
        ensures refused { IfErr result
            (λ error. (error ≡ EngineError.Failed) ⊎ (error ≡ EngineError.NoMemory)) }
        ensures memory { IsErrOf result EngineError.NoMemory →
            ComesToNeedMemory (machine_of self.old) (bodies self.old) }
    {
        if self.failed {
            return Err(EngineError::Failed);
        }
        let Ok(step) = self.bodies.run_inner(&mut self.machine, self.alloc) else {
            self.failed = true;
            return Err(EngineError::NoMemory);
        };
        Ok(step)
    }

    /// Takes a command of the stream, where no body runs, if it does no more than change the machine, and answers whether it does: that
    /// is one step, in which nothing goes out and no body starts. Where it is another command, nothing changes.
    ///
    /// Source: PCL 5 Printer Language Technical Reference Manual, the commands by their sequences.
    ///
    /// # Errors
    ///
    /// As [`Engine::take_step`].
    #[inline(always)]
    pub fn change(&mut self, command: &Command<'_>) -> Result<bool, EngineError>
        requires none { bodies self.old ≡ [] }
        ensures changes { MatchResult result
            (λ changes. Changed changes (token command.now) (machine_of self.old) (machine_of
            self.new))
            (λ _. HasFailed self.new) }
        ensures bodies { bodies self.new ≡ [] }
        ensures failed { IsErrOf result EngineError.Failed ↔ (machine_of self.old ≡ None) }
        ensures refused { IfErr result
            (λ error. (error ≡ EngineError.Failed) ⊎ (error ≡ EngineError.NoMemory)) }
        ensures memory { IsErrOf result EngineError.NoMemory →
            NeedsMemory (machine_of self.old) (token command.now) }
    {
        if self.failed {
            return Err(EngineError::Failed);
        }
        let Ok(changes) = self.machine.change(self.alloc, command) else {
            self.failed = true;
            return Err(EngineError::NoMemory);
        };
        Ok(changes)
    }

    /// Whether text bytes of the stream, and bytes of another language, have no effect now.
    #[inline(always)]
    pub fn skips_bytes(&self) -> bool
        ensures { IsTrue result → IfSome (machine_of self.now) (λ machine. SkipsBytes
            machine.state) }
    {
        self.machine.state.skips_bytes()
    }

    /// Whether control bytes of the stream have no effect now.
    #[inline(always)]
    pub fn skips_controls(&self) -> bool
        ensures { IsTrue result → IfSome (machine_of self.now) (λ machine. SkipsControls
            machine.state) }
    {
        self.machine.state.skips_controls()
    }

    /// Counts so many steps at once, the last of which took a command of this kind: those of as many commands of the stream that
    /// have no effect.
    #[inline(always)]
    pub fn pass(&mut self, count: usize, kind: Kind)
        ensures passed { machine_of self.new
            ≡ option_map (passed count kind) (machine_of self.old) }
        ensures bodies { bodies self.new ≡ bodies self.old }
    {
        self.machine.pass(count, kind);
    }

    /// Hands what goes out in a step to the sinks, in order: each sheet in its copies under a tag, and the replies.
    ///
    /// # Errors
    ///
    /// `SinkFault` (301) and `ReplyFault` (302): a sink had a fault, and nothing came after it. After these and after
    /// `NoMemory` the engine has failed.
    #[inline(always)]
    pub fn hand_over<S: SheetSink, R: ReplySink>(
        &mut self,
        sent: &[Sent],
        tag: u64,
        sheets: &mut S,
        replies: &mut R,
    ) -> Result<(), EngineError>
        requires has_fault_room { HasFaultRoom (logs (S.told sheets.old) (R.told replies.old)) }
        ensures sends { WentOut tag (all_outputs sent.now) (ending_of result)
            (logs (S.told sheets.old) (R.told replies.old))
            (logs (S.told sheets.new) (R.told replies.new)) }
        ensures left { MatchResult result (λ _. self.new ≡ self.old) (λ _. HasFailed self.new) }
        ensures memory { IsErrOf result EngineError.NoMemory → all_outputs sent.now ≢ [] }
    {
        let outcome = send_all(sent, self.alloc, tag, sheets, replies);
        if outcome.is_err() {
            self.failed = true;
        }
        outcome
    }

    /// Takes the memory of what went out, for the pages that come. Nothing changes that can be seen.
    pub fn reuse(&mut self, sent: Vec<Sent>)
        ensures { self.new ≡ self.old }
    {
        if !sent.is_empty() {
            self.keep_all(sent);
        }
    }

    /// Takes the memory of these parts.
    #[inline(never)]
    fn keep_all(&mut self, sent: Vec<Sent>)
        ensures { self.new ≡ self.old }
    {
        for part in sent {
            self.machine.state.keep(part);
        }
    }

    /// Takes a command of the stream, where no body runs: one step. The answer is its kind. Where the body of a macro starts,
    /// or an overlay before its page closes, that runs from then on: its commands are taken by [`Engine::step_inner`].
    ///
    /// Source: PCL 5 Printer Language Technical Reference Manual, Page Control Commands, and Macros.
    ///
    /// # Errors
    ///
    /// `SinkFault` (301) and `ReplyFault` (302): a sink had a fault. After these and after `NoMemory` the engine has
    /// failed, and answers `Failed` (303) from then on.
    pub fn step<S: SheetSink, R: ReplySink>(
        &mut self,
        command: Command<'_>,
        tag: u64,
        sheets: &mut S,
        replies: &mut R,
    ) -> Result<Kind, EngineError>
        requires none { bodies self.old ≡ [] }
        requires has_fault_room { HasFaultRoom (logs (S.told sheets.old) (R.told replies.old)) }
        ensures takes { TakesNext (machine_of self.old) (trace_at macro_levels (token
            command.entry)) result (machine_of self.new) (bodies self.new)
            (under tag (logs (S.told sheets.old) (R.told replies.old))
            (logs (S.told sheets.new) (R.told replies.new))) }
        ensures kind { IfOk result (λ kind. kind ≡ kind_of (token command.entry)) }
        ensures failed { IsErrOf result EngineError.Failed ↔ (machine_of self.old ≡ None) }
        ensures memory { IsErrOf result EngineError.NoMemory →
            NeedsMemory (machine_of self.old) (token command.entry) }
    {
        let step = self.take_step(command)?;
        self.hand_over(&step.sent, tag, sheets, replies)?;
        self.reuse(step.sent);
        Ok(step.kind)
    }

    /// Takes the first command that is left of the innermost body that runs: one step. The answer is its kind. In the same step
    /// each innermost body that is used up ends, and a page close that waited for its overlay is finished.
    ///
    /// Source: PCL 5 Printer Language Technical Reference Manual, Macros.
    ///
    /// # Errors
    ///
    /// As [`Engine::step`].
    pub fn step_inner<S: SheetSink, R: ReplySink>(
        &mut self,
        tag: u64,
        sheets: &mut S,
        replies: &mut R,
    ) -> Result<Kind, EngineError>
        requires running { bodies self.old ≢ [] }
        requires has_fault_room { HasFaultRoom (logs (S.told sheets.old) (R.told replies.old)) }
        ensures takes { TakesNext (machine_of self.old) (continuation (bodies self.old)) result
            (machine_of self.new) (bodies self.new)
            (under tag (logs (S.told sheets.old) (R.told replies.old))
            (logs (S.told sheets.new) (R.told replies.new))) }
        ensures failed { IsErrOf result EngineError.Failed ↔ (machine_of self.old ≡ None) }
        ensures memory { IsErrOf result EngineError.NoMemory →
            InnerNeedsMemory (machine_of self.old) (bodies self.old) }
    {
        let step = self.take_inner()?;
        self.hand_over(&step.sent, tag, sheets, replies)?;
        self.reuse(step.sent);
        Ok(step.kind)
    }

    /// Carries one command out whole, with the macro bodies that it starts, and delivers the sheets that it finishes under a tag,
    /// each in its copies: a step that takes it, and steps in the bodies that run until none does.
    ///
    /// Source: PCL 5 Printer Language Technical Reference Manual, Page Control Commands, and Macros.
    ///
    /// # Errors
    ///
    /// `SinkFault` (301) and `ReplyFault` (302): a sink had a fault. After these and after `NoMemory` the engine has
    /// failed, and answers `Failed` (303) from then on.
    pub fn run_command<S: SheetSink, R: ReplySink>(
        &mut self,
        command: Command<'_>,
        tag: u64,
        sheets: &mut S,
        replies: &mut R,
    ) -> Result<(), EngineError>
        requires none { bodies self.old ≡ [] }
        requires has_fault_room { HasFaultRoom (logs (S.told sheets.old) (R.told replies.old)) }
        ensures runs { Runs (machine_of self.old) (token command.entry) result (machine_of self.new)
            (under tag (logs (S.told sheets.old) (R.told replies.old))
            (logs (S.told sheets.new) (R.told replies.new))) }
        ensures failed { IsErrOf result EngineError.Failed ↔ (machine_of self.old ≡ None) }
        ensures memory { IsErrOf result EngineError.NoMemory →
            NeedsMemory (machine_of self.old) (token command.entry) }
        ensures none { bodies self.new ≡ [] }
    {
        self.step(command, tag, sheets, replies)?;
        while !self.needs_command() {
            self.step_inner(tag, sheets, replies)?;
        }
        Ok(())
    }

    /// An equal engine, in memory of its own.
    ///
    /// # Errors
    ///
    /// `Failed` (303) where this engine has failed, and else `NoMemory` where memory ran out.
    pub fn copy(&self) -> Result<Self, EngineError>
        ensures copy { IfOk result (λ engine. machine_of engine ≡ machine_of self.now) }
        ensures bodies { IfOk result (λ engine. bodies engine ≡ bodies self.now) }
        ensures failed { IsErrOf result EngineError.Failed ↔ (machine_of self.now ≡ None) }
        ensures refused { IfErr result
            (λ error. (error ≡ EngineError.Failed) ⊎ (error ≡ EngineError.NoMemory)) }
    {
        if self.failed {
            return Err(EngineError::Failed);
        }
        let Ok(machine) = self.copy_machine() else {
            return Err(EngineError::NoMemory);
        };
        let Ok(bodies) = self.bodies.copy() else {
            return Err(EngineError::NoMemory);
        };
        Ok(Engine {
            alloc: self.alloc,
            machine,
            bodies,
            failed: false,
        })
    }

    /// An equal machine, in memory of its own.
    fn copy_machine(&self) -> Result<Box<Machine>, AllocError>
        ensures { IfOk result (λ machine. machine.value ≡ self.now.machine.value) }
    {
        Ok(Box::new(self.alloc, self.machine.copy()?)?)
    }

    /// The page that is being printed; none is a blank page without a mark. After a fault nothing is said of it.
    pub fn page(&self) -> Option<&Canvas>
        ensures { IfSome (machine_of self.now) (λ machine.
            option_map (λ page. page.now) result ≡ machine.state.page) }
    {
        self.machine.state.page.drawn()
    }

    /// What can be seen of the engine. After a fault nothing is said of it.
    pub fn view(&self) -> View<'_>
        ensures view { IfSome (machine_of self.now) (λ machine.
            result ≡ view_of result.stack machine) }
        ensures stack { IfSome (machine_of self.now)
            (λ machine. result.stack.now ≡ machine.state.cursor.stack) }
    {
        let machine = &self.machine;
        let state = &machine.state;
        View {
            step: machine.step,
            depth: machine.depth,
            last: machine.last,
            x: Pos(i64::from(state.cursor.x())),
            y: Pos(state.cursor.y()),
            stack: state.cursor.stack(),
            sheets: state.sheets,
            since_job: state.since_job,
            language: state.language,
            environment: state.environment,
            drawing: state.drawing,
            macro_id: state.macro_id,
            overlay: state.overlay,
            defining: state.macros.defining(),
            raster: state.graphics.position(),
            hp_gl: state.hp_gl,
            marked: state.is_marked(),
        }
    }
}
