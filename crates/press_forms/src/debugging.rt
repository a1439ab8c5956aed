//! Sessions with a debugger: what each line is answered.
ghost use Rattle.std.specs.Prelude.{◌≡◌, ℕ, false, List, IfOk, IfErr, OnOk, true};
ghost use Rattle.press_devices.specs.Reading.{ReadFails};
ghost use Rattle.press_files.specs.Causes.{failures};
ghost use Rattle.press_files.specs.Change.{change};
ghost use Rattle.std.specs.Fn.{FnReturnsAt};
ghost use Rattle.std.specs.String.{string_bytes};
ghost use Rattle.press_debug.specs.Breaks.{no_breaks};
ghost use Rattle.press_debug.specs.Steps.{at_start};
ghost use Rattle.press_files.specs.Inputs.{ReadWhole};
ghost use Rattle.press_forms.specs.Debugging.{
  stop_word,
  stop_text,
  set_text,
  cleared_text,
  refusal_text,
  IsUnopened,
  Debugs,
  StopsDebugging,
};
ghost use Rattle.press_forms.specs.Ends.{Debugging, read_of};

use crate::debugger_lines::{DebuggerLine, asked_of};
use press_asm::write_kind;
use press_cmd::{Kind, LINE_FEED};
use press_debug::{Break, BreakError, Debugger, OpenError, Stop, Watch};
use press_devices::{NO_OUTPUT, ReadDevice, Teller, WriteDevice, report};
use press_engine::View;
use press_files::{Around, Devices, InputError, Platform, Talk, answer_lines};
use press_units::ToldFault;
use press_words::{WHAT, line_of};
use std::alloc::{AllocError, Global};
use std::error::Error;
use std::{fmt, io};

/// Why a session with a debugger ended early.
#[derive(Debug, Drop)]
pub enum DebugError {
    /// The stream cannot be opened or read, or the lines cannot be read.
    Input(InputError),
    /// An answer cannot be written.
    Output(io::Error),
    NoMemory,
}

impl fmt::Display for DebugError {
    ghost use Rattle.press_forms.specs.Faults.{told_of_debugger};

    ghost output = { told_of_debugger };

    fn fmt<W: fmt::Write>(&self, f: &mut fmt::Formatter<W>) -> fmt::Result {
        match self {
            DebugError::Input(error) => write!(f, "{error}"),
            DebugError::Output(_) => write!(f, "{NO_OUTPUT}"),
            DebugError::NoMemory => write!(f, "{}", ToldFault(None)),
        }
    }
}

impl Error for DebugError {}

impl From<InputError> for DebugError {
    ghost use Rattle.std.specs.Prelude.{◌≡◌};
    ghost use Rattle.press_forms.specs.declared.debugging.DebugError.TheVariants.{Input};

    ghost from_gives = { λ fault error. error ≡ Input fault };

    fn from(fault: InputError) -> DebugError {
        DebugError::Input(fault)
    }
}

impl From<OpenError> for DebugError {
    ghost use Rattle.std.specs.Prelude.{◌≡◌};
    ghost use Rattle.press_forms.specs.Debugging.{unopened};

    ghost from_gives = { λ fault error. error ≡ unopened fault };

    fn from(fault: OpenError) -> DebugError {
        match fault {
            OpenError::ReadFault => DebugError::Input(InputError::ReadFault),
            OpenError::NoMemory => DebugError::NoMemory,
        }
    }
}

impl From<io::Error> for DebugError {
    ghost use Rattle.std.specs.Prelude.{◌≡◌};
    ghost use Rattle.press_forms.specs.declared.debugging.DebugError.TheVariants.{Output};

    ghost from_gives = { λ fault error. error ≡ Output fault };

    fn from(fault: io::Error) -> DebugError {
        DebugError::Output(fault)
    }
}

impl From<AllocError> for DebugError {
    ghost use Rattle.std.specs.Prelude.{◌≡◌};
    ghost use Rattle.press_forms.specs.declared.debugging.DebugError.TheVariants.{NoMemory};

    ghost from_gives = { λ _ error. error ≡ NoMemory };

    fn from(_error: AllocError) -> DebugError {
        DebugError::NoMemory
    }
}

/// Has a session with a debugger of the stream that `input` has: answers each line that a reader has, to standard output. The stream is
/// read whole before the first line. A breakpoint that is refused is an answer; after a fault, which stands on standard error, no line is
/// answered. The answer is the status: 0, and nothing waits in standard output if nothing did before, or 1 after a fault.
pub fn debug_lines<S: ReadDevice, R: ReadDevice, P: Platform>(
    alloc: Global,
    input: &mut S,
    reader: &mut R,
    devices: &mut Devices<P>,
) -> u8
    ensures flushed { result ≡ 0 → P.Out.waiting devices.old.out ≡ false
        → P.Out.waiting devices.new.out ≡ false }
    ensures inputs { devices.new.inputs ≡ devices.old.inputs }
    ensures outputs { devices.new.outputs ≡ devices.old.outputs }
    ensures debugs { ⟦<Devices<P> as Around<R>>⟧.holds
        (Debugging (read_of S.ReadDevice input.old input.new))
        result reader.old reader.new devices.old devices.new }
{
    match debug(alloc, input, reader, &mut devices.out) {
        Ok(()) => 0,
        Err(error) => report(&error, &mut devices.err),
    }
}

/// Opens a debugger of the stream that `input` has, and answers each line that a reader has.
fn debug<I: ReadDevice, R: ReadDevice, W: WriteDevice>(
    alloc: Global,
    input: &mut I,
    reader: &mut R,
    out: &mut W,
) -> Result<(), DebugError>
    ensures ok { OnOk result (Debugs (I.remaining input.old) (I.remaining input.new)
        (R.remaining reader.old) (R.remaining reader.new)
        (W.contents out.old) (W.contents out.new)) }
    ensures flushed { OnOk result (W.waiting out.old ≡ false → W.waiting out.new ≡ false) }
    ensures err { IfErr result (StopsDebugging ⊥
        (failures (ReadFails (R.failed reader.new) (R.reads reader.new))
        (ReadFails (I.failed input.new) (I.reads input.new)) (W.failed out.new ≡ true) ⊥)
        (change (I.remaining input.old) (I.remaining input.new))
        (change (R.remaining reader.old) (R.remaining reader.new))
        (change (W.contents out.old) (W.contents out.new))) }
{
    let watch = Watch::new(|_view: &View<'_>| false);
    let debugger = opened(alloc, input, watch)?;
    let mut session = DebugSession { alloc, debugger };
    answer_lines(alloc, &mut session, reader, out)
}

/// A debugger of the stream that a reader has.
fn opened<I: ReadDevice, F: Fn(&View<'_>) -> bool + Drop>(
    alloc: Global,
    input: &mut I,
    watch: Watch<F>,
) -> Result<Debugger<F>, DebugError>
    ensures stream { IfOk result (λ debugger.
        (bytes : List ℕ) × ReadWhole (I.remaining input.old) (I.remaining input.new) bytes
        × (debugger.stepper ≡ at_start bytes)) }
    ensures breaks { IfOk result (λ debugger. debugger.breaks ≡ no_breaks) }
    ensures watch { IfOk result (λ debugger. debugger.watch ≡ watch) }
    ensures err { IfErr result (IsUnopened ⊥
        (ReadFails (I.failed input.new) (I.reads input.new))) }
{
    Ok(Debugger::read(alloc, input, watch)?)
}

/// A debugger that answers lines.
#[derive(Drop)]
struct DebugSession<F> {
    alloc: Global,
    debugger: Debugger<F>,
}

impl<F: Fn(&View<'_>) -> bool + Drop> Talk for DebugSession<F> {
    ghost use Rattle.std.specs.Prelude.{◌≡◌, Bool};
    ghost use Rattle.std.specs.Borrow.{Bor};
    ghost use Rattle.press_engine.specs.declared.view.View.{View};
    ghost use Rattle.press_forms.specs.DebuggerLines.{asked_of};
    ghost use Rattle.press_forms.specs.Debugging.{seat, DoesLine, NeverMet};
    ghost use Rattle.press_forms.specs.declared.debugging.DebugError.TheVariants.{NoMemory};

    type Error = DebugError;

    ghost IsReady = { λ session. F.IsAlwaysCallable session.debugger.watch.test
        × ((view : Bor View) (met : Bool)
        → F.post session.debugger.watch.test view met → NeverMet view.now met) };

    ghost answers = { λ old line answer new. DoesLine (asked_of line)
        (seat old.debugger.stepper old.debugger.breaks) answer
        (seat new.debugger.stepper new.debugger.breaks) };

    ghost refuses = { λ at line why next. why ≡ NoMemory };

    fn answer(&mut self, line: &[u8]) -> Result<Vec<u8>, DebugError> {
        Ok(self.carry_out(line)?)
    }
}

impl<F: Fn(&View<'_>) -> bool + Drop> DebugSession<F> {
    ghost use Rattle.std.specs.Prelude.{◌≡◌, IfOk};
    ghost use Rattle.press_debug.specs.Breaks.{Clears};
    ghost use Rattle.press_forms.specs.DebuggerLines.{asked_of};
    ghost use Rattle.press_forms.specs.declared.debugger_lines.DebuggerLine.TheVariants as asks;
    ghost use Rattle.press_forms.specs.Debugging.{seat, kinds_text, IsQuiet, TellsStop, DoesAsked, DoesLine};

    /// Does what a line asks: the answer.
    fn carry_out(&mut self, line: &[u8]) -> Result<Vec<u8>, AllocError>
        requires callable { F.IsAlwaysCallable self.old.debugger.watch.test }
        requires quiet { IsQuiet (FnReturnsAt F.Fn self.old.debugger.watch.test) }
        ensures does { IfOk result (λ answer. DoesLine (asked_of line.now)
            (seat self.old.debugger.stepper self.old.debugger.breaks) answer.items
            (seat self.new.debugger.stepper self.new.debugger.breaks)) }
        ensures watch { self.new.debugger.watch ≡ self.old.debugger.watch }
    {
        match asked_of(line) {
            Some(DebuggerLine::Step) => self.step(),
            Some(DebuggerLine::Over) => self.over(),
            Some(DebuggerLine::Go(most)) => self.go(most),
            Some(DebuggerLine::Break(kind)) => self.set_break(kind),
            Some(DebuggerLine::Clear(number)) => self.clear(number),
            Some(DebuggerLine::Recent) => self.recent(),
            None => line_of(self.alloc, WHAT),
        }
    }

    /// Takes one step: where it led.
    fn step(&mut self) -> Result<Vec<u8>, AllocError>
        ensures does { IfOk result (λ answer. DoesAsked asks.Step
            (seat self.old.debugger.stepper self.old.debugger.breaks) answer.items
            (seat self.new.debugger.stepper self.new.debugger.breaks)) }
        ensures watch { self.new.debugger.watch ≡ self.old.debugger.watch }
    {
        let stop = self.debugger.step_into();
        self.stopped(stop)
    }

    /// Takes steps over the bodies that the next one starts: where they led.
    fn over(&mut self) -> Result<Vec<u8>, AllocError>
        ensures does { IfOk result (λ answer. DoesAsked asks.Over
            (seat self.old.debugger.stepper self.old.debugger.breaks) answer.items
            (seat self.new.debugger.stepper self.new.debugger.breaks)) }
        ensures watch { self.new.debugger.watch ≡ self.old.debugger.watch }
    {
        let stop = self.debugger.step_over();
        self.stopped(stop)
    }

    /// Takes at most so many steps: where they led.
    fn go(&mut self, most: u64) -> Result<Vec<u8>, AllocError>
        requires callable { F.IsAlwaysCallable self.old.debugger.watch.test }
        requires quiet { IsQuiet (FnReturnsAt F.Fn self.old.debugger.watch.test) }
        ensures does { IfOk result (λ answer. DoesAsked (asks.Go most)
            (seat self.old.debugger.stepper self.old.debugger.breaks) answer.items
            (seat self.new.debugger.stepper self.new.debugger.breaks)) }
        ensures watch { self.new.debugger.watch ≡ self.old.debugger.watch }
    {
        let stop = self.debugger.go(most);
        self.stopped(stop)
    }

    /// The line of a stop.
    fn stopped(&self, stop: Stop) -> Result<Vec<u8>, AllocError>
        ensures { IfOk result (λ answer.
            TellsStop stop self.now.debugger.stepper answer.items) }
    {
        Ok(stop_line(self.alloc, stop, &self.debugger.state())?.into_bytes())
    }

    /// Sets a breakpoint at the commands of a kind: its number, or why there is none.
    fn set_break(&mut self, kind: Kind) -> Result<Vec<u8>, AllocError>
        ensures does { IfOk result (λ answer. DoesAsked (asks.Break kind)
            (seat self.old.debugger.stepper self.old.debugger.breaks) answer.items
            (seat self.new.debugger.stepper self.new.debugger.breaks)) }
        ensures watch { self.new.debugger.watch ≡ self.old.debugger.watch }
    {
        let set = self.debugger.break_on(Break::Kind(kind));
        Ok(set_line(self.alloc, set)?.into_bytes())
    }

    /// Frees the number of a breakpoint: that it is free, or why not.
    fn clear(&mut self, number: u64) -> Result<Vec<u8>, AllocError>
        ensures does { IfOk result (λ answer. DoesAsked (asks.Clear number)
            (seat self.old.debugger.stepper self.old.debugger.breaks) answer.items
            (seat self.new.debugger.stepper self.new.debugger.breaks)) }
        ensures watch { self.new.debugger.watch ≡ self.old.debugger.watch }
    {
        let freed = self.free(number);
        Ok(cleared_line(self.alloc, number, freed)?.into_bytes())
    }

    /// Frees the number of a breakpoint. None has a number that is no byte.
    fn free(&mut self, number: u64) -> Result<(), BreakError>
        ensures clears { Clears self.old.debugger.breaks number result self.new.debugger.breaks }
        ensures steps { self.new.debugger.stepper ≡ self.old.debugger.stepper }
        ensures watch { self.new.debugger.watch ≡ self.old.debugger.watch }
    {
        self.debugger.clear(u8::try_from(number).unwrap_or(u8::MAX))
    }

    /// The kinds of the last commands, one a line, the oldest first.
    fn recent(&self) -> Result<Vec<u8>, AllocError>
        ensures { IfOk result (λ lines. lines.items ≡ kinds_text self.now.debugger.stepper.recent) }
    {
        let mut lines = Vec::new(self.alloc);
        let mut index = 0;
        while let Some(kind) = self.debugger.recent(index) {
            write_kind(kind, &mut lines)?;
            lines.push(LINE_FEED)?;
            index += 1;
        }
        Ok(lines)
    }
}

/// The line of a stop, by what can be seen there.
fn stop_line(alloc: Global, stop: Stop, view: &View<'_>) -> Result<String, AllocError>
    ensures { IfOk result (λ line. string_bytes line ≡ stop_text stop view.now) }
{
    let word = stop_word(alloc, stop)?;
    let (step, depth, x, y) = (view.step, view.depth, view.x.0, view.y.0);
    format!(in alloc; "{word} step {step} depth {depth} x {x} y {y}\n")
}

/// The word of a stop.
fn stop_word(alloc: Global, stop: Stop) -> Result<String, AllocError>
    ensures { IfOk result (λ word. string_bytes word ≡ stop_word stop) }
{
    match stop {
        Stop::AtBreak(number) => format!(in alloc; "break {number}"),
        Stop::Stepped => format!(in alloc; "stepped"),
        Stop::Ended => format!(in alloc; "ended"),
        Stop::LimitReached => format!(in alloc; "limit"),
        Stop::Failed => format!(in alloc; "failed"),
    }
}

/// The line of a breakpoint that is set, or refused.
fn set_line(alloc: Global, set: Result<u8, BreakError>) -> Result<String, AllocError>
    ensures { IfOk result (λ line. string_bytes line ≡ set_text set) }
{
    match set {
        Ok(number) => format!(in alloc; "set {number}\n"),
        Err(refusal) => refusal_line(alloc, refusal),
    }
}

/// The line of a number that is freed, or of which that is refused.
fn cleared_line(
    alloc: Global,
    number: u64,
    freed: Result<(), BreakError>,
) -> Result<String, AllocError>
    ensures { IfOk result (λ line. string_bytes line ≡ cleared_text number freed) }
{
    match freed {
        Ok(()) => format!(in alloc; "cleared {number}\n"),
        Err(refusal) => refusal_line(alloc, refusal),
    }
}

/// The line of a refusal.
fn refusal_line(alloc: Global, refusal: BreakError) -> Result<String, AllocError>
    ensures { IfOk result (λ line. string_bytes line ≡ refusal_text refusal) }
{
    let number = refusal.number();
    format!(in alloc; "fault {number}\n")
}
