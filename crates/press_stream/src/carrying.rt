//! Commands that a scanner holds, handed to an engine one by one.

ghost use Rattle.std.specs.Prelude.{◌≡◌, [], IsSome, IsOk};
ghost use Rattle.press_cmd.specs.View.{token};
ghost use Rattle.press_scan.specs.ScannerState.{buffer_size};
ghost use Rattle.press_engine.specs.Engine.{machine_of, bodies};
ghost use Rattle.press_stream.specs.Answers.{TakesStep, PassesOn, TakesOn};
ghost use Rattle.press_stream.specs.State.{job_state, Fits};
ghost use Rattle.press_stream.specs.Steps.{CarriesOne, CarriesNext, CarriesPlain, PassesOrStays};
ghost use Rattle.press_stream.specs.declared.phase.Phase.TheVariants.{Running};

use crate::fault::JobError;
use crate::phase::Phase;
use crate::step::JobStep;
use press_cmd::Command;
use press_engine::{Engine, StepOutput};
use press_scan::Scanner;

/// Hands one command of the stream to an engine that has not failed, and answers what goes out.
#[inline(always)]
fn carry(engine: &mut Engine, command: Command<'_>) -> Result<StepOutput, JobError>
    requires running { IsSome (machine_of engine.old) }
    requires none { bodies engine.old ≡ [] }
    ensures carries { CarriesOne (token command.entry) (machine_of engine.old) result
        (machine_of engine.new) (bodies engine.new) }
{
    Ok(engine.take_step(command)?)
}

/// Hands the next command that a scanner holds to an engine that has not failed, if it holds one.
#[inline(always)]
fn carry_next(scanner: &mut Scanner, engine: &mut Engine) -> Result<Option<StepOutput>, JobError>
    requires running { IsSome (machine_of engine.old) }
    requires none { bodies engine.old ≡ [] }
    ensures carries { CarriesNext scanner.old (machine_of engine.old) result
        scanner.new (machine_of engine.new) (bodies engine.new) }
{
    match scanner.next()? {
        Some(command) => Ok(Some(carry(engine, command)?)),
        None => Ok(None),
    }
}

/// Takes a step of the stream of a job that runs: its next command, or, where the input ended and nothing is held, the universal
/// exit that is added.
#[inline(always)]
pub fn take(
    scanner: &mut Scanner,
    engine: &mut Engine,
    phase: &mut Phase,
) -> Result<JobStep, JobError>
    requires running { IsSome (machine_of engine.old) }
    requires none { bodies engine.old ≡ [] }
    requires phase { phase.old ≡ Running }
    requires room { scanner.old.room ≡ buffer_size }
    ensures takes { TakesStep (job_state scanner.old engine.old Running) result
        (job_state scanner.new engine.new phase.new) }
    ensures fits { IsOk result → Fits scanner.new engine.new phase.new }
{
    if let Some(step) = carry_next(scanner, engine)? {
        return Ok(JobStep::Ran(step));
    }
    if !scanner.ended() {
        return Ok(JobStep::Hungry);
    }
    let step = carry(engine, Command::Uel)?;
    *phase = Phase::Exited;
    Ok(JobStep::Ran(step))
}

/// Hands the next commands that a scanner holds to an engine at once, as long as each has one byte and no effect, and answers how many.
#[inline(always)]
pub fn pass(scanner: &mut Scanner, engine: &mut Engine) -> usize
    requires running { IsSome (machine_of engine.old) }
    requires none { bodies engine.old ≡ [] }
    requires room { scanner.old.room ≡ buffer_size }
    ensures passes { PassesOn (job_state scanner.old engine.old Running)
        (job_state scanner.new engine.new Running) }
    ensures counts { PassesOrStays (job_state scanner.old engine.old Running) result
        (job_state scanner.new engine.new Running) }
    ensures fits { Fits scanner.new engine.new Running }
{
    if !engine.skips_bytes() {
        return 0;
    }
    match scanner.pass(engine.skips_controls()) {
        Some(passed) => {
            engine.pass(passed.count, passed.kind);
            passed.count
        }
        None => 0,
    }
}

/// What the next command of a stream did, where it is one of those that come most often.
#[derive(Drop)]
enum Plain {
    /// It did no more than change the machine.
    Changed,
    /// It did more.
    Ran(StepOutput),
    /// It is another, and was not taken.
    Other,
}

/// Hands the next command that a scanner holds to an engine that has not failed, where it is one of those that come most often.
#[inline(always)]
fn carry_plain(scanner: &mut Scanner, engine: &mut Engine) -> Result<Plain, JobError>
    requires running { IsSome (machine_of engine.old) }
    requires none { bodies engine.old ≡ [] }
    ensures carries { CarriesPlain scanner.old (machine_of engine.old) result
        scanner.new (machine_of engine.new) (bodies engine.new) }
{
    let Some(command) = scanner.next_plain() else {
        return Ok(Plain::Other);
    };
    if engine.change(&command)? {
        return Ok(Plain::Changed);
    }
    Ok(Plain::Ran(carry(engine, command)?))
}

/// Takes the next commands of the stream of a job that runs, as long as each does no more than change the machine, and then a step.
#[inline(always)]
pub fn take_on(
    scanner: &mut Scanner,
    engine: &mut Engine,
    phase: &mut Phase,
) -> Result<JobStep, JobError>
    requires running { IsSome (machine_of engine.old) }
    requires none { bodies engine.old ≡ [] }
    requires phase { phase.old ≡ Running }
    requires room { scanner.old.room ≡ buffer_size }
    ensures takes { TakesOn (job_state scanner.old engine.old Running) result
        (job_state scanner.new engine.new phase.new) }
    ensures fits { IsOk result → Fits scanner.new engine.new phase.new }
{
    loop {
        match carry_plain(scanner, engine)? {
            Plain::Changed => {}
            Plain::Ran(step) => return Ok(JobStep::Ran(step)),
            Plain::Other => {
                if pass(scanner, engine) == 0 {
                    return take(scanner, engine, phase);
                }
            }
        }
    }
}
