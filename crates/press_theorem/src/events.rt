//! What happens to a press, one event after another (CIP4 JDF 1.5, the queue and JMF messages).
ghost use Rattle.std.specs.Prelude.{◌≡◌, ◌<◌, ℕ, [], ◌∷◌, ◌++◌, IsTrue, IfErr, OnErr, OnOk, map};
ghost use Rattle.press_devices.specs.Writing.{AppendsPrefix};
ghost use Rattle.press_sink.specs.SinkLog.{most_faults};
ghost use Rattle.press_core.specs.Engines.{are_engines};
ghost use Rattle.press_core.specs.World.{new_world};
ghost use Rattle.press_history.specs.RunLaws.{ComesFromNew};
ghost use Rattle.press_theorem.specs.Events.{HappenAll, HappenSome, TellPlaces, event_of, happened_in, handing};

use press_bits::Bitmap;
use press_core::{OperatorCommand, Press, Turn, TurnError};
use press_history::run_laws;
use press_sink::SheetSink;
use std::alloc::AllocError;

/// What happens to a press.
#[derive(Clone, Copy)]
pub enum PressEvent<'a> {
    /// A message comes, with the images of a new entry's pages.
    Message {
        text: &'a [u8],
        images: &'a [Bitmap],
    },
    /// A turn of an engine is taken, of at most so many steps.
    Turn {
        engine: u64,
        most: u64,
    },
    /// The operator asks for something.
    Operator(OperatorCommand),
}

/// Lets the events happen to a press, one after another. Each response is appended with a line feed, and what each turn did is
/// appended to `turns`. In whatever order messages, turns and commands of the operator come, the press goes from world to world as its
/// rows say, and the sink takes the sheets that are handed out, each under the number of its entry, and nothing else.
///
/// To a new press of one to four engines they happen by the laws of every run: each entry that runs is on an engine of its own; what was
/// handed out under the number of an entry in flight are the sheets of the steps that were taken of its job, of a completed one all sheets
/// that its ticket wants, of every other one a prefix of those. An entry delivers only in its turns, while it runs, and never again once
/// it was completed or aborted. The place of an entry in flight is the sum of the steps that `turns` tells of it, after a fault, too.
///
/// # Errors
///
/// `NoEngine` (702), `SinkFault` (301) and `NoMemory`: the events before it happened, and those behind it did not. A turn of an engine
/// that is not there changed nothing; of a turn that met a fault the entry is aborted, as [`Press::turn_on`] says; a turn for which `turns`
/// had no room did not happen. A message that met it changed nothing, or it happened, and a prefix of its response is appended, without a
/// line feed.
pub fn carry_out_events<S: SheetSink>(
    press: &mut Press,
    events: &[PressEvent<'_>],
    sheets: &mut S,
    responses: &mut Vec<u8>,
    turns: &mut Vec<Turn>,
) -> Result<(), TurnError>
    requires { (S.told sheets.old).faults < most_faults }
    ensures all { OnOk result (HappenAll press.old (map event_of events.now) press.new
        (handing (S.told sheets.old) (S.told sheets.new) responses.old.items responses.new.items
        turns.old.items turns.new.items)) }
    ensures from_new { OnOk result ((engines : ℕ) → IsTrue (are_engines engines)
        → press.old ≡ new_world engines
        → (happened : HappenAll (new_world engines) (map event_of events.now) press.new
        (handing (S.told sheets.old) (S.told sheets.new) responses.old.items responses.new.items
        turns.old.items turns.new.items))
        × ComesFromNew engines happened.happenings press.new) }
    ensures err { IfErr result (λ error. HappenSome error press.old (map event_of events.now)
        press.new
        (handing (S.told sheets.old) (S.told sheets.new) responses.old.items responses.new.items
        turns.old.items turns.new.items)) }
    ensures err_from_new { IfErr result (λ error. (engines : ℕ) → IsTrue (are_engines engines)
        → press.old ≡ new_world engines
        → (happened : HappenSome error (new_world engines) (map event_of events.now) press.new
        (handing (S.told sheets.old) (S.told sheets.new) responses.old.items responses.new.items
        turns.old.items turns.new.items))
        × ComesFromNew engines (happened_in happened) press.new) }
    ensures places { (engines : ℕ) → IsTrue (are_engines engines) → press.old ≡ new_world engines
        → TellPlaces turns.old.items turns.new.items press.new }
{
    run_laws::new_presses_come_so();
    for event in events {
        carry_out(press, *event, sheets, responses, turns)?;
    }
    Ok(())
}

/// Lets one event happen.
fn carry_out<S: SheetSink>(
    press: &mut Press,
    event: PressEvent<'_>,
    sheets: &mut S,
    responses: &mut Vec<u8>,
    turns: &mut Vec<Turn>,
) -> Result<(), TurnError>
    requires { (S.told sheets.old).faults < most_faults }
    ensures all { OnOk result (HappenAll press.old (event_of event.entry ∷ []) press.new
        (handing (S.told sheets.old) (S.told sheets.new) responses.old.items responses.new.items
        turns.old.items turns.new.items)) }
    ensures err { IfErr result (λ error. HappenSome error press.old (event_of event.entry ∷ [])
        press.new
        (handing (S.told sheets.old) (S.told sheets.new) responses.old.items responses.new.items
        turns.old.items turns.new.items)) }
{
    match event {
        PressEvent::Message { text, images } => {
            let response = press.message(text, images)?;
            append_line(&response, responses)?;
        }
        PressEvent::Turn { engine, most } => {
            turns.reserve(1)?;
            let turn = press.turn_on(engine, most, sheets)?;
            let Ok(()) = turns.push(turn) else {
                unreachable!()
            };
        }
        PressEvent::Operator(command) => press.operator(command),
    }
    Ok(())
}

/// Appends a line with its line feed; where memory runs out, a prefix of the line without it.
fn append_line(line: &[u8], out: &mut Vec<u8>) -> Result<(), AllocError>
    ensures ok { OnOk result (out.new.items ≡ out.old.items ++ (line.now ++ 10 ∷ [])) }
    ensures err { OnErr result (AppendsPrefix (Some out.old.items) (Some out.new.items) line.now) }
{
    out.extend_from_slice(line)?;
    out.push(b'\n')?;
    Ok(())
}
