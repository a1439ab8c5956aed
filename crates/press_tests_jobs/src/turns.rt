//! Turns of a press.
use press_bits::Bitmap;
use press_core::{DeviceStatus, OperatorCommand, Press, Turn, TurnError};
use press_sink::{FuseSink, ListSink, SheetSink};
use press_theorem::{PressEvent, carry_out_events};
use std::alloc::Global;
use std::process::Abort;
use std::test::Fail;

/// The submission of three copies of a page.
const SUBMIT: &[u8] = br#"{"ID":"m","Type":"SubmitQueueEntry","Ticket":
{"Amount":3,"JobID":"J","NPage":1,"Type":"DigitalPrinting","Version":"1.5"}}"#;

/// The same of so many copies.
fn submission(alloc: Global, copies: u64) -> Result<String, Fail> {
    Ok(format!(in alloc;
        "{{\"ID\":\"m\",\"Type\":\"SubmitQueueEntry\",\"Ticket\":{{\"Amount\":{copies},\
         \"JobID\":\"J\",\"NPage\":1,\"Type\":\"DigitalPrinting\",\"Version\":\"1.5\"}}}}"
    )?)
}

/// A press with two entries, each of so many copies of a page.
fn press_of_two(alloc: Global, copies: u64) -> Result<Press, Fail> {
    let mut press = Press::new(alloc);
    let images = [Bitmap::blank(alloc, 8, 1)?];
    let text = submission(alloc, copies)?;
    for _ in 0..2 {
        press.message(text.as_bytes(), &images)?;
    }
    Ok(press)
}

/// A turn of all steps, with a sink that can have one fault more.
fn whole_turn(press: &mut Press, sink: &mut FuseSink<ListSink>) -> Result<Turn, TurnError> {
    if sink.faults() == u64::MAX {
        return Err(TurnError::NoMemory);
    }
    press.turn(u64::MAX, sink)
}

/// A turn of an entry fails by the sink, or takes all its steps: seventeen commands, none for a white row, and the exit that is
/// added. Behind it no entry is printed.
fn expect_turn(
    rt: &impl Abort,
    press: &mut Press,
    sink: &mut FuseSink<ListSink>,
    entry: u64,
    fails: bool,
) {
    match whole_turn(press, sink) {
        Ok(turn) => assert!(rt; !fails && (turn.entry, turn.steps) == (Some(entry), 18)),
        Err(error) => assert!(rt; fails && matches!(&error, TurnError::SinkFault)),
    }
    assert_eq!(rt; press.status().status, DeviceStatus::Idle);
}

/// Whether the queue lists an entry with this status.
fn is_listed(alloc: Global, press: &mut Press, entry: u64, status: &str) -> Result<bool, Fail> {
    let response = press.message(br#"{"ID":"q","Type":"QueueStatus"}"#, &[])?;
    let text = String::from_utf8(response).ok().ok_or("no text")?;
    let listed = format!(in alloc; "\"QueueEntryID\":\"Q{entry}\",\"Status\":\"{status}\"")?;
    Ok(text.contains(listed.as_str()))
}

/// An entry delivered so many sheets: it is completed if these are all of its copies, and else aborted.
fn expect_entry(
    rt: &(impl Abort + AllocGlobal),
    press: &mut Press,
    entry: u64,
    sheets: u64,
    copies: u64,
) -> Result<(), Fail> {
    let status = if sheets < copies {
        "Aborted"
    } else {
        "Completed"
    };
    assert!(rt; is_listed(rt.alloc(), press, entry, status)?);
    assert_eq!(rt; press.delivered(entry), Some(sheets));
    Ok(())
}

/// Whether a sink took so many sheets of the first entry, then so many of the second, and nothing else.
fn came_in_order(sink: &FuseSink<ListSink>, first: u64, second: u64) -> bool {
    let deliveries = sink.sink().deliveries();
    let ordered = deliveries.iter().enumerate().all(|(place, delivery)| delivery.tag
        == if (place as u64) < first { 1 } else { 2 });
    ordered && deliveries.len() as u64 == first.saturating_add(second)
}

/// How many sheets of either entry are taken by a sink that fails once, after so many.
fn taken(copies: u64, before: u64) -> (u64, u64) {
    if before < copies {
        (before, copies)
    } else {
        (copies, before.saturating_sub(copies).min(copies))
    }
}

/// The entry that is printed where the sink fails is aborted with the sheets before, and the other is printed whole.
fn expect_both(
    rt: &(impl Abort + AllocGlobal),
    press: &mut Press,
    sink: &mut FuseSink<ListSink>,
    copies: u64,
    before: u64,
) -> Result<(), Fail> {
    let (first, second) = taken(copies, before);
    expect_turn(rt, press, sink, 1, first < copies);
    expect_turn(rt, press, sink, 2, second < copies);
    expect_entry(rt, press, 1, first, copies)?;
    expect_entry(rt, press, 2, second, copies)?;
    assert!(rt; came_in_order(sink, first, second));
    Ok(())
}

/// The same, of two entries of so many copies and a sink that fails once, after so many sheets.
fn print_with_a_fault(
    rt: &(impl Abort + AllocGlobal),
    copies: u64,
    before: u64,
) -> Result<(), Fail> {
    let mut press = press_of_two(rt.alloc(), copies)?;
    let mut sink = FuseSink::new(ListSink::new(rt.alloc()), before);
    expect_both(rt, &mut press, &mut sink, copies, before)
}

#[test]
fn a_fault_of_the_sink_aborts_its_entry_alone(rt: HostRuntime) -> Result<(), Fail> {
    for copies in 2..4 {
        // Behind the last of their sheets the sink would fail at one that does not come.
        for before in 0..2 * copies + 1 {
            print_with_a_fault(&rt, copies, before)?;
        }
    }
    Ok(())
}

/// What a list of events leaves of a press at its beginning: its status, how many sheets entry 1 delivered, the sheets that the
/// sink took, the responses, and what the turns did.
#[derive(Drop)]
struct Left {
    status: DeviceStatus,
    delivered: Option<u64>,
    sheets: usize,
    responses: Vec<u8>,
    turns: Vec<Turn>,
}

impl Left {
    fn behind(alloc: Global, events: &[PressEvent<'_>]) -> Result<Self, Fail> {
        let mut press = Press::new(alloc);
        let mut sheets = ListSink::new(alloc);
        let mut responses = Vec::new(alloc);
        let mut turns = Vec::new(alloc);
        carry_out_events(&mut press, events, &mut sheets, &mut responses, &mut turns)?;
        Ok(Left {
            status: press.status().status,
            delivered: press.delivered(1),
            sheets: sheets.deliveries().len(),
            responses,
            turns,
        })
    }
}

#[test]
fn events_happen_one_after_another(rt: HostRuntime) -> Result<(), Fail> {
    let images = [Bitmap::blank(rt.alloc(), 8, 1)?];
    let message = PressEvent::Message {
        text: SUBMIT,
        images: &images,
    };
    let pause = PressEvent::Operator(OperatorCommand::Pause);
    let go_on = PressEvent::Operator(OperatorCommand::Continue);
    let turn = PressEvent::Turn {
        engine: 0,
        most: u64::MAX,
    };
    let five = PressEvent::Turn { engine: 0, most: 5 };
    let paused = Left::behind(rt.alloc(), &[message, pause, turn])?;
    assert_eq!(rt; (paused.delivered, paused.sheets), (Some(0), 0));
    assert_eq!(rt; paused.status, DeviceStatus::Stopped);
    let printed = Left::behind(rt.alloc(), &[message, pause, turn, go_on, five, turn])?;
    assert_eq!(rt; (printed.delivered, printed.sheets), (Some(3), 3));
    assert_eq!(rt; printed.responses.last(), Some(&b'\n'));
    let turns = [(None, 0), (Some(1), 5), (Some(1), 13)].map(|(entry, steps)| Turn {
        entry,
        steps,
    });
    assert_eq!(rt; printed.turns.as_slice(), turns.as_slice());
    Ok(())
}
