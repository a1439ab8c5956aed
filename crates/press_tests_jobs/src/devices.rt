//! Worked streams that are read byte by byte and printed, with a reader and sinks that fail at each of their calls in turn.
use crate::program_devices::Reluctant;
use crate::worked::{COPIES, JOBS, MARKS, Notes, PAGES, Row, THREE_TOLD, note};
use press_pbm::FuseRead;
use press_sink::{FuseReplies, FuseSink, ListReplies, ListSink};
use press_stream::{Job, JobError};
use std::alloc::{AllocError, Global};
use std::process::Abort;
use std::test::Fail;

/// The number of a refusal; 0 for want of memory, and 1 where there is none.
fn number(answer: &Result<(), JobError>) -> u32 {
    match answer {
        Ok(()) => 1,
        Err(JobError::SinkFault) => 301,
        Err(JobError::ReplyFault) => 302,
        Err(JobError::Failed) => 303,
        Err(JobError::ReadFault) => 304,
        Err(JobError::AfterEnd) => 305,
        Err(JobError::NoMemory) => 0,
    }
}

/// What came of a stream: the numbers of its answers, the notes of each sheet, and the replies.
#[derive(Drop)]
pub struct Outcome {
    pub numbers: Vec<u32>,
    pub sheets: Vec<Notes>,
    pub replies: Vec<u8>,
}

/// The notes of each sheet.
fn notes(alloc: Global, sheets: &ListSink) -> Result<Vec<Notes>, AllocError> {
    let mut found = Vec::new(alloc);
    for delivery in sheets.deliveries() {
        let sheet = &delivery.sheet;
        found.push((note(&sheet.front), sheet.back.as_ref().map(note)))?;
    }
    Ok(found)
}

impl Outcome {
    /// What the sinks took.
    pub(crate) fn of(
        alloc: Global,
        sheets: &ListSink,
        replies: &ListReplies,
    ) -> Result<Self, Fail> {
        Ok(Outcome {
            numbers: Vec::new(alloc),
            sheets: notes(alloc, sheets)?,
            replies: Vec::from_slice(alloc, replies.bytes())?,
        })
    }

    /// Whether the sheets and replies of a row came.
    pub(crate) fn is(&self, (_, sheets, replies): &Row) -> bool {
        self.sheets.as_slice() == *sheets && self.replies.as_slice() == *replies
    }

    /// Whether a prefix of them came.
    fn is_prefix(&self, (_, sheets, replies): &Row) -> bool {
        sheets.starts_with(&self.sheets) && replies.starts_with(&self.replies)
    }
}

/// At which calls a reader and the sinks of a run fail, and how much of a reply is taken then.
#[derive(Clone, Copy)]
pub struct Fuses {
    reads: u64,
    sheets: u64,
    replies: u64,
    front: usize,
}

/// More calls than any of these streams makes.
const NEVER: u64 = 1_000_000;

/// A reader and sinks without a fault.
pub const SOUND: Fuses = Fuses {
    reads: NEVER,
    sheets: NEVER,
    replies: NEVER,
    front: 0,
};

/// A stream, read byte by byte; and what the job answers to one piece more.
pub(crate) fn run(alloc: Global, stream: &[u8], fuses: &Fuses) -> Result<Outcome, Fail> {
    let mut sheets = FuseSink::new(ListSink::new(alloc), fuses.sheets);
    let mut replies = FuseReplies::new(ListReplies::new(alloc), fuses.replies, fuses.front);
    let bytes = Reluctant {
        bytes: stream,
        interrupted: true,
        fails: false,
    };
    let mut reader = FuseRead::new(bytes, fuses.reads);
    let mut job = Job::open(alloc)?;
    let answer = number(&job.run(&mut reader, 7, &mut sheets, &mut replies));
    let late = number(&job.push(b"\x0C"));
    let mut outcome = Outcome::of(alloc, sheets.sink(), replies.sink())?;
    outcome.numbers.extend_from_slice(&[answer, late])?;
    Ok(outcome)
}

/// A device that fails at one of its calls.
#[derive(Clone, Copy)]
enum Device {
    Reader,
    Sheets,
    Replies,
}

/// How many bytes of a reply are taken where it fails.
const TAKEN: usize = 5;

/// How many form feeds stand in bytes; each reply ends with one.
fn form_feeds(bytes: &[u8]) -> usize {
    bytes.iter().filter(|byte| **byte == 0x0C).count()
}

impl Device {
    /// The fuses of which this device's blows after so many calls.
    fn failing_after(self, calls: usize) -> Fuses {
        let calls = calls as u64;
        match self {
            Device::Reader => Fuses {
                reads: calls,
                ..SOUND
            },
            Device::Sheets => Fuses {
                sheets: calls,
                ..SOUND
            },
            Device::Replies => Fuses {
                replies: calls,
                front: TAKEN,
                ..SOUND
            },
        }
    }

    /// The number of its fault.
    fn fault(self) -> u32 {
        match self {
            Device::Reader => 304,
            Device::Sheets => 301,
            Device::Replies => 302,
        }
    }

    /// How often a row calls it: a read for each byte and one for the end, a delivery for each sheet, and each reply.
    fn calls_of(self, (stream, sheets, replies): &Row) -> usize {
        match self {
            Device::Reader => stream.len().saturating_add(1),
            Device::Sheets => sheets.len(),
            Device::Replies => form_feeds(replies),
        }
    }

    /// Whether all that its calls before took came of a run, where it is a sink, and the front of one reply more.
    fn took(self, calls: usize, outcome: &Outcome) -> bool {
        match self {
            Device::Reader => true,
            Device::Sheets => outcome.sheets.len() == calls,
            Device::Replies => {
                let part = outcome.replies.iter().rev().position(|byte| *byte == 0x0C);
                form_feeds(&outcome.replies) == calls
                    && part.unwrap_or(outcome.replies.len()) == TAKEN
            }
        }
    }
}

/// Whether a row whose device fails after so many calls is answered by that device's fault, with a prefix of its sheets and
/// replies, and then by 303.
fn stops(alloc: Global, row: &Row, device: Device, calls: usize) -> Result<bool, Fail> {
    let outcome = run(alloc, row.0, &device.failing_after(calls))?;
    let answered = outcome.numbers.as_slice() == [device.fault(), 303].as_slice();
    Ok(answered && outcome.is_prefix(row) && device.took(calls, &outcome))
}

/// Whether a row whose device would fail at one call more than the row makes is printed whole.
fn goes_through(alloc: Global, row: &Row, device: Device) -> Result<bool, Fail> {
    let outcome = run(alloc, row.0, &device.failing_after(device.calls_of(row)))?;
    Ok(outcome.numbers.as_slice() == [1, 305].as_slice() && outcome.is(row))
}

/// A device fails at each call of a row in turn.
fn fail_each_call(rt: &(impl Abort + AllocGlobal), row: &Row, device: Device) -> Result<(), Fail> {
    for calls in 0..device.calls_of(row) {
        assert!(rt; stops(rt.alloc(), row, device, calls)?, "{calls}");
    }
    assert!(rt; goes_through(rt.alloc(), row, device)?);
    Ok(())
}

/// A device fails at each call of each row in turn.
fn fail_each_row(rt: &(impl Abort + AllocGlobal), device: Device) -> Result<(), Fail> {
    for rows in [PAGES.as_slice(), MARKS.as_slice(), JOBS.as_slice()] {
        for row in rows {
            fail_each_call(rt, row, device)?;
        }
    }
    Ok(())
}

#[test]
fn each_read_may_fail(rt: HostRuntime) -> Result<(), Fail> {
    fail_each_row(&rt, Device::Reader)
}

#[test]
fn each_delivery_may_fail(rt: HostRuntime) -> Result<(), Fail> {
    fail_each_row(&rt, Device::Sheets)
}

/// Whether a second reply of which five bytes are taken leaves the two sheets before it, and 28 bytes of replies.
fn leaves_two_sheets(alloc: Global) -> Result<bool, Fail> {
    let outcome = run(alloc, THREE_TOLD.0, &Device::Replies.failing_after(1))?;
    let answered = outcome.numbers.as_slice() == [302, 303].as_slice();
    Ok(answered && outcome.sheets.len() == 2 && outcome.replies.len() == 28)
}

#[test]
fn each_reply_may_fail(rt: HostRuntime) -> Result<(), Fail> {
    assert!(rt; leaves_two_sheets(rt.alloc())?);
    fail_each_row(&rt, Device::Replies)
}

/// How many sheets of `COPIES` went out where so many of its bytes were read: those of each form feed.
fn sheets_before(bytes: usize) -> usize {
    let read = COPIES.0.get(..bytes).unwrap_or(b"");
    match form_feeds(read) {
        0 => 0,
        1 => 3,
        _ => 5,
    }
}

/// Whether a read that fails behind so many bytes leaves all sheets of the commands before it, each with its reply.
fn leaves_all_before(alloc: Global, bytes: usize) -> Result<bool, Fail> {
    let outcome = run(alloc, COPIES.0, &Device::Reader.failing_after(bytes))?;
    let sheets = sheets_before(bytes);
    Ok(outcome.sheets.len() == sheets && form_feeds(&outcome.replies) == sheets)
}

#[test]
fn a_failed_read_leaves_all_that_came_before_it(rt: HostRuntime) -> Result<(), Fail> {
    for bytes in 0..COPIES.0.len() + 1 {
        assert!(rt; leaves_all_before(rt.alloc(), bytes)?, "{bytes}");
    }
    Ok(())
}
