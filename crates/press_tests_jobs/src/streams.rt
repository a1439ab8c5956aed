//! Worked streams read byte by byte, and handed in cut at every byte, with steps between the pieces.
use crate::devices::{Outcome, SOUND, run};
use crate::worked::{FIRST, JOBS, MARKS, PAGES, Row};
use press_sink::{ListReplies, ListSink};
use press_stream::{Call, print_calls, print_pieces};
use std::alloc::Global;
use std::process::Abort;
use std::test::Fail;

/// The two pieces of a stream that is cut.
fn pieces_of(stream: &[u8], at: usize) -> (&[u8], &[u8]) {
    let front = stream.get(..at).unwrap_or(b"");
    let back = stream.get(at..).unwrap_or(b"");
    (front, back)
}

/// What comes of a stream that is handed in cut in two.
fn cut(alloc: Global, stream: &[u8], at: usize) -> Result<Outcome, Fail> {
    let mut sheets = ListSink::new(alloc);
    let mut replies = ListReplies::new(alloc);
    let (front, back) = pieces_of(stream, at);
    print_pieces(alloc, &[front, back], 7, &mut sheets, &mut replies)?;
    Outcome::of(alloc, &sheets, &replies)
}

/// What comes of a stream that is pushed cut in two, with a step before, between and behind the pieces.
fn stepped(alloc: Global, stream: &[u8], at: usize) -> Result<Outcome, Fail> {
    let mut sheets = ListSink::new(alloc);
    let mut replies = ListReplies::new(alloc);
    let (front, back) = pieces_of(stream, at);
    let calls = [
        Call::Step,
        Call::Push(front),
        Call::Step,
        Call::Push(back),
        Call::Step,
    ];
    print_calls(alloc, &calls, 7, &mut sheets, &mut replies)?;
    Outcome::of(alloc, &sheets, &replies)
}

/// Whether a stream that is read byte by byte gives what its row says.
fn is_read(alloc: Global, row: &Row) -> Result<bool, Fail> {
    let read = run(alloc, row.0, &SOUND)?;
    Ok(read.numbers.as_slice() == [1, 305].as_slice() && read.is(row))
}

/// Whether a stream that is handed in cut in two gives what its row says.
fn is_handed_in(alloc: Global, row: &Row, at: usize) -> Result<bool, Fail> {
    let fed = cut(alloc, row.0, at)?.is(row);
    Ok(fed && stepped(alloc, row.0, at)?.is(row))
}

/// Each stream of a table, read byte by byte, and cut at each place.
fn pieces_make_no_difference(rt: &(impl Abort + AllocGlobal), rows: &[Row]) -> Result<(), Fail> {
    for row in rows {
        assert!(rt; is_read(rt.alloc(), row)?);
        for at in 0..row.0.len() + 1 {
            assert!(rt; is_handed_in(rt.alloc(), row, at)?, "{at}");
        }
    }
    Ok(())
}

#[test]
fn pages_come_in_pieces(rt: HostRuntime) -> Result<(), Fail> {
    pieces_make_no_difference(&rt, &PAGES)
}

#[test]
fn marks_come_in_pieces(rt: HostRuntime) -> Result<(), Fail> {
    pieces_make_no_difference(&rt, &MARKS)
}

#[test]
fn lines_come_in_pieces(rt: HostRuntime) -> Result<(), Fail> {
    pieces_make_no_difference(&rt, &JOBS)
}

/// A million commands and a page in one piece, which is forty times as long as the buffer that it goes through.
#[test]
fn a_long_piece_goes_through_the_buffer(rt: HostRuntime) -> Result<(), Fail> {
    let mut stream = Vec::new(rt.alloc());
    for _ in 0..1_000_000 {
        stream.extend_from_slice(b"\x1B*p0X")?;
    }
    stream.extend_from_slice(b"\x1BE\x1B*p0x0Y\x1B*c3a2b0P\x1BE")?;
    let outcome = cut(rt.alloc(), &stream, 0)?;
    assert!(rt; outcome.is(&(b"", &[FIRST], b"")));
    Ok(())
}
