//! The one place that hands sheets and replies to the sinks.

ghost use Rattle.std.specs.Prelude.{◌≡◌, ◌≢◌, ◌<◌, [], ◌∷◌, Some, true, IsErrOf};
ghost use Rattle.press_pjl.specs.Replies.{page_reply};
ghost use Rattle.press_sink.specs.SinkLog.{logs, HasFaultRoom, Delivers, TookLast, most_faults};
ghost use Rattle.press_sink.specs.Sending.{Deliver, Reply, WentOut};
ghost use Rattle.press_engine.specs.Engine.{ending_of};
ghost use Rattle.press_table.specs.Outputs.{outputs_of, all_outputs, finished_of, copy_out, next_count};

use crate::fault::EngineError;
use press_bits::Sheet;
use press_pjl::write_reply;
use press_sink::{ReplyError, ReplySink, SheetSink, SinkError};
use press_table::{FinishedSheet, Sent};
use std::alloc::Global;

/// Hands a part of what goes out to the sinks, in order.
fn send<S: SheetSink, R: ReplySink>(
    sent: &Sent,
    alloc: Global,
    tag: u64,
    sheets: &mut S,
    replies: &mut R,
) -> Result<(), EngineError>
    requires { HasFaultRoom (logs (S.told sheets.old) (R.told replies.old)) }
    ensures sends { WentOut tag (outputs_of sent.now) (ending_of result)
        (logs (S.told sheets.old) (R.told replies.old))
        (logs (S.told sheets.new) (R.told replies.new)) }
    ensures memory { IsErrOf result EngineError.NoMemory → outputs_of sent.now ≢ [] }
{
    match sent {
        Sent::Sheet(finished) => send_copies(finished, alloc, tag, sheets, replies),
        Sent::Reply(bytes) => reply(bytes.as_slice(), tag, sheets, replies),
    }
}

/// Hands what goes out in a step to the sinks, in order.
#[inline(always)]
pub fn send_all<S: SheetSink, R: ReplySink>(
    sent: &[Sent],
    alloc: Global,
    tag: u64,
    sheets: &mut S,
    replies: &mut R,
) -> Result<(), EngineError>
    requires { HasFaultRoom (logs (S.told sheets.old) (R.told replies.old)) }
    ensures sends { WentOut tag (all_outputs sent.now) (ending_of result)
        (logs (S.told sheets.old) (R.told replies.old))
        (logs (S.told sheets.new) (R.told replies.new)) }
    ensures memory { IsErrOf result EngineError.NoMemory → all_outputs sent.now ≢ [] }
{
    for part in sent {
        send(part, alloc, tag, sheets, replies)?;
    }
    Ok(())
}

/// The count of sheets since the job began, with one more.
fn next_count(count: Option<u64>) -> Option<u64>
    ensures { result ≡ next_count count }
{
    count.map(|since_job| since_job.saturating_add(1))
}

/// Delivers the copies of a finished sheet, each followed by its reply.
fn send_copies<S: SheetSink, R: ReplySink>(
    finished: &FinishedSheet,
    alloc: Global,
    tag: u64,
    sheets: &mut S,
    replies: &mut R,
) -> Result<(), EngineError>
    requires { HasFaultRoom (logs (S.told sheets.old) (R.told replies.old)) }
    ensures sends { WentOut tag (finished_of (Some finished.now)) (ending_of result)
        (logs (S.told sheets.old) (R.told replies.old))
        (logs (S.told sheets.new) (R.told replies.new)) }
    ensures memory { IsErrOf result EngineError.NoMemory → finished_of (Some finished.now) ≢ [] }
{
    let mut count = finished.since_job;
    for copy in 0..finished.copies {
        count = next_count(count);
        let again = copy > 0;
        send_copy(&finished.sheet, again, count, alloc, tag, sheets, replies)?;
    }
    Ok(())
}

/// Delivers a sheet, which may be the one that was delivered last, and its reply where there is one.
fn send_copy<S: SheetSink, R: ReplySink>(
    sheet: &Sheet,
    again: bool,
    count: Option<u64>,
    alloc: Global,
    tag: u64,
    sheets: &mut S,
    replies: &mut R,
) -> Result<(), EngineError>
    requires has_fault_room { HasFaultRoom (logs (S.told sheets.old) (R.told replies.old)) }
    requires last { again ≡ true
        → TookLast (S.told sheets.old) (record { tag = tag; sheet = sheet.now }) }
    ensures { WentOut tag (copy_out sheet.now count) (ending_of result)
        (logs (S.told sheets.old) (R.told replies.old))
        (logs (S.told sheets.new) (R.told replies.new)) }
{
    deliver(sheet, again, tag, sheets, replies)?;
    match count {
        None => Ok(()),
        Some(since_job) => reply_status(since_job, alloc, tag, sheets, replies),
    }
}

/// Writes the reply that follows a sheet.
fn reply_status<S: SheetSink, R: ReplySink>(
    since_job: u64,
    alloc: Global,
    tag: u64,
    sheets: &mut S,
    replies: &mut R,
) -> Result<(), EngineError>
    requires { HasFaultRoom (logs (S.told sheets.old) (R.told replies.old)) }
    ensures { WentOut tag (Reply (page_reply since_job) ∷ []) (ending_of result)
        (logs (S.told sheets.old) (R.told replies.old))
        (logs (S.told sheets.new) (R.told replies.new)) }
{
    let mut bytes = Vec::new(alloc);
    if write_reply(since_job, &mut bytes).is_err() {
        return Err(EngineError::NoMemory);
    }
    reply(&bytes, tag, sheets, replies)
}

/// Hands a sheet to a sink, which may have taken it last.
fn hand<S: SheetSink>(sheet: &Sheet, again: bool, tag: u64, sheets: &mut S) -> Result<(), SinkError>
    requires faults { (S.told sheets.old).faults < most_faults }
    requires last { again ≡ true
        → TookLast (S.told sheets.old) (record { tag = tag; sheet = sheet.now }) }
    ensures { Delivers (S.told sheets.old)
        (record { tag = tag; sheet = sheet.now }) result (S.told sheets.new) }
{
    if again {
        sheets.deliver_again(tag, sheet)
    } else {
        sheets.deliver(tag, sheet)
    }
}

/// Delivers a sheet, which may be the one that was delivered last.
fn deliver<S: SheetSink, R: ReplySink>(
    sheet: &Sheet,
    again: bool,
    tag: u64,
    sheets: &mut S,
    replies: &mut R,
) -> Result<(), EngineError>
    requires has_fault_room { HasFaultRoom (logs (S.told sheets.old) (R.told replies.old)) }
    requires last { again ≡ true
        → TookLast (S.told sheets.old) (record { tag = tag; sheet = sheet.now }) }
    ensures { WentOut tag (Deliver sheet.now ∷ []) (ending_of result)
        (logs (S.told sheets.old) (R.told replies.old))
        (logs (S.told sheets.new) (R.told replies.new)) }
{
    match hand(sheet, again, tag, sheets) {
        Ok(()) => Ok(()),
        Err(SinkError::SinkFault) => Err(EngineError::SinkFault),
        Err(SinkError::NoMemory) => Err(EngineError::NoMemory),
    }
}

/// Writes a reply.
fn reply<S: SheetSink, R: ReplySink>(
    bytes: &[u8],
    tag: u64,
    sheets: &mut S,
    replies: &mut R,
) -> Result<(), EngineError>
    requires { HasFaultRoom (logs (S.told sheets.old) (R.told replies.old)) }
    ensures { WentOut tag (Reply bytes.now ∷ []) (ending_of result)
        (logs (S.told sheets.old) (R.told replies.old))
        (logs (S.told sheets.new) (R.told replies.new)) }
{
    match replies.reply(bytes) {
        Ok(()) => Ok(()),
        Err(ReplyError::ReplyFault) => Err(EngineError::ReplyFault),
        Err(ReplyError::NoMemory) => Err(EngineError::NoMemory),
    }
}
