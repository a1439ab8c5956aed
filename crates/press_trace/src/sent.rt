//! What went out in a step.

ghost use Rattle.std.specs.Prelude.{◌≡◌, IfOk, OnOk, length, min};
ghost use Rattle.press_units.specs.Limits.{greatest_of_64_bits};
ghost use Rattle.press_sink.specs.Sending.{sheets_of, reply_bytes_of};
ghost use Rattle.press_table.specs.Outputs.{all_outputs, outputs_of};

use press_bits::Sheet;
use press_engine::Sent;
use press_sink::{ListReplies, SheetSink, SinkError};
use press_stream::Job;
use std::alloc::{AllocError, Global};

/// A sink that takes each sheet, and keeps none.
#[derive(Drop)]
pub struct NoSheets;

impl SheetSink for NoSheets {
    ghost use Rattle.press_sink.specs.SinkLog.{unlisted_log};

    ghost told = { λ _. unlisted_log 0 };

    fn faults(&self) -> u64 {
        0
    }

    fn deliver(&mut self, _tag: u64, _sheet: &Sheet) -> Result<(), SinkError> {
        Ok(())
    }
}

/// How many sheets of this part go out.
#[tactic(auto, using(crate::proofs::SentLemmas::count_copies))]
fn sheets_of(sent: &Sent) -> u64
    ensures { result ≡ length (sheets_of (outputs_of sent.now)) }
{
    match sent {
        Sent::Sheet(finished) => u64::from(finished.copies),
        Sent::Reply(_) => 0,
    }
}

/// How many sheets went out; the greatest number stays.
fn sheets_in(sent: &[Sent]) -> u64
    ensures { result ≡ min (length (sheets_of (all_outputs sent.now))) greatest_of_64_bits }
{
    let mut count = 0u64;
    for part in sent {
        count = count.saturating_add(sheets_of(part));
    }
    count
}

/// The bytes of the replies that went out, joined.
fn replies_of(job: &mut Job, alloc: Global, sent: &[Sent]) -> Result<Vec<u8>, AllocError>
    ensures bytes { IfOk result (λ bytes. bytes.items ≡ reply_bytes_of (all_outputs sent.now)) }
    ensures job { OnOk result (job.new ≡ job.old) }
{
    let mut replies = ListReplies::new(alloc);
    if job.hand_over(sent, 0, &mut NoSheets, &mut replies).is_err() {
        return Err(AllocError);
    }
    let mut bytes = Vec::new(alloc);
    bytes.extend_from_slice(replies.bytes())?;
    Ok(bytes)
}

/// What went out in a step.
#[derive(Drop)]
pub(crate) struct WentOut {
    /// How many sheets, each copy counted; the greatest number stays.
    pub(crate) sheets: u64,
    /// The bytes of the replies, joined.
    pub(crate) replies: Vec<u8>,
}

impl WentOut {
    ghost use Rattle.press_trace.specs.Sent.{AreOut};

    /// What went out of a job in a step.
    pub(crate) fn of(job: &mut Job, alloc: Global, sent: &[Sent]) -> Result<Self, AllocError>
        ensures went { IfOk result (λ went. AreOut went (all_outputs sent.now)) }
        ensures job { OnOk result (job.new ≡ job.old) }
    {
        Ok(WentOut {
            sheets: sheets_in(sent),
            replies: replies_of(job, alloc, sent)?,
        })
    }
}
