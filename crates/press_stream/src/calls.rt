//! A stream by any calls of a job, and by a reader behind them.
ghost use Rattle.std.specs.Prelude.{◌≡◌, ◌++◌, ℕ, List, Some, None, IsSome, false, IfOk, IfErr, IsErrOf, OnErr, OnOk, true};
ghost use Rattle.std.specs.List.{flat_map};
ghost use Rattle.press_devices.specs.Reading.{ReadFails};
ghost use Rattle.press_sink.specs.SinkLog.{logs, HasFaultRoom, under};
ghost use Rattle.press_sink.specs.Sending.{Complete, HandsOut};
ghost use Rattle.press_stream.specs.Answers.{CarriesOrStops, ending_by, fault_of};
ghost use Rattle.press_stream.specs.Printed.{Prints, PrintedTo, Printed, TellsMeaning};
ghost use Rattle.press_stream.specs.State.{IsOver, opened};
ghost use Rattle.press_stream.specs.Calls.{bytes_of, StopsHanded, StopsRead};

use crate::call_laws;
use crate::fault::JobError;
use crate::job::Job;
use press_devices::ReadDevice;
use press_sink::{ReplySink, SheetSink};
use std::alloc::{AllocError, Global};

/// A call of a job while its stream comes.
#[derive(Clone, Copy)]
pub enum Call<'a> {
    /// This piece is pushed, and nothing is carried out.
    Push(&'a [u8]),
    /// This piece is taken, and the commands so far are carried out.
    Feed(&'a [u8]),
    /// A table step is taken: a command of the innermost body that runs, or else of the stream, if a whole one is there.
    Step,
}

/// Prints a stream whose pieces are pushed or fed, with steps between them in any order, from power on; and then the end of input is
/// given. The job is handed back, and no step of it is left. Whatever the calls are, the sheets, the replies and the machine are those of
/// what the bytes mean: their commands, carried out one after another, and one more universal exit.
///
/// # Errors
///
/// `SinkFault` (301) and `ReplyFault` (302): a sink had a fault, and nothing came after it. `NoMemory`. What went out by then is a
/// front of what the whole stream prints: behind it the next output is a sheet at 301, a reply at 302, of which a front went out.
pub fn print_calls<S: SheetSink, P: ReplySink>(
    alloc: Global,
    calls: &[Call<'_>],
    tag: u64,
    sheets: &mut S,
    replies: &mut P,
) -> Result<Job, JobError>
    requires { HasFaultRoom (logs (S.told sheets.old) (P.told replies.old)) }
    ensures ok { IfOk result (λ job. HandsOut Complete
        (Prints (flat_map bytes_of calls.now) Complete job.machine)
        (under tag (logs (S.told sheets.old) (P.told replies.old))
        (logs (S.told sheets.new) (P.told replies.new)))) }
    ensures means { IfOk result (λ job.
        TellsMeaning (flat_map bytes_of calls.now) job.machine
        (under tag (logs (S.told sheets.old) (P.told replies.old))
        (logs (S.told sheets.new) (P.told replies.new)))) }
    ensures over { IfOk result IsOver }
    ensures err { IfErr result (λ error. HandsOut (ending_by (Some error))
        (PrintedTo (Some error) (flat_map bytes_of calls.now) None)
        (under tag (logs (S.told sheets.old) (P.told replies.old))
        (logs (S.told sheets.new) (P.told replies.new)))) }
    ensures unread { IfErr result StopsHanded }
{
    call_laws::chain();
    let mut job = Job::open(alloc)?;
    for call in calls {
        make(&mut job, *call, tag, sheets, replies)?;
    }
    job.finish(tag, sheets, replies)?;
    Ok(job)
}

/// A stream that was printed by calls of a job and then by a reader: the job, and why it stopped early, where it did.
#[derive(Drop)]
pub struct PrintedStream {
    pub job: Job,
    pub result: Result<(), JobError>,
}

/// Prints a stream from power on: first by any calls, and then what a reader has behind them, to its end. Whatever the calls are, and
/// however the reader gives its bytes, the sheets, the replies and the machine are those of what all bytes mean: their commands, carried
/// out one after another, and one more universal exit. No step of the job is left then. Of a reader that tells its bytes these are all
/// that it had; of another they are some.
///
/// Where it stopped early, the job has failed, and answers 303 from then on: at `SinkFault` (301) and `ReplyFault` (302) a sink had a
/// fault, at `ReadFault` (304) a read failed, or there were too many, or memory ran out. What went out by then is a prefix of what the
/// whole stream prints, at 304 all of the commands so far.
///
/// # Errors
///
/// Where there is no memory for a job; nothing was read, and nothing went out.
pub fn print_stream<R: ReadDevice, S: SheetSink, P: ReplySink>(
    alloc: Global,
    calls: &[Call<'_>],
    reader: &mut R,
    tag: u64,
    sheets: &mut S,
    replies: &mut P,
) -> Result<PrintedStream, AllocError>
    requires { HasFaultRoom (logs (S.told sheets.old) (P.told replies.old)) }
    ensures prints { IfOk result (λ printed. HandsOut (ending_by (fault_of printed.result))
        (Printed (flat_map bytes_of calls.now) (R.remaining reader.old) (R.remaining reader.new)
        (fault_of printed.result) printed.job.machine)
        (under tag (logs (S.told sheets.old) (P.told replies.old))
        (logs (S.told sheets.new) (P.told replies.new)))) }
    ensures means { IfOk result (λ printed. OnOk printed.result
        ((read : List ℕ) → R.remaining reader.old ≡ Some read
        → TellsMeaning (flat_map bytes_of calls.now ++ read) printed.job.machine
        (under tag (logs (S.told sheets.old) (P.told replies.old))
        (logs (S.told sheets.new) (P.told replies.new))))) }
    ensures over { IfOk result (λ printed. OnOk printed.result (IsOver printed.job)) }
    ensures failed { IfOk result (λ printed. OnErr printed.result (printed.job.machine ≡ None)) }
    ensures listed { IfOk result (λ printed. IfErr printed.result StopsRead) }
    ensures cause { IfOk result (λ printed. IsErrOf printed.result JobError.ReadFault
        → ReadFails (R.failed reader.new) (R.reads reader.new)) }
    ensures nothing { OnErr result ((reader.new ≡ reader.old) × (sheets.new ≡ sheets.old)
        × (replies.new ≡ replies.old)) }
{
    let mut job = Job::open(alloc)?;
    let result = run_calls(&mut job, calls, reader, tag, sheets, replies);
    Ok(PrintedStream { job, result })
}

/// Makes calls of a job that was opened, and then runs what a reader has.
fn run_calls<R: ReadDevice, S: SheetSink, P: ReplySink>(
    job: &mut Job,
    calls: &[Call<'_>],
    reader: &mut R,
    tag: u64,
    sheets: &mut S,
    replies: &mut P,
) -> Result<(), JobError>
    requires opened { job.old ≡ opened }
    requires has_fault_room { HasFaultRoom (logs (S.told sheets.old) (P.told replies.old)) }
    ensures prints { HandsOut (ending_by (fault_of result))
        (Printed (flat_map bytes_of calls.now) (R.remaining reader.old) (R.remaining reader.new)
        (fault_of result) job.new.machine)
        (under tag (logs (S.told sheets.old) (P.told replies.old))
        (logs (S.told sheets.new) (P.told replies.new))) }
    ensures means { OnOk result ((read : List ℕ) → R.remaining reader.old ≡ Some read
        → TellsMeaning (flat_map bytes_of calls.now ++ read) job.new.machine
        (under tag (logs (S.told sheets.old) (P.told replies.old))
        (logs (S.told sheets.new) (P.told replies.new)))) }
    ensures over { OnOk result (IsOver job.new) }
    ensures failed { OnErr result (job.new.machine ≡ None) }
    ensures listed { IfErr result StopsRead }
    ensures cause { IsErrOf result JobError.ReadFault
        → ReadFails (R.failed reader.new) (R.reads reader.new) }
{
    call_laws::chain();
    for call in calls {
        make(job, *call, tag, sheets, replies)?;
    }
    job.run(reader, tag, sheets, replies)
}

/// Makes one call of a job that takes more bytes.
fn make<S: SheetSink, P: ReplySink>(
    job: &mut Job,
    call: Call<'_>,
    tag: u64,
    sheets: &mut S,
    replies: &mut P,
) -> Result<(), JobError>
    requires running { IsSome job.old.machine }
    requires going { job.old.held.ended ≡ false }
    requires has_fault_room { HasFaultRoom (logs (S.told sheets.old) (P.told replies.old)) }
    ensures goes { HandsOut (ending_by (fault_of result))
        (CarriesOrStops job.old (bytes_of call.entry) result job.new)
        (under tag (logs (S.told sheets.old) (P.told replies.old))
        (logs (S.told sheets.new) (P.told replies.new))) }
    ensures going { OnOk result (job.new.held.ended ≡ false) }
    ensures failed { OnErr result (job.new.machine ≡ None) }
{
    match call {
        Call::Push(piece) => job.push(piece),
        Call::Feed(piece) => job.feed(piece, tag, sheets, replies),
        Call::Step => {
            job.step(tag, sheets, replies)?;
            Ok(())
        }
    }
}
