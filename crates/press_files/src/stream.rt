//! Streams that are printed from a reader to two sinks.
ghost use Rattle.std.specs.Prelude.{◌≡◌, IsErrOf, true};
ghost use Rattle.press_devices.specs.Reading.{ReadFails};
ghost use Rattle.press_sink.specs.SinkLog.{logs, HasFaultRoom, under};
ghost use Rattle.press_sink.specs.Sending.{HandsOut};
ghost use Rattle.press_stream.specs.Answers.{fault_of, ending_by};
ghost use Rattle.press_stream.specs.Printed.{Printed};
ghost use Rattle.press_files.specs.Printing.{machine_of, status_of_fault, TellsFault};

use press_devices::{ReadDevice, Teller, report};
use press_sink::{ReplySink, SheetSink};
use press_stream::{Call, Job, JobError, call_laws, print_stream};
use std::alloc::Global;

/// Prints the stream of these bytes and of what a reader has behind them, from power on: its sheets are delivered under the tag, and the
/// job is handed back.
///
/// # Errors
///
/// `ReadFault` (304): a read failed, or there were more than 4,294,967,295; the commands that were whole by then were carried out.
/// `SinkFault` (301) and `ReplyFault` (302): a sink had a fault, and nothing came after it. `NoMemory`.
pub(crate) fn print_behind<R: ReadDevice, S: SheetSink, P: ReplySink>(
    alloc: Global,
    front: &[u8],
    reader: &mut R,
    tag: u64,
    sheets: &mut S,
    replies: &mut P,
) -> Result<Job, JobError>
    requires { HasFaultRoom (logs (S.told sheets.old) (P.told replies.old)) }
    ensures printed { HandsOut (ending_by (fault_of result))
        (Printed front.now (R.remaining reader.old) (R.remaining reader.new) (fault_of result)
        (machine_of result))
        (under tag (logs (S.told sheets.old) (P.told replies.old))
        (logs (S.told sheets.new) (P.told replies.new))) }
    ensures cause { IsErrOf result JobError.ReadFault
        → ReadFails (R.failed reader.new) (R.reads reader.new) }
{
    call_laws::chain();
    let calls = [Call::Feed(front)];
    let printed = print_stream(alloc, &calls, reader, tag, sheets, replies)?;
    printed.result?;
    Ok(printed.job)
}

/// Tells the fault that printing a stream had, if it had one. The answer is the status: 0, or 1 after a fault.
pub fn told_status<E: Teller>(printed: &Result<Job, JobError>, err: &mut E) -> u8
    ensures status { result ≡ status_of_fault (fault_of printed.now) }
    ensures told { TellsFault (fault_of printed.now) (E.said err.old) (E.said err.new) }
{
    match printed {
        Ok(_) => 0,
        Err(fault) => report(fault, err),
    }
}
