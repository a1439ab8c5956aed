//! A stream in pieces.
ghost use Rattle.std.specs.Prelude.{Some, None, IfOk, IfErr};
ghost use Rattle.std.specs.List.{flat_map};
ghost use Rattle.press_sink.specs.SinkLog.{logs, HasFaultRoom, under};
ghost use Rattle.press_sink.specs.Sending.{Complete, HandsOut};
ghost use Rattle.press_stream.specs.Answers.{ending_by};
ghost use Rattle.press_stream.specs.Printed.{Prints, PrintedTo, TellsMeaning};
ghost use Rattle.press_stream.specs.Calls.{StopsHanded};
ghost use Rattle.press_stream.specs.State.{IsOver};

use crate::call_laws;
use crate::fault::JobError;
use crate::job::Job;
use press_sink::{ReplySink, SheetSink};
use std::alloc::Global;

/// Prints a stream that comes in pieces, from power on: the pieces are fed one after another, and then the end of input is
/// given. The job is handed back, and no step of it is left. In whatever pieces the bytes come, the sheets, the replies and the machine
/// are those of what the bytes mean: their commands, carried out one after another, and one more universal exit.
///
/// # Errors
///
/// `SinkFault` (301) and `ReplyFault` (302): a sink had a fault, and nothing came after it. `NoMemory`. What went out by then is a
/// front of what the whole stream prints: behind it the next output is a sheet at 301, a reply at 302, of which a front went out.
pub fn print_pieces<S: SheetSink, P: ReplySink>(
    alloc: Global,
    pieces: &[&[u8]],
    tag: u64,
    sheets: &mut S,
    replies: &mut P,
) -> Result<Job, JobError>
    requires { HasFaultRoom (logs (S.told sheets.old) (P.told replies.old)) }
    ensures ok { IfOk result (λ job. HandsOut Complete
        (Prints (flat_map (λ piece. piece.now) pieces.now) Complete job.machine)
        (under tag (logs (S.told sheets.old) (P.told replies.old))
        (logs (S.told sheets.new) (P.told replies.new)))) }
    ensures means { IfOk result (λ job.
        TellsMeaning (flat_map (λ piece. piece.now) pieces.now) job.machine
        (under tag (logs (S.told sheets.old) (P.told replies.old))
        (logs (S.told sheets.new) (P.told replies.new)))) }
    ensures over { IfOk result IsOver }
    ensures err { IfErr result (λ error. HandsOut (ending_by (Some error))
        (PrintedTo (Some error) (flat_map (λ piece. piece.now) pieces.now) None)
        (under tag (logs (S.told sheets.old) (P.told replies.old))
        (logs (S.told sheets.new) (P.told replies.new)))) }
    ensures unread { IfErr result StopsHanded }
{
    call_laws::chain();
    let mut job = Job::open(alloc)?;
    for piece in pieces {
        job.feed(piece, tag, sheets, replies)?;
    }
    job.finish(tag, sheets, replies)?;
    Ok(job)
}
