//! A job that prints its ticket, written piece by piece or whole.

ghost use Rattle.std.specs.Prelude.{◌≡◌, ◌≤◌, ◌⊎◌, List, true, [], None, Err, OnOk, OnErr, IfOk, IfErr, IfSome, IsSome, length};
ghost use Rattle.std.specs.Io.KnownBytes.{Appends};
ghost use Rattle.press_cmd.specs.Split.{Closed};
ghost use Rattle.press_cmd.specs.Token.{Token};
ghost use Rattle.press_devices.specs.Writing.{AppendsPrefix};
ghost use Rattle.press_writer.specs.declared.fault.WriterError.TheVariants.{WriteFault, NoMemory};
ghost use Rattle.press_writer.specs.Fitting.{refusal};
ghost use Rattle.press_writer.specs.Job.{job_bytes};
ghost use Rattle.press_writer.specs.Left.{HasImages, bytes_left, most_job_commands, whole_job};
ghost use Rattle.press_printing.specs.Printing.{PrintsTheTicket};

use crate::printing_law::jobs_print_their_tickets;
use press_bits::Bitmap;
use press_devices::WriteDevice;
use press_ticket::Ticket;
use press_writer::{JobWriter, WriterError};
use std::alloc::Global;

/// The job of a ticket with these images, of which nothing is written. Its bytes print the ticket.
///
/// # Errors
///
/// Those of [`check`](press_writer::check), and `NoMemory` where memory ran out.
pub fn open_job(alloc: Global, ticket: &Ticket, images: &[Bitmap]) -> Result<JobWriter, WriterError>
    ensures job { IfOk result (λ writer. writer ≡ whole_job ticket.now) }
    ensures bytes { IfOk result (λ writer.
        bytes_left writer images.now ≡ job_bytes ticket.now images.now) }
    ensures images { IfOk result (HasImages (length images.now)) }
    ensures few { OnOk result ((commands : List Token)
        → Closed (job_bytes ticket.now images.now) commands
        → length commands ≤ most_job_commands) }
    ensures refused { IfSome (refusal ticket.now images.now) (λ error. result ≡ Err error) }
    ensures prints { refusal ticket.now images.now ≡ None
        → PrintsTheTicket ticket.now images.now (job_bytes ticket.now images.now) }
    ensures fault { refusal ticket.now images.now ≡ None
        → IfErr result (λ error. error ≡ NoMemory) }
{
    jobs_print_their_tickets();
    JobWriter::open(alloc, ticket, images)
}

/// Writes the job of a ticket with these images: the commands by which its sets are printed, in order.
///
/// A press that is powered on and reads the job to its end delivers the sheets that the ticket wants, in its order and as often
/// as it says, and nothing else.
///
/// # Errors
///
/// - those of [`check`](press_writer::check); nothing was written then
/// - `WriteFault` (614) where a write failed; a prefix of the job was written
/// - `NoMemory` where memory ran out; a prefix of the job was written
///
/// Source: PCL 5 Printer Language Technical Reference Manual, PJL Technical Reference Manual; which commands a job has is this
/// profile's.
pub fn write_job<W: WriteDevice>(
    alloc: Global,
    ticket: &Ticket,
    images: &[Bitmap],
    output: &mut W,
) -> Result<(), WriterError>
    ensures ok { OnOk result (Appends (W.contents output.old) (W.contents output.new)
        (job_bytes ticket.now images.now)) }
    ensures err { OnErr result (AppendsPrefix (W.contents output.old) (W.contents output.new)
        (job_bytes ticket.now images.now)) }
    ensures prints { refusal ticket.now images.now ≡ None
        → PrintsTheTicket ticket.now images.now (job_bytes ticket.now images.now) }
    ensures refused { IfSome (refusal ticket.now images.now) (λ error. result ≡ Err error) }
    ensures nothing { IsSome (refusal ticket.now images.now)
        → Appends (W.contents output.old) (W.contents output.new) [] }
    ensures fault { refusal ticket.now images.now ≡ None
        → IfErr result (λ error. (error ≡ WriteFault) ⊎ (error ≡ NoMemory)) }
    ensures cause { IfErr result (λ error.
        error ≡ WriteFault → W.failed output.new ≡ true) }
{
    jobs_print_their_tickets();
    press_writer::write_job(alloc, ticket, images, output)
}
