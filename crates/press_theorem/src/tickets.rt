//! A ticket and the images of its pages, printed.
ghost use Rattle.std.specs.Prelude.{◌≡◌, [], Ok, Err, length, IfOk, IfErr};
ghost use Rattle.press_sink.specs.Kept.{deliveries, replied};
ghost use Rattle.press_sink.specs.Sending.{under_tag};
ghost use Rattle.press_ticket.specs.Reading.{ticket_in};
ghost use Rattle.press_ticket.specs.Ticket.{JobTicket};
ghost use Rattle.press_writer.specs.Left.{HasImages, bytes_left};
ghost use Rattle.press_writer.specs.Wanted.{wanted};
ghost use Rattle.press_theorem.specs.Tickets.{Delivers, IsNotPrinted, IsPrinterOf, IsUnfit, not_printed_number};

use press_bits::Bitmap;
use press_printing::open_job;
use press_sink::{ListReplies, ListSink};
use press_stream::{Job, JobError, call_laws};
use press_ticket::{Ticket, TicketError, read_ticket};
use press_units::ToldFault;
use press_writer::{JobWriter, WriterError};
use std::alloc::Global;
use std::error::Error;
use std::fmt;

/// The sheets that were delivered, and the replies.
#[derive(Drop)]
pub struct Delivered {
    pub sheets: ListSink,
    pub replies: ListReplies,
}

/// Why a ticket was not printed.
#[derive(Debug, Drop)]
pub enum NotPrinted {
    /// The text is no ticket.
    Ticket(TicketError),
    /// The ticket is not printed with these images.
    Images(WriterError),
    /// Memory ran out.
    NoMemory,
}

impl NotPrinted {
    /// Its number: 601 to 605 or 611 to 613, unless memory ran out.
    pub fn number(&self) -> Option<u16>
        ensures { result ≡ not_printed_number self.now }
    {
        match self {
            NotPrinted::Ticket(error) => error.number(),
            NotPrinted::Images(error) => error.number(),
            NotPrinted::NoMemory => None,
        }
    }
}

impl fmt::Display for NotPrinted {
    ghost use Rattle.press_theorem.specs.Tickets.{not_printed_text};

    ghost output = { not_printed_text };

    fn fmt<W: fmt::Write>(&self, f: &mut fmt::Formatter<W>) -> fmt::Result {
        match self {
            NotPrinted::Ticket(error) => write!(f, "{error}"),
            NotPrinted::Images(error) => write!(f, "{error}"),
            NotPrinted::NoMemory => write!(f, "{}", ToldFault(None)),
        }
    }
}

impl Error for NotPrinted {}

/// The job of a ticket with these images, of which nothing is written.
fn job_of(alloc: Global, ticket: &Ticket, images: &[Bitmap]) -> Result<JobWriter, WriterError>
    ensures ok { IfOk result (λ writer. IsPrinterOf ticket.now images.now writer) }
    ensures err { IfErr result (λ why. IsUnfit ticket.now images.now why) }
{
    open_job(alloc, ticket, images)
}

/// What a job delivers under a tag, from power on to its end, which comes in pieces. Lists have no fault, so it stops for want of memory
/// alone.
fn print_job(
    alloc: Global,
    writer: &mut JobWriter,
    images: &[Bitmap],
    tag: u64,
) -> Result<Delivered, JobError>
    requires { HasImages (length images.now) writer.old }
    ensures ok { IfOk result (λ lists. Delivers (bytes_left writer.old images.now) tag
        (deliveries lists.sheets) (replied lists.replies)) }
    ensures err { IfErr result (λ error. error ≡ JobError.NoMemory) }
{
    call_laws::chain();
    let mut sheets = ListSink::new(alloc);
    let mut replies = ListReplies::new(alloc);
    let mut job = Job::open(alloc)?;
    let mut piece = Vec::new(alloc);
    while writer.piece(images, &mut piece)? {
        job.feed(&piece, tag, &mut sheets, &mut replies)?;
        piece.clear();
    }
    job.finish(tag, &mut sheets, &mut replies)?;
    Ok(Delivered { sheets, replies })
}

/// Prints the ticket that a text is, with the images of its pages, under a tag: its job is written piece by piece, a row of an image in
/// each, and fed to a press that is powered on. What is delivered are the sheets that the ticket wants, in its order and as often as it
/// says, and nothing else; and there is no reply.
///
/// # Errors
///
/// 601 to 605 where the text is no ticket; 611 to 613 where the ticket is not printed with these images; and want of memory.
pub fn print_ticket(
    alloc: Global,
    text: &[u8],
    images: &[Bitmap],
    tag: u64,
) -> Result<Delivered, NotPrinted>
    ensures prints { IfOk result (λ printed. (ticket : JobTicket) × (ticket_in text.now ≡ Ok ticket)
        × (deliveries printed.sheets ≡ under_tag tag (wanted ticket images.now))) }
    ensures silent { IfOk result (λ printed. replied printed.replies ≡ []) }
    ensures refused { IfErr result (λ why. IsNotPrinted text.now images.now why) }
{
    let ticket = read_ticket(alloc, text).map_err(NotPrinted::Ticket)?;
    let mut writer = job_of(alloc, &ticket, images).map_err(NotPrinted::Images)?;
    match print_job(alloc, &mut writer, images, tag) {
        Ok(printed) => Ok(printed),
        Err(_) => Err(NotPrinted::NoMemory),
    }
}
