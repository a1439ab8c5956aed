//! The job of a ticket with images in memory.
ghost use Rattle.std.specs.Prelude.{IfOk, IfErr, OnOk};
ghost use Rattle.press_files.specs.Jobs.{WritesAJob, WritesNoJob};
ghost use Rattle.press_memory.specs.Written.{AreImages, AreNoImages, JobOf, WritesOrStops};

use crate::answer::{NO_FAULT, Written};
use crate::ending::{fault_of, job_number, writer_number};
use press_bits::Bitmap;
use press_devices::{Watched, WriteDevice};
use press_files::{JobFileError, ticket_in};
use press_pbm::read_pbm;
use press_printing::write_job;
use press_ticket::Ticket;
use press_writer::WriterError;
use std::alloc::Global;

/// The job of a ticket with the images of P4 files that stand one behind the other.
pub(crate) fn job(alloc: Global, ticket: &[u8], images: &[u8]) -> Written
    ensures { JobOf ticket.now images.now result.fault result.bytes.items }
{
    let ticket = match ticket_in(alloc, &mut Watched::new(ticket)) {
        Ok(ticket) => ticket,
        Err(error) => return Written::nothing(alloc, fault_of(job_number(&error))),
    };
    match images_in(alloc, images) {
        Ok(images) => job_of(alloc, &ticket, &images),
        Err(error) => Written::nothing(alloc, fault_of(job_number(&error))),
    }
}

/// The job of a ticket with images.
fn job_of(alloc: Global, ticket: &Ticket, images: &[Bitmap]) -> Written
    ensures { WritesOrStops ticket.now images.now result.fault result.bytes.items }
{
    let mut out = Watched::new(Vec::new(alloc));
    match write_into(alloc, ticket, images, &mut out) {
        Ok(()) => Written {
            fault: NO_FAULT,
            bytes: out.into_inner(),
        },
        Err(error) => Written {
            fault: fault_of(writer_number(&error)),
            bytes: out.into_inner(),
        },
    }
}

/// Writes the job of a ticket with images.
fn write_into<W: WriteDevice>(
    alloc: Global,
    ticket: &Ticket,
    images: &[Bitmap],
    out: &mut W,
) -> Result<(), WriterError>
    ensures ok { OnOk result
        (WritesAJob ticket.now images.now (W.contents out.old) (W.contents out.new)) }
    ensures err { IfErr result
        (WritesNoJob ticket.now images.now (W.contents out.old) (W.contents out.new)) }
{
    write_job(alloc, ticket, images, out)
}

/// The images of P4 files that stand one behind the other.
fn images_in(alloc: Global, files: &[u8]) -> Result<Vec<Bitmap>, JobFileError>
    ensures images { IfOk result (λ images. AreImages files.now images.items) }
    ensures refused { IfErr result (AreNoImages files.now) }
{
    let mut rest = files;
    let mut images = Vec::new(alloc);
    for _ in 0..files.len() {
        if rest.is_empty() {
            return Ok(images);
        }
        let image = match read_pbm(alloc, &mut rest) {
            Ok(image) => image,
            Err(error) => return Err(JobFileError::Image(error)),
        };
        match images.push(image) {
            Ok(()) => {}
            Err(_) => return Err(JobFileError::NoMemory),
        }
    }
    if rest.is_empty() {
        Ok(images)
    } else {
        Err(JobFileError::NoMemory)
    }
}
