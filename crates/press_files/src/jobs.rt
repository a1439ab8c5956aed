//! Jobs of tickets, over readers, named inputs and writers.
ghost use Rattle.std.specs.Prelude.{◌≡◌, true, false, IfOk, IfErr, OnOk};
ghost use Rattle.press_devices.specs.Reading.{ReadFails};
ghost use Rattle.press_files.specs.Causes.{failures};
ghost use Rattle.press_files.specs.Edge.{input_called, inputs_called, lent_texts};
ghost use Rattle.press_files.specs.Ends.{WritingOut};
ghost use Rattle.press_files.specs.JobCauses.{JobCause};
ghost use Rattle.press_files.specs.Jobs.{
  TicketRead,
  HasImage,
  HaveImages,
  WritesTheTicket,
  WritesAJob,
  WritesNoJob,
  TicketRefused,
  ImageRefused,
  ImagesRefused,
  StopsWriting,
};

use crate::around::Around;
use crate::devices::{Devices, Platform};
use crate::inputs::{InputError, read_all};
use crate::named_inputs::{NamedInputs, open_named};
use press_bits::Bitmap;
use press_devices::{ReadDevice, Teller, WriteDevice, report};
use press_pbm::{ReadPbmError, read_pbm};
use press_printing::write_job;
use press_ticket::{Ticket, TicketError, read_ticket};
use press_units::ToldFault;
use press_writer::WriterError;
use std::alloc::Global;
use std::error::Error;
use std::fmt;

/// Why no job was written.
#[derive(Debug, Drop)]
pub enum JobFileError {
    /// The ticket or an image cannot be opened, or the ticket cannot be read.
    Input(InputError),
    /// The ticket is refused.
    Ticket(TicketError),
    /// An image is refused, or cannot be read.
    Image(ReadPbmError),
    /// The ticket is not printed with the images, or the job cannot be made or written.
    Writer(WriterError),
    NoMemory,
}

impl fmt::Display for JobFileError {
    ghost use Rattle.press_files.specs.JobFaults.{told_of_job};

    ghost output = { told_of_job };

    fn fmt<W: fmt::Write>(&self, f: &mut fmt::Formatter<W>) -> fmt::Result {
        match self {
            JobFileError::Input(error) => write!(f, "{error}"),
            JobFileError::Ticket(error) => write!(f, "{error}"),
            JobFileError::Image(error) => write!(f, "{error}"),
            JobFileError::Writer(error) => write!(f, "{error}"),
            JobFileError::NoMemory => write!(f, "{}", ToldFault(None)),
        }
    }
}

impl Error for JobFileError {}

impl From<InputError> for JobFileError {
    ghost use Rattle.std.specs.Prelude.{◌≡◌};
    ghost use Rattle.press_files.specs.declared.jobs.JobFileError.TheVariants.{Input};

    ghost from_gives = { λ fault error. error ≡ Input fault };

    fn from(fault: InputError) -> JobFileError {
        JobFileError::Input(fault)
    }
}

/// The ticket that a reader has, to its end.
///
/// # Errors
///
/// 304 where it cannot be read; 601 to 605 where it has no ticket; `NoMemory`.
pub fn ticket_in<R: ReadDevice>(alloc: Global, reader: &mut R) -> Result<Ticket, JobFileError>
    ensures ticket { IfOk result (λ ticket.
        TicketRead (R.remaining reader.old) (R.remaining reader.new) ticket) }
    ensures refused { IfErr result (λ why.
        TicketRefused (R.remaining reader.old) (R.remaining reader.new) why) }
    ensures cause { IfErr result (λ why. why ≡ JobFileError.Input InputError.ReadFault
        → ReadFails (R.failed reader.new) (R.reads reader.new)) }
{
    let text = read_all(alloc, reader)?;
    read_ticket(alloc, &text).map_err(JobFileError::Ticket)
}

/// The image that the input of this name has. What stands behind its P4 file is left unread.
fn image_named<I: NamedInputs>(
    alloc: Global,
    inputs: &I,
    name: &[u8],
) -> Result<Bitmap, JobFileError>
    ensures image { IfOk result (λ image. HasImage (I.bytes inputs.now name.now) image) }
    ensures refused { IfErr result (λ why.
        ImageRefused (input_called I.Input.ReadDevice I.NamedInputs inputs.now name.now) why) }
{
    let mut input = open_named(inputs, name)?;
    read_pbm(alloc, &mut input).map_err(JobFileError::Image)
}

/// The images of the inputs of these names, each of which is opened when the one before it is read.
///
/// # Errors
///
/// 304 where an input cannot be opened, or its name is no text; 111 to 113 where it has no image; 114 where it cannot be read; `NoMemory`.
pub fn images_named<I: NamedInputs>(
    alloc: Global,
    inputs: &I,
    names: &[&[u8]],
) -> Result<Vec<Bitmap>, JobFileError>
    ensures images { IfOk result (λ images.
        HaveImages (inputs_called I.Input.ReadDevice I.NamedInputs inputs.now names.now)
        images.items) }
    ensures refused { IfErr result (λ why.
        ImagesRefused (inputs_called I.Input.ReadDevice I.NamedInputs inputs.now names.now) why) }
{
    let mut images = Vec::new(alloc);
    for name in names {
        let image = image_named(alloc, inputs, name)?;
        images.push(image).map_err(|_| JobFileError::NoMemory)?;
    }
    Ok(images)
}

/// Writes the job of a ticket with these images.
fn write_to<W: WriteDevice>(
    alloc: Global,
    ticket: &Ticket,
    images: &[Bitmap],
    out: &mut W,
) -> Result<(), WriterError>
    ensures ok { OnOk result
        (WritesAJob ticket.now images.now (W.contents out.old) (W.contents out.new)) }
    ensures err { IfErr result (λ why.
        WritesNoJob ticket.now images.now (W.contents out.old) (W.contents out.new) why) }
    ensures flushed { OnOk result (W.waiting out.new ≡ false) }
    ensures cause { IfErr result (λ why.
        why ≡ WriterError.WriteFault → W.failed out.new ≡ true) }
{
    write_job(alloc, ticket, images, out)?;
    match out.flush_all() {
        Ok(()) => Ok(()),
        Err(_) => Err(WriterError::WriteFault),
    }
}

/// Writes the job of the ticket that a reader has, with the images of these inputs, to `out`.
fn write_from<T: ReadDevice, I: NamedInputs, W: WriteDevice>(
    alloc: Global,
    ticket: &mut T,
    inputs: &I,
    names: &[&[u8]],
    out: &mut W,
) -> Result<(), JobFileError>
    ensures ok { OnOk result (WritesTheTicket (T.remaining ticket.old) (T.remaining ticket.new)
        (inputs_called I.Input.ReadDevice I.NamedInputs inputs.now names.now)
        (W.contents out.old) (W.contents out.new)) }
    ensures err { IfErr result (λ why.
        StopsWriting (T.remaining ticket.old) (T.remaining ticket.new)
        (inputs_called I.Input.ReadDevice I.NamedInputs inputs.now names.now)
        (W.contents out.old) (W.contents out.new) why) }
    ensures flushed { OnOk result (W.waiting out.new ≡ false) }
    ensures cause { IfErr result (JobCause
        (failures (ReadFails (T.failed ticket.new) (T.reads ticket.new))
        ⊥ ⊥ (W.failed out.new ≡ true))
        (T.remaining ticket.old) (T.remaining ticket.new)
        (inputs_called I.Input.ReadDevice I.NamedInputs inputs.now names.now)) }
{
    let ticket = ticket_in(alloc, ticket)?;
    let images = images_named(alloc, inputs, names)?;
    write_to(alloc, &ticket, &images, out).map_err(JobFileError::Writer)
}

/// Writes the job of the ticket that a reader has, with the images of the inputs of these names in the order of its pages, to standard output,
/// and a fault to standard error. Nothing is written before the images are found to fit. The answer is the status: 0, and nothing waits in
/// standard output, or 1 after a fault.
pub fn write_files<T: ReadDevice, P: Platform>(
    alloc: Global,
    names: &[&[u8]],
    ticket: &mut T,
    devices: &mut Devices<P>,
) -> u8
    ensures flushed { result ≡ 0 → P.Out.waiting devices.new.out ≡ false }
    ensures inputs { devices.new.inputs ≡ devices.old.inputs }
    ensures outputs { devices.new.outputs ≡ devices.old.outputs }
    ensures ended { ⟦<Devices<P> as Around<T>>⟧.holds_by_inputs
        (WritingOut (lent_texts names.now)) result ticket.old ticket.new devices.old devices.new }
{
    let Devices {
        inputs,
        out,
        err,
        ..
    } = devices;
    match write_from(alloc, ticket, inputs, names, out) {
        Ok(()) => 0,
        Err(error) => report(&error, err),
    }
}
