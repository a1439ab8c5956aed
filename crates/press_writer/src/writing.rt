//! The bytes of a whole job.

ghost use Rattle.std.specs.Prelude.{◌≡◌, ◌++◌, ◌⊎◌, All, true, [], None, Err, length, OnOk, OnErr, IfSome, IsSome, IfErr};
ghost use Rattle.std.specs.Io.KnownBytes.{Appends};
ghost use Rattle.press_cmd.specs.Token.{bytes_of};
ghost use Rattle.press_devices.specs.Writing.{AppendsPrefix, Writes};
ghost use Rattle.press_ticket.specs.Pages.{page_order};
ghost use Rattle.press_writer.specs.declared.fault.WriterError.TheVariants.{WriteFault, NoMemory};
ghost use Rattle.press_writer.specs.Fitting.{IsImage, refusal};
ghost use Rattle.press_writer.specs.Job.{set_resolution, head_of, tail, job_bytes};
ghost use Rattle.press_writer.specs.Left.{HasImages, bytes_left};
ghost use Rattle.press_writer.specs.Sequences.{written};
ghost use Rattle.press_writer.specs.Wanted.{image_of};

use crate::commands::push_commands;
use crate::fault::WriterError;
use crate::job_writer::JobWriter;
use crate::sequence::Sequence;
use itoa::Buffer;
use press_bits::Bitmap;
use press_cmd::{ESCAPE, UEL};
use press_devices::{WriteDevice, write_whole};
use press_page::{Numbered, PageSetup};
use press_ticket::Ticket;
use press_units::Resolution;
use std::alloc::{AllocError, Global};

/// A printer reset.
const RESET: [u8; 2] = [ESCAPE, b'E'];

/// How many bytes of a job are held before they are written.
const WRITE_SIZE: usize = 65_536;

/// Appends the line that sets the resolution of pages.
fn push_resolution(out: &mut Vec<u8>, resolution: Resolution) -> Result<(), AllocError>
    ensures { OnOk result (out.new.items
        ≡ out.old.items ++ bytes_of (set_resolution resolution)) }
{
    let mut number = Buffer::new();
    out.extend_from_slice(b"@PJL SET RESOLUTION=")?;
    out.extend_from_slice(number.format(resolution.dots_per_inch()).as_bytes())?;
    out.push(b'\n')?;
    Ok(())
}

/// Appends what stands before the first page.
pub(crate) fn push_head(out: &mut Vec<u8>, medium: PageSetup) -> Result<(), AllocError>
    ensures { OnOk result (out.new.items ≡ out.old.items ++ written (head_of medium)) }
{
    out.extend_from_slice(&UEL)?;
    push_resolution(out, medium.resolution)?;
    out.extend_from_slice(&RESET)?;
    let settings = [
        (Sequence::PageSize, medium.size.number()),
        (Sequence::Orientation, medium.orientation.number()),
        (Sequence::SimplexDuplex, medium.duplex_mode().number()),
        (Sequence::TopMargin, 0),
        (
            Sequence::RasterResolution,
            u32::from(medium.resolution.dots_per_inch()),
        ),
    ];
    push_commands(out, &settings)
}

/// Appends what stands behind the last page.
pub(crate) fn push_tail(out: &mut Vec<u8>) -> Result<(), AllocError>
    ensures { OnOk result (out.new.items ≡ out.old.items ++ written tail) }
{
    out.extend_from_slice(&RESET)?;
    out.extend_from_slice(&UEL)?;
    Ok(())
}

/// Writes all these bytes, or a prefix of them.
fn write_bytes<W: WriteDevice>(output: &mut W, bytes: &[u8]) -> Result<(), WriterError>
    ensures written { Writes result (W.contents output.old) (W.contents output.new) bytes.now }
    ensures fault { IfErr result (λ error. error ≡ WriteFault) }
    ensures cause { IfErr result (λ error.
        error ≡ WriteFault → W.failed output.new ≡ true) }
{
    match write_whole(output, bytes) {
        Ok(()) => Ok(()),
        Err(_) => Err(WriterError::WriteFault),
    }
}

/// Writes what is left of a job, piece after piece.
fn write_pieces<W: WriteDevice>(
    alloc: Global,
    writer: &mut JobWriter,
    images: &[Bitmap],
    output: &mut W,
) -> Result<(), WriterError>
    requires { HasImages (length images.now) writer.old }
    ensures written { Writes result (W.contents output.old) (W.contents output.new)
        (bytes_left writer.old images.now) }
    ensures fault { IfErr result (λ error. (error ≡ WriteFault) ⊎ (error ≡ NoMemory)) }
    ensures cause { IfErr result (λ error.
        error ≡ WriteFault → W.failed output.new ≡ true) }
{
    let mut held = Vec::new(alloc);
    while writer.piece(images, &mut held)? {
        if held.len() >= WRITE_SIZE {
            write_bytes(output, &held)?;
            held.clear();
        }
    }
    write_bytes(output, &held)
}

/// Writes the job of a ticket with these images: the commands by which its sets are printed, in order.
///
/// # Errors
///
/// - those of [`check`](crate::check); nothing was written then
/// - `WriteFault` (614) where a write failed; a prefix of the job was written
/// - `NoMemory` where memory ran out; a prefix of the job was written
///
/// Source: PCL 5 Printer Language Technical Reference Manual, PJL Technical Reference Manual; which commands a job has is this
/// profile's.
pub fn write_job<W: WriteDevice>(
    alloc: Global,
    ticket: &Ticket,
    images: &[Bitmap],
    output: &mut W,
) -> Result<(), WriterError>
    ensures ok { OnOk result (Appends (W.contents output.old) (W.contents output.new)
        (job_bytes ticket.now images.now)) }
    ensures err { OnErr result (AppendsPrefix (W.contents output.old) (W.contents output.new)
        (job_bytes ticket.now images.now)) }
    ensures are_images { refusal ticket.now images.now ≡ None
        → All (λ page. IsImage (image_of images.now page)) (page_order ticket.now.run_list) }
    ensures refused { IfSome (refusal ticket.now images.now) (λ error. result ≡ Err error) }
    ensures nothing { IsSome (refusal ticket.now images.now)
        → Appends (W.contents output.old) (W.contents output.new) [] }
    ensures fault { refusal ticket.now images.now ≡ None
        → IfErr result (λ error. (error ≡ WriteFault) ⊎ (error ≡ NoMemory)) }
    ensures cause { IfErr result (λ error.
        error ≡ WriteFault → W.failed output.new ≡ true) }
{
    let mut writer = JobWriter::open(alloc, ticket, images)?;
    write_pieces(alloc, &mut writer, images, output)
}
