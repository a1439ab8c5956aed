//! A job that is written piece by piece.

ghost use Rattle.std.specs.Prelude.{◌≡◌, ◌≤◌, ◌<◌, All, List, None, Some, Err, IfOk, IfErr, IfSome, OnOk, OnErr, length};
ghost use Rattle.press_cmd.specs.Split.{Closed};
ghost use Rattle.press_cmd.specs.Token.{Token};
ghost use Rattle.press_ticket.specs.Pages.{page_order};
ghost use Rattle.press_writer.specs.declared.fault.WriterError.TheVariants.{NoMemory};
ghost use Rattle.press_writer.specs.Fitting.{IsImage, refusal};
ghost use Rattle.press_writer.specs.Inside.{AppendsSome};
ghost use Rattle.press_writer.specs.Job.{FitsPart, commands_of_part, job_bytes, page};
ghost use Rattle.press_writer.specs.Left.{whole_job, rest_of_begun, bytes_left, most_job_commands, HasImages, GivesPiece};
ghost use Rattle.press_writer.specs.Wanted.{image_of};

use crate::checking::check;
use crate::commands::push_command;
use crate::fault::WriterError;
use crate::media::medium;
use crate::part::{PageLeft, Part};
use crate::picture::{push_next_row, push_start};
use crate::plan::Plan;
use crate::sequence::Sequence;
use crate::writing::{push_head, push_tail};
use press_bits::Bitmap;
use press_page::PageSetup;
use press_rows::Method;
use press_ticket::Ticket;
use std::alloc::{AllocError, Global};
use std::marker::Model;

/// A job that is written piece by piece: the medium and how rows are sent, then page after page a row at a time, then the end.
/// It keeps neither the ticket nor the images, and no bytes.
///
/// Contracts see what is left of it, of which the bytes are a function of that and the images.
#[derive(Drop)]
pub struct JobWriter {
    alloc: Global,
    medium: PageSetup,
    plan: Plan,
    /// The page that is begun.
    begun: Option<PageLeft>,
    /// How many parts are begun.
    place: usize,
}

impl Model for JobWriter {
    ghost use Rattle.std.specs.Coded.{codes};
    ghost use Rattle.press_writer.specs.Inside.{left_of, IsSound};
    ghost use Rattle.press_writer.specs.Left.{JobLeft};

    ghost Value = { JobLeft };

    ghost coded = { Prim.hlevel codes };

    ghost view = { left_of };

    ghost invariant = { IsSound };
}

/// Begins the page of an image.
fn begin_page(
    out: &mut Vec<u8>,
    images: &[Bitmap],
    number: u16,
) -> Result<Option<PageLeft>, AllocError>
    requires { number < length images.now }
    ensures appends { IfOk result (λ begun. AppendsSome 3
        (page (image_of images.now number)) (rest_of_begun images.now begun)
        out.old.items out.new.items) }
    ensures fits { IfOk result (λ begun. IfSome begun (λ left. left.page < length images.now)) }
{
    push_start(out, &images[usize::from(number)])?;
    Ok(Some(PageLeft {
        page: number,
        line: 0,
        method: Method::Unencoded,
    }))
}

/// Begins a part of the job, all of it where it has no page.
fn begin_part(
    out: &mut Vec<u8>,
    medium: PageSetup,
    images: &[Bitmap],
    part: Part,
) -> Result<Option<PageLeft>, AllocError>
    requires { FitsPart (length images.now) part }
    ensures appends { IfOk result (λ begun. AppendsSome 8
        (commands_of_part medium images.now part) (rest_of_begun images.now begun)
        out.old.items out.new.items) }
    ensures fits { IfOk result (λ begun. IfSome begun (λ left. left.page < length images.now)) }
{
    match part {
        Part::Head => {
            push_head(out, medium)?;
            Ok(None)
        }
        Part::Front(number, copies) => {
            push_command(out, Sequence::Copies, u32::from(copies))?;
            begin_page(out, images, number)
        }
        Part::Back(Some(number)) => begin_page(out, images, number),
        Part::Back(None) => {
            push_command(out, Sequence::SideSelection, 1)?;
            Ok(None)
        }
        Part::Tail => {
            push_tail(out)?;
            Ok(None)
        }
    }
}

/// Goes on with a page that is begun.
fn go_on(
    alloc: Global,
    out: &mut Vec<u8>,
    images: &[Bitmap],
    left: PageLeft,
) -> Result<Option<PageLeft>, AllocError>
    requires { left.page < length images.now }
    ensures appends { IfOk result (λ begun. AppendsSome 3
        (rest_of_begun images.now (Some left)) (rest_of_begun images.now begun)
        out.old.items out.new.items) }
    ensures fits { IfOk result (λ begun. IfSome begun (λ left. left.page < length images.now)) }
{
    push_next_row(alloc, out, &images[usize::from(left.page)], left)
}

impl JobWriter {
    /// The job of a ticket with these images, of which nothing is written.
    ///
    /// # Errors
    ///
    /// Those of [`check`](crate::check), and `NoMemory` where memory ran out.
    pub fn open(alloc: Global, ticket: &Ticket, images: &[Bitmap]) -> Result<Self, WriterError>
        ensures job { IfOk result (λ writer. writer ≡ whole_job ticket.now) }
        ensures bytes { IfOk result (λ writer.
            bytes_left writer images.now ≡ job_bytes ticket.now images.now) }
        ensures images { IfOk result (HasImages (length images.now)) }
        ensures few { OnOk result ((commands : List Token)
            → Closed (job_bytes ticket.now images.now) commands
            → length commands ≤ most_job_commands) }
        ensures refused { IfSome (refusal ticket.now images.now) (λ error. result ≡ Err error) }
        ensures are_images { refusal ticket.now images.now ≡ None
            → All (λ page. IsImage (image_of images.now page)) (page_order ticket.now.run_list) }
        ensures fault { refusal ticket.now images.now ≡ None
            → IfErr result (λ error. error ≡ NoMemory) }
    {
        check(ticket, images)?;
        let plan = Plan::of(alloc, ticket)?;
        Ok(JobWriter {
            alloc,
            medium: medium(ticket),
            plan,
            begun: None,
            place: 0,
        })
    }

    /// Appends the next bytes of the job, one at least, with the images that it was opened with; or answers that none are left,
    /// and appends nothing.
    ///
    /// # Errors
    ///
    /// Where memory ran out; writer and bytes are as they were.
    pub fn piece(&mut self, images: &[Bitmap], out: &mut Vec<u8>) -> Result<bool, AllocError>
        requires { HasImages (length images.now) self.old }
        ensures ok { IfOk result (λ more.
            GivesPiece self.old images.now more self.new out.old.items out.new.items) }
        ensures images { HasImages (length images.now) self.new }
        ensures err { OnErr result ((self.new ≡ self.old) × (out.new.items ≡ out.old.items)) }
    {
        let mut bytes = Vec::new(self.alloc);
        if let Some(left) = self.begun {
            let begun = go_on(self.alloc, &mut bytes, images, left)?;
            out.extend_from_slice(&bytes)?;
            self.begun = begun;
            return Ok(true);
        }
        if self.place >= self.plan.part_count() {
            return Ok(false);
        }
        let part = self.plan.part_at(self.place);
        let begun = begin_part(&mut bytes, self.medium, images, part)?;
        out.extend_from_slice(&bytes)?;
        self.begun = begun;
        self.place += 1;
        Ok(true)
    }
}
