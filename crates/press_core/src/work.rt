//! What an entry of the queue is to print, and how far that has come.

ghost use Rattle.std.specs.Prelude.{◌≡◌, ◌≤◌, ◌<◌, List, length, None, Some, IfOk, OnOk, OnErr, IsSome, nat_eq, false, true};
ghost use Rattle.press_engine.specs.Machine.{StepResult};
ghost use Rattle.press_table.specs.Outputs.{all_outputs};
ghost use Rattle.press_sink.specs.Sending.{sheets_of};
ghost use Rattle.press_sink.specs.SinkLog.{most_faults};
ghost use Rattle.press_writer.specs.Fitting.{refusal};
ghost use Rattle.press_core.specs.Handing.{TakesSteps, handing};
ghost use Rattle.press_core.specs.Inside.{begun_work};
ghost use Rattle.press_core.specs.Jobs.{IsAt, IsSupplied, JobGoesOn, Advances};
ghost use Rattle.press_core.specs.Turns.{IsJobOf, progress_in_job};
ghost use Rattle.press_core.specs.Work.{IsPrintable, new_work, without_job};

use crate::handing::hand_over;
use crate::turn::TurnError;
use press_bits::Bitmap;
use press_engine::Sent;
use press_printing::open_job;
use press_sink::SheetSink;
use press_stream::call_laws::what_is_left;
use press_stream::{Job, JobStep};
use press_ticket::Ticket;
use press_writer::JobWriter;
use std::alloc::{AllocError, Global};
use std::marker::Model;
use std::snapshot::Snapshot;

/// The job of an entry that is in flight: an engine of its own, what is still to be written of the job, and how far it has come.
#[derive(Drop)]
pub struct RunningJob {
    pub job: Job,
    pub writer: JobWriter,
    /// How many steps of it were taken.
    pub steps: u64,
}

/// What an entry is to print: its ticket, the images of its pages, how many sheets it delivered; and while it is in flight,
/// its job. Contracts see of the job how many steps were taken. The images go when the entry ends; of those contracts alone know then.
#[derive(Drop)]
pub struct Work {
    ticket: Ticket,
    /// The images, until the entry ends.
    images: Option<Vec<Bitmap>>,
    /// The images with which it entered.
    entered: Snapshot<Vec<Bitmap>>,
    delivered: u64,
    running: Option<RunningJob>,
}

impl Model for Work {
    ghost use Rattle.std.specs.Coded.{codes};
    ghost use Rattle.press_bits.specs.Page.{page_code};
    ghost use Rattle.press_core.specs.Work.{Work as EntryWork};

    ghost Value = { EntryWork };

    ghost coded = { Prim.hlevel (codes, page_code) };

    ghost use Rattle.press_core.specs.Inside.{work_of, IsSoundWork};

    ghost view = { work_of };

    ghost invariant = { IsSoundWork };
}

impl RunningJob {
    /// The job of a ticket that is printed with these images, at its beginning.
    fn open(alloc: Global, ticket: &Ticket, images: &[Bitmap]) -> Result<Self, AllocError>
        requires { refusal ticket.now images.now ≡ None }
        ensures begins { IfOk result (λ running. running.steps ≡ 0) }
        ensures at { IfOk result (λ running.
            (items : List StepResult) → IsJobOf (new_work ticket.now images.now) items
            → IsAt items images.now running) }
    {
        what_is_left();
        let job = Job::open(alloc)?;
        match open_job(alloc, ticket, images) {
            Ok(writer) => Ok(RunningJob {
                job,
                writer,
                steps: 0,
            }),
            // The ticket is printed with these images: memory ran out.
            Err(_) => Err(AllocError),
        }
    }

    /// Hands the next piece of the job over, or, where none is left, its end.
    fn supply(&mut self, alloc: Global, images: &[Bitmap]) -> Result<(), AllocError>
        requires at { (items : List StepResult) × IsAt items images.now self.old }
        requires going { self.old.job.held.ended ≡ false }
        ensures { OnOk result (IsSupplied images.now self.old self.new) }
    {
        what_is_left();
        let mut piece = Vec::new(alloc);
        if !self.writer.piece(images, &mut piece)? {
            self.job.end_input();
            return Ok(());
        }
        // The job goes on: a piece is refused for want of memory alone.
        if self.job.push(&piece).is_err() {
            return Err(AllocError);
        }
        Ok(())
    }

    /// Carries out the next step, and gives what goes out in it.
    fn step(&mut self, alloc: Global, images: &[Bitmap]) -> Result<Vec<Sent>, AllocError>
        requires at { (items : List StepResult) × IsAt items images.now self.old
            × (self.old.steps < length items) }
        ensures { IfOk result (λ sent.
            (items : List StepResult) → IsAt items images.now self.old
            → JobGoesOn items images.now self.old self.new (sheets_of (all_outputs sent.items))) }
    {
        what_is_left();
        loop {
            match self.job.take_step() {
                Ok(JobStep::Ran(step)) => {
                    self.steps += 1;
                    return Ok(step.sent);
                }
                Ok(JobStep::Hungry) => self.supply(alloc, images)?,
                Ok(JobStep::Ended) => unreachable!(),
                // The job runs: a step is refused for want of memory alone.
                Err(_) => return Err(AllocError),
            }
        }
    }
}

/// Equal images, in memory of their own.
fn copies(alloc: Global, images: &[Bitmap]) -> Result<Vec<Bitmap>, AllocError>
    ensures { IfOk result (λ copies. copies.items ≡ images.now) }
{
    let mut copies = Vec::new(alloc);
    for image in images {
        copies.push(image.copy()?)?;
    }
    Ok(copies)
}

impl Work {
    /// The work of a new entry.
    pub fn new(alloc: Global, ticket: Ticket, images: &[Bitmap]) -> Result<Self, AllocError>
        requires { IsPrintable ticket images.now }
        ensures { IfOk result (λ work. work ≡ new_work ticket images.now) }
    {
        let images = copies(alloc, images)?;
        let entered = Snapshot::of(&images);
        Ok(Work {
            ticket,
            images: Some(images),
            entered,
            delivered: 0,
            running: None,
        })
    }

    /// How many sheets it delivered.
    pub fn delivered(&self) -> u64
        ensures { result ≡ self.now.delivered }
    {
        self.delivered
    }

    /// Its job begins, unless it did.
    pub fn begin(&mut self, alloc: Global) -> Result<(), AllocError>
        requires { self.old.kept ≡ true }
        ensures ok { OnOk result (self.new ≡ begun_work self.old) }
        ensures err { OnErr result (self.new ≡ self.old) }
    {
        if self.running.is_some() {
            return Ok(());
        }
        let Some(images) = &self.images else {
            unreachable!()
        };
        self.running = Some(RunningJob::open(alloc, &self.ticket, images)?);
        Ok(())
    }

    /// Whether no step of its job is left.
    pub fn is_over(&self) -> bool
        ensures over { IsSome self.now.progress → (items : List StepResult) → IsJobOf self.now items
            → result ≡ nat_eq (progress_in_job self.now) (length items) }
        ensures within { IsSome self.now.progress → (items : List StepResult) → IsJobOf self.now
            items
            → progress_in_job self.now ≤ length items }
    {
        match &self.running {
            Some(running) => running.job.ended(),
            None => false,
        }
    }

    /// Carries out the next step of its job, and gives what goes out in it. Where memory ran out, the job is given up, and its
    /// images go.
    pub fn advance(&mut self, alloc: Global) -> Result<Vec<Sent>, AllocError>
        requires begun { IsSome self.old.progress }
        requires going { (items : List StepResult) → IsJobOf self.old items
            → progress_in_job self.old < length items }
        ensures ok { IfOk result (λ sent.
            Advances self.old self.new (sheets_of (all_outputs sent.items))) }
        ensures err { OnErr result (self.new ≡ without_job self.old) }
    {
        let Some(mut running) = self.running.take() else {
            unreachable!()
        };
        let Some(images) = self.images.take() else {
            unreachable!()
        };
        let sent = running.step(alloc, &images)?;
        self.running = Some(running);
        self.images = Some(images);
        Ok(sent)
    }

    /// Takes at most so many steps of its job, and hands their sheets over under a number: how many steps it took.
    pub fn take_steps<S: SheetSink>(
        &mut self,
        alloc: Global,
        number: u64,
        most: u64,
        sink: &mut S,
    ) -> Result<u64, TurnError>
        requires begun { IsSome self.old.progress }
        requires has_fault_room { (S.told sink.old).faults < most_faults }
        ensures { TakesSteps most self.old result self.new
            (handing number (S.told sink.old) (S.told sink.new)) }
    {
        let mut taken = 0;
        while taken < most && !self.is_over() {
            let sent = self.advance(alloc)?;
            hand_over(number, &sent, sink, &mut self.delivered)?;
            self.reuse(sent);
            taken += 1;
        }
        Ok(taken)
    }

    /// Takes the memory of what went out, for the pages that come. Nothing changes that can be seen.
    fn reuse(&mut self, sent: Vec<Sent>)
        ensures { self.new ≡ self.old }
    {
        if let Some(running) = &mut self.running {
            running.job.reuse(sent);
        }
    }

    /// Drops its job, which is given up or at its end, and its images.
    pub fn drop_job(&mut self)
        ensures { self.new ≡ without_job self.old }
    {
        self.running = None;
        self.images = None;
    }
}
