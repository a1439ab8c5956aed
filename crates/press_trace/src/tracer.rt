//! A stream that is carried out step by step, and told line by line.

ghost use Rattle.std.specs.Prelude.{◌≡◌, ◌≤◌, ◌+◌, false, length, IfOk, OnOk};

use crate::line::seen_line;
use crate::line_of::LineOf;
use crate::page::{AS_IT_WAS, PageTold, told_page};
use crate::place::Place;
use crate::seen::Seen;
use crate::sent::WentOut;
use crate::touched::{Touched, row_line, touched_by};
use press_canvas::Canvas;
use press_engine::Sent;
use press_stream::{Job, JobStep};
use std::alloc::{AllocError, Global};

/// A stream that is carried out step by step, and told line by line.
#[derive(Drop)]
pub(crate) struct Tracer {
    alloc: Global,
    job: Job,
    /// How many bytes of the stream came so far.
    length: usize,
    /// Where the command of the stream stands to which the last step belongs.
    place: Place,
    /// What could be seen behind the last step, if one was told.
    before: Option<Seen>,
    /// The page that was open behind it.
    page: Option<Canvas>,
}

impl Tracer {
    ghost use Rattle.std.specs.Prelude.{Some, Option, option_map};
    ghost use Rattle.press_engine.specs.declared.machine.Machine.{Machine};
    ghost use Rattle.press_trace.specs.Lines.{IsLineOf};
    ghost use Rattle.press_table.specs.Outputs.{all_outputs};
    ghost use Rattle.press_trace.specs.Pages.{IsPageTold, opened_data, change_data, LiesIn};
    ghost use Rattle.press_stream.specs.State.{input_ended};
    ghost use Rattle.press_trace.specs.Tracing.{IsAtStart, IsSound, IsKept, Tells, TellsBy, TellsRunIf, Shows, ShowsSome, most_bytes, placed_run, place_if, with_more};

    /// A stream of which no byte came.
    pub(crate) fn open(alloc: Global) -> Result<Self, AllocError>
        ensures start { IfOk result IsAtStart }
        ensures sound { IfOk result IsSound }
    {
        Ok(Tracer {
            alloc,
            job: Job::open(alloc)?,
            length: 0,
            place: Place { at: 0, bytes: 0 },
            before: None,
            page: None,
        })
    }

    /// Takes the next piece of the stream.
    pub(crate) fn push(&mut self, piece: &[u8]) -> Result<(), AllocError>
        requires sound { IsSound self.old }
        requires going { self.old.job.held.ended ≡ false }
        requires few { self.old.length + length piece.now ≤ most_bytes }
        ensures pushed { OnOk result (self.new ≡ with_more piece.now self.old) }
    {
        if self.job.push(piece).is_err() {
            return Err(AllocError);
        }
        self.length += piece.len();
        Ok(())
    }

    /// Gives the end of the stream.
    pub(crate) fn end_input(&mut self)
        ensures { self.new ≡ record self.old { job = input_ended self.old.job } }
    {
        self.job.end_input();
    }

    /// Takes the next table step, or the next run of steps that do no more than count. The answer is its line, with its line feed; none where
    /// no step is left of the bytes that came.
    pub(crate) fn next(&mut self, by: LineOf) -> Result<Option<Vec<u8>>, AllocError>
        requires { IsSound self.old }
        ensures tells { IfOk result (λ line.
            TellsBy by self.old (option_map (λ text. text.items) line) self.new) }
        ensures sound { OnOk result (IsSound self.new) }
    {
        if let LineOf::Run = by
            && let Some(line) = self.next_run()?
        {
            return Ok(Some(line));
        }
        self.next_line()
    }

    /// Takes the next steps that do no more than count. The answer is the line of their run; none where the next step does more.
    fn next_run(&mut self) -> Result<Option<Vec<u8>>, AllocError>
        requires { IsSound self.old }
        ensures tells { IfOk result (λ line.
            TellsRunIf self.old (option_map (λ text. text.items) line) self.new) }
        ensures sound { OnOk result (IsSound self.new) }
    {
        let held = self.job.held();
        let steps = self.job.pass();
        if steps == 0 {
            return Ok(None);
        }
        self.place = self.place_behind(true, held);
        Ok(Some(self.tell(&[], Touched::Nothing, steps)?))
    }

    /// Takes the next table step. The answer is its line, with its line feed; none where no step is left of the bytes that came.
    pub(crate) fn next_line(&mut self) -> Result<Option<Vec<u8>>, AllocError>
        requires { IsSound self.old }
        ensures tells { IfOk result (λ line.
            Tells self.old (option_map (λ text. text.items) line) self.new) }
        ensures sound { OnOk result (IsSound self.new) }
    {
        let outside = self.job.is_idle();
        let held = self.job.held();
        let view = self.job.view();
        let orientation = view.environment.page_setup.orientation;
        let before = row_line(&view);
        match self.job.take_step() {
            Ok(JobStep::Ran(step)) => {
                self.place = self.place_behind(outside, held);
                let behind = row_line(&self.job.view());
                let line = self.tell(
                    &step.sent,
                    touched_by(outside, step.kind, orientation, before, behind),
                    1,
                )?;
                Ok(Some(line))
            }
            Ok(_) => Ok(None),
            Err(_) => Err(AllocError),
        }
    }

    /// Where the command stands of the step that was taken last, outside of bodies or in one, before which so many bytes were held.
    fn place_behind(&self, outside: bool, held: usize) -> Place
        requires within { held ≤ self.now.length }
        requires fewer { length self.now.job.held.bytes ≤ held }
        ensures { result ≡ place_if outside self.now.length held
            (length self.now.job.held.bytes) self.now.place }
    {
        if !outside {
            return self.place;
        }
        Place {
            at: self.length - held,
            bytes: held - self.job.held(),
        }
    }

    /// What is told of the open page, of which the step that was taken last may have touched this.
    fn page_told(&mut self, touched: Touched) -> Result<PageTold, AllocError>
        requires { ShowsSome self.old touched }
        ensures told { IfOk result (λ told. (machine : Machine) → Shows self.old touched machine
            → IsPageTold self.old.page machine.state.page
            (opened_data told.opened self.new.page) (change_data told.change self.new.page)) }
        ensures page { OnOk result ((machine : Machine) → Shows self.old touched machine
            → self.new.page ≡ machine.state.page) }
        ensures lies { IfOk result (λ told. LiesIn told.change self.new.page) }
        ensures others { OnOk result (self.new ≡ record self.old { page = self.new.page }) }
    {
        if let Touched::Nothing = touched {
            return Ok(AS_IT_WAS);
        }
        let before = self.page.take();
        let (page, told) = told_page(self.alloc, before, self.job.page(), touched)?;
        self.page = page;
        Ok(told)
    }

    /// The line of the step that was taken last, in which this went out, as that of so many.
    fn tell(&mut self, sent: &[Sent], touched: Touched, steps: usize) -> Result<Vec<u8>, AllocError>
        requires { ShowsSome self.old touched }
        ensures line { IfOk result (λ line. (machine : Machine) → Shows self.old touched machine
            → (before : Option Machine) → IsKept before self.old.before self.old.page
            → IsLineOf steps before
            (placed_run self.old.place machine (all_outputs sent.now)) line.items) }
        ensures kept { OnOk result ((machine : Machine) → Shows self.old touched machine
            → IsKept (Some machine) self.new.before self.new.page) }
        ensures others { OnOk result (self.new
            ≡ record self.old { before = self.new.before; page = self.new.page }) }
    {
        let told = self.page_told(touched)?;
        let went = WentOut::of(&mut self.job, self.alloc, sent)?;
        let view = self.job.view();
        let line = seen_line(
            self.alloc,
            steps,
            self.place,
            &went,
            &self.before,
            &view,
            told,
            self.page.as_ref(),
        )?;
        self.before = Some(Seen::of(self.alloc, &view)?);
        Ok(line)
    }
}
