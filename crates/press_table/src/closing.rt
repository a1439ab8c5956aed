//! The rows that close the page, and what a page close does.

ghost use Rattle.std.specs.Prelude.{◌≡◌, ◌≢◌, ◌++◌, ◌∷◌, [], Some, OnOk, IsErr};
ghost use Rattle.press_sink.specs.Sending.{Reply};
ghost use Rattle.press_table.specs.Outputs.{all_outputs, finished_of};

use crate::effect::{Effect, EjectCause, FinishedSheet, PageChange, Selection, Sent};
use crate::state::State;
use press_bits::{Bitmap, Sheet};
use press_canvas::Canvas;
use press_page::{DuplexMode, Orientation, PageSize};
use press_pjl::{PjlEnv, ReplyBytes};
use press_units::Value;
use std::alloc::{AllocError, Global};

/// Puts a finished sheet behind what goes out before it. Of one without a copy nothing goes out, and for it no memory is taken.
fn push_sheet(out: &mut Vec<Sent>, finished: FinishedSheet) -> Result<(), AllocError>
    ensures pushed { OnOk result (all_outputs out.new.items
        ≡ all_outputs out.old.items ++ finished_of (Some finished)) }
    ensures memory { IsErr result → finished_of (Some finished) ≢ [] }
{
    if finished.copies > 0 {
        out.push(Sent::Sheet(finished))?;
    }
    Ok(())
}

/// Puts a reply behind what goes out before it.
fn push_reply(out: &mut Vec<Sent>, reply: ReplyBytes) -> Result<(), AllocError>
    ensures { OnOk result (all_outputs out.new.items
        ≡ all_outputs out.old.items ++ Reply reply ∷ []) }
{
    out.push(Sent::Reply(reply))?;
    Ok(())
}

impl State {
    ghost use Rattle.std.specs.Prelude.{◌≡◌, ◌≢◌, [], IfOk, OnOk, IsErr, None};
    ghost use Rattle.press_units.specs.Value.{whole_part};
    ghost use Rattle.press_page.specs.Environment.{with_page_size, with_orientation, with_duplex_mode};
    ghost use Rattle.press_table.specs.Effects.{effect_of};
    ghost use Rattle.press_table.specs.Memory.{Shows, TakesMemory};
    ghost use Rattle.press_table.specs.Motion.{to_home};
    ghost use Rattle.press_table.specs.Outcome.{after_outputs, is_marked, with_environment};
    ghost use Rattle.press_table.specs.Outputs.{all_outputs};
    ghost use Rattle.press_table.specs.Closing.{page_now, status_count, finish_sheet, with_language, reset_by, close_page};
    ghost use Rattle.press_table.specs.Closing.{front_alone, overlay_off, blank_front, turn_to, change_page, after_close};
    ghost use Rattle.press_table.specs.Closing.{finish_effect, close_if_marked, reset, select_page_size, select_orientation};
    ghost use Rattle.press_table.specs.Closing.{select_duplex, eject_page, select_page_side};

    /// Whether a mark was made on the page.
    pub fn is_marked(&self) -> bool
        ensures { result ≡ is_marked self.now }
    {
        self.page.is_some()
    }

    /// Takes the page out, blank where no mark was made.
    pub(crate) fn take_page(&mut self, alloc: Global) -> Result<Canvas, AllocError>
        ensures page { IfOk result (λ page. page ≡ page_now self.old) }
        ensures left { self.new ≡ record self.old { page = None } }
        ensures memory { IsErr result → self.old.page ≡ None }
    {
        match self.page.take() {
            Some(page) => Ok(page),
            None => self.page.blank(alloc, self.environment.page_setup),
        }
    }

    /// Keeps the memory of what went out, for the pages that come.
    pub fn keep(&mut self, sent: Sent)
        ensures { self.new ≡ self.old }
    {
        if let Sent::Sheet(finished) = sent {
            self.page.keep(finished.sheet);
        }
    }

    /// The count from which the replies after sheets go on, while the status switch is on.
    fn status_count(&self) -> Option<u64>
        ensures { result ≡ status_count self.now }
    {
        if self.language.page_status {
            Some(self.since_job)
        } else {
            None
        }
    }

    /// Finishes a sheet: it goes out in the copies of now, and is counted in each.
    fn finish(
        &mut self,
        front: Bitmap,
        back: Option<Bitmap>,
        out: &mut Vec<Sent>,
    ) -> Result<(), AllocError>
        ensures finishes { OnOk result (record {
          state = self.new;
          outputs = all_outputs out.new.items;
        }
            ≡ after_outputs (all_outputs out.old.items)
            (finish_sheet (record { front = front; back = back }) self.old)) }
        ensures memory { IsErr result
            → (finish_sheet (record { front = front; back = back }) self.old).outputs ≢ [] }
    {
        let copies = self.environment.settings.copies;
        let since_job = self.status_count();
        self.sheets = self.sheets.saturating_add(u64::from(copies));
        self.since_job = self.since_job.saturating_add(u64::from(copies));
        push_sheet(
            out,
            FinishedSheet {
                sheet: Sheet { front, back },
                copies,
                since_job,
            },
        )
    }

    /// Takes the page out as it lies in the printer, blank where no mark was made.
    fn take_turned(&mut self, alloc: Global) -> Result<Bitmap, AllocError>
        ensures page { IfOk result (λ page. page ≡ page_now self.old) }
        ensures left { IfOk result (λ _. self.new ≡ record self.old { page = None }) }
    {
        let page = self.take_page(alloc)?;
        self.page.turn(alloc, page)
    }

    /// Closes the page: it is a side of a sheet, which is finished unless it is a front in duplex.
    fn close_page(&mut self, alloc: Global, out: &mut Vec<Sent>) -> Result<(), AllocError>
        ensures { OnOk result (record { state = self.new; outputs = all_outputs out.new.items }
            ≡ after_outputs (all_outputs out.old.items) (close_page self.old)) }
    {
        let page = self.take_turned(alloc)?;
        self.graphics.end();
        if !self.environment.page_setup.duplex {
            return self.finish(page, None, out);
        }
        match self.pending.take() {
            Some(front) => self.finish(front, Some(page), out),
            None => {
                self.pending = Some(page);
                Ok(())
            }
        }
    }

    /// A front that waits for its back goes out alone.
    fn front_alone(&mut self, out: &mut Vec<Sent>) -> Result<(), AllocError>
        ensures alone { OnOk result (record {
          state = self.new;
          outputs = all_outputs out.new.items;
        }
            ≡ after_outputs (all_outputs out.old.items) (front_alone self.old)) }
        ensures memory { IsErr result → (front_alone self.old).outputs ≢ [] }
    {
        match self.pending.take() {
            Some(front) => self.finish(front, None, out),
            None => Ok(()),
        }
    }

    /// Has a blank front wait for the back, where one can wait and none does.
    fn begin_back(&mut self, alloc: Global) -> Result<(), AllocError>
        ensures front { IfOk result (λ _. self.new ≡ blank_front self.old) }
        ensures memory { IsErr result → (blank_front self.old).pending ≢ self.old.pending }
    {
        if self.environment.page_setup.duplex && self.pending.is_none() {
            let front = self.page.blank(alloc, self.environment.page_setup)?;
            self.pending = Some(self.page.turn(alloc, front)?);
        }
        Ok(())
    }

    /// Turns to the side that is selected; a front that waits for its back may go out alone.
    fn turn_to(
        &mut self,
        alloc: Global,
        selection: Selection,
        out: &mut Vec<Sent>,
    ) -> Result<(), AllocError>
        ensures turned { OnOk result (record {
          state = self.new;
          outputs = all_outputs out.new.items;
        }
            ≡ after_outputs (all_outputs out.old.items) (turn_to selection self.old)) }
        ensures memory { IsErr result → Shows self.old (turn_to selection self.old) }
    {
        match selection {
            Selection::NextSide => Ok(()),
            Selection::Front => self.front_alone(out),
            Selection::Back => self.begin_back(alloc),
        }
    }

    /// Another page size: the overlay is off, and the cursor goes home.
    fn change_page_size(&mut self, size: PageSize)
        ensures { self.new
            ≡ to_home (overlay_off (with_environment (with_page_size size) self.old)) }
    {
        self.environment.change_page_size(size);
        self.overlay = None;
        self.move_home();
    }

    /// Another orientation: the overlay is off, and the cursor goes home.
    fn change_orientation(&mut self, orientation: Orientation)
        ensures { self.new
            ≡ to_home (overlay_off (with_environment (with_orientation orientation) self.old)) }
    {
        self.environment.change_orientation(orientation);
        self.overlay = None;
        self.move_home();
    }

    /// Other sides to print; the cursor goes home.
    fn change_duplex(&mut self, sides: DuplexMode)
        ensures { self.new ≡ to_home (with_environment (with_duplex_mode sides) self.old) }
    {
        self.environment.change_duplex(sides);
        self.move_home();
    }

    /// Another environment of the job language; where a job begins, no sheet went out since then.
    fn set_language(&mut self, language: PjlEnv, begins_job: bool)
        ensures { self.new ≡ with_language language begins_job self.old }
    {
        self.language = language;
        if begins_job {
            self.since_job = 0;
        }
    }

    /// Changes the page, which has no mark; a front that waits for its back may go out alone before.
    fn change_page(&mut self, change: PageChange, out: &mut Vec<Sent>) -> Result<(), AllocError>
        ensures changed { OnOk result (record {
          state = self.new;
          outputs = all_outputs out.new.items;
        }
            ≡ after_outputs (all_outputs out.old.items) (change_page change self.old)) }
        ensures memory { IsErr result → (change_page change self.old).outputs ≢ [] }
    {
        match change {
            PageChange::Reset => {
                self.front_alone(out)?;
                self.reset_fields();
            }
            PageChange::Language {
                language,
                begins_job,
            } => {
                self.front_alone(out)?;
                self.set_language(language, begins_job);
                self.reset_fields();
            }
            PageChange::Size(size) => {
                self.front_alone(out)?;
                self.change_page_size(size);
            }
            PageChange::Orientation(orientation) => self.change_orientation(orientation),
            PageChange::Duplex(sides) => {
                self.front_alone(out)?;
                self.change_duplex(sides);
            }
        }
        Ok(())
    }

    /// What a command does after the close of the page, or in its place; a front that waits for its back may go out alone.
    fn end(
        &mut self,
        alloc: Global,
        cause: EjectCause,
        closed: bool,
        out: &mut Vec<Sent>,
    ) -> Result<(), AllocError>
        ensures ended { OnOk result (record {
          state = self.new;
          outputs = all_outputs out.new.items;
        }
            ≡ after_outputs (all_outputs out.old.items) (after_close closed cause self.old)) }
        ensures memory { IsErr result → Shows self.old (after_close closed cause self.old) }
    {
        if closed && !matches!(cause, EjectCause::Change(_)) {
            self.move_to_first_line();
        }
        match cause {
            EjectCause::Feed => Ok(()),
            EjectCause::Side(selection) => self.turn_to(alloc, selection, out),
            EjectCause::Change(change) => self.change_page(change, out),
        }
    }

    /// What a row leaves where no overlay runs, with what goes out behind what went out before: where it closes the page, the close
    /// and then what the closing command does after it.
    ///
    /// Source: PCL 5 Printer Language Technical Reference Manual, Page Control Commands.
    ///
    /// # Errors
    ///
    /// Where memory ran out.
    pub fn finish_effect(
        &mut self,
        alloc: Global,
        effect: Effect,
        out: &mut Vec<Sent>,
    ) -> Result<(), AllocError>
        ensures finishes { OnOk result (record {
          state = self.new;
          outputs = all_outputs out.new.items;
        }
            ≡ after_outputs (all_outputs out.old.items)
            (finish_effect (effect_of self.old effect))) }
        ensures memory { IsErr result → TakesMemory (effect_of self.old effect) }
    {
        match effect {
            Effect::Changes | Effect::Makes | Effect::Starts(_, _) => Ok(()),
            Effect::GivesReply(reply) => push_reply(out, reply),
            Effect::Stays(cause) => self.end(alloc, cause, false, out),
            Effect::Closes(cause) => {
                self.close_page(alloc, out)?;
                self.end(alloc, cause, true, out)
            }
        }
    }

    /// A page with a mark closes; where it has none, the command goes on at once.
    fn close_if_marked(&self, cause: EjectCause) -> Effect
        ensures { effect_of self.now result ≡ close_if_marked cause self.now }
    {
        if self.is_marked() {
            Effect::Closes(cause)
        } else {
            Effect::Stays(cause)
        }
    }

    /// A reset, with what comes of it: HP-GL/2 is off first, and an open macro definition is dropped.
    pub(crate) fn reset_by(&mut self, change: PageChange) -> Effect
        ensures { effect_of self.new result ≡ reset_by change self.old }
    {
        self.hp_gl = false;
        self.macros.abandon();
        self.close_if_marked(EjectCause::Change(change))
    }

    /// `ESC E` and the universal exit.
    pub(crate) fn reset(&mut self) -> Effect
        ensures { effect_of self.new result ≡ reset self.old }
    {
        self.reset_by(PageChange::Reset)
    }

    /// `&l#A`: the page size.
    pub(crate) fn select_page_size(&self, value: Value) -> Effect
        ensures { effect_of self.now result ≡ select_page_size value.tenthousandths self.now }
    {
        let mut next = self.environment;
        if !next.set_page_size(value) {
            return Effect::Changes;
        }
        let size = PageChange::Size(next.page_setup.size);
        self.close_if_marked(EjectCause::Change(size))
    }

    /// `&l#O`: the orientation.
    pub(crate) fn select_orientation(&self, value: Value) -> Effect
        ensures { effect_of self.now result ≡ select_orientation value.tenthousandths self.now }
    {
        let mut next = self.environment;
        if !next.set_orientation(value) {
            return Effect::Changes;
        }
        let orientation = PageChange::Orientation(next.page_setup.orientation);
        self.close_if_marked(EjectCause::Change(orientation))
    }

    /// `&l#S`: the sides that are printed.
    pub(crate) fn select_duplex(&self, value: Value) -> Effect
        ensures { effect_of self.now result ≡ select_duplex value.tenthousandths self.now }
    {
        let mut next = self.environment;
        if !next.set_duplex(value) {
            return Effect::Changes;
        }
        let sides = PageChange::Duplex(next.page_setup.duplex_mode());
        self.close_if_marked(EjectCause::Change(sides))
    }

    /// `&l#H`: ejects a page with a mark.
    pub(crate) fn eject_page(&self) -> Effect
        ensures { effect_of self.now result ≡ eject_page self.now }
    {
        self.close_if_marked(EjectCause::Feed)
    }

    /// `&a#G`: selects a side.
    pub(crate) fn select_page_side(&self, value: Value) -> Effect
        ensures { effect_of self.now result
            ≡ select_page_side (whole_part value.tenthousandths) self.now }
    {
        match Selection::of_number(value.whole()) {
            Some(selection) => self.close_if_marked(EjectCause::Side(selection)),
            None => Effect::Changes,
        }
    }
}
