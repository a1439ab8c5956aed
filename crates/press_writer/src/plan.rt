//! The sheets of a job, each with its copies, and its parts by their places.

ghost use Rattle.std.specs.Prelude.{◌≡◌, ◌<◌, ◌≤◌, All, length, slice_get, Some, IfOk};
ghost use Rattle.press_ticket.specs.Pages.{page_order};
ghost use Rattle.press_writer.specs.Job.{batches};
ghost use Rattle.press_writer.specs.Plan.{IsPlan, IsSmall, plan_runs, plan_parts};

use crate::part::Part;
use crate::sheet::{SheetPages, sheets_of};
use press_page::MOST_COPIES;
use press_ticket::Ticket;
use std::alloc::{AllocError, Global};

/// A sheet that is sent once, and printed in so many copies.
#[derive(Clone, Copy)]
pub struct PrintRun {
    pub sheet: SheetPages,
    pub copies: u16,
}

/// The sheets of a set, how many sets are printed, and whether one set comes after another.
#[derive(Drop)]
pub(crate) struct Plan {
    sheets: Vec<SheetPages>,
    amount: u16,
    by_sets: bool,
}

/// How often a sheet is sent where its copies go at once.
fn batch_count(amount: u16) -> usize
    ensures count { result ≡ length (batches amount) }
    ensures some { 1 ≤ amount → 1 ≤ result }
    ensures bound { result ≤ 66 }
{
    let whole = usize::from(amount / MOST_COPIES);
    if amount % MOST_COPIES == 0 {
        whole
    } else {
        whole + 1
    }
}

/// The copies that go at once, at an index.
fn batch_at(amount: u16, index: usize) -> u16
    requires { index < length (batches amount) }
    ensures { slice_get (batches amount) index ≡ Some result }
{
    if index < usize::from(amount / MOST_COPIES) {
        MOST_COPIES
    } else {
        amount % MOST_COPIES
    }
}

impl Plan {
    /// The plan of a ticket.
    pub(crate) fn of(alloc: Global, ticket: &Ticket) -> Result<Plan, AllocError>
        ensures plan { IfOk result (IsPlan ticket.now) }
        ensures small { IfOk result IsSmall }
        ensures within { All (λ page. page < ticket.now.page_count)
            (page_order ticket.now.run_list) }
    {
        let pages = ticket.page_order(alloc)?;
        let sheets = sheets_of(alloc, ticket.sides(), &pages)?;
        let by_sets = ticket.is_collated() && sheets.len() > 1;
        Ok(Plan {
            sheets,
            amount: ticket.amount(),
            by_sets,
        })
    }

    /// How many sheets are sent.
    fn run_count(&self) -> usize
        requires { IsSmall self.now }
        ensures count { result ≡ length (plan_runs self.now) }
        ensures bound { result ≤ 9989001 }
    {
        let each = if self.by_sets {
            usize::from(self.amount)
        } else {
            batch_count(self.amount)
        };
        self.sheets.len() * each
    }

    /// The sheet that is sent at an index.
    fn run_at(&self, index: usize) -> PrintRun
        requires small { IsSmall self.now }
        requires within { index < length (plan_runs self.now) }
        ensures { slice_get (plan_runs self.now) index ≡ Some result }
    {
        if self.by_sets {
            return PrintRun {
                sheet: self.sheets[index % self.sheets.len()],
                copies: 1,
            };
        }
        let each = batch_count(self.amount);
        PrintRun {
            sheet: self.sheets[index / each],
            copies: batch_at(self.amount, index % each),
        }
    }

    /// How many parts the job has.
    pub(crate) fn part_count(&self) -> usize
        requires { IsSmall self.now }
        ensures { result ≡ length (plan_parts self.now) }
    {
        2 * self.run_count() + 2
    }

    /// The part of the job at an index.
    pub(crate) fn part_at(&self, index: usize) -> Part
        requires small { IsSmall self.now }
        requires within { index < length (plan_parts self.now) }
        ensures { slice_get (plan_parts self.now) index ≡ Some result }
    {
        if index == 0 {
            return Part::Head;
        }
        let place = index - 1;
        if place / 2 >= self.run_count() {
            return Part::Tail;
        }
        let run = self.run_at(place / 2);
        if place % 2 == 0 {
            Part::Front(run.sheet.front, run.copies)
        } else {
            Part::Back(run.sheet.back)
        }
    }
}
