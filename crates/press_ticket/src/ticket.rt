//! A job ticket (CIP4 JDF 1.5, the process DigitalPrinting).

use crate::fault::TicketError;
use crate::media::{Media, Sides};
use crate::page_range::{MAX_PAGES, PageRange};
use crate::parts::{Optional, Required};
use crate::{numbers, page_range};
use press_units::Resolution;
use std::alloc::{AllocError, Global};
use std::marker::Model;

/// The process that this press carries out.
const PROCESS: &str = "DigitalPrinting";
/// The most sets of a job.
const MAX_AMOUNT: u16 = 9_999;

/// A job ticket: what is printed, on what, and how often. Contracts see what it asks for.
///
/// Source: CIP4 JDF 1.5, the process DigitalPrinting. The limits are this profile's.
#[derive(Debug, Drop)]
pub struct Ticket {
    job_id: String,
    page_count: u16,
    amount: u16,
    run_list: Vec<PageRange>,
    media: Media,
    sides: Sides,
    collate: bool,
    resolution: Resolution,
}

impl Model for Ticket {
    ghost use Rattle.std.specs.Prelude.{IsTrue};
    ghost use Rattle.press_ticket.specs.Ticket.{JobTicket, is_in_range};

    ghost Value = { JobTicket };

    ghost use Rattle.press_ticket.specs.Inside.{job_ticket};

    ghost view = { job_ticket };

    ghost invariant = { λ t. IsTrue (is_in_range (job_ticket t)) };
}

impl Ticket {
    ghost use Rattle.std.specs.Prelude.{◌≡◌, ◌≢◌, ◌≤◌, ◌<◌, All, IfOk, IfErr, IsTrue, Ok, Err, length, true};
    ghost use Rattle.std.specs.List.{list_all};
    ghost use Rattle.press_ticket.specs.declared.fault.TicketError.TheVariants.{NoMemory};
    ghost use Rattle.press_ticket.specs.Members.{is_job_id};
    ghost use Rattle.press_ticket.specs.Pages.{page_order};
    ghost use Rattle.press_ticket.specs.Parts.{required_parts, optional_parts};
    ghost use Rattle.press_ticket.specs.Reading.{in_range};
    ghost use Rattle.press_ticket.specs.Ticket.{is_in_range, is_within};

    /// The ticket that the members make, their numbers held against their ranges.
    pub(crate) fn of(
        alloc: Global,
        required: &Required<'_>,
        optional: &Optional,
    ) -> Result<Self, TicketError>
        requires { is_job_id required.now.job_id.now ≡ true }
        ensures ok { IfOk result (λ ticket.
            in_range (required_parts required.now) (optional_parts optional.now) ≡ Ok ticket) }
        ensures limits { IfOk result (λ ticket. IsTrue (is_in_range ticket)) }
        ensures err { IfErr result (λ error. error ≢ NoMemory
            → in_range (required_parts required.now) (optional_parts optional.now) ≡ Err error) }
    {
        if required.process != PROCESS {
            return Err(TicketError::WrongProcess);
        }
        let Some(page_count) = numbers::up_to(MAX_PAGES, required.page_count) else {
            return Err(TicketError::BadRange);
        };
        let Some(run_list) = numbers::few_ranges_of(alloc, page_count, &optional.run_list)? else {
            return Err(TicketError::BadRange);
        };
        let Some(amount) = numbers::up_to(MAX_AMOUNT, required.amount) else {
            return Err(TicketError::BadAmount);
        };
        Ok(Ticket {
            job_id: String::from_str(alloc, required.job_id)?,
            page_count,
            amount,
            run_list,
            media: optional.media,
            sides: optional.sides,
            collate: optional.collate,
            resolution: optional.resolution,
        })
    }

    /// The job's name: 1 to 63 printable bytes.
    pub fn job_id(&self) -> &str
        ensures value { result.now ≡ self.now.job_id }
        ensures legal { is_job_id result.now ≡ true }
    {
        self.job_id.as_str()
    }

    /// How many pages the job has: 1 to 999.
    pub fn page_count(&self) -> u16
        ensures value { result ≡ self.now.page_count }
        ensures some { 1 ≤ result }
        ensures bound { result ≤ MAX_PAGES }
    {
        self.page_count
    }

    /// How many sets are printed: 1 to 9,999.
    pub fn amount(&self) -> u16
        ensures value { result ≡ self.now.amount }
        ensures some { 1 ≤ result }
        ensures bound { result ≤ MAX_AMOUNT }
    {
        self.amount
    }

    /// The ranges whose pages make a set, in order, each within the job's pages.
    pub fn run_list(&self) -> &[PageRange]
        ensures value { result.now ≡ self.now.run_list }
        ensures within { list_all (is_within self.now.page_count) result.now ≡ true }
    {
        &self.run_list
    }

    /// The size of the medium.
    pub fn media(&self) -> Media
        ensures { result ≡ self.now.media }
    {
        self.media
    }

    /// Which sides of a sheet are printed.
    pub fn sides(&self) -> Sides
        ensures { result ≡ self.now.sides }
    {
        self.sides
    }

    /// Whether whole sets come one after another.
    pub fn is_collated(&self) -> bool
        ensures { result ≡ self.now.collate }
    {
        self.collate
    }

    /// The resolution of its images and pages.
    pub fn resolution(&self) -> Resolution
        ensures { result ≡ self.now.resolution }
    {
        self.resolution
    }

    /// The pages of a set, in order: at most 999 of them, each one of the job's pages, counted from 0.
    ///
    /// # Errors
    ///
    /// Where memory ran out.
    pub fn page_order(&self, alloc: Global) -> Result<Vec<u16>, AllocError>
        ensures pages { IfOk result (λ pages. pages.items ≡ page_order self.now.run_list) }
        ensures bound { length (page_order self.now.run_list) ≤ MAX_PAGES }
        ensures within { All (λ page. page < self.now.page_count) (page_order self.now.run_list) }
    {
        page_range::page_order(alloc, &self.run_list)
    }
}
