//! The law of jobs, the contract of a function that does nothing.
ghost use Rattle.press_printing.specs.PrintingLaw.{JobsPrintTheirTickets};

/// The job of a ticket that is not refused prints the ticket: from power on its commands let the wanted sheets go out, in order,
/// and nothing else.
pub fn jobs_print_their_tickets()
    ensures { JobsPrintTheirTickets }
{}
