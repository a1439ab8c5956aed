//! The laws of jobs, each the contract of a function that does nothing.
ghost use Rattle.press_writer.specs.JobLaws.{JobsAreShort, RunsPrintTheSets};

/// The sheets that a job sends, each in its copies, are those that the ticket wants, in order.
pub fn runs_print_the_sets()
    ensures { RunsPrintTheSets }
{}

/// The job of a ticket that keeps its limits has at most 4,000,000,000,000 commands, and it wants at most 9,989,001 sheets.
pub fn jobs_are_short()
    ensures { JobsAreShort }
{}
