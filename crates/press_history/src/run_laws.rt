//! The laws of a press: of its jobs, and of every run of events. Each is the contract of a function that does nothing but call those
//! whose laws it takes.

ghost use Rattle.press_history.specs.RunLaws.{JobsAreShort, JobsHandOutTheWantedSheets, SheetsAreGiven, EntriesDeliverWhileTheyRun, EntriesDoNotInterfere, EntriesAreBounded, NewPressesComeSo};

use press_printing::printing_law::jobs_print_their_tickets;
use press_queue::queue_law::each_row_keeps_the_queue;
use press_writer::job_laws as jobs;

/// The job of a ticket that is printed with its images hands out the wanted sheets in its steps, in order, and nothing else. So
/// the sheets of an entry that is completed, which took all of them, are those that its ticket wants.
pub fn jobs_hand_out_the_wanted_sheets()
    ensures { JobsHandOutTheWantedSheets }
{
    jobs_print_their_tickets();
}

/// The job of a ticket that is printed with its images has at most 4,000,000,000,001 steps, and it wants at most 9,989,001 sheets. So a
/// turn of that many steps completes its entry, unless it meets a fault.
pub fn jobs_are_short()
    ensures { JobsAreShort }
{
    jobs_print_their_tickets();
    jobs::jobs_are_short();
}

/// In every run of events, whatever messages, turns, operators and faults it has: what was handed out under the number of an
/// entry in flight are the sheets of the steps that were taken of its job; of a completed one all sheets that its ticket wants; and
/// of every entry a prefix of those, and nothing where it never began, also of one that left the list. From then on nothing more is.
pub fn sheets_are_given()
    ensures { SheetsAreGiven }
{
    jobs_hand_out_the_wanted_sheets();
    jobs_are_short();
    each_row_keeps_the_queue();
}

/// In every run of events something is handed out under a number only in a turn of its entry, while that runs. So an entry that is
/// suspended, held or waits delivers nothing, and one that was completed or aborted never delivers again.
pub fn entries_deliver_while_they_run()
    ensures { EntriesDeliverWhileTheyRun }
{
    each_row_keeps_the_queue();
}

/// Two entries, each of a run of its own, with the same ticket and images, that met no fault in their own turns and took as many
/// steps in all, were handed out alike, whatever else came in the two runs: the sheets of the first so many steps of their job.
pub fn entries_do_not_interfere()
    ensures { EntriesDoNotInterfere }
{
    each_row_keeps_the_queue();
}

/// In every run of events each entry that runs is on an engine of its own, so at most as many run as there are engines, whose number
/// stays; at most eight are in flight, and at most 64 are in the list, under numbers that differ; a number that was given is not given
/// again.
pub fn entries_are_bounded()
    ensures { EntriesAreBounded }
{
    each_row_keeps_the_queue();
}

/// Whatever happens to a new press of one to four engines, all of these laws hold of it: of what was handed out under each number, when,
/// and of its engines and its queue.
pub fn new_presses_come_so()
    ensures { NewPressesComeSo }
{
    sheets_are_given();
    entries_deliver_while_they_run();
    entries_are_bounded();
}
