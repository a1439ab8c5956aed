//! The tests of what takes jobs: streams, the debugger, tickets and their jobs, the queue, turns, and what the program flushes.
#![tactic(auto)]

#[cfg(test)]
mod debugger;
#[cfg(test)]
mod devices;
#[cfg(test)]
mod jobs_of_tickets;
#[cfg(test)]
mod program_debugging;
#[cfg(test)]
mod program_devices;
#[cfg(test)]
mod program_files;
#[cfg(test)]
mod program_sessions;
#[cfg(test)]
mod queue;
#[cfg(test)]
mod streams;
#[cfg(test)]
mod tickets;
#[cfg(test)]
mod turns;
#[cfg(test)]
mod worked;
