//! The law of jobs: the stream of a ticket's job prints the ticket.
#![tactic(auto)]

pub mod printing_law;
mod writing;

pub use writing::{open_job, write_job};
