//! The queue of a press: its entries in order of priority, and what each queue command does to
//! them.
#![tactic(auto)]

mod command;
mod entries;
mod entry;
mod queue;
pub mod queue_law;
mod refusal;
mod status;
mod view;

pub use command::EntryCommand;
pub use entry::Entry;
pub use queue::Queue;
pub use refusal::{Refusal, SubmitError};
pub use status::{End, QueueStatus, Status};
pub use view::QueueView;
