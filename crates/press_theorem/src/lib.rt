//! The theorem of the press, each part the contract of one call: what a stream prints in whatever pieces it comes, also where
//! steps are taken between them; that the job of a ticket, printed, delivers what the ticket wants; and what happens to a press
//! in whatever order messages, turns and commands of the operator come.
#![tactic(auto)]

mod events;
mod tickets;

pub use events::{PressEvent, carry_out_events};
pub use tickets::{Delivered, NotPrinted, print_ticket};
