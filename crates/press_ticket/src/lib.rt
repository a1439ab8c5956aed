//! Job tickets: which JSON texts are one, and what it asks for.
#![tactic(auto)]

mod fault;
mod key;
mod media;
mod members;
mod numbers;
mod page_range;
mod parts;
mod reading;
mod ticket;

pub use fault::TicketError;
pub use key::Key;
pub use media::{Media, Sides};
pub use page_range::PageRange;
pub use reading::{read_ticket, ticket_of};
pub use ticket::Ticket;
