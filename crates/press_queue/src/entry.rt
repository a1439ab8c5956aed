//! An entry of the queue.

ghost use Rattle.std.specs.Prelude.{◌≡◌};
ghost use Rattle.press_queue.specs.Status.{is_in_flight, new_entry};

use crate::status::Status;

/// An entry of the queue.
#[derive(Clone, Copy, Debug, PartialEq, Eq)]
pub struct Entry {
    /// A higher one goes first.
    pub priority: u8,
    pub status: Status,
    /// Whether it ran at least once.
    pub begun: bool,
}

impl Entry {
    /// A new entry: it waits, and did not begin.
    pub fn waiting(priority: u8) -> Self
        ensures { result ≡ new_entry priority }
    {
        Entry {
            priority,
            status: Status::Waiting,
            begun: false,
        }
    }

    /// Whether it began and did not end.
    pub fn is_in_flight(&self) -> bool
        ensures { result ≡ is_in_flight self.now }
    {
        self.begun && !self.status.has_ended()
    }
}
