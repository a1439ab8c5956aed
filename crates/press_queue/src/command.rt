//! The queue commands that name an entry (CIP4 JDF 1.5, the queue commands).

ghost use Rattle.std.specs.Prelude.{◌≡◌};
ghost use Rattle.press_queue.specs.Legal.{is_legal};

use crate::status::Status;

/// A queue command that names an entry.
#[derive(Clone, Copy, Debug)]
pub enum EntryCommand {
    Hold,
    Resume,
    Suspend,
    Abort,
    Remove,
    /// Its number is one of 0 to 100, where the command is carried out.
    SetPriority(i128),
    /// Its number is an index of the list, where the command is carried out.
    SetPosition(i128),
}

impl EntryCommand {
    /// Whether it may be given for an entry of this status.
    pub fn is_legal(self, status: Status) -> bool
        ensures { result ≡ is_legal self status }
    {
        match status {
            Status::Waiting => !matches!(self, EntryCommand::Resume | EntryCommand::Suspend),
            Status::Held => !matches!(self, EntryCommand::Hold | EntryCommand::Suspend),
            Status::Running => matches!(self, EntryCommand::Suspend | EntryCommand::Abort),
            Status::Suspended => matches!(self, EntryCommand::Resume | EntryCommand::Abort),
            Status::Completed | Status::Aborted => matches!(self, EntryCommand::Remove),
        }
    }
}

/// What a command makes of the entry that it names.
#[derive(Clone, Copy, Debug)]
pub enum EntryChange {
    /// It gets this status, and keeps its place.
    Status(Status),
    /// It gets this priority, and is put as a new entry is.
    Priority(u8),
    /// It moves to this index.
    Index(usize),
    /// It leaves the list.
    Removal,
}
