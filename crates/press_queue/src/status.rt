//! Where an entry stands, and where the queue does (CIP4 JDF 1.5, the statuses of queues and of their entries).

ghost use Rattle.std.specs.Prelude.{◌≡◌};
ghost use Rattle.press_queue.specs.Status.{is_waiting, is_running, has_ended, status_at_end};

/// Where an entry of the queue stands (JDF 1.5, the status of a queue entry).
#[derive(Clone, Copy, Debug, PartialEq, Eq)]
pub enum Status {
    /// It may begin, or go on.
    Waiting,
    /// An operator holds it back.
    Held,
    Running,
    /// It ran, and may go on later from where it stood.
    Suspended,
    Completed,
    Aborted,
}

impl Status {
    /// Whether the entry waits, to begin or to go on.
    pub fn is_waiting(self) -> bool
        ensures { result ≡ is_waiting self }
    {
        matches!(self, Status::Waiting)
    }

    /// Whether the entry runs.
    pub fn is_running(self) -> bool
        ensures { result ≡ is_running self }
    {
        matches!(self, Status::Running)
    }

    /// Whether the entry takes no more turns.
    pub fn has_ended(self) -> bool
        ensures { result ≡ has_ended self }
    {
        matches!(self, Status::Completed | Status::Aborted)
    }
}

/// How a running entry ends.
#[derive(Clone, Copy, Debug, PartialEq, Eq)]
pub enum End {
    Completed,
    Aborted,
}

impl End {
    /// The status of an entry that ended so.
    pub fn status(self) -> Status
        ensures { result ≡ status_at_end self }
    {
        match self {
            End::Completed => Status::Completed,
            End::Aborted => Status::Aborted,
        }
    }
}

/// Where the queue itself stands (JDF 1.5, the status of a queue).
#[derive(Clone, Copy, Debug, PartialEq, Eq)]
pub enum QueueStatus {
    /// It is closed and held.
    Blocked,
    /// It takes no new entries.
    Closed,
    /// No entry begins.
    Held,
    /// It has as many entries as it may have.
    Full,
    /// An entry runs.
    Running,
    Waiting,
}
