//! The types of messages (CIP4 JDF 1.5, queue commands and queries of JMF).

ghost use Rattle.std.specs.Prelude.{◌≡◌};
ghost use Rattle.press_core.specs.Messages.{type_named};

/// What a message asks for (JDF 1.5, queue commands and queries of JMF).
#[derive(Clone, Copy, Debug)]
pub enum MessageType {
    SubmitQueueEntry,
    HoldQueueEntry,
    SuspendQueueEntry,
    ResumeQueueEntry,
    AbortQueueEntry,
    RemoveQueueEntry,
    SetQueueEntryPriority,
    SetQueueEntryPosition,
    HoldQueue,
    ResumeQueue,
    OpenQueue,
    CloseQueue,
    FlushQueue,
    QueueStatus,
    Status,
}

impl MessageType {
    /// The type of this name.
    pub fn named(name: &str) -> Option<Self>
        ensures { result ≡ type_named name.now }
    {
        match name {
            "SubmitQueueEntry" => Some(MessageType::SubmitQueueEntry),
            "HoldQueueEntry" => Some(MessageType::HoldQueueEntry),
            "SuspendQueueEntry" => Some(MessageType::SuspendQueueEntry),
            "ResumeQueueEntry" => Some(MessageType::ResumeQueueEntry),
            "AbortQueueEntry" => Some(MessageType::AbortQueueEntry),
            "RemoveQueueEntry" => Some(MessageType::RemoveQueueEntry),
            "SetQueueEntryPriority" => Some(MessageType::SetQueueEntryPriority),
            "SetQueueEntryPosition" => Some(MessageType::SetQueueEntryPosition),
            "HoldQueue" => Some(MessageType::HoldQueue),
            "ResumeQueue" => Some(MessageType::ResumeQueue),
            "OpenQueue" => Some(MessageType::OpenQueue),
            "CloseQueue" => Some(MessageType::CloseQueue),
            "FlushQueue" => Some(MessageType::FlushQueue),
            "QueueStatus" => Some(MessageType::QueueStatus),
            "Status" => Some(MessageType::Status),
            _ => None,
        }
    }
}
