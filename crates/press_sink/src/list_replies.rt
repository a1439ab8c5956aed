//! The reply sink that keeps the bytes of all replies.
ghost use Rattle.std.specs.Prelude.{◌≡◌, [], Some};
ghost use Rattle.press_sink.specs.Kept.{replied};

use crate::fault::ReplyError;
use crate::sink::ReplySink;
use std::alloc::Global;

/// A sink that keeps the bytes of all replies. It has no faults.
#[derive(Drop)]
pub struct ListReplies {
    bytes: Vec<u8>,
}

impl ListReplies {
    /// A sink that took nothing yet.
    pub fn new(alloc: Global) -> Self
        ensures { replied result ≡ [] }
    {
        ListReplies {
            bytes: Vec::new(alloc),
        }
    }

    /// The bytes of the replies that it took, joined.
    pub fn bytes(&self) -> &[u8]
        ensures { result.now ≡ replied self.now }
    {
        &self.bytes
    }
}

impl ReplySink for ListReplies {
    ghost told = { λ sink. record { replied = Some (replied sink); faults = 0 } };

    fn faults(&self) -> u64 {
        0
    }

    fn reply(&mut self, bytes: &[u8]) -> Result<(), ReplyError> {
        self.bytes
            .extend_from_slice(bytes)
            .map_err(|_| ReplyError::NoMemory)
    }
}
