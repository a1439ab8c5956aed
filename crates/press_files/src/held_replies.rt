//! The replies that a listing holds until its end.
ghost use Rattle.std.specs.Prelude.{◌≡◌, []};
ghost use Rattle.press_files.specs.Listed.{held};

use press_sink::{ReplyError, ReplySink};
use std::alloc::Global;

/// A reply sink that holds the bytes of all replies. It has no faults.
#[derive(Drop)]
pub struct HeldReplies {
    bytes: Vec<u8>,
}

impl HeldReplies {
    /// A sink that took nothing yet.
    pub fn new(alloc: Global) -> Self
        ensures { held result ≡ [] }
    {
        HeldReplies {
            bytes: Vec::new(alloc),
        }
    }

    /// The bytes of the replies that it took, joined.
    pub fn bytes(&self) -> &[u8]
        ensures { result.now ≡ held self.now }
    {
        &self.bytes
    }
}

impl ReplySink for HeldReplies {
    ghost use Rattle.std.specs.Prelude.{Some};

    ghost told = { λ sink. record { replied = Some (held sink); faults = 0 } };

    fn faults(&self) -> u64 {
        0
    }

    /// Holds a reply.
    fn reply(&mut self, bytes: &[u8]) -> Result<(), ReplyError> {
        self.bytes
            .extend_from_slice(bytes)
            .map_err(|_| ReplyError::NoMemory)
    }
}
