//! What a PJL line is told of the press, and what comes of it.

ghost use Rattle.std.specs.Prelude.{◌≡◌};

use std::marker::Model;

/// What a line is told of the press.
#[derive(Clone, Copy, Debug, PartialEq, Eq)]
pub struct Facts {
    /// The count of all sheets.
    pub total: u64,
    /// The count of sheets since the job began.
    pub since_job: u64,
}

/// The bytes of a reply. Contracts see them as a list.
#[derive(Drop)]
pub struct ReplyBytes {
    bytes: Vec<u8>,
}

impl Model for ReplyBytes {
    ghost use Rattle.std.specs.Prelude.{List, ℕ};
    ghost use Rattle.std.specs.Coded.{coded_list, coded_ℕ};

    ghost Value = { List ℕ };

    ghost coded = { coded_list coded_ℕ };

    ghost view = { λ reply. reply.bytes.items };
}

impl ReplyBytes {
    /// These bytes.
    pub fn of(bytes: Vec<u8>) -> Self
        ensures { result ≡ bytes.items }
    {
        ReplyBytes { bytes }
    }

    /// The bytes, lent.
    pub fn as_slice(&self) -> &[u8]
        ensures { result.now ≡ self.now }
    {
        &self.bytes
    }

    /// The bytes, handed back.
    pub fn into_vec(self) -> Vec<u8>
        ensures { result.items ≡ self }
    {
        let ReplyBytes { bytes } = self;
        bytes
    }
}

/// What a line does beside the change of its environment.
#[derive(Drop)]
pub struct PjlEffect {
    /// Whether it acts as a universal exit, after which the page environment is that of the current values.
    pub resets: bool,
    /// Whether a job begins: the count of sheets since then is 0.
    pub job: bool,
    /// The reply; empty for none.
    pub reply: ReplyBytes,
}
