//! A reply sink of which nothing waits in the program.
ghost use Rattle.std.specs.Prelude.{◌≡◌, ◌≢◌, true, false};
ghost use Rattle.press_sink.specs.Kept.{reply_writer, write_faults};
ghost use Rattle.press_sink.specs.SinkLog.{written_log};

use crate::lent::Loan;
use press_devices::WriteDevice;
use press_sink::{ReplyError, ReplySink, WriteReplies};
use std::marker::{Brand, PhantomData};

/// A writer that is lent, and whether bytes waited there before. It stands in proofs alone; that of a call says which it is.
pub trait Waited: Loan {
    ghost use Rattle.std.specs.Prelude.{Bool};

    ghost waited: { Bool };
}

impl Waited for Brand {
    ghost waited = { false };
}

/// A sink that writes replies to a writer. Until one has a fault, nothing waits there if nothing did before the first.
#[derive(Drop)]
pub struct ThroughReplies<W: WriteDevice + Drop, D: Waited> {
    sink: WriteReplies<W>,
    of: PhantomData<D>,
    ghost through: { write_faults sink ≡ 0 → D.waited ≡ false
        → W.waiting (reply_writer sink) ≡ false },
}

impl<W: WriteDevice + Drop, D: Waited> ThroughReplies<W, D> {
    /// A sink over a writer, without a fault so far.
    pub fn new(writer: W) -> Self
        requires { W.waiting writer ≡ D.waited }
        ensures writer { reply_writer result.sink ≡ writer }
        ensures faults { write_faults result.sink ≡ 0 }
    {
        ThroughReplies {
            sink: WriteReplies::new(writer),
            of: PhantomData,
        }
    }

    /// The writer.
    pub fn into_inner(self) -> W
        ensures writer { result ≡ reply_writer self.sink }
        ensures cause { write_faults self.sink ≢ 0 → W.failed result ≡ true }
        ensures through { write_faults self.sink ≡ 0 → D.waited ≡ false
            → W.waiting result ≡ false }
    {
        let ThroughReplies { sink, .. } = self;
        sink.into_inner()
    }
}

impl<W: WriteDevice + Drop, D: Waited> ReplySink for ThroughReplies<W, D> {
    ghost told = { λ replies.
        written_log (W.contents (reply_writer replies.sink)) (write_faults replies.sink) };

    fn faults(&self) -> u64 {
        self.sink.faults()
    }

    fn reply(&mut self, bytes: &[u8]) -> Result<(), ReplyError> {
        self.sink.reply(bytes)
    }
}
