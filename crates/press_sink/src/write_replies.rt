//! The reply sink over a writer.
ghost use Rattle.std.specs.Prelude.{◌≡◌, ◌≢◌, true};

use crate::fault::ReplyError;
use crate::sink::ReplySink;
use press_devices::{WriteDevice, write_flushed};

/// A sink that writes replies to a writer, and flushes it after each of them, so that a host has its answer before it goes on.
/// It counts the replies at which a write or the flush failed.
#[derive(Drop)]
pub struct WriteReplies<W: WriteDevice + Drop> {
    writer: W,
    faults: u64,
    pub ghost cause: { faults ≢ 0 → W.failed writer ≡ true },
}

impl<W: WriteDevice + Drop> WriteReplies<W> {
    ghost use Rattle.std.specs.Prelude.{◌≡◌};
    ghost use Rattle.press_sink.specs.Kept.{reply_writer, write_faults};

    /// A sink over a writer, without a fault so far.
    pub fn new(writer: W) -> Self
        ensures writer { reply_writer result ≡ writer }
        ensures faults { write_faults result ≡ 0 }
    {
        WriteReplies { writer, faults: 0 }
    }

    /// The writer.
    pub fn into_inner(self) -> W
        ensures { result ≡ reply_writer self }
    {
        let WriteReplies { writer, faults: _ } = self;
        writer
    }
}

impl<W: WriteDevice + Drop> ReplySink for WriteReplies<W> {
    ghost use Rattle.std.specs.Prelude.{◌≡◌, ◌<◌, true, false, IfErr, OnOk, OnErr};
    ghost use Rattle.press_sink.specs.SinkLog.{Replies, most_faults, written_log};
    ghost use Rattle.press_sink.specs.Kept.{reply_writer, write_faults};

    ghost told = { λ sink. written_log (W.contents sink.writer) sink.faults };

    fn faults(&self) -> u64 {
        self.faults
    }

    /// Writes the bytes to the writer, and flushes it. `ReplyFault` (302): that failed; a prefix of them was written.
    fn reply(&mut self, bytes: &[u8]) -> Result<(), ReplyError>
        requires { write_faults self.old < most_faults }
        ensures replies { Replies
            (written_log (W.contents (reply_writer self.old)) (write_faults self.old)) bytes.now
            result (written_log (W.contents (reply_writer self.new)) (write_faults self.new)) }
        ensures through { OnOk result (W.waiting (reply_writer self.new) ≡ false) }
        ensures fault { IfErr result (λ error. error ≡ ReplyError.ReplyFault) }
        ensures stays { W.failed (reply_writer self.old) ≡ true
            → W.failed (reply_writer self.new) ≡ true }
        ensures cause { OnErr result (W.failed (reply_writer self.new) ≡ true) }
    {
        if write_flushed(&mut self.writer, bytes).is_ok() {
            return Ok(());
        }
        self.faults += 1;
        Err(ReplyError::ReplyFault)
    }
}
