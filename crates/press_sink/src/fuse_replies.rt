//! A reply sink that has one fault, for tests.
ghost use Rattle.std.specs.Prelude.{◌≡◌, ◌≢◌, ◌<◌, ◌+◌, Some, Result, IsErrOf, take};
ghost use Rattle.press_sink.specs.SinkLog.{Replies, most_faults, replies_with_own_faults};
ghost use Rattle.press_sink.specs.Kept.{inner_replies, replies_left, passed_prefix, left_after, own_reply_faults};

use crate::fault::ReplyError;
use crate::sink::ReplySink;

/// A reply sink over another, in which one reply has a fault of its own: the one after so many others, of which so many
/// bytes are passed on. It is for tests.
#[derive(Drop)]
pub struct FuseReplies<S> {
    sink: S,
    /// How many more replies are passed on before the one that has a fault; none once that has been.
    left: Option<u64>,
    /// How many bytes of that reply are passed on.
    front: usize,
    faults: u64,
}

impl<S: ReplySink + Drop> FuseReplies<S> {
    /// A sink over another, in which so many replies are passed on, and of the next so many bytes before its fault.
    pub fn new(sink: S, replies: u64, bytes: usize) -> Self
        ensures sink { inner_replies result ≡ sink }
        ensures left { replies_left result ≡ Some replies }
        ensures front { passed_prefix result ≡ bytes }
        ensures faults { own_reply_faults result ≡ 0 }
    {
        FuseReplies {
            sink,
            left: Some(replies),
            front: bytes,
            faults: 0,
        }
    }

    /// Has the one fault.
    fn blow(&mut self) -> Result<(), ReplyError>
        requires { own_reply_faults self.old < most_faults }
        ensures fault { IsErrOf result ReplyError.ReplyFault }
        ensures counts { own_reply_faults self.new ≡ own_reply_faults self.old + 1 }
        ensures sink { inner_replies self.new ≡ inner_replies self.old }
        ensures left { replies_left self.new ≡ replies_left self.old }
        ensures front { passed_prefix self.new ≡ passed_prefix self.old }
    {
        self.faults += 1;
        Err(ReplyError::ReplyFault)
    }

    /// The sink to which replies are passed on.
    pub fn sink(&self) -> &S
        ensures { result.now ≡ inner_replies self.now }
    {
        &self.sink
    }
}

impl<S: ReplySink + Drop> ReplySink for FuseReplies<S> {
    ghost told = { λ fuse. replies_with_own_faults (S.told fuse.sink) fuse.faults };

    fn faults(&self) -> u64 {
        self.sink.faults().saturating_add(self.faults)
    }

    /// Passes the reply on to the other sink, or a prefix of it and then has the one fault.
    fn reply(&mut self, bytes: &[u8]) -> Result<(), ReplyError>
        requires { (replies_with_own_faults (S.told (inner_replies self.old))
            (own_reply_faults self.old)).faults < most_faults }
        ensures replies { Replies
            (replies_with_own_faults (S.told (inner_replies self.old)) (own_reply_faults self.old))
            bytes.now result
            (replies_with_own_faults (S.told (inner_replies self.new))
            (own_reply_faults self.new)) }
        ensures blows { replies_left self.old ≡ Some 0 → IsErrOf result ReplyError.ReplyFault }
        ensures front { replies_left self.old ≡ Some 0 → (answer : Result (Unit {0}) ReplyError)
            × Replies (S.told (inner_replies self.old))
            (take (passed_prefix self.old) bytes.now) answer (S.told (inner_replies self.new)) }
        ensures passes { replies_left self.old ≢ Some 0 → Replies (S.told (inner_replies self.old))
            bytes.now result (S.told (inner_replies self.new)) }
        ensures counts { replies_left self.new ≡ left_after (replies_left self.old) }
        ensures keeps { passed_prefix self.new ≡ passed_prefix self.old }
    {
        match self.left {
            Some(0) => {
                self.left = None;
                let front = &bytes[..self.front.min(bytes.len())];
                match self.sink.reply(front) {
                    // The other sink had the fault.
                    Err(ReplyError::ReplyFault) => Err(ReplyError::ReplyFault),
                    Err(ReplyError::NoMemory) => self.blow(),
                    Ok(()) => self.blow(),
                }
            }
            Some(left) => {
                self.left = Some(left - 1);
                self.sink.reply(bytes)
            }
            None => self.sink.reply(bytes),
        }
    }
}
