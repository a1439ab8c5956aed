//! Where finished sheets and replies go (this profile).
ghost use Rattle.std.specs.Prelude.{◌≡◌, ◌<◌, ℕ};
ghost use Rattle.press_sink.specs.SinkLog.{SheetLog, ReplyLog, Delivers, TookLast, Replies, most_faults};

use crate::fault::{ReplyError, SinkError};
use press_bits::Sheet;

/// Where finished sheets go.
pub trait SheetSink {
    /// The sheets it took, where it tells them, and how many faults it had.
    ghost told: { Self → SheetLog };

    /// How many faults it had.
    fn faults(&self) -> u64
        ensures { result ≡ (told self.now).faults };

    /// Takes one sheet, under a tag.
    ///
    /// # Errors
    ///
    /// `SinkFault` (301): nothing was added, and the sink had one fault more. `NoMemory`: nothing changed.
    fn deliver(&mut self, tag: u64, sheet: &Sheet) -> Result<(), SinkError>
        requires { (told self.old).faults < most_faults }
        ensures { Delivers (told self.old)
            (record { tag = tag; sheet = sheet.now }) result (told self.new) };

    /// Takes the sheet that it took last once more, under the same tag.
    ///
    /// # Errors
    ///
    /// Those of `deliver`.
    fn deliver_again(&mut self, tag: u64, sheet: &Sheet) -> Result<(), SinkError>
        requires faults { (told self.old).faults < most_faults }
        requires last { TookLast (told self.old) (record { tag = tag; sheet = sheet.now }) }
        ensures { Delivers (told self.old)
            (record { tag = tag; sheet = sheet.now }) result (told self.new) }
    {
        self.deliver(tag, sheet)
    }
}

/// Where replies go.
pub trait ReplySink {
    /// The bytes it took, where it tells them, and how many faults it had.
    ghost told: { Self → ReplyLog };

    /// How many faults it had.
    fn faults(&self) -> u64
        ensures { result ≡ (told self.now).faults };

    /// Takes the bytes of one reply.
    ///
    /// # Errors
    ///
    /// `ReplyFault` (302): a prefix of them was added, and the sink had one fault more. `NoMemory`: nothing changed.
    fn reply(&mut self, bytes: &[u8]) -> Result<(), ReplyError>
        requires { (told self.old).faults < most_faults }
        ensures { Replies (told self.old) bytes.now result (told self.new) };
}
