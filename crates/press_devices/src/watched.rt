//! Devices of std that are watched (this profile).
ghost use Rattle.std.specs.Prelude.{◌≡◌, ◌↔◌, false, IsTrue};
ghost use Rattle.press_devices.specs.Reading.{ReadFails};
ghost use Rattle.press_devices.specs.Watching.{device_of, has_failed, is_waiting, reads_of};

use crate::reading::{MOST_READS, ReadDevice};
use crate::writing::WriteDevice;
use std::io::{self, ErrorKind, Read, Write};

/// A reader or a writer of std, how many reads were made of it, whether a call of it failed so far, and whether bytes may wait in it.
#[derive(Drop)]
pub struct Watched<D> {
    device: D,
    reads: u32,
    failed: bool,
    /// Whether bytes that were written may wait in the program.
    waiting: bool,
}

impl<D> Watched<D> {
    /// A device that was not read yet, of which no call failed, and to which nothing was written.
    pub fn new(device: D) -> Self
        ensures device { device_of result ≡ device }
        ensures reads { reads_of result ≡ 0 }
        ensures failed { has_failed result ≡ false }
        ensures waiting { is_waiting result ≡ false }
    {
        Watched {
            device,
            reads: 0,
            failed: false,
            waiting: false,
        }
    }

    /// Whether a call of it failed, was interrupted, or took nothing of some bytes so far.
    pub fn failed(&self) -> bool
        ensures { result ≡ has_failed self.now }
    {
        self.failed
    }

    /// Whether it is not read on: a call of it failed, or as many reads were made as an input has.
    pub fn is_given_up(&self) -> bool
        ensures { IsTrue result ↔ ReadFails (has_failed self.now) (reads_of self.now) }
    {
        self.failed || self.reads == MOST_READS
    }

    /// The device.
    pub fn into_inner(self) -> D
        ensures { result ≡ device_of self }
    {
        let Watched { device, .. } = self;
        device
    }
}

impl<R: Read> ReadDevice for Watched<R> {
    ghost remaining = { λ watched. R.Read.remaining (device_of watched) };

    ghost failed = { λ watched. has_failed watched };

    ghost reads = { λ watched. reads_of watched };

    fn read_some(&mut self, buffer: &mut [u8]) -> io::Result<usize> {
        self.reads = self.reads.saturating_add(1);
        let given = self.device.read(buffer);
        self.failed |= given.is_err();
        given
    }
}

impl<W: Write> WriteDevice for Watched<W> {
    ghost contents = { λ watched. W.Write.contents (device_of watched) };

    ghost failed = { λ watched. has_failed watched };

    ghost waiting = { λ watched. is_waiting watched };

    /// A write that takes nothing of some bytes has failed.
    fn write_some(&mut self, bytes: &[u8]) -> io::Result<usize> {
        let mut taken = self.device.write(bytes);
        if matches!(taken, Ok(0)) && !bytes.is_empty() {
            taken = Err(io::Error::from(ErrorKind::WriteZero));
        }
        self.failed |= taken.is_err();
        self.waiting |= !bytes.is_empty();
        taken
    }

    fn flush_all(&mut self) -> io::Result<()> {
        let flushed = self.device.flush();
        self.failed |= flushed.is_err();
        self.waiting = self.waiting && flushed.is_err();
        flushed
    }
}
