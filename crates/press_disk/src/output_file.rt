//! A file that is being written (this profile).
ghost use Rattle.std.specs.Prelude.{◌≡◌, false, OnOk};
ghost use Rattle.press_disk.specs.Kept.{file_in, waits_in};

use press_devices::write_whole;
use std::io::{self, Write};

/// A file that is open, behind a buffer: it takes one write for as many bytes as that has room for. What it holds is not known.
#[derive(Drop)]
pub struct OutputFile<T> {
    file: T,
    /// What was written, and did not go to the file yet.
    held: Vec<u8>,
}

impl<T: Write + Drop> OutputFile<T> {
    /// A file behind a buffer with as much room as this one has.
    pub(crate) fn new(file: T, buffer: Vec<u8>) -> Self
        ensures { file_in result ≡ file }
    {
        OutputFile { file, held: buffer }
    }

    /// The file, and the buffer without what it holds.
    pub(crate) fn into_parts(self) -> (T, Vec<u8>)
        ensures { result.0 ≡ file_in self }
    {
        let OutputFile { file, mut held } = self;
        held.clear();
        (file, held)
    }

    /// How many more bytes the buffer takes without memory.
    fn room(&self) -> usize {
        self.held.capacity().saturating_sub(self.held.len())
    }

    /// Whether bytes that were written wait in the buffer.
    pub(crate) fn waits(&self) -> bool
        ensures { result ≡ waits_in self.now }
    {
        0 < self.held.len()
    }

    /// Has all that was written go to the file, and out of the program.
    pub(crate) fn finish(&mut self) -> io::Result<()>
        ensures { OnOk result (waits_in self.new ≡ false) }
    {
        self.send()?;
        self.file.flush()
    }

    /// Writes to the file what is held. Where that failed a prefix of it was written, and nothing is held.
    fn send(&mut self) -> io::Result<()>
        ensures { waits_in self.new ≡ false }
    {
        let sent = write_whole(&mut self.file, &self.held);
        self.held.clear();
        sent
    }
}

impl<T: Write + Drop> Write for OutputFile<T> {
    fn write(&mut self, buf: &[u8]) -> io::Result<usize> {
        if buf.len() > self.room() {
            self.send()?;
        }
        if buf.len() > self.room() {
            return self.file.write(buf);
        }
        self.held.extend_from_slice(buf)?;
        Ok(buf.len())
    }

    fn flush(&mut self) -> io::Result<()> {
        self.finish()
    }
}
