//! Lines that a reader has, one after another.
ghost use Rattle.std.specs.Prelude.{◌≡◌, ◌≤◌, length, position, true};
ghost use Rattle.press_devices.specs.Reading.{ReadFails};
ghost use Rattle.press_asm.specs.Text.{is_feed};

use crate::inputs::InputError;
use press_cmd::LINE_FEED;
use press_devices::ReadDevice;
use press_stream::{PIECE, ReadCount, read_next};
use std::alloc::{AllocError, Global};

/// What a reader has, line by line. It is read by pieces; what stands behind the lines that were given is held.
#[derive(Drop)]
pub struct LineReader {
    count: ReadCount,
    piece: Vec<u8>,
    /// How many bytes of the piece were given.
    given: usize,
    ghost inside: { given ≤ length piece.items },
}

impl LineReader {
    ghost use Rattle.std.specs.Prelude.{◌≡◌, ◌<◌, ◌≤◌, true, [], IfOk, IfErr, OnOk};
    ghost use Rattle.press_files.specs.Causes.{InputCause};
    ghost use Rattle.press_files.specs.LineReading.{held, reads_left, bytes_left, TakesLine, GivesLine, Refills};

    /// Nothing was read.
    pub fn new(alloc: Global) -> Self
        ensures held { held result ≡ [] }
        ensures reads { result.count.reads ≡ 0 }
    {
        LineReader {
            count: ReadCount::none(),
            piece: Vec::new(alloc),
            given: 0,
        }
    }

    /// Puts the next line of a reader into `line`, without its line feed. Where none is left that ends with one, that is what
    /// stands behind the last, perhaps nothing. The answer is whether the line ends with a line feed.
    ///
    /// # Errors
    ///
    /// `ReadFault` (304) where a read failed, or there were more than 4,294,967,295; `NoMemory`.
    pub fn next<R: ReadDevice>(
        &mut self,
        reader: &mut R,
        line: &mut Vec<u8>,
    ) -> Result<bool, InputError>
        ensures line { GivesLine result (held self.old) (held self.new)
            (R.remaining reader.old) (R.remaining reader.new) line.new.items }
        ensures fewer { IfOk result (λ ended.
            ended ≡ true → bytes_left self.new < bytes_left self.old) }
        ensures told { self.old.count.reads ≤ R.reads reader.old
            → self.new.count.reads ≤ R.reads reader.new }
        ensures cause { IfErr result (λ why. self.old.count.reads ≤ R.reads reader.old
            → InputCause (ReadFails (R.failed reader.new) (R.reads reader.new)) why) }
    {
        line.clear();
        while !self.take_line(line)? {
            if !self.refill(reader)? {
                return Ok(false);
            }
        }
        Ok(true)
    }

    /// What is held.
    fn ahead(&self) -> &[u8]
        ensures { result.now ≡ held self.now }
    {
        &self.piece[self.given..]
    }

    /// Adds what is held, up to a line feed, to a line. The answer is whether a line feed stood there.
    fn take_line(&mut self, line: &mut Vec<u8>) -> Result<bool, AllocError>
        ensures line { IfOk result (λ ended.
            TakesLine ended (held self.old) (held self.new) line.old.items line.new.items) }
        ensures reads { self.new.count ≡ self.old.count }
    {
        let ahead = self.ahead();
        match feed_place(ahead) {
            Some(place) => {
                line.extend_from_slice(&ahead[..place])?;
                self.given += place + 1;
                Ok(true)
            }
            None => {
                line.extend_from_slice(ahead)?;
                self.given = self.piece.len();
                Ok(false)
            }
        }
    }

    /// Reads the next piece, once all of the one before it was given. The answer is whether there was one.
    fn refill<R: ReadDevice>(&mut self, reader: &mut R) -> Result<bool, InputError>
        requires { held self.old ≡ [] }
        ensures piece { Refills result (held self.new)
            (R.remaining reader.old) (R.remaining reader.new) }
        ensures reads { OnOk result (reads_left self.new < reads_left self.old) }
        ensures fewer { OnOk result (bytes_left self.new ≤ bytes_left self.old) }
        ensures told { self.old.count.reads ≤ R.reads reader.old
            → self.new.count.reads ≤ R.reads reader.new }
        ensures cause { IfErr result (λ why. self.old.count.reads ≤ R.reads reader.old
            → InputCause (ReadFails (R.failed reader.new) (R.reads reader.new)) why) }
    {
        let mut piece = [0; PIECE];
        let length = read_next(reader, &mut piece, &mut self.count)?;
        self.piece.clear();
        self.given = 0;
        self.piece.extend_from_slice(&piece[..length])?;
        Ok(length > 0)
    }
}

/// Where the first line feed stands.
fn feed_place(bytes: &[u8]) -> Option<usize>
    ensures { result ≡ position is_feed bytes.now }
{
    bytes.iter().position(|byte| *byte == LINE_FEED)
}
