//! Reads of an input, and how many there were (this profile).
ghost use Rattle.std.specs.Prelude.{◌≡◌, ◌≢◌, ◌<◌, ◌≤◌, ◌+◌, ◌⊎◌, ◌||◌, ◌==◌, true, max, min, length, IfOk, IfErr, OnOk, OnErr, MatchResult};
ghost use Rattle.std.specs.Io.{ReadsAtMost};
ghost use Rattle.std.specs.Io.KnownBytes.{ReadConsumes};
ghost use Rattle.std.specs.IoError.{error_kind};
ghost use Rattle.press_devices.specs.Failing.{failed_with};
ghost use Rattle.press_devices.specs.Reading.{GivesPiece, GivesBytes, GivesNext, ReadFails, ended_after, failed_after, most_reads};
ghost use Rattle.press_devices.specs.declared.reading.Piece.TheVariants.{Bytes, Failed, Interrupted};

use press_units::ToldFault;
use std::error::Error;
use std::fmt;
use std::io::{self, ErrorKind, Read};

/// The number of the fault at which a read failed, or there were too many.
pub const READ_FAULT: u16 = 304;

/// The most reads of one input.
pub const MOST_READS: u32 = u32::MAX;

/// How many bytes are read at once.
pub const PIECE: usize = 16_384;

/// What is read from: a reader of std, or any other.
pub trait ReadDevice {
    ghost use Rattle.std.specs.Prelude.{Option, List, ℕ, Bool};

    /// The bytes that reads will give from here on, where they are known.
    ghost remaining: { Self → Option (List ℕ) };

    /// Whether a read failed or was interrupted so far; true also where that is not known.
    ghost failed: { Self → Bool };

    /// How many reads were made so far, the most of one input at most; that many where it is not known.
    ghost reads: { Self → ℕ };

    /// One read: how many bytes it gave at the front of the buffer, none only at the end.
    ///
    /// # Errors
    ///
    /// Where it failed or was interrupted; nothing was read then.
    fn read_some(&mut self, buffer: &mut [u8]) -> io::Result<usize>
        ensures bound { ReadsAtMost result buffer.new }
        ensures bytes { ReadConsumes (remaining self.old) (remaining self.new) result buffer.new }
        ensures failed { failed self.new ≡ failed_with (failed self.old) result }
        ensures reads { reads self.new ≡ min (reads self.old + 1) most_reads };
}

/// Any reader of std, of which it is not known whether its reads failed, and how many were made.
impl<R: Read> ReadDevice for R {
    ghost remaining = { λ reader. R.Read.remaining reader };

    ghost failed = { λ _. true };

    ghost reads = { λ _. most_reads };

    fn read_some(&mut self, buffer: &mut [u8]) -> io::Result<usize> {
        self.read(buffer)
    }
}

/// A read failed, or there were too many.
#[derive(Clone, Copy, Debug)]
pub struct ReadFailed;

impl ReadFailed {
    ghost use Rattle.press_devices.specs.Faults.{read_fault};

    /// Its number: 304.
    pub fn number(self) -> u16
        ensures { result ≡ read_fault }
    {
        READ_FAULT
    }
}

impl fmt::Display for ReadFailed {
    ghost use Rattle.std.specs.Prelude.{Some};
    ghost use Rattle.press_units.specs.Faults.{fault_text};
    ghost use Rattle.press_devices.specs.Faults.{read_fault};

    ghost output = { λ error. Some (fault_text (Some read_fault)) };

    fn fmt<W: fmt::Write>(&self, f: &mut fmt::Formatter<W>) -> fmt::Result {
        write!(f, "{}", ToldFault(Some(self.number())))
    }
}

impl Error for ReadFailed {}

/// How often a reader was read, whether a read failed, and whether one gave no bytes.
#[derive(Clone, Copy, Debug)]
pub struct ReadCount {
    pub reads: u32,
    pub failed: bool,
    pub ended: bool,
}

impl ReadCount {
    ghost use Rattle.std.specs.Prelude.{◌≡◌};
    ghost use Rattle.press_devices.specs.Reading.{no_reads};

    /// Nothing was read.
    pub fn none() -> Self
        ensures { result ≡ no_reads }
    {
        ReadCount {
            reads: 0,
            failed: false,
            ended: false,
        }
    }
}

/// What a read gave.
#[derive(Clone, Copy, Debug)]
pub enum Piece {
    /// So many bytes; at the end none.
    Bytes(usize),
    /// Nothing; the next read may give more.
    Interrupted,
    /// The read failed.
    Failed,
}

/// What the answer of a read stands for: a read that was interrupted has not failed.
fn piece_of(answer: io::Result<usize>) -> Piece
    ensures bytes { IfOk answer (λ length. result ≡ Bytes length) }
    ensures interrupted { IfErr answer
        (λ error. error_kind error ≡ ErrorKind.Interrupted → result ≡ Interrupted) }
    ensures failed { IfErr answer
        (λ error. error_kind error ≢ ErrorKind.Interrupted → result ≡ Failed) }
{
    match answer {
        Ok(length) => Piece::Bytes(length),
        Err(error) if error.kind() == ErrorKind::Interrupted => Piece::Interrupted,
        Err(_) => Piece::Failed,
    }
}

/// Reads a piece, and counts the read.
fn read_piece<R: ReadDevice>(reader: &mut R, piece: &mut [u8], count: &mut ReadCount) -> Piece
    requires few { count.old.reads < most_reads }
    requires room { 0 < length piece.old }
    ensures counted { count.new.reads ≡ count.old.reads + 1 }
    ensures gives { GivesPiece (R.remaining reader.old) (R.remaining reader.new) piece.new result }
    ensures failed { count.new.failed ≡ failed_after count.old.failed result }
    ensures ended { count.new.ended ≡ ended_after count.old.ended result }
    ensures stays { R.failed reader.old ≡ true → R.failed reader.new ≡ true }
    ensures told { count.old.reads ≤ R.reads reader.old → count.new.reads ≤ R.reads reader.new }
    ensures cause { (R.failed reader.new ≡ true) ⊎ GivesBytes result }
{
    count.reads += 1;
    let given = piece_of(reader.read_some(piece));
    match given {
        Piece::Bytes(0) => count.ended = true,
        Piece::Failed => count.failed = true,
        _ => {}
    }
    given
}

/// Reads the next piece of an input, at its end none, and counts the reads; one that was interrupted is made again.
///
/// # Errors
///
/// Where a read failed, or there were more than 4,294,967,295 (304); nothing was read then.
pub fn read_next<R: ReadDevice>(
    reader: &mut R,
    piece: &mut [u8],
    count: &mut ReadCount,
) -> Result<usize, ReadFailed>
    requires room { 0 < length piece.old }
    ensures piece { GivesNext result (R.remaining reader.old) (R.remaining reader.new) piece.new }
    ensures room { length piece.new ≡ length piece.old }
    ensures counted { OnOk result (count.old.reads < count.new.reads) }
    ensures bound { count.new.reads ≤ max count.old.reads most_reads }
    ensures ended { MatchResult result
        (λ length. count.new.ended ≡ (count.old.ended || length == 0))
        (λ _. count.new.ended ≡ count.old.ended) }
    ensures fault { OnErr result ((count.new.failed ≡ true) ⊎ (most_reads ≤ count.new.reads)) }
    ensures stays { R.failed reader.old ≡ true → R.failed reader.new ≡ true }
    ensures told { count.old.reads ≤ R.reads reader.old → count.new.reads ≤ R.reads reader.new }
    ensures few { (R.failed reader.new ≡ true) ⊎ (count.new.reads ≤ count.old.reads + 1) }
    ensures cause { OnErr result
        ((R.failed reader.new ≡ true) ⊎ (most_reads ≤ count.old.reads)) }
    ensures fails { OnErr result (count.old.reads ≤ R.reads reader.old
        → ReadFails (R.failed reader.new) (R.reads reader.new)) }
{
    while count.reads < MOST_READS {
        match read_piece(reader, piece, count) {
            Piece::Bytes(length) => return Ok(length),
            Piece::Interrupted => {}
            Piece::Failed => return Err(ReadFailed),
        }
    }
    Err(ReadFailed)
}
