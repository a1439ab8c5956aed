//! Bytes that are written whole (this profile).
ghost use Rattle.std.specs.Prelude.{◌≡◌, ◌<◌, ◌≤◌, ◌⊎◌, true, false, length, take, IfOk, IfSome, OnOk, OnErr};
ghost use Rattle.std.specs.Io.{WritesAtMost};
ghost use Rattle.std.specs.Io.KnownBytes.{Keeps, WriteAppends};
ghost use Rattle.std.specs.List.{flat_map};
ghost use Rattle.press_devices.specs.Failing.{failed_with};
ghost use Rattle.press_devices.specs.Writing.{Writes};

use std::io::{self, ErrorKind, Write};

/// The most writes of one list of bytes that may be interrupted.
const MOST_INTERRUPTED: u32 = u32::MAX;

/// How many bytes pieces may have that are written at once.
const ROOM: usize = 128;

/// What is written to: a writer of std, or any other.
pub trait WriteDevice {
    ghost use Rattle.std.specs.Prelude.{Option, List, ℕ, Bool};

    /// The bytes that it holds, where they are known.
    ghost contents: { Self → Option (List ℕ) };

    /// Whether a write or a flush failed, was interrupted, or took nothing of some bytes so far; true also where that is not known.
    ghost failed: { Self → Bool };

    /// Whether bytes that were written may wait in the program, where that is known; a plain writer of std tells nothing of it.
    ghost waiting: { Self → Bool };

    /// One write: how many bytes it took of the front of these.
    ///
    /// # Errors
    ///
    /// Where it failed or was interrupted; nothing was written then. So is a write that takes nothing of some bytes, unless a call failed
    /// before.
    fn write_some(&mut self, bytes: &[u8]) -> io::Result<usize>
        ensures bound { WritesAtMost result bytes.now }
        ensures bytes { WriteAppends (contents self.old) (contents self.new) result bytes.now }
        ensures takes { IfOk result (λ count.
            0 < length bytes.now → (failed self.new ≡ true) ⊎ (0 < count)) }
        ensures failed { failed self.new ≡ failed_with (failed self.old) result };

    /// Sees to it that what was written does not wait in the program.
    ///
    /// # Errors
    ///
    /// Where that failed.
    fn flush_all(&mut self) -> io::Result<()>
        ensures bytes { Keeps (contents self.old) (contents self.new) }
        ensures failed { failed self.new ≡ failed_with (failed self.old) result }
        ensures through { OnOk result (waiting self.new ≡ false) };
}

/// Any writer of std, of which it is not known whether its writes failed, nor whether bytes wait in it.
impl<W: Write> WriteDevice for W {
    ghost contents = { λ writer. W.Write.contents writer };

    ghost failed = { λ _. true };

    ghost waiting = { λ _. false };

    fn write_some(&mut self, bytes: &[u8]) -> io::Result<usize> {
        self.write(bytes)
    }

    fn flush_all(&mut self) -> io::Result<()> {
        self.flush()
    }
}

/// Writes all the bytes, or a prefix of them where a write failed. The `write_all` of std does not say what was written then.
///
/// # Errors
///
/// Where a write failed, or took nothing. An interrupted one is made again, up to 4,294,967,295 times.
pub fn write_whole<W: WriteDevice>(output: &mut W, bytes: &[u8]) -> io::Result<()>
    ensures written { Writes result (W.contents output.old) (W.contents output.new) bytes.now }
    ensures stays { W.failed output.old ≡ true → W.failed output.new ≡ true }
    ensures cause { OnErr result (W.failed output.new ≡ true) }
{
    let mut rest = bytes;
    let mut interrupted = 0;
    while !rest.is_empty() {
        match output.write_some(rest) {
            Ok(0) => return Err(io::Error::from(ErrorKind::WriteZero)),
            Ok(count) => rest = &rest[count..],
            Err(error) => {
                if error.kind() != ErrorKind::Interrupted || interrupted == MOST_INTERRUPTED {
                    return Err(error);
                }
                interrupted += 1;
            }
        }
    }
    Ok(())
}

/// Puts pieces one after the other into a room, and answers how many bytes they are, if it has so many.
fn joined(pieces: &[&[u8]], room: &mut [u8]) -> Option<usize>
    ensures bytes { IfSome result (λ count. take count room.new
        ≡ flat_map (λ piece. piece.now) pieces.now) }
    ensures within { IfSome result (λ count. count ≤ length room.new) }
{
    let mut count = 0;
    for piece in pieces {
        if room.len() - count < piece.len() {
            return None;
        }
        room[count..count + piece.len()].copy_from_slice(piece);
        count += piece.len();
    }
    Some(count)
}

/// Writes pieces one after the other: at once where they are few bytes, and else each as [`write_whole`] does.
///
/// # Errors
///
/// Those of [`write_whole`]. A prefix of the pieces is written then.
pub fn write_pieces<W: WriteDevice>(output: &mut W, pieces: &[&[u8]]) -> io::Result<()>
    ensures written { Writes result (W.contents output.old) (W.contents output.new)
        (flat_map (λ piece. piece.now) pieces.now) }
    ensures stays { W.failed output.old ≡ true → W.failed output.new ≡ true }
    ensures cause { OnErr result (W.failed output.new ≡ true) }
{
    let mut room = [0; ROOM];
    if let Some(count) = joined(pieces, &mut room) {
        return write_whole(output, &room[..count]);
    }
    for piece in pieces {
        write_whole(output, piece)?;
    }
    Ok(())
}

/// Writes bytes whole, and flushes.
///
/// # Errors
///
/// Where a write or the flush failed. A prefix of the bytes is written then.
pub fn write_flushed<W: WriteDevice>(output: &mut W, bytes: &[u8]) -> io::Result<()>
    ensures written { Writes result (W.contents output.old) (W.contents output.new) bytes.now }
    ensures through { OnOk result (W.waiting output.new ≡ false) }
    ensures stays { W.failed output.old ≡ true → W.failed output.new ≡ true }
    ensures cause { OnErr result (W.failed output.new ≡ true) }
{
    write_whole(output, bytes)?;
    output.flush_all()
}
