//! Bitmaps that are written as P4 files (Netpbm, the PBM format).

ghost use Rattle.std.specs.Prelude.{◌≡◌, ℕ, ◌<◌, true, slice_index, OnOk, OnErr};
ghost use Rattle.std.specs.List.{flat_map, range_with_len};
ghost use Rattle.std.specs.Io.KnownBytes.{Appends};
ghost use Rattle.press_pbm.specs.Spelling.{header_of, line_bytes, file_of};
ghost use Rattle.press_devices.specs.Writing.{AppendsPrefix, Writes};

use crate::fault::WritePbmError;
use itoa::Buffer;
use press_bits::{BAND_LINES, Bitmap};
use press_devices::{WriteDevice, write_whole};

/// Writes all the bytes of a part of a file, or a prefix of them.
fn write_bytes<W: WriteDevice>(output: &mut W, bytes: &[u8]) -> Result<(), WritePbmError>
    ensures written { Writes result (W.contents output.old) (W.contents output.new) bytes.now }
    ensures bytes { (i : ℕ) → slice_index bytes.now i < 256 }
    ensures stays { W.failed output.old ≡ true → W.failed output.new ≡ true }
    ensures cause { OnErr result (W.failed output.new ≡ true) }
{
    match write_whole(output, bytes) {
        Ok(()) => Ok(()),
        Err(_) => Err(WritePbmError::WriteFault),
    }
}

fn write_header<W: WriteDevice>(bitmap: &Bitmap, output: &mut W) -> Result<(), WritePbmError>
    ensures written { Writes result (W.contents output.old) (W.contents output.new)
        (header_of bitmap.now) }
    ensures stays { W.failed output.old ≡ true → W.failed output.new ≡ true }
    ensures cause { OnErr result (W.failed output.new ≡ true) }
{
    let mut number = Buffer::new();
    write_bytes(output, b"P4\n")?;
    write_bytes(output, number.format(bitmap.width()).as_bytes())?;
    write_bytes(output, b" ")?;
    write_bytes(output, number.format(bitmap.height()).as_bytes())?;
    write_bytes(output, b"\n")
}

/// Writes the lines of a bitmap, those of a band at once.
fn write_lines<W: WriteDevice>(bitmap: &Bitmap, output: &mut W) -> Result<(), WritePbmError>
    ensures written { Writes result (W.contents output.old) (W.contents output.new)
        (flat_map (line_bytes bitmap.now) (range_with_len 0 bitmap.now.height)) }
    ensures stays { W.failed output.old ≡ true → W.failed output.new ≡ true }
    ensures cause { OnErr result (W.failed output.new ≡ true) }
{
    for index in 0..bitmap.height().div_ceil(BAND_LINES) {
        write_bytes(output, bitmap.band(index))?;
    }
    Ok(())
}

/// Writes a bitmap as a P4 file: `P4`, LF, the width, a space, the height, LF, and the lines from the top, each from a new
/// byte on and padded with zeros.
///
/// # Errors
///
/// `WriteFault` (115) where a write failed; a prefix of the file was written then.
///
/// Source: Netpbm, the raw form of the PBM format.
pub fn write_pbm<W: WriteDevice>(bitmap: &Bitmap, output: &mut W) -> Result<(), WritePbmError>
    ensures ok { OnOk result (Appends (W.contents output.old) (W.contents output.new)
        (file_of bitmap.now)) }
    ensures fault { OnErr result (AppendsPrefix (W.contents output.old) (W.contents output.new)
        (file_of bitmap.now)) }
    ensures stays { W.failed output.old ≡ true → W.failed output.new ≡ true }
    ensures cause { OnErr result (W.failed output.new ≡ true) }
{
    write_header(bitmap, output)?;
    write_lines(bitmap, output)
}
