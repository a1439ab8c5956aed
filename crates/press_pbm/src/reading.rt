//! Bitmaps that are read from P4 files (Netpbm, the PBM format).

ghost use Rattle.std.specs.Prelude.{◌≡◌, ℕ, ◌+◌, ◌*◌, ◌≤◌, ◌⊎◌, true, List, length, IfOk, IfErr, OnOk};
ghost use Rattle.std.specs.Io.KnownBytes.{Consumes};
ghost use Rattle.press_devices.specs.Reading.{most_reads};
ghost use Rattle.press_bits.specs.Page.{blank};
ghost use Rattle.press_bits.specs.DotRows.{page_of_rows};
ghost use Rattle.press_bits.specs.Lines.{bytes_per_line};
ghost use Rattle.press_pbm.specs.File.{IsFile, Refused};
ghost use Rattle.press_pbm.specs.Reading.{ReadHeader, StopsShort, RowsStop};

use crate::fault::ReadPbmError;
use crate::place::Place;
use press_bits::{Bitmap, DotRow, Mode, WIDEST_ROW};
use press_devices::{ReadCount, ReadDevice, read_next};
use std::alloc::Global;

/// The most bytes of a header.
const LONGEST_HEADER: u32 = 65_536;

/// White dots leave the white page as it is.
const TRANSPARENT: Mode = Mode {
    source_opaque: false,
    pattern_opaque: false,
};

/// Fills a buffer with the next bytes, and counts the reads.
fn fill<R: ReadDevice>(
    input: &mut R,
    buffer: &mut [u8],
    count: &mut ReadCount,
) -> Result<(), ReadPbmError>
    ensures ok { OnOk result (Consumes (R.remaining input.old) (R.remaining input.new) buffer.new) }
    ensures err { IfErr result (λ error.
        StopsShort error (length buffer.new) (R.remaining input.old) (R.remaining input.new)) }
    ensures stays { R.failed input.old ≡ true → R.failed input.new ≡ true }
    ensures few { (R.failed input.new ≡ true)
        ⊎ (count.new.reads ≤ count.old.reads + length buffer.old) }
    ensures cause { IfErr result (λ error. error ≡ ReadPbmError.ReadFault →
        (R.failed input.new ≡ true) ⊎ (most_reads ≤ count.old.reads + length buffer.old)) }
{
    let mut filled = 0;
    while filled < buffer.len() {
        match read_next(input, &mut buffer[filled..], count) {
            Ok(0) => return Err(ReadPbmError::Truncated),
            Ok(length) => filled += length,
            Err(_) => return Err(ReadPbmError::ReadFault),
        }
    }
    Ok(())
}

/// Reads a header, byte by byte: its width and its height, cut to one above the greatest.
fn read_header<R: ReadDevice>(
    input: &mut R,
    count: &mut ReadCount,
) -> Result<(u32, u32), ReadPbmError>
    ensures ok { IfOk result (λ size.
        ReadHeader size (R.remaining input.old) (R.remaining input.new)) }
    ensures err { IfErr result (λ error.
        Refused error (R.remaining input.old) (R.remaining input.new)) }
    ensures stays { R.failed input.old ≡ true → R.failed input.new ≡ true }
    ensures few { (R.failed input.new ≡ true) ⊎ (count.new.reads ≤ count.old.reads + 65536) }
    ensures cause { IfErr result (λ error. error ≡ ReadPbmError.ReadFault →
        (R.failed input.new ≡ true) ⊎ (most_reads ≤ count.old.reads + 65536)) }
{
    let mut place = Place::Start;
    for length in 1..=LONGEST_HEADER {
        let mut byte = [0];
        fill(input, &mut byte, count)?;
        let Some(next) = place.after(byte[0]) else {
            return Err(ReadPbmError::NotPbm);
        };
        if let Place::End(width, height) = next {
            return Ok((width, height));
        }
        if LONGEST_HEADER - length < next.least_behind() {
            return Err(ReadPbmError::NotPbm);
        }
        place = next;
    }
    Err(ReadPbmError::NotPbm)
}

/// Reads the rows of a white page.
fn read_rows<R: ReadDevice>(
    input: &mut R,
    page: &mut Bitmap,
    count: &mut ReadCount,
) -> Result<(), ReadPbmError>
    requires { page.old ≡ blank page.old.width page.old.height }
    ensures ok { OnOk result ((rows : List ℕ)
        × (length rows ≡ page.old.height * bytes_per_line page.old.width)
        × Consumes (R.remaining input.old) (R.remaining input.new) rows
        × (page.new ≡ page_of_rows page.old.width page.old.height rows)) }
    ensures err { IfErr result (λ error.
        RowsStop error (page.old.height * bytes_per_line page.old.width)
        (R.remaining input.old) (R.remaining input.new)) }
    ensures stays { R.failed input.old ≡ true → R.failed input.new ≡ true }
    ensures cause { IfErr result (λ error. error ≡ ReadPbmError.ReadFault →
        (R.failed input.new ≡ true)
        ⊎ (most_reads ≤ count.old.reads + page.old.height * bytes_per_line page.old.width)) }
{
    let width = page.width() as usize;
    let mut buffer = [0; WIDEST_ROW];
    let row = &mut buffer[..width.div_ceil(8)];
    for y in 0..page.height() {
        fill(input, row, count)?;
        let dots = DotRow {
            bits: row,
            dots: width,
        };
        let Ok(()) = page.paint_row(0, i64::from(y), dots, DotRow::black(), TRANSPARENT) else {
            return Err(ReadPbmError::NoMemory);
        };
    }
    Ok(())
}

/// Reads a P4 file: `P4`, a gap, the width, a gap, the height, one byte of white space, and the rows, whose spare bits are
/// ignored. A gap is white space and comments, each from `#` through the end of the line; a header has at most 65,536 bytes.
/// What stands behind the file is left unread.
///
/// # Errors
///
/// `NotPbm` (111) where no header begins with what was read; `BadSize` (112) where a side of the header is 0 or above 16,384;
/// `Truncated` (113) where the input ends first; `ReadFault` (114) where a read failed, or there were more than
/// 4,294,967,295; `NoMemory`.
///
/// Source: Netpbm, the raw form of the PBM format.
pub fn read_pbm<R: ReadDevice>(alloc: Global, input: &mut R) -> Result<Bitmap, ReadPbmError>
    ensures page { IfOk result (λ page. (file : List ℕ) × IsFile page file
        × Consumes (R.remaining input.old) (R.remaining input.new) file) }
    ensures refused { IfErr result (λ error.
        Refused error (R.remaining input.old) (R.remaining input.new)) }
    ensures stays { R.failed input.old ≡ true → R.failed input.new ≡ true }
    ensures cause { IfErr result (λ error.
        error ≡ ReadPbmError.ReadFault → R.failed input.new ≡ true) }
{
    let mut count = ReadCount::none();
    let (width, height) = read_header(input, &mut count)?;
    let mut page = Bitmap::blank(alloc, width, height)?;
    read_rows(input, &mut page, &mut count)?;
    Ok(page)
}
