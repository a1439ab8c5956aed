//! The listings of streams and of presses.
ghost use Rattle.std.specs.Prelude.{◌≡◌, ◌≤◌, ◌++◌, true, false, None, IfSome, OnErr, OnOk, IsErrOf};
ghost use Rattle.press_files.specs.Causes.{failures};
ghost use Rattle.press_files.specs.Change.{around};
ghost use Rattle.press_files.specs.Ends.{ListsItAll, PrintingList};
ghost use Rattle.press_devices.specs.Reading.{ReadFails};
ghost use Rattle.press_devices.specs.Writing.{Writes};
ghost use Rattle.press_files.specs.Listing.{line_end, measured_line, measures_text, sheet_lines, ListsBy, ListsPrinted, PrintsListing};
ghost use Rattle.press_files.specs.EntryListing.{entry_mark, entry_measured_line, entry_sheet_lines, entry_lines, entry_listing};
ghost use Rattle.press_files.specs.EntryKept.{entry_deliveries_of};
ghost use Rattle.press_files.specs.EntrySheets.{kept, lists_sums};

use crate::around::Around;
use crate::devices::{Devices, Platform};
use crate::digest::digits_of;
use crate::entry_sheets::{EntrySheet, EntrySheets};
use crate::held_replies::HeldReplies;
use crate::lent::Lent;
use crate::listed_sheet::ListedSheet;
use crate::listing_sink::{ListingSink, Unlisted};
use crate::measures::Measures;
use crate::stream::{print_behind, told_status};
use itoa::Buffer;
use press_devices::{NO_OUTPUT, ReadDevice, Teller, WriteDevice, report, write_pieces};
use press_sink::NamedOutputs;
use press_stream::{Job, JobError};
use std::alloc::Global;
use std::io;
use std::marker::Brand;

/// Prints the stream of these bytes and of what a reader has behind them, and lists its sheets: a line for each side, and then the
/// replies. In the line `sheet 1 front 2550x3300 black 6` stand the number of the sheet from 1, `front` or `back`, width and height in
/// dots, and how many dots are black. A line is written when its sheet comes, and the replies are held until the end.
/// After a fault the sheets before it are listed, and the fault stands on standard error. The answer is the status: 0, or 1 after a fault.
pub fn print_list<R: ReadDevice, P: Platform>(
    alloc: Global,
    front: &[u8],
    reader: &mut R,
    devices: &mut Devices<P>,
) -> u8
    ensures status { result ≤ 1 }
    ensures lists { ⟦<Devices<P> as Around<R>>⟧.holds (ListsItAll false front.now)
        result reader.old reader.new devices.old devices.new }
    ensures flushed { result ≡ 0 → P.Out.waiting devices.new.out ≡ false }
    ensures inputs { devices.new.inputs ≡ devices.old.inputs }
    ensures outputs { devices.new.outputs ≡ devices.old.outputs }
    ensures printed { ⟦<Devices<P> as Around<R>>⟧.holds (PrintingList false front.now)
        result reader.old reader.new devices.old devices.new }
{
    let Devices { out, err, .. } = devices;
    let (_, status) = list_by::<R, P::Out, P::Err, Brand>(alloc, front, false, reader, out, err);
    status
}

/// Does the same, with the SHA-256 of each side behind its line: of the P4 file that `print` makes of it, as in
/// `sheet 1 front 2550x3300 black 6 sha256 ..`.
pub fn print_sums<R: ReadDevice, P: Platform>(
    alloc: Global,
    front: &[u8],
    reader: &mut R,
    devices: &mut Devices<P>,
) -> u8
    ensures status { result ≤ 1 }
    ensures lists { ⟦<Devices<P> as Around<R>>⟧.holds (ListsItAll true front.now)
        result reader.old reader.new devices.old devices.new }
    ensures flushed { result ≡ 0 → P.Out.waiting devices.new.out ≡ false }
    ensures inputs { devices.new.inputs ≡ devices.old.inputs }
    ensures outputs { devices.new.outputs ≡ devices.old.outputs }
    ensures printed { ⟦<Devices<P> as Around<R>>⟧.holds (PrintingList true front.now)
        result reader.old reader.new devices.old devices.new }
{
    let Devices { out, err, .. } = devices;
    let (_, status) = list_by::<R, P::Out, P::Err, Brand>(alloc, front, true, reader, out, err);
    status
}

/// Prints a stream and lists its sheets, with sums or without, to a writer that is lent, and goes back, with the status. The call's proof says
/// which it is.
fn list_by<'r, R: ReadDevice, W: WriteDevice, E: Teller, D: Unlisted>(
    alloc: Global,
    front: &[u8],
    sums: bool,
    reader: &mut R,
    out: &'r mut W,
    err: &mut E,
) -> (&'r mut W, u8)
    requires name { out.ghost_name ≡ D.name }
    requires begun { W.contents out.old ≡ D.begun }
    requires sums { sums ≡ D.sums }
    ensures same { result.0.ghost_name ≡ out.entry.ghost_name }
    ensures status { result.1 ≤ 1 }
    ensures lists { result.1 ≡ 0 → IfSome (R.remaining reader.old) (λ bytes.
        ListsBy D.sums (front.now ++ bytes) D.begun (W.contents result.0.now)) }
    ensures flushed { result.1 ≡ 0 → W.waiting result.0.now ≡ false }
    ensures printed { PrintsListing D.sums front.now result.1
        (around (failures (ReadFails (R.failed reader.new) (R.reads reader.new)) ⊥
        (W.failed result.0.now ≡ true) ⊥) (E.said err.old) (E.said err.new)
        (R.remaining reader.old) (R.remaining reader.new)
        D.begun (W.contents result.0.now) None None) }
{
    let (out, stream) = list_lent::<R, W, D>(alloc, front, reader, out, sums);
    let status = told_status(&stream.printed, err);
    if stream.written {
        return (out, status);
    }
    (out, report(&NO_OUTPUT, err))
}

/// A stream that was printed and listed: how it ended, and whether its listing was written.
#[derive(Drop)]
struct ListedStream {
    printed: Result<Job, JobError>,
    written: bool,
}

/// Prints such a stream, and lists what goes out of it to a writer that is lent, and goes back. The call's proof says what it held.
fn list_lent<'r, R: ReadDevice, W: WriteDevice, D: Unlisted>(
    alloc: Global,
    front: &[u8],
    reader: &mut R,
    out: &'r mut W,
    sums: bool,
) -> (&'r mut W, ListedStream)
    requires name { out.ghost_name ≡ D.name }
    requires begun { W.contents out.old ≡ D.begun }
    requires sums { sums ≡ D.sums }
    ensures same { result.0.ghost_name ≡ out.entry.ghost_name }
    ensures lists { ListsPrinted D.sums front.now result.1.printed result.1.written
        (R.remaining reader.old) (R.remaining reader.new) D.begun (W.contents result.0.now) }
    ensures flushed { result.1.written ≡ true → W.waiting result.0.now ≡ false }
    ensures reads { IsErrOf result.1.printed JobError.ReadFault
        → ReadFails (R.failed reader.new) (R.reads reader.new) }
    ensures writes { result.1.written ≡ false → W.failed result.0.now ≡ true }
{
    let lent: Lent<'r, W, D> = Lent::new(out);
    let (lent, stream) = list_stream::<R, Lent<'r, W, D>, D>(alloc, front, reader, lent, sums);
    (lent.into_inner(), stream)
}

/// Prints such a stream, and lists what goes out of it, whatever fault it has. The call's proof says what the writer held.
fn list_stream<R: ReadDevice, W: WriteDevice + Drop, D: Unlisted>(
    alloc: Global,
    front: &[u8],
    reader: &mut R,
    out: W,
    sums: bool,
) -> (W, ListedStream)
    requires begun { W.contents out ≡ D.begun }
    requires sums { sums ≡ D.sums }
    ensures lists { ListsPrinted D.sums front.now result.1.printed result.1.written
        (R.remaining reader.old) (R.remaining reader.new) D.begun (W.contents result.0) }
    ensures flushed { result.1.written ≡ true → W.waiting result.0 ≡ false }
    ensures reads { IsErrOf result.1.printed JobError.ReadFault
        → ReadFails (R.failed reader.new) (R.reads reader.new) }
    ensures writes { result.1.written ≡ false → W.failed result.0 ≡ true }
{
    let mut sheets: ListingSink<W, D> = ListingSink::new(out, sums);
    let mut replies = HeldReplies::new(alloc);
    let printed = print_behind(alloc, front, reader, 0, &mut sheets, &mut replies);
    let ended = sheets.finish(replies.bytes());
    let stream = ListedStream {
        printed,
        written: ended.written,
    };
    (ended.out, stream)
}

/// Lists the sides of one sheet.
pub(crate) fn list_sheet<W: WriteDevice>(
    out: &mut W,
    number: usize,
    sheet: &ListedSheet,
) -> io::Result<()>
    ensures written { Writes result (W.contents out.old) (W.contents out.new)
        (sheet_lines sheet.now.sums number sheet.now.sheet.value) }
    ensures cause { OnErr result (W.failed out.new ≡ true) }
{
    list_side(out, number, "front", &sheet.front)?;
    match &sheet.back {
        Some(back) => list_side(out, number, "back", back),
        None => Ok(()),
    }
}

/// Writes the line of one side.
#[tactic(auto, unfolding(crate::specs::Listing::measured_line))]
fn list_side<W: WriteDevice>(
    out: &mut W,
    number: usize,
    side: &str,
    measures: &Measures,
) -> io::Result<()>
    ensures written { Writes result (W.contents out.old) (W.contents out.new)
        (measured_line number side.now measures.now) }
    ensures cause { OnErr result (W.failed out.new ≡ true) }
{
    list_measures(out, number, side, measures)?;
    end_line(out, measures.digest)
}

/// Writes the line of one side up to its digest.
#[tactic(auto, unfolding(crate::specs::Listing::measures_text))]
fn list_measures<W: WriteDevice>(
    out: &mut W,
    number: usize,
    side: &str,
    measures: &Measures,
) -> io::Result<()>
    ensures written { Writes result (W.contents out.old) (W.contents out.new)
        (measures_text number side.now measures.now) }
    ensures cause { OnErr result (W.failed out.new ≡ true) }
{
    write_pieces(
        out,
        &[
            b"sheet ",
            Buffer::new().format(number).as_bytes(),
            b" ",
            side.as_bytes(),
            b" ",
            Buffer::new().format(measures.width).as_bytes(),
            b"x",
            Buffer::new().format(measures.height).as_bytes(),
            b" black ",
            Buffer::new().format(measures.black).as_bytes(),
        ],
    )
}

/// Ends the line of a side, with its digest where there is one.
fn end_line<W: WriteDevice>(out: &mut W, digest: Option<[u8; 32]>) -> io::Result<()>
    ensures written { Writes result (W.contents out.old) (W.contents out.new) (line_end digest) }
    ensures cause { OnErr result (W.failed out.new ≡ true) }
{
    match digest {
        Some(digest) => write_pieces(out, &[b" sha256 ", digits_of(digest).as_slice(), b"\n"]),
        None => write_pieces(out, &[b"\n"]),
    }
}

/// Lists the sides of the sheets that a press delivered, in the order of delivery: each line as `print --list` has it, behind the
/// ID of the entry, and with the number of the sheet among those of the entry.
///
/// # Errors
///
/// Where a write or the flush failed. A prefix of the listing is written then.
pub fn list_delivered<W: WriteDevice>(out: &mut W, sheets: &EntrySheets) -> io::Result<()>
    ensures written { Writes result (W.contents out.old) (W.contents out.new)
        (entry_listing (lists_sums sheets.now) (entry_deliveries_of (kept sheets.now))) }
    ensures flushed { OnOk result (W.waiting out.new ≡ false) }
    ensures cause { OnErr result (W.failed out.new ≡ true) }
{
    list_entries(out, sheets.sheets())
}

/// Lists the sides of sheets of entries.
fn list_entries<W: WriteDevice>(out: &mut W, sheets: &[EntrySheet]) -> io::Result<()>
    ensures written { Writes result (W.contents out.old) (W.contents out.new)
        (entry_lines sheets.now) }
    ensures flushed { OnOk result (W.waiting out.new ≡ false) }
    ensures cause { OnErr result (W.failed out.new ≡ true) }
{
    for sheet in sheets {
        list_entry_sheet(out, sheet)?;
    }
    out.flush_all()
}

/// Lists the sides of one sheet of an entry.
fn list_entry_sheet<W: WriteDevice>(out: &mut W, sheet: &EntrySheet) -> io::Result<()>
    ensures written { Writes result (W.contents out.old) (W.contents out.new)
        (entry_sheet_lines sheet.now.sheet.sums sheet.now.sheet.tag sheet.now.number
        sheet.now.sheet.sheet.value) }
    ensures cause { OnErr result (W.failed out.new ≡ true) }
{
    let entry = sheet.sheet.tag;
    list_entry_side(out, entry, sheet.number, "front", &sheet.sheet.front)?;
    match &sheet.sheet.back {
        Some(back) => list_entry_side(out, entry, sheet.number, "back", back),
        None => Ok(()),
    }
}

/// Writes the line of one side of a sheet of an entry.
fn list_entry_side<W: WriteDevice>(
    out: &mut W,
    entry: u64,
    number: usize,
    side: &str,
    measures: &Measures,
) -> io::Result<()>
    ensures written { Writes result (W.contents out.old) (W.contents out.new)
        (entry_measured_line entry number side.now measures.now) }
    ensures cause { OnErr result (W.failed out.new ≡ true) }
{
    write_entry(out, entry)?;
    list_side(out, number, side, measures)
}

/// Writes the ID of an entry, and a space.
fn write_entry<W: WriteDevice>(out: &mut W, entry: u64) -> io::Result<()>
    ensures written { Writes result (W.contents out.old) (W.contents out.new) (entry_mark entry) }
    ensures cause { OnErr result (W.failed out.new ≡ true) }
{
    write_pieces(out, &[b"Q", Buffer::new().format(entry).as_bytes(), b" "])
}
