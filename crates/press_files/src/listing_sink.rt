//! The sink that lists sheets as they come.
ghost use Rattle.std.specs.Prelude.{◌≡◌, ℕ, List, Option, ◌++◌, ◌∷◌, [], true, false, length, option_map, IfErr, OnOk, OnErr};
ghost use Rattle.std.specs.Option.{ForSome};
ghost use Rattle.press_sink.specs.Sending.{sheets_in};
ghost use Rattle.press_files.specs.Listed.{delivery_of, last_of};
ghost use Rattle.press_files.specs.Listing.{HasListed, lines_from, sheet_lines};

use crate::lent::Loan;
use crate::listed_sheet::ListedSheet;
use crate::listing::list_sheet;
use crate::taken::Taken;
use press_bits::Sheet;
use press_devices::{WriteDevice, write_flushed};
use press_sink::{SheetSink, SinkError};
use std::marker::{Brand, PhantomData};

/// A writer that is lent, what it held before its listing, and whether sums are listed. It stands in proofs alone; that of a call says what the writer held.
pub trait Unlisted: Loan {
    ghost use Rattle.std.specs.Prelude.{Bool, List, Option, ℕ};

    ghost begun: { Option (List ℕ) };

    ghost sums: { Bool };
}

impl Unlisted for Brand {
    ghost use Rattle.std.specs.Prelude.{None, false};

    ghost begun = { None };

    ghost sums = { false };
}

/// A sheet sink that writes the lines of each sheet when it takes it. Of the sheets it keeps what the listing told of the last one, which
/// may come once more, and how many there were. Where a write failed it goes on to take sheets, and writes nothing more. It has no faults.
#[derive(Drop)]
pub struct ListingSink<W: WriteDevice + Drop, D: Unlisted> {
    out: W,
    /// Whether the digest of each side is listed.
    sums: bool,
    /// How many sheets it took.
    count: usize,
    last: Option<ListedSheet>,
    /// Whether all lines were written so far.
    written: bool,
    taken: Taken,
    of: PhantomData<D>,
    ghost lists: { ∥ HasListed written D.begun (W.contents out)
        (lines_from D.sums 1 (sheets_in taken)) ∥₁ },
    ghost sums_listed: { sums ≡ D.sums },
    ghost sums_kept: { ForSome last (λ one. one.sums ≡ D.sums) },
    ghost counted: { count ≡ length taken },
    ghost kept: { ∥ option_map delivery_of last ≡ last_of taken ∥₁ },
    ghost cause: { written ≡ false → W.failed out ≡ true },
}

/// A listing that came to its end: its writer, and whether all was written.
#[derive(Drop)]
pub struct EndedListing<W> {
    pub out: W,
    pub written: bool,
}

impl<W: WriteDevice + Drop, D: Unlisted> ListingSink<W, D> {
    /// A sink that took nothing yet.
    pub fn new(out: W, sums: bool) -> Self
        requires begun { W.contents out ≡ D.begun }
        requires sums { sums ≡ D.sums }
        ensures { result.taken ≡ [] }
    {
        ListingSink {
            out,
            sums,
            count: 0,
            last: None,
            written: true,
            taken: Taken::none(),
            of: PhantomData,
        }
    }

    /// Writes the replies behind the lines, and flushes.
    pub fn finish(self, replies: &[u8]) -> EndedListing<W>
        ensures lists { ∥ HasListed result.written D.begun (W.contents result.out)
            (lines_from D.sums 1 (sheets_in self.taken) ++ replies.now) ∥₁ }
        ensures flushed { result.written ≡ true → W.waiting result.out ≡ false }
        ensures cause { result.written ≡ false → W.failed result.out ≡ true }
    {
        let ListingSink {
            mut out,
            written,
            ..
        } = self;
        if !written {
            return EndedListing { out, written };
        }
        let written = write_flushed(&mut out, replies).is_ok();
        EndedListing { out, written }
    }

    /// Lists a sheet, and keeps what is told of it.
    fn list(&mut self, listed: ListedSheet, sheet: &Sheet) -> Result<(), SinkError>
        requires sheet { listed.sheet.value ≡ sheet.now }
        requires sums { listed.sums ≡ D.sums }
        ensures ok { OnOk result (self.new.taken ≡ self.old.taken ++ delivery_of listed ∷ []) }
        ensures err { OnErr result (self.new.taken ≡ self.old.taken) }
        ensures memory { IfErr result (λ error. error ≡ SinkError.NoMemory) }
    {
        let Some(number) = self.count.checked_add(1) else {
            return Err(SinkError::NoMemory);
        };
        self.written = list_more(&mut self.out, self.written, number, &listed);
        self.taken.add(listed.tag, sheet);
        self.count = number;
        self.last = Some(listed);
        Ok(())
    }
}

/// Writes the lines of a sheet, unless a write failed before: whether all lines are written now.
fn list_more<W: WriteDevice>(out: &mut W, written: bool, number: usize, sheet: &ListedSheet) -> bool
    ensures lists { (old : Option (List ℕ)) (bytes : List ℕ)
        → HasListed written old (W.contents out.old) bytes
        → HasListed result old (W.contents out.new)
        (bytes ++ sheet_lines sheet.now.sums number sheet.now.sheet.value) }
    ensures cause { result ≡ false → (written ≡ false → W.failed out.old ≡ true)
        → W.failed out.new ≡ true }
{
    if !written {
        return written;
    }
    list_sheet(out, number, sheet).is_ok()
}

impl<W: WriteDevice + Drop, D: Unlisted> SheetSink for ListingSink<W, D> {
    ghost use Rattle.std.specs.Prelude.{Some};

    ghost told = { λ sink. record { delivered = Some sink.taken; faults = 0 } };

    fn faults(&self) -> u64 {
        0
    }

    fn deliver(&mut self, tag: u64, sheet: &Sheet) -> Result<(), SinkError> {
        self.list(ListedSheet::of(tag, sheet, self.sums), sheet)
    }

    fn deliver_again(&mut self, tag: u64, sheet: &Sheet) -> Result<(), SinkError> {
        let Some(last) = &self.last else {
            return self.deliver(tag, sheet);
        };
        let again = last.again(sheet);
        self.list(again, sheet)
    }
}
