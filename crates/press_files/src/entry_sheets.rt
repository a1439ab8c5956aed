//! The sheets of the entries of a press, of which the listing keeps what it tells.
ghost use Rattle.std.specs.Prelude.{◌≡◌, ℕ, [], map};
ghost use Rattle.std.specs.List.{All};
ghost use Rattle.press_files.specs.EntryKept.{ArePlaced, count_in, entries_of, entry_deliveries_of, numbers_of};
ghost use Rattle.press_files.specs.Numbering.{occurrences_of, numbers_after, sides_of};

use crate::listed_sheet::ListedSheet;
use indexmap::IndexMap;
use press_bits::Sheet;
use press_sink::{SheetSink, SinkError};
use std::alloc::{AllocError, Global};

/// What the listing tells of a sheet, its number among the sheets of its entry, and the number of its front among their sides; both
/// from 1.
#[derive(Drop)]
pub struct EntrySheet {
    pub number: usize,
    pub side: u64,
    pub sheet: ListedSheet,
}

/// How many sheets an entry delivered, and how many sides they have.
#[derive(Clone, Copy)]
pub struct EntryCount {
    pub sheets: usize,
    pub sides: u64,
}

/// A sheet sink that keeps of each sheet what the listing tells, with sums or without, in the order of delivery, and numbers the sheets and
/// the sides of each entry. It has no faults.
#[derive(Drop)]
pub struct EntrySheets {
    counts: IndexMap<u64, EntryCount>,
    sheets: Vec<EntrySheet>,
    /// Whether the digest of each side is listed.
    sums: bool,
    ghost numbered: { map (λ one. one.number) sheets.items
        ≡ numbers_after [] (map (λ one. one.sheet.tag) sheets.items) },
    ghost placed: { ArePlaced sheets.items },
    ghost counted: { (entry : ℕ) → (count_in entry counts.entries).sheets
        ≡ occurrences_of entry (map (λ one. one.sheet.tag) sheets.items) },
    ghost sided: { (entry : ℕ) → (count_in entry counts.entries).sides
        ≡ sides_of entry (entry_deliveries_of sheets.items) },
    ghost summed: { All (λ one. one.sheet.sums ≡ sums) sheets.items },
}

impl EntrySheets {
    ghost use Rattle.std.specs.Prelude.{◌+◌, ◌++◌, ◌∷◌, OnOk, OnErr};
    ghost use Rattle.press_sink.specs.SinkLog.{TookLast};
    ghost use Rattle.press_files.specs.EntrySheets.{kept, kept_log, lists_sums, HasRoom};
    ghost use Rattle.press_files.specs.Listed.{delivery_of};

    /// A sink that took nothing yet.
    pub fn new(alloc: Global, sums: bool) -> Self
        ensures kept { kept result ≡ [] }
        ensures sums { lists_sums result ≡ sums }
    {
        EntrySheets {
            counts: IndexMap::new(alloc),
            sheets: Vec::new(alloc),
            sums,
        }
    }

    /// What it kept of the sheets that it took, in the order of delivery.
    pub fn sheets(&self) -> &[EntrySheet]
        ensures sheets { result.now ≡ kept self.now }
        ensures numbers { numbers_of result.now ≡ numbers_after [] (entries_of result.now) }
        ensures placed { ArePlaced result.now }
        ensures sums { All (λ one. one.sheet.sums ≡ lists_sums self.now) result.now }
    {
        &self.sheets
    }

    /// What is counted of an entry.
    fn count(&self, entry: u64) -> EntryCount
        ensures sheets { result.sheets ≡ occurrences_of entry (entries_of (kept self.now)) }
        ensures sides { result.sides ≡ sides_of entry (entry_deliveries_of (kept self.now)) }
    {
        self.counts.get(&entry).copied().unwrap_or(EntryCount {
            sheets: 0,
            sides: 0,
        })
    }

    /// The number of the next side of an entry.
    pub(crate) fn next_side(&self, entry: u64) -> u64
        requires { HasRoom self.now }
        ensures { result ≡ sides_of entry (entry_deliveries_of (kept self.now)) + 1 }
    {
        self.count(entry).sides + 1
    }

    /// What the listing is to tell of a sheet.
    pub(crate) fn listed(&self, tag: u64, sheet: &Sheet) -> ListedSheet
        ensures delivered { delivery_of result ≡ record { tag = tag; sheet = sheet.now } }
        ensures sums { result.sums ≡ lists_sums self.now }
    {
        ListedSheet::of(tag, sheet, self.sums)
    }

    /// The same of a sheet that comes once more, of the last one that was kept.
    pub(crate) fn listed_again(&self, tag: u64, sheet: &Sheet) -> ListedSheet
        requires { TookLast (kept_log self.now) (record { tag = tag; sheet = sheet.now }) }
        ensures delivered { delivery_of result ≡ record { tag = tag; sheet = sheet.now } }
        ensures sums { result.sums ≡ lists_sums self.now }
    {
        match self.sheets.last() {
            Some(last) => last.sheet.again(sheet),
            None => self.listed(tag, sheet),
        }
    }

    /// Makes room for one sheet more.
    ///
    /// # Errors
    ///
    /// Where memory ran out.
    pub(crate) fn reserve(&mut self) -> Result<(), AllocError>
        ensures kept { kept self.new ≡ kept self.old }
        ensures sums { lists_sums self.new ≡ lists_sums self.old }
        ensures room { OnOk result (HasRoom self.new) }
    {
        self.counts.reserve(1)?;
        self.sheets.reserve(1)
    }

    /// Keeps what the listing tells of a sheet, under the next numbers of its entry.
    pub(crate) fn put(&mut self, sheet: ListedSheet)
        requires room { HasRoom self.old }
        requires sums { sheet.sums ≡ lists_sums self.old }
        ensures kept { entry_deliveries_of (kept self.new)
            ≡ entry_deliveries_of (kept self.old) ++ delivery_of sheet ∷ [] }
        ensures sums { lists_sums self.new ≡ lists_sums self.old }
    {
        let tag = sheet.tag;
        let before = self.count(tag);
        let count = EntryCount {
            sheets: before.sheets + 1,
            sides: before.sides + sheet.sides(),
        };
        let Ok(_) = self.counts.insert(tag, count) else {
            unreachable!()
        };
        let Ok(()) = self.sheets.push(EntrySheet {
            number: count.sheets,
            side: before.sides + 1,
            sheet,
        })
        else {
            unreachable!()
        };
    }

    /// Keeps it, where there is memory for it.
    fn keep(&mut self, sheet: ListedSheet) -> Result<(), AllocError>
        requires { sheet.sums ≡ lists_sums self.old }
        ensures ok { OnOk result (entry_deliveries_of (kept self.new)
            ≡ entry_deliveries_of (kept self.old) ++ delivery_of sheet ∷ []) }
        ensures err { OnErr result (kept self.new ≡ kept self.old) }
    {
        self.reserve()?;
        self.put(sheet);
        Ok(())
    }
}

impl SheetSink for EntrySheets {
    ghost use Rattle.press_files.specs.EntrySheets.{kept_log};

    ghost told = { kept_log };

    fn faults(&self) -> u64 {
        0
    }

    fn deliver(&mut self, tag: u64, sheet: &Sheet) -> Result<(), SinkError> {
        self.keep(self.listed(tag, sheet))
            .map_err(|_| SinkError::NoMemory)
    }

    fn deliver_again(&mut self, tag: u64, sheet: &Sheet) -> Result<(), SinkError> {
        self.keep(self.listed_again(tag, sheet))
            .map_err(|_| SinkError::NoMemory)
    }
}
