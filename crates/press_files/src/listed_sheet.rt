//! What a listing tells of a sheet.
ghost use Rattle.std.specs.Prelude.{◌≡◌, option_map};
ghost use Rattle.press_sink.specs.Template.{side_count};
ghost use Rattle.press_files.specs.Measured.{measures_by};

use crate::measures::Measures;
use press_bits::Sheet;
use std::snapshot::Snapshot;

/// What the listing tells of a sheet, with sums or without, and the tag under which it was delivered. Of the sheet itself clauses alone
/// know: its dots are not kept.
#[derive(Drop)]
pub struct ListedSheet {
    pub tag: u64,
    pub sums: bool,
    pub front: Measures,
    pub back: Option<Measures>,
    pub sheet: Snapshot<Sheet>,
    pub ghost front_measured: { front ≡ measures_by sums sheet.value.front },
    pub ghost back_measured: { back ≡ option_map (measures_by sums) sheet.value.back },
}

impl ListedSheet {
    ghost use Rattle.press_files.specs.Listed.{delivery_of};

    /// What the listing tells of a sheet that is delivered under a tag.
    pub fn of(tag: u64, sheet: &Sheet, sums: bool) -> Self
        ensures delivered { delivery_of result ≡ record { tag = tag; sheet = sheet.now } }
        ensures sums { result.sums ≡ sums }
    {
        let back = match &sheet.back {
            Some(back) => Some(Measures::of(back, sums)),
            None => None,
        };
        ListedSheet {
            tag,
            sums,
            front: Measures::of(&sheet.front, sums),
            back,
            sheet: Snapshot::of(sheet),
        }
    }

    /// How many sides the sheet has.
    pub fn sides(&self) -> u64
        ensures { result ≡ side_count self.now.sheet.value }
    {
        if self.back.is_some() { 2 } else { 1 }
    }

    /// What the listing tells of the same sheet once more: its dots are not counted again.
    pub fn again(&self, sheet: &Sheet) -> Self
        requires { self.now.sheet.value ≡ sheet.now }
        ensures delivered { delivery_of result ≡ delivery_of self.now }
        ensures sums { result.sums ≡ self.now.sums }
    {
        ListedSheet {
            tag: self.tag,
            sums: self.sums,
            front: self.front,
            back: self.back,
            sheet: Snapshot::of(sheet),
        }
    }
}
