//! The sheets that a sink took, of which clauses alone know.
use press_bits::Sheet;
use std::marker::Model;
use std::snapshot::Snapshot;

/// The sheets before the one that was taken last, and that one with its tag.
#[derive(Drop)]
#[cycle(taken)]
struct Last {
    before: Snapshot<Taken>,
    tag: Snapshot<u64>,
    sheet: Snapshot<Sheet>,
}

/// Sheets that were taken, each under its tag, in order. Nothing of them is kept: contracts alone see them.
#[derive(Drop)]
#[cycle(taken)]
pub struct Taken {
    last: Option<Last>,
}

impl Model for Taken {
    ghost use Rattle.std.specs.Prelude.{List, [], ◌∷◌, ◌++◌, length};
    ghost use Rattle.std.specs.Option.{option_map_or};
    ghost use Rattle.press_sink.specs.declared.delivery.Delivery.{Delivery};
    ghost use Rattle.press_files.specs.Files.{delivery_code};
    ghost use Rattle.std.specs.Coded.{coded_list};

    ghost Value = { List Delivery };

    ghost coded = { coded_list delivery_code };

    ghost view = { λ taken. option_map_or (λ last. last.before.value
        ++ (record { tag = last.tag.value; sheet = last.sheet.value }) ∷ []) taken.last [] };

    ghost size = { length };
}

impl Taken {
    ghost use Rattle.std.specs.Prelude.{◌≡◌, ◌++◌, ◌∷◌, []};

    /// No sheet.
    pub fn none() -> Self
        ensures { result ≡ [] }
    {
        Taken { last: None }
    }

    /// One sheet more.
    pub fn add(&mut self, tag: u64, sheet: &Sheet)
        ensures { self.new ≡ self.old ++ (record { tag = tag; sheet = sheet.now }) ∷ [] }
    {
        self.last = Some(Last {
            before: Snapshot::of(self),
            tag: Snapshot::of(&tag),
            sheet: Snapshot::of(sheet),
        });
    }
}
