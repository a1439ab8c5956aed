//! A folder sink that tells the sheets that it took.
ghost use Rattle.std.specs.Prelude.{◌≡◌, ◌≢◌, ◌+◌, true, false, Some, None, []};
ghost use Rattle.press_sink.specs.Kept.{name_parts, next_number, file_faults, outputs_of};
ghost use Rattle.press_sink.specs.Outputs.{MadeOutput};
ghost use Rattle.press_sink.specs.Sending.{sheets_in};
ghost use Rattle.press_sink.specs.Template.{NameParts};
ghost use Rattle.press_files.specs.Files.{MakesSheets, files_told};
ghost use Rattle.press_files.specs.Folders.{KeepsFolder, folder};

use crate::taken::Taken;
use press_bits::Sheet;
use press_sink::{FolderSink, NamedOutputs, SheetSink, SinkError};
use std::marker::{Brand, PhantomData};

/// A folder: the template by which its outputs are named, what was made before, and whether bytes of outputs waited before. It stands in
/// proofs alone; that of a call says which it is.
pub trait Folder {
    ghost use Rattle.std.specs.Prelude.{Bool, List, Option};

    ghost parts: { NameParts };

    ghost begun: { Option (List MadeOutput) };

    ghost waits: { Bool };
}

impl Folder for Brand {
    ghost parts = { record { front = []; back = [] } };

    ghost begun = { None };

    ghost waits = { false };
}

/// A folder sink up to its first fault, after which it takes no sheet more. It tells the sheets that it took.
#[derive(Drop)]
pub struct ToldFolder<O: NamedOutputs, D: Folder> {
    sink: FolderSink<O>,
    taken: Taken,
    faults: u64,
    of: PhantomData<D>,
    ghost keeps: { ∥ KeepsFolder D.parts D.begun (sheets_in taken) faults (folder (name_parts sink)
        (next_number sink) (file_faults sink) (O.made (outputs_of sink))) ∥₁ },
    ghost cause: { faults ≢ 0 → O.failed (outputs_of sink) ≡ true },
    ghost through: { faults ≡ 0 → O.waiting (outputs_of sink) ≡ D.waits },
}

impl<O: NamedOutputs + Drop, D: Folder> ToldFolder<O, D> {
    /// A folder sink that took nothing yet.
    pub fn new(sink: FolderSink<O>) -> Self
        requires names { name_parts sink ≡ D.parts }
        requires begun { O.made (outputs_of sink) ≡ D.begun }
        requires waits { O.waiting (outputs_of sink) ≡ D.waits }
        requires first { next_number sink ≡ 1 }
        requires faults { file_faults sink ≡ 0 }
        ensures taken { result.taken ≡ [] }
        ensures sound { result.faults ≡ 0 }
    {
        ToldFolder {
            sink,
            taken: Taken::none(),
            faults: 0,
            of: PhantomData,
        }
    }

    /// Where its outputs were made.
    pub fn into_outputs(self) -> O
        ensures makes { ∥ MakesSheets D.parts (sheets_in self.taken) self.faults
            D.begun (O.made result) ∥₁ }
        ensures cause { self.faults ≢ 0 → O.failed result ≡ true }
        ensures through { self.faults ≡ 0 → O.waiting result ≡ D.waits }
    {
        let ToldFolder { sink, .. } = self;
        sink.into_outputs()
    }
}

impl<O: NamedOutputs + Drop, D: Folder> SheetSink for ToldFolder<O, D> {
    ghost told = { λ folder. files_told folder.taken folder.faults };

    fn faults(&self) -> u64 {
        self.faults
    }

    fn deliver(&mut self, tag: u64, sheet: &Sheet) -> Result<(), SinkError> {
        if self.faults > 0 {
            self.faults += 1;
            return Err(SinkError::SinkFault);
        }
        match self.sink.deliver(tag, sheet) {
            Ok(()) => {
                self.taken.add(tag, sheet);
                Ok(())
            }
            Err(SinkError::SinkFault) => {
                self.faults += 1;
                Err(SinkError::SinkFault)
            }
            Err(SinkError::NoMemory) => Err(SinkError::NoMemory),
        }
    }
}
