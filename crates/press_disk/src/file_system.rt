//! Files by their names, as far as outputs are made of them (this profile).
ghost use Rattle.std.specs.Prelude.{◌≡◌, IfOk, IfSome, IsSome, OnOk, OnErr};
ghost use Rattle.std.specs.String.{string_bytes};
ghost use Rattle.press_devices.specs.Failing.{failed_with};
ghost use Rattle.press_disk.specs.Disk.{Between, IsPlaceOf, KeepsAll, KeepsBut, MakesFile, Removes, Renames, file_found, file_of};

use crate::file_number::FileNumber;
use std::alloc::Global;
use std::io::{self, Write};

/// What a name leads to.
#[derive(Clone, Copy, Debug)]
pub struct Found {
    pub number: FileNumber,
    /// Whether it is a file, and no folder, pipe or device.
    pub is_file: bool,
    /// Its type and its permissions, as the system has them.
    pub mode: u32,
}

/// A file that is open.
pub trait NumberedFile {
    ghost use Rattle.std.specs.Prelude.{Option};
    ghost use Rattle.press_disk.specs.declared.file_number.FileNumber.{FileNumber};

    /// Its number, where that is known.
    ghost number: { Self → Option FileNumber };

    /// What is open.
    ///
    /// # Errors
    ///
    /// Where that cannot be told.
    fn found(&self) -> io::Result<Found>
        ensures { IfOk result (λ found. IfSome (number self.now) (λ own. found.number ≡ own)) };
}

/// The files that names lead to.
pub trait FileSystem {
    ghost use Rattle.std.specs.Prelude.{Bool, List, Option, ℕ};
    ghost use Rattle.press_disk.specs.Disk.{Disk};

    /// Which files there are, and what they hold, where that is known.
    ghost disk: { Self → Option Disk };

    /// Whether taking a name away failed so far; true also where that is not known.
    ghost failed: { Self → Bool };

    /// That it may be so that nobody can tell what this name leads to.
    ghost untold: { Self → List ℕ → Type 0 };

    /// A file that is open, and is written.
    type File: Write + NumberedFile + Drop;

    /// What a name leads to, if there is something.
    ///
    /// # Errors
    ///
    /// Where that cannot be told.
    fn find(&self, name: &str) -> io::Result<Option<Found>>
        ensures found { IfOk result (λ found. IfSome (disk self.now) (λ disk.
            file_of disk name.now ≡ file_found found)) }
        ensures untold { OnErr result (untold self.now name.now) };

    /// Puts a name of the same place, which is no link, into `resolved`.
    ///
    /// # Errors
    ///
    /// Where that cannot be told, or there is no memory for it.
    fn resolve(&self, alloc: Global, name: &str, resolved: &mut String) -> io::Result<()>
        ensures { OnOk result (IfSome (disk self.now) (λ disk.
            IsPlaceOf disk name.now (disk.place_of (string_bytes resolved.new)))) };

    /// Opens what a name leads to, so that it is written; behind what it has where `at_end` is so. Nothing changes there.
    ///
    /// # Errors
    ///
    /// Where it may not be written.
    fn open(&self, name: &str, at_end: bool) -> io::Result<Self::File>
        ensures { IfOk result (λ file. IfSome (disk self.now) (λ disk.
            Self.File.NumberedFile.number file ≡ file_of disk name.now)) };

    /// Makes a file under a name, which holds nothing, with these permissions less those that the system keeps from new files. One that
    /// is left of an earlier run may be taken away before; none is made where there is another one.
    ///
    /// # Errors
    ///
    /// Where it cannot be made.
    fn make(&mut self, name: &str, mode: u32) -> io::Result<Option<Self::File>>
        ensures made { IfOk result (λ made. IsSome made
            → Between (disk self.old) (disk self.new) (MakesFile name.now)) }
        ensures number { IfOk result (λ made. IfSome made (λ file. IfSome (disk self.new)
            (λ disk. Self.File.NumberedFile.number file ≡ file_of disk name.now))) }
        ensures others { Between (disk self.old) (disk self.new)
            (λ old new. KeepsBut (IsPlaceOf old name.now) old new) };

    /// Gives a file these permissions, where that is allowed.
    fn permit(&self, file: &Self::File, mode: u32);

    /// Has a file take another name.
    ///
    /// # Errors
    ///
    /// Where it cannot; nothing changes then.
    fn rename(&mut self, from: &str, to: &str) -> io::Result<()>
        ensures ok { OnOk result (Between (disk self.old) (disk self.new)
            (Renames from.now to.now)) }
        ensures err { OnErr result (Between (disk self.old) (disk self.new) KeepsAll) };

    /// Takes the name of a file away.
    ///
    /// # Errors
    ///
    /// Where that failed; nothing changes then.
    fn remove(&mut self, name: &str) -> io::Result<()>
        ensures ok { OnOk result (Between (disk self.old) (disk self.new) (Removes name.now)) }
        ensures err { OnErr result (Between (disk self.old) (disk self.new) KeepsAll) }
        ensures failed { failed self.new ≡ failed_with (failed self.old) result };
}
