//! The files of a file system as named outputs (this profile).
ghost use Rattle.std.specs.Prelude.{◌≡◌, ◌≢◌, ◌||◌, ◌⊎◌, [], true, false, IfOk, IfSome, IsSome, OnOk, OnErr};
ghost use Rattle.std.specs.List.{Contains};
ghost use Rattle.press_devices.specs.Failing.{failed_with};
ghost use Rattle.press_devices.specs.Watching.{device_of, has_failed};
ghost use Rattle.press_disk.specs.Disk.{Between, IsPlaceOf, KeepsAll, file_of};
ghost use Rattle.press_disk.specs.Kept.{file_failed, file_in, file_waiting, name_of, part_of, spared_of, store_of, waits_in};
ghost use Rattle.press_disk.specs.Parts.{Dropping, HasPart, IsKept, IsPart, IsReady, IsUnspared, LeavesFiles, Notes, Placing};

use crate::file_number::FileNumber;
use crate::file_system::{FileSystem, Found, NumberedFile};
use crate::output_file::OutputFile;
use crate::stream_name::is_stream_name;
use press_devices::Watched;
use press_sink::NamedOutputs;
use std::alloc::{AllocError, Global};
use std::fmt::Write as _;
use std::io::{self, ErrorKind};
use std::mem;

/// How many bytes one write takes.
const BUFFER: usize = 4_096;

/// The longest name that Linux takes, in bytes.
const LONGEST_NAME: usize = 4_096;

/// How many bytes are added to the name of a folder for that of a file that is not whole.
const LONGEST_PART: usize = 32;

/// How many files that are not whole a folder has at most.
const MOST_PARTS: u32 = 1_000;

/// The permissions of a file that is new, less those that the system keeps from new files.
const NEW: u32 = 0o666;

/// Those that one file hands on to another: who may read, write and run it.
const HANDED_ON: u32 = 0o777;

/// The files of a file system, which are made by their names.
///
/// A file is made as `.press-1.part` in its folder, or with the next number that is free, and takes its name when it is whole; one that
/// is given up is removed. So what stood under the name before is there until then. A link is followed. What is no file, as a pipe, is
/// written where it stands; a file behind the name of an open stream, as `/dev/stdout`, too, behind what it has. A part that an earlier
/// run left is removed where its name is wanted, unless it is an input; this run holds its own.
#[derive(Drop)]
pub struct FileOutputs<S> {
    alloc: Global,
    store: S,
    /// The name of the file that was made last.
    name: String,
    /// Its name until it is whole; none where it is written where it stands.
    part: String,
    /// The buffer, while no file is open.
    buffer: Vec<u8>,
    /// The files that are not replaced.
    spared: Vec<FileNumber>,
    /// Whether making, writing or closing a file failed or was interrupted so far.
    failed: bool,
    /// Whether bytes of a file that was closed or given up never went out of the program.
    waiting: bool,
}

impl<S: FileSystem + Drop> FileOutputs<S> {
    /// Outputs that are files of this file system, of which none was made yet.
    ///
    /// # Errors
    ///
    /// Where there is no memory for the buffer and for names. Making a file takes none, but for a link's.
    pub fn new(alloc: Global, store: S) -> Result<Self, AllocError>
        ensures store { IfOk result (λ outputs. store_of outputs ≡ store) }
        ensures spared { IfOk result (λ outputs. spared_of outputs ≡ []) }
        ensures failed { IfOk result (λ outputs. file_failed outputs ≡ false) }
        ensures waiting { IfOk result (λ outputs. file_waiting outputs ≡ false) }
    {
        Ok(FileOutputs {
            alloc,
            store,
            name: String::with_capacity(alloc, LONGEST_NAME)?,
            part: String::with_capacity(alloc, LONGEST_NAME + LONGEST_PART)?,
            buffer: Vec::with_capacity(alloc, BUFFER)?,
            spared: Vec::new(alloc),
            failed: false,
            waiting: false,
        })
    }

    /// Opens the file of this name so that it can be written. An input is not opened.
    fn open(&mut self, name: &str) -> io::Result<S::File>
        ensures ready { IfOk result (λ file. IsReady name.now (part_of self.new)
            (spared_of self.old) (S.File.number file)
            (S.disk (store_of self.old)) (S.disk (store_of self.new))) }
        ensures named { OnOk result (part_of self.new ≢ [] → IfSome (S.disk (store_of self.old))
            (λ disk. IsPlaceOf disk name.now (disk.place_of (name_of self.new)))) }
        ensures leaves { Between (S.disk (store_of self.old)) (S.disk (store_of self.new))
            (LeavesFiles (spared_of self.old)) }
        ensures others { self.new ≡ record self.old {
          name = self.new.name;
          part = self.new.part;
          store = self.new.store;
        } }
    {
        self.part.clear();
        let Some(found) = self.store.find(name)? else {
            self.name.clear();
            self.name.push_str(name)?;
            return self.open_part(NEW);
        };
        let stays = found.is_file && is_stream_name(name);
        let older = self.open_older(name, found, stays)?;
        if stays || !found.is_file {
            return Ok(older);
        }
        self.replace(name, found)
    }

    /// Opens what stands under a name, of which this is told, and changes nothing there; where it stays, what is written stands behind it.
    /// What may not be written is not opened.
    fn open_older(&self, name: &str, found: Found, stays: bool) -> io::Result<S::File>
        ensures unspared { IfOk result (λ file. IsUnspared (spared_of self.now)
            (S.File.number file)) }
        ensures named { IfOk result (λ file. IfSome (S.disk (store_of self.now)) (λ disk.
            S.File.number file ≡ file_of disk name.now)) }
    {
        self.ask_spared(found.number)?;
        let older = self.store.open(name, stays)?;
        self.ask_spared(older.found()?.number)?;
        Ok(older)
    }

    /// Asks whether a file is one that is not replaced.
    fn ask_spared(&self, number: FileNumber) -> io::Result<()>
        ensures { OnOk result (¬ (Contains (spared_of self.now) number)) }
    {
        if self.spared.contains(&number) {
            return Err(io::Error::from(ErrorKind::AlreadyExists));
        }
        Ok(())
    }

    /// Opens a file that takes the place of the one of this name, of which this is told, with the same permissions.
    fn replace(&mut self, name: &str, found: Found) -> io::Result<S::File>
        ensures made { OnOk result (Between (S.disk (store_of self.old))
            (S.disk (store_of self.new)) (λ _ disk. HasPart (part_of self.new) disk)) }
        ensures part { OnOk result (IsPart (part_of self.new)) }
        ensures number { IfOk result (λ file. IfSome (S.disk (store_of self.new)) (λ disk.
            S.File.number file ≡ file_of disk (part_of self.new))) }
        ensures named { OnOk result (IfSome (S.disk (store_of self.old))
            (λ disk. IsPlaceOf disk name.now (disk.place_of (name_of self.new)))) }
        ensures leaves { Between (S.disk (store_of self.old)) (S.disk (store_of self.new))
            (LeavesFiles (spared_of self.old)) }
        ensures others { self.new ≡ record self.old {
          name = self.new.name;
          part = self.new.part;
          store = self.new.store;
        } }
    {
        self.store.resolve(self.alloc, name, &mut self.name)?;
        let file = self.open_part(found.mode & HANDED_ON)?;
        self.store.permit(&file, found.mode);
        Ok(file)
    }

    /// Opens a new file in the folder of the name, with these permissions.
    fn open_part(&mut self, mode: u32) -> io::Result<S::File>
        ensures made { OnOk result (Between (S.disk (store_of self.old))
            (S.disk (store_of self.new)) (λ _ disk. HasPart (part_of self.new) disk)) }
        ensures part { OnOk result (IsPart (part_of self.new)) }
        ensures number { IfOk result (λ file. IfSome (S.disk (store_of self.new)) (λ disk.
            S.File.number file ≡ file_of disk (part_of self.new))) }
        ensures leaves { Between (S.disk (store_of self.old)) (S.disk (store_of self.new))
            (LeavesFiles (spared_of self.old)) }
        ensures others { self.new ≡ record self.old {
          part = self.new.part;
          store = self.new.store;
        } }
    {
        for number in 1..=MOST_PARTS {
            self.name_part(number)?;
            if let Some(part) = self.make_part(mode)? {
                return Ok(part);
            }
        }
        Err(io::Error::from(ErrorKind::AlreadyExists))
    }

    /// Whether a file that is not replaced stands under the name of the part, or nobody can tell.
    fn has_input(&self) -> bool
        ensures { result ≡ false → IfSome (S.disk (store_of self.now)) (λ disk.
            IsUnspared (spared_of self.now) (file_of disk (part_of self.now))) }
    {
        match self.store.find(self.part.as_str()) {
            Ok(Some(found)) => self.spared.contains(&found.number),
            Ok(None) => false,
            Err(_) => true,
        }
    }

    /// Makes the part that is named, unless an input may stand there, or it is the output's own name.
    fn make_part(&mut self, mode: u32) -> io::Result<Option<S::File>>
        requires is_part { IsPart (part_of self.old) }
        ensures made { IfOk result (λ made. IsSome made → Between (S.disk (store_of self.old))
            (S.disk (store_of self.new)) (λ _ disk. HasPart (part_of self.old) disk)) }
        ensures number { IfOk result (λ made. IfSome made (λ file.
            IfSome (S.disk (store_of self.new)) (λ disk.
            S.File.number file ≡ file_of disk (part_of self.old)))) }
        ensures leaves { Between (S.disk (store_of self.old)) (S.disk (store_of self.new))
            (LeavesFiles (spared_of self.old)) }
        ensures others { self.new ≡ record self.old { store = self.new.store } }
    {
        if self.part.as_str() == self.name.as_str() || self.has_input() {
            return Ok(None);
        }
        self.store.make(self.part.as_str(), mode)
    }

    /// Takes the name of the part with this number.
    fn name_part(&mut self, number: u32) -> Result<(), AllocError>
        ensures part { OnOk result (IsPart (part_of self.new)) }
        ensures others { self.new ≡ record self.old { part = self.new.part } }
    {
        self.part.clear();
        if let Some((folder, _)) = self.name.as_str().rsplit_once('/') {
            self.part.push_str(folder)?;
            self.part.push('/')?;
        }
        write!(self.part, ".press-{number}.part")
    }

    /// Gives a file that is whole its name, unless an input stands there by now.
    fn place(&mut self) -> io::Result<()>
        ensures ok { OnOk result (Between (S.disk (store_of self.old)) (S.disk (store_of self.new))
            (Placing (part_of self.old) (name_of self.old) (spared_of self.old))) }
        ensures err { OnErr result (Between (S.disk (store_of self.old))
            (S.disk (store_of self.new)) KeepsAll) }
        ensures others { self.new ≡ record self.old { store = self.new.store } }
    {
        if self.part.is_empty() {
            return Ok(());
        }
        self.ask_name()?;
        self.store.rename(self.part.as_str(), self.name.as_str())
    }

    /// Asks whether what stands under the name is a file that is not replaced.
    fn ask_name(&self) -> io::Result<()>
        ensures { OnOk result (IfSome (S.disk (store_of self.now)) (λ disk.
            IsUnspared (spared_of self.now) (file_of disk (name_of self.now)))) }
    {
        match self.store.find(self.name.as_str())? {
            Some(found) => self.ask_spared(found.number),
            None => Ok(()),
        }
    }

    /// Removes a file that is not whole.
    fn remove(&mut self)
        ensures drops { Between (S.disk (store_of self.old)) (S.disk (store_of self.new))
            (Dropping (part_of self.old) (S.failed (store_of self.new) ≡ true)) }
        ensures others { self.new ≡ record self.old { store = self.new.store } }
    {
        if !self.part.is_empty() {
            let _ = self.store.remove(self.part.as_str());
        }
    }

    /// The number of the file that a name leads to; none where it is no file, or nobody can tell.
    fn input_number(&self, input: &str) -> Option<FileNumber>
        ensures { S.untold (store_of self.now) input.now
            ⊎ IfSome (S.disk (store_of self.now)) (λ disk. file_of disk input.now ≡ result) }
    {
        match self.store.find(input) {
            Ok(Some(found)) if found.is_file => Some(found.number),
            _ => None,
        }
    }

    /// Takes the buffer of a file that was written, which is closed, and whether bytes wait in it. Until then the file is held.
    fn take_back(&mut self, output: OutputFile<S::File>)
        ensures waiting { file_waiting self.new ≡ (file_waiting self.old || waits_in output) }
        ensures others { self.new ≡ record self.old {
          waiting = self.new.waiting;
          buffer = self.new.buffer;
        } }
    {
        self.waiting |= output.waits();
        let (_file, buffer) = output.into_parts();
        self.buffer = buffer;
    }
}

impl<S: FileSystem + Drop> NamedOutputs for FileOutputs<S> {
    ghost use Rattle.std.specs.Prelude.{None};
    ghost use Rattle.press_disk.specs.Kept.{file_failed, file_waiting};

    ghost made = { λ _. None };

    ghost failed = { file_failed };

    ghost waiting = { file_waiting };

    type Output = Watched<OutputFile<S::File>>;

    /// Notes an input, where its name leads to a file. No file changes.
    fn spare(&mut self, input: &str) -> Result<(), AllocError>
        ensures failed { file_failed self.new ≡ file_failed self.old }
        ensures waiting { file_waiting self.new ≡ file_waiting self.old }
        ensures files { store_of self.new ≡ store_of self.old }
        ensures kept { IsKept (spared_of self.old) (spared_of self.new) }
        ensures noted { OnOk result (S.untold (store_of self.old) input.now
            ⊎ IfSome (S.disk (store_of self.old)) (Notes input.now (spared_of self.new))) }
        ensures others { self.new ≡ record self.old { spared = self.new.spared } }
    {
        if let Some(number) = self.input_number(input) {
            self.spared.push(number)?;
        }
        Ok(())
    }

    /// Makes the output of this name. Until it is closed, or given up, every file stays.
    fn make(&mut self, name: &str) -> io::Result<Watched<OutputFile<S::File>>>
        ensures failed { file_failed self.new ≡ failed_with (file_failed self.old) result }
        ensures waiting { file_waiting self.new ≡ file_waiting self.old }
        ensures ready { IfOk result (λ output. IsReady name.now (part_of self.new)
            (spared_of self.old) (S.File.number (file_in (device_of output)))
            (S.disk (store_of self.old)) (S.disk (store_of self.new))) }
        ensures named { OnOk result (part_of self.new ≢ [] → IfSome (S.disk (store_of self.old))
            (λ disk. IsPlaceOf disk name.now (disk.place_of (name_of self.new)))) }
        ensures leaves { Between (S.disk (store_of self.old)) (S.disk (store_of self.new))
            (LeavesFiles (spared_of self.old)) }
        ensures spared { spared_of self.new ≡ spared_of self.old }
    {
        match self.open(name) {
            Ok(file) => {
                let buffer = mem::replace(&mut self.buffer, Vec::new(self.alloc));
                Ok(Watched::new(OutputFile::new(file, buffer)))
            }
            Err(error) => {
                self.failed = true;
                Err(error)
            }
        }
    }

    /// Closes an output. One that was made beside its name has it then, or is gone; nothing else changes.
    fn close(&mut self, output: Watched<OutputFile<S::File>>) -> io::Result<()>
        ensures failed { file_failed self.new
            ≡ failed_with (file_failed self.old || has_failed output) result }
        ensures through { OnOk result (file_waiting self.new ≡ file_waiting self.old) }
        ensures placed { OnOk result (Between (S.disk (store_of self.old))
            (S.disk (store_of self.new))
            (Placing (part_of self.old) (name_of self.old) (spared_of self.old))) }
        ensures dropped { OnErr result (Between (S.disk (store_of self.old))
            (S.disk (store_of self.new))
            (Dropping (part_of self.old) (S.failed (store_of self.new) ≡ true))) }
        ensures spared { spared_of self.new ≡ spared_of self.old }
    {
        self.failed |= output.failed();
        let mut file = output.into_inner();
        let mut closed = file.finish();
        if closed.is_ok() {
            closed = self.place();
        }
        if closed.is_err() {
            self.failed = true;
            self.remove();
        }
        self.take_back(file);
        closed
    }

    /// Gives an output up. One that was made beside its name is gone; nothing else changes.
    fn abandon(&mut self, output: Watched<OutputFile<S::File>>)
        ensures failed { file_failed self.new ≡ (file_failed self.old || has_failed output) }
        ensures dropped { Between (S.disk (store_of self.old)) (S.disk (store_of self.new))
            (Dropping (part_of self.old) (S.failed (store_of self.new) ≡ true)) }
        ensures spared { spared_of self.new ≡ spared_of self.old }
    {
        self.failed |= output.failed();
        self.remove();
        self.take_back(output.into_inner());
    }
}
