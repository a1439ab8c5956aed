//! Inputs that are opened by their names.
ghost use Rattle.std.specs.Prelude.{◌≡◌, ◌↔◌, ◌⊎◌, true, ℕ, List, Option, Bool, false, IfOk, IfErr, OnOk};
ghost use Rattle.std.specs.Str.{IsUtf8};
ghost use Rattle.press_devices.specs.Reading.{ReadFails};
ghost use Rattle.press_files.specs.NamedFiles.{inputs_failed};
ghost use Rattle.press_files.specs.declared.inputs.InputError.TheVariants.{ReadFault};

use crate::inputs::InputError;
use press_devices::{PIECE, ReadDevice, Watched};
use std::alloc::Global;
use std::fs::{self, Files, OpenFile};
use std::io::{self, BufReader, Read};
use std::str;

/// Where inputs are opened by their names.
pub trait NamedInputs {
    ghost use Rattle.press_files.specs.declared.inputs.InputError.TheVariants.{ReadFault};

    /// What the input of this name has, where that is known.
    ghost bytes: { Self → List ℕ → Option (List ℕ) };

    /// That the input of this name may be one that cannot be opened.
    ghost missing: { Self → List ℕ → Type 0 };

    /// That it may be one that can be opened.
    ghost present: { Self → List ℕ → Type 0 };

    /// Whether an input that was closed was not read on; true also where that is not known.
    ghost failed: { Self → Bool };

    type Input: ReadDevice + Drop;

    /// Opens the input of this name.
    ///
    /// # Errors
    ///
    /// `ReadFault` (304) where it cannot be opened; `NoMemory`.
    fn open(&self, name: &str) -> Result<Self::Input, InputError>
        ensures bytes { IfOk result (λ input.
            Self.Input.remaining input ≡ bytes self.now name.now) }
        ensures missing { IfErr result (λ error. error ≡ ReadFault → missing self.now name.now) }
        ensures present { OnOk result (present self.now name.now) };

    /// Closes an input.
    fn close(&mut self, input: Self::Input)
        ensures { (failed self.new ≡ true) ↔ (failed self.old ≡ true)
            ⊎ ReadFails (Self.Input.failed input) (Self.Input.reads input) };
}

/// The files of a file system. What a file has is not known.
#[derive(Drop)]
pub struct NamedFiles<'a, F> {
    alloc: Global,
    files: &'a F,
    /// Whether a file that was closed was not read on.
    failed: bool,
}

impl<'a, F> NamedFiles<'a, F> {
    /// The files of this file system, of which none was read yet.
    pub fn new(alloc: Global, files: &'a F) -> Self
        ensures { inputs_failed result ≡ false }
    {
        NamedFiles {
            alloc,
            files,
            failed: false,
        }
    }
}

/// A file of these, of which a piece is read at once. From a pipe or a device no more is read than is asked for, since what stands behind an
/// image there may be that of another reader. What it has is not known.
#[derive(Drop)]
pub struct NamedFile<T> {
    file: BufReader<T>,
}

impl<T: Read> Read for NamedFile<T> {
    fn read(&mut self, buf: &mut [u8]) -> io::Result<usize> {
        self.file.read(buf)
    }
}

impl<F: Files> NamedInputs for NamedFiles<'_, F> {
    ghost use Rattle.std.specs.Prelude.{None, ⊤};

    ghost bytes = { λ _ _. None };

    ghost missing = { λ _ _. ⊤ };

    ghost present = { λ _ _. ⊤ };

    ghost failed = { inputs_failed };

    type Input = Watched<NamedFile<F::File>>;

    fn open(&self, name: &str) -> Result<Watched<NamedFile<F::File>>, InputError> {
        let Ok(file) = fs::open(self.files, name) else {
            return Err(InputError::ReadFault);
        };
        let ahead = if is_regular(&file) { PIECE } else { 0 };
        match BufReader::with_capacity(self.alloc, ahead, file) {
            Ok(file) => Ok(Watched::new(NamedFile { file })),
            Err(_) => Err(InputError::NoMemory),
        }
    }

    fn close(&mut self, input: Watched<NamedFile<F::File>>) {
        self.failed |= input.is_given_up();
    }
}

/// Whether what is open is a file, and no pipe or device.
fn is_regular<T: OpenFile>(file: &T) -> bool {
    file.metadata().is_ok_and(|found| found.is_file())
}

/// Opens the input whose name is this word. A word that is no text names none.
///
/// # Errors
///
/// `ReadFault` (304) where it cannot be opened, or the word is no text; `NoMemory`.
pub fn open_named<I: NamedInputs>(inputs: &I, word: &[u8]) -> Result<I::Input, InputError>
    ensures bytes { IfOk result (λ input. I.Input.remaining input ≡ I.bytes inputs.now word.now) }
    ensures missing { IfErr result (λ error.
        error ≡ ReadFault → IsUtf8 word.now → I.missing inputs.now word.now) }
{
    match str::from_utf8(word) {
        Ok(name) => inputs.open(name),
        Err(_) => Err(InputError::ReadFault),
    }
}
