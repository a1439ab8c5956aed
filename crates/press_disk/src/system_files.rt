//! The files of the operating system (this profile).
use crate::file_number::FileNumber;
use crate::file_system::{FileSystem, Found, NumberedFile};
use crate::parts::make_part;
use std::alloc::Global;
use std::fs::{self, File, Files, Metadata, OpenOptions, Permissions};
use std::io::{self, ErrorKind};
use std::os::unix::fs::{MetadataExt, PermissionsExt};
use std::path::AsPath;

/// The files of a file system of std. What they hold is not known.
#[derive(Clone, Copy, Drop)]
pub struct SystemFiles<'a, F> {
    files: &'a F,
}

impl<'a, F: Files<File = File>> SystemFiles<'a, F> {
    /// The files of this file system.
    pub fn new(files: &'a F) -> Self {
        SystemFiles { files }
    }
}

/// What was found where this is told.
fn found_in(told: &Metadata) -> Found {
    Found {
        number: FileNumber::of(told),
        is_file: told.is_file(),
        mode: told.mode(),
    }
}

impl NumberedFile for File {
    ghost use Rattle.std.specs.Prelude.{None};

    ghost number = { λ _. None };

    fn found(&self) -> io::Result<Found> {
        Ok(found_in(&self.metadata()?))
    }
}

impl<F: Files<File = File>> FileSystem for SystemFiles<'_, F> {
    ghost use Rattle.std.specs.Prelude.{None, true, ⊤};

    ghost disk = { λ _. None };

    ghost failed = { λ _. true };

    ghost untold = { λ _ _. ⊤ };

    type File = File;

    fn find(&self, name: &str) -> io::Result<Option<Found>> {
        match fs::metadata(self.files, name) {
            Ok(told) => Ok(Some(found_in(&told))),
            Err(error) => {
                if error.kind() == ErrorKind::NotFound {
                    return Ok(None);
                }
                Err(error)
            }
        }
    }

    fn resolve(&self, alloc: Global, name: &str, resolved: &mut String) -> io::Result<()> {
        resolved.clear();
        if fs::symlink_metadata(self.files, name)?.is_symlink() {
            let behind = self.files.canonicalize(alloc, name)?;
            resolved.push_str(behind.path_text())?;
        } else {
            resolved.push_str(name)?;
        }
        Ok(())
    }

    fn open(&self, name: &str, at_end: bool) -> io::Result<File> {
        OpenOptions::new()
            .write(true)
            .append(at_end)
            .open(self.files, name)
    }

    fn make(&mut self, name: &str, mode: u32) -> io::Result<Option<File>> {
        make_part(self.files, name, mode)
    }

    fn permit(&self, file: &File, mode: u32) {
        let _ = file.set_permissions(Permissions::from_mode(mode));
    }

    fn rename(&mut self, from: &str, to: &str) -> io::Result<()> {
        fs::rename(self.files, from, to)
    }

    fn remove(&mut self, name: &str) -> io::Result<()> {
        fs::remove_file(self.files, name)
    }
}
