//! Files that are not whole yet (this profile). A run holds its part by a lock for as long as it is open: one that nobody holds was left.
use crate::file_number::FileNumber;
use std::fs::{self, File, Files, OpenOptions, TryLockError};
use std::io::{self, ErrorKind};
use std::os::unix::fs::OpenOptionsExt;

/// Makes the part of this name, with these permissions less those that the system keeps from new files, and holds it. One that was left
/// is removed before; none is made where another run holds it.
///
/// # Errors
///
/// Where it cannot be made.
pub(crate) fn make_part<F: Files<File = File>>(
    files: &F,
    name: &str,
    mode: u32,
) -> io::Result<Option<File>> {
    let mut made = create(files, name, mode)?;
    if made.is_none() && remove_left(files, name) {
        made = create(files, name, mode)?;
    }
    match made {
        Some(part) if holds(files, name, &part) => Ok(Some(part)),
        _ => Ok(None),
    }
}

/// Creates a file of this name, if there is none.
fn create<F: Files<File = File>>(files: &F, name: &str, mode: u32) -> io::Result<Option<File>> {
    let mut options = OpenOptions::new();
    options.write(true).create_new(true).mode(mode);
    match options.open(files, name) {
        Ok(part) => Ok(Some(part)),
        Err(error) => {
            if error.kind() == ErrorKind::AlreadyExists {
                return Ok(None);
            }
            Err(error)
        }
    }
}

/// Holds a part that was made. False where another run took it for one that was left.
fn holds<F: Files<File = File>>(files: &F, name: &str, part: &File) -> bool {
    // Where a file system has no locks nobody takes a part, either.
    !matches!(part.try_lock(), Err(TryLockError::WouldBlock)) && is_called(files, name, part)
}

/// Removes the file of this name if it is a part that nobody holds. Answers whether it was removed.
fn remove_left<F: Files<File = File>>(files: &F, name: &str) -> bool {
    if !fs::symlink_metadata(files, name).is_ok_and(|found| found.is_file()) {
        return false;
    }
    let Ok(left) = OpenOptions::new().write(true).open(files, name) else {
        return false;
    };
    left.try_lock().is_ok() && is_called(files, name, &left) && fs::remove_file(files, name).is_ok()
}

/// Whether the name is still that of an open file, and not of a link to it.
fn is_called<F: Files<File = File>>(files: &F, name: &str, file: &File) -> bool {
    match (file.metadata(), fs::symlink_metadata(files, name)) {
        (Ok(open), Ok(found)) => FileNumber::of(&open) == FileNumber::of(&found),
        _ => false,
    }
}
