//! Files by their numbers, whatever their names.
use std::fs::Metadata;
use std::os::unix::fs::MetadataExt;

/// A file among those of the system: its device, and its number there.
#[derive(Clone, Copy, Debug, PartialEq)]
pub struct FileNumber {
    pub device: u64,
    pub number: u64,
}

impl FileNumber {
    /// The file of which this is told.
    pub fn of(found: &Metadata) -> Self {
        FileNumber {
            device: found.dev(),
            number: found.ino(),
        }
    }
}
