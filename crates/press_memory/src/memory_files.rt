//! Files in memory, which are opened by their names (this profile).
use press_cmd::LINE_FEED;
use press_devices::Watched;
use press_files::{InputError, NamedInputs};
use press_words::number_word;
use std::alloc::{AllocError, Global};
use std::io::{self, Read};

/// A file: its name, and its bytes.
#[derive(Clone, Copy)]
struct MemoryFile<'a> {
    name: &'a [u8],
    bytes: &'a [u8],
}

/// A file that is read. What it has, its clauses do not say.
#[derive(Drop)]
pub(crate) struct MemoryReader<'a> {
    rest: &'a [u8],
}

impl Read for MemoryReader<'_> {
    fn read(&mut self, buf: &mut [u8]) -> io::Result<usize> {
        self.rest.read(buf)
    }
}

/// Files, of which a line with the name, a line with how many bytes there are, and these bytes stand one behind the other. What a file has its
/// clauses do not say, as those of the files of a process do not.
#[derive(Drop)]
pub(crate) struct MemoryFiles<'a> {
    files: Vec<MemoryFile<'a>>,
    failed: bool,
}

impl<'a> MemoryFiles<'a> {
    /// No files.
    pub(crate) fn none(alloc: Global) -> Self {
        MemoryFiles {
            files: Vec::new(alloc),
            failed: false,
        }
    }

    /// The files of a block, up to the first that is none.
    ///
    /// # Errors
    ///
    /// Where memory ran out.
    pub(crate) fn in_block(alloc: Global, block: &'a [u8]) -> Result<Self, AllocError> {
        let mut files = Vec::new(alloc);
        let mut rest = block;
        for _ in 0..block.len() {
            let Some((file, behind)) = first_file(rest) else {
                break;
            };
            files.push(file)?;
            rest = behind;
        }
        Ok(MemoryFiles {
            files,
            failed: false,
        })
    }
}

/// The first file of a block, and what stands behind it.
fn first_file(block: &[u8]) -> Option<(MemoryFile<'_>, &[u8])> {
    let (name, behind) = first_line(block)?;
    let (length, behind) = first_line(behind)?;
    let length = number_word(length)?;
    if length > behind.len() as u64 {
        return None;
    }
    let (bytes, behind) = behind.split_at(length as usize);
    Some((MemoryFile { name, bytes }, behind))
}

/// The first line of bytes, without its line feed, and what stands behind that.
fn first_line(bytes: &[u8]) -> Option<(&[u8], &[u8])> {
    let end = bytes.iter().position(|byte| *byte == LINE_FEED)?;
    Some((&bytes[..end], &bytes[end + 1..]))
}

impl<'a> NamedInputs for MemoryFiles<'a> {
    ghost use Rattle.std.specs.Prelude.{None, ⊤};

    ghost bytes = { λ _ _. None };

    ghost missing = { λ _ _. ⊤ };

    ghost present = { λ _ _. ⊤ };

    ghost failed = { λ files. files.failed };

    type Input = Watched<MemoryReader<'a>>;

    fn open(&self, name: &str) -> Result<Watched<MemoryReader<'a>>, InputError> {
        for file in &self.files {
            if file.name == name.as_bytes() {
                return Ok(Watched::new(MemoryReader { rest: file.bytes }));
            }
        }
        Err(InputError::ReadFault)
    }

    fn close(&mut self, input: Watched<MemoryReader<'a>>) {
        self.failed |= input.is_given_up();
    }
}
