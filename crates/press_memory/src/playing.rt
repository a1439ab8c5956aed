//! A session with a press, over lines and files in memory.
ghost use Rattle.press_memory.specs.Session.{SessionOf};

use crate::answer::{NO_MEMORY, Written};
use crate::memory_files::MemoryFiles;
use crate::told::LastTold;
use press_devices::Watched;
use press_files::Devices;
use press_sessions::press_lines;
use press_sink::ListOutputs;
use press_words::SessionRequest;
use std::alloc::Global;

/// What is written in a session with a press of so many engines, by the lines of events, with the files of a block.
pub(crate) fn session(alloc: Global, engines: u64, files: &[u8], lines: &[u8]) -> Written
    ensures { SessionOf engines lines.now result.fault result.bytes.items }
{
    match MemoryFiles::in_block(alloc, files) {
        Ok(inputs) => played(alloc, engines, inputs, lines),
        Err(_) => Written::nothing(alloc, NO_MEMORY),
    }
}

/// The same with these files.
fn played(alloc: Global, engines: u64, inputs: MemoryFiles<'_>, lines: &[u8]) -> Written
    ensures { SessionOf engines lines.now result.fault result.bytes.items }
{
    let mut reader = Watched::new(lines);
    let out = Watched::new(Vec::new(alloc));
    let asked = SessionRequest {
        engines,
        template: None,
        sums: false,
        goes_on: false,
    };
    let outputs = ListOutputs::new(alloc);
    let mut devices = Devices::new(inputs, outputs, out, LastTold::nothing());
    let status = press_lines(alloc, asked, &mut reader, &mut devices);
    Written {
        fault: devices.err.fault(status),
        bytes: devices.out.into_inner(),
    }
}
