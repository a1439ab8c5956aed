//! The devices of calls over bytes in memory.
ghost use Rattle.std.specs.Prelude.{◌≡◌, [], false};
ghost use Rattle.press_devices.specs.Watching.{device_of};
ghost use Rattle.press_sink.specs.Kept.{kept_outputs};

use crate::memory_files::MemoryFiles;
use press_devices::Watched;
use press_files::Devices;
use press_sink::ListOutputs;
use std::alloc::Global;
use std::io::{self, Sink};

/// No files, no outputs so far, a writer that holds nothing yet, and nobody who is told anything.
pub(crate) fn in_memory<'a>(
    alloc: Global,
) -> Devices<(MemoryFiles<'a>, ListOutputs, Watched<Vec<u8>>, Sink)>
    ensures out { (device_of result.out).items ≡ [] }
    ensures outputs { kept_outputs result.outputs ≡ [] }
{
    Devices::new(
        MemoryFiles::none(alloc),
        ListOutputs::new(alloc),
        Watched::new(Vec::new(alloc)),
        io::sink(),
    )
}
