//! A stream as assembly text that is explained, told to a writer.
ghost use Rattle.std.specs.Prelude.{◌≡◌, false};
ghost use Rattle.press_forms.specs.Ends.{Explaining};

use press_devices::{ReadDevice, Teller, WriteDevice, report};
use press_explain::explain_stream;
use press_files::{Around, Devices, Platform};
use std::alloc::Global;

/// Writes the assembly text of the stream that a reader has to standard output, and in front of each command what it is and does, and a fault
/// to standard error: the lines of a piece before the next one is read. After a fault those of the first commands stand there. The answer is the
/// status: 0, or 1 after a fault.
pub fn explain_bytes<R: ReadDevice, P: Platform>(
    alloc: Global,
    reader: &mut R,
    devices: &mut Devices<P>,
) -> u8
    ensures flushed { result ≡ 0 → P.Out.waiting devices.new.out ≡ false }
    ensures inputs { devices.new.inputs ≡ devices.old.inputs }
    ensures outputs { devices.new.outputs ≡ devices.old.outputs }
    ensures explains { ⟦<Devices<P> as Around<R>>⟧.holds Explaining
        result reader.old reader.new devices.old devices.new }
{
    match explain_stream(alloc, reader, &mut devices.out) {
        Ok(()) => 0,
        Err(error) => report(&error, &mut devices.err),
    }
}
