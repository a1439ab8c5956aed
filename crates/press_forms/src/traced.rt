//! The trace of a stream, told to a writer.
ghost use Rattle.std.specs.Prelude.{◌≡◌, false};
ghost use Rattle.press_forms.specs.Ends.{Tracing, TracingBy};

use press_devices::{ReadDevice, Teller, WriteDevice, report};
use press_files::{Around, Devices, Platform};
use press_trace::{LineOf, trace_by};
use std::alloc::Global;

/// Tells the trace of the stream that a reader has to standard output, and a fault to standard error: the lines of a piece before the next one
/// is read. After a fault the lines of the first steps stand there. The answer is the status: 0, or 1 after a fault.
pub fn tell_trace<R: ReadDevice, P: Platform>(
    alloc: Global,
    reader: &mut R,
    devices: &mut Devices<P>,
) -> u8
    ensures flushed { result ≡ 0 → P.Out.waiting devices.new.out ≡ false }
    ensures inputs { devices.new.inputs ≡ devices.old.inputs }
    ensures outputs { devices.new.outputs ≡ devices.old.outputs }
    ensures traces { ⟦<Devices<P> as Around<R>>⟧.holds Tracing
        result reader.old reader.new devices.old devices.new }
{
    tell_by(LineOf::Step, alloc, reader, devices)
}

/// Tells the trace of the stream that a reader has, as [`tell_trace`] does, with a line for each step, or for each run of steps that do no
/// more than count.
pub fn tell_by<R: ReadDevice, P: Platform>(
    by: LineOf,
    alloc: Global,
    reader: &mut R,
    devices: &mut Devices<P>,
) -> u8
    ensures flushed { result ≡ 0 → P.Out.waiting devices.new.out ≡ false }
    ensures inputs { devices.new.inputs ≡ devices.old.inputs }
    ensures outputs { devices.new.outputs ≡ devices.old.outputs }
    ensures traces { ⟦<Devices<P> as Around<R>>⟧.holds (TracingBy by)
        result reader.old reader.new devices.old devices.new }
{
    match trace_by(by, alloc, reader, &mut devices.out) {
        Ok(()) => 0,
        Err(error) => report(&error, &mut devices.err),
    }
}
