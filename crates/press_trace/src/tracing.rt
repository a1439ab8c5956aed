//! The trace of a stream, told.

ghost use Rattle.std.specs.Prelude.{◌≡◌, ◌≢◌, false, true, IfErr, OnOk};
ghost use Rattle.press_devices.specs.Reading.{ReadFails};
ghost use Rattle.press_trace.specs.Standing.{TellsFurther, TellsToEnd};
ghost use Rattle.press_trace.specs.Traced.{StopsTelling, StopsTellingBy, Traced, TracedBy, IsOutput};
ghost use Rattle.press_trace.specs.Tracing.{IsAtStart, IsSound};
ghost use Rattle.press_trace.specs.declared.fault.TraceError.{TraceError};

use crate::fault::TraceError;
use crate::line_of::LineOf;
use crate::tracer::Tracer;
use press_devices::{PIECE, ReadCount, ReadDevice, WriteDevice, read_next, write_whole};
use std::alloc::Global;

/// Tells the trace of the stream that a reader has, from power on to its end with one universal exit more: a line for each table step.
/// A line is written before the next step is taken, and the lines of a piece before the next one is read.
///
/// # Errors
///
/// `ReadFault` (304): a read failed, or there were too many; the lines of all steps of the bytes before were written. `Output`: a line
/// cannot be written; a prefix of it may have been. `NoMemory`: the lines of the first steps were written.
pub fn trace_stream<R: ReadDevice, W: WriteDevice>(
    alloc: Global,
    reader: &mut R,
    out: &mut W,
) -> Result<(), TraceError>
    ensures traces { OnOk result (Traced (R.remaining reader.old) (R.remaining reader.new)
        (W.contents out.old) (W.contents out.new)) }
    ensures stops { IfErr result (StopsTelling (R.remaining reader.old) (R.remaining reader.new)
        (W.contents out.old) (W.contents out.new)) }
    ensures flushed { OnOk result (W.waiting out.new ≡ false) }
    ensures cause { IfErr result (λ why. IsOutput why → W.failed out.new ≡ true) }
    ensures unread { IfErr result (λ why. why ≡ TraceError.ReadFault
        → ReadFails (R.failed reader.new) (R.reads reader.new)) }
{
    trace_by(LineOf::Step, alloc, reader, out)
}

/// Tells the trace of the stream that a reader has, as [`trace_stream`] does, with a line for each step, or for each run of steps that do no
/// more than count. Such a line tells the last of them, in the place of all, and how many they are. A run ends with the piece that was read.
///
/// # Errors
///
/// Those of [`trace_stream`].
pub fn trace_by<R: ReadDevice, W: WriteDevice>(
    by: LineOf,
    alloc: Global,
    reader: &mut R,
    out: &mut W,
) -> Result<(), TraceError>
    ensures traces { OnOk result (TracedBy by (R.remaining reader.old) (R.remaining reader.new)
        (W.contents out.old) (W.contents out.new)) }
    ensures stops { IfErr result (StopsTellingBy by (R.remaining reader.old)
        (R.remaining reader.new) (W.contents out.old) (W.contents out.new)) }
    ensures flushed { OnOk result (W.waiting out.new ≡ false) }
    ensures cause { IfErr result (λ why. IsOutput why → W.failed out.new ≡ true) }
    ensures unread { IfErr result (λ why. why ≡ TraceError.ReadFault
        → ReadFails (R.failed reader.new) (R.reads reader.new)) }
{
    let mut tracer = Tracer::open(alloc)?;
    tell_pieces(by, &mut tracer, reader, out)?;
    tracer.end_input();
    tell_steps(by, &mut tracer, out)?;
    out.flush_all()?;
    Ok(())
}

/// Reads a stream to its end, and tells the steps of each piece before the next one is read.
fn tell_pieces<R: ReadDevice, W: WriteDevice>(
    by: LineOf,
    tracer: &mut Tracer,
    reader: &mut R,
    out: &mut W,
) -> Result<(), TraceError>
    requires start { IsAtStart tracer.old }
    requires sound { IsSound tracer.old }
    ensures told { OnOk result (TellsToEnd by (R.remaining reader.old) (R.remaining reader.new)
        (W.contents out.old) (W.contents out.new) tracer.new) }
    ensures stops { IfErr result (StopsTellingBy by (R.remaining reader.old)
        (R.remaining reader.new) (W.contents out.old) (W.contents out.new)) }
    ensures cause { IfErr result (λ why. IsOutput why → W.failed out.new ≡ true) }
    ensures unread { IfErr result (λ why. why ≡ TraceError.ReadFault
        → ReadFails (R.failed reader.new) (R.reads reader.new)) }
{
    let mut count = ReadCount::none();
    let mut piece = [0; PIECE];
    loop {
        let length = read_next(reader, &mut piece, &mut count)?;
        if length == 0 {
            return Ok(());
        }
        tracer.push(&piece[..length])?;
        tell_steps(by, tracer, out)?;
    }
}

/// Tells the steps of the bytes that came.
fn tell_steps<W: WriteDevice>(
    by: LineOf,
    tracer: &mut Tracer,
    out: &mut W,
) -> Result<(), TraceError>
    requires sound { IsSound tracer.old }
    ensures further { TellsFurther by tracer.old (W.contents out.old) result
        tracer.new (W.contents out.new) }
    ensures cause { IfErr result (λ why. IsOutput why → W.failed out.new ≡ true) }
    ensures unread { IfErr result (λ why. why ≢ TraceError.ReadFault) }
{
    while let Some(line) = tracer.next(by)? {
        write_whole(out, &line)?;
    }
    Ok(())
}
