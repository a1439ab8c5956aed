//! The explanation of a stream.
ghost use Rattle.std.specs.Prelude.{◌≡◌, ◌≢◌, false, true, IfErr, OnOk};
ghost use Rattle.press_devices.specs.Reading.{ReadFails};
ghost use Rattle.press_explain.specs.Explained.{Explained, StopsExplaining};
ghost use Rattle.press_explain.specs.Reading.{ExplainsToEnd, WritesEnd, WritesHeld};
ghost use Rattle.press_explain.specs.Standing.{IsAtStart, IsSound};
ghost use Rattle.press_trace.specs.Traced.{IsOutput};
ghost use Rattle.press_trace.specs.declared.fault.TraceError.{TraceError};

use crate::explainer::Explainer;
use press_devices::{PIECE, ReadCount, ReadDevice, WriteDevice, read_next, write_whole};
use press_trace::TraceError;
use std::alloc::Global;

/// Explains the stream that a reader has, from power on to its end with one universal exit more: writes it as assembly text, a line for each
/// command, and in front of each line a remark. What a piece has is written before the next one is read.
///
/// # Errors
///
/// `ReadFault` (304): a read failed, or there were too many; all whole commands of the bytes before were explained. `Output`: what was written last may
/// be a prefix. `NoMemory`: the first commands were explained.
pub fn explain_stream<R: ReadDevice, W: WriteDevice>(
    alloc: Global,
    reader: &mut R,
    out: &mut W,
) -> Result<(), TraceError>
    ensures explains { OnOk result (Explained (R.remaining reader.old) (R.remaining reader.new)
        (W.contents out.old) (W.contents out.new)) }
    ensures stops { IfErr result (StopsExplaining (R.remaining reader.old)
        (R.remaining reader.new) (W.contents out.old) (W.contents out.new)) }
    ensures flushed { OnOk result (W.waiting out.new ≡ false) }
    ensures cause { IfErr result (λ why. IsOutput why → W.failed out.new ≡ true) }
    ensures unread { IfErr result (λ why. why ≡ TraceError.ReadFault
        → ReadFails (R.failed reader.new) (R.reads reader.new)) }
{
    let mut explainer = Explainer::open(alloc)?;
    explain_pieces(alloc, &mut explainer, reader, out)?;
    explainer.end_input();
    explain_end(alloc, &mut explainer, out)?;
    out.flush_all()?;
    Ok(())
}

/// Reads a stream to its end, and explains the commands of each piece before the next one is read.
fn explain_pieces<R: ReadDevice, W: WriteDevice>(
    alloc: Global,
    explainer: &mut Explainer,
    reader: &mut R,
    out: &mut W,
) -> Result<(), TraceError>
    requires start { IsAtStart explainer.old }
    requires sound { IsSound explainer.old }
    ensures explains { OnOk result (ExplainsToEnd (R.remaining reader.old) (R.remaining reader.new)
        (W.contents out.old) (W.contents out.new) explainer.new) }
    ensures sound { OnOk result (IsSound explainer.new) }
    ensures stops { IfErr result (StopsExplaining (R.remaining reader.old)
        (R.remaining reader.new) (W.contents out.old) (W.contents out.new)) }
    ensures cause { IfErr result (λ why. IsOutput why → W.failed out.new ≡ true) }
    ensures unread { IfErr result (λ why. why ≡ TraceError.ReadFault
        → ReadFails (R.failed reader.new) (R.reads reader.new)) }
{
    let mut count = ReadCount::none();
    let mut piece = [0; PIECE];
    loop {
        let length = read_next(reader, &mut piece, &mut count)?;
        if length == 0 {
            return Ok(());
        }
        explainer.push(&piece[..length])?;
        explain_held(alloc, explainer, out)?;
    }
}

/// Writes the explanation of the commands of the bytes that came.
fn explain_held<W: WriteDevice>(
    alloc: Global,
    explainer: &mut Explainer,
    out: &mut W,
) -> Result<(), TraceError>
    requires sound { IsSound explainer.old }
    ensures held { WritesHeld explainer.old (W.contents out.old) result
        explainer.new (W.contents out.new) }
    ensures sound { OnOk result (IsSound explainer.new) }
    ensures cause { IfErr result (λ why. IsOutput why → W.failed out.new ≡ true) }
    ensures unread { IfErr result (λ why. why ≢ TraceError.ReadFault) }
{
    let mut text = Vec::new(alloc);
    explainer.explain_held(&mut text)?;
    write_whole(out, &text)?;
    Ok(())
}

/// Writes the explanation of the commands that are left, and of the exit.
fn explain_end<W: WriteDevice>(
    alloc: Global,
    explainer: &mut Explainer,
    out: &mut W,
) -> Result<(), TraceError>
    requires sound { IsSound explainer.old }
    ensures all { WritesEnd explainer.old (W.contents out.old) result (W.contents out.new) }
    ensures cause { IfErr result (λ why. IsOutput why → W.failed out.new ≡ true) }
    ensures unread { IfErr result (λ why. why ≢ TraceError.ReadFault) }
{
    let mut text = Vec::new(alloc);
    explainer.explain_held(&mut text)?;
    explainer.finish(&mut text)?;
    write_whole(out, &text)?;
    Ok(())
}
