//! Streams that are printed to files.
ghost use Rattle.std.specs.Prelude.{◌≡◌, ◌≤◌, ◌<◌, ◌++◌, true, false, IfSome, ⊤};
ghost use Rattle.press_devices.specs.Reading.{ReadFails};
ghost use Rattle.press_files.specs.Causes.{failures};
ghost use Rattle.press_files.specs.Change.{around, change};
ghost use Rattle.press_files.specs.Ends.{MakesItAll, PrintingFiles};
ghost use Rattle.press_sink.specs.Kept.{name_parts, next_number, file_faults, outputs_of};
ghost use Rattle.press_sink.specs.SinkLog.{most_faults};
ghost use Rattle.press_sink.specs.Template.{IsNoTemplate};
ghost use Rattle.press_files.specs.Files.{MakesFiles, PrintsBy, PrintsFiles, PrintsTo};

use crate::around::Around;
use crate::devices::{Devices, Platform};
use crate::lent::{Lent, Loan};
use crate::stream::{print_behind, told_status};
use crate::through_replies::{ThroughReplies, Waited};
use crate::told_folder::{Folder, ToldFolder};
use press_devices::{ReadDevice, Teller, WriteDevice, report};
use press_sink::{FolderSink, NamedOutputs, SheetSink};
use std::alloc::Global;
use std::marker::Brand;

/// Prints the stream of these bytes and of what a reader has behind them to files: a P4 file for each side, whose name is the
/// template with the number of the side, from 1 on, in place of `%d`. Replies go to standard output, each when it is asked for, and a fault
/// stands on standard error. A text that is no template (121) is told before the stream is read. The answer is the status: 0, and nothing
/// waits of a file or a reply that did not before, or 1 after a fault.
pub fn print_files<R: ReadDevice, P: Platform>(
    alloc: Global,
    front: &[u8],
    template: &str,
    reader: &mut R,
    devices: &mut Devices<P>,
) -> u8
    ensures status { result ≤ 1 }
    ensures fault { IsNoTemplate template.now → result ≡ 1 }
    ensures unread { IsNoTemplate template.now → R.remaining reader.new ≡ R.remaining reader.old }
    ensures files { ⟦<Devices<P> as Around<R>>⟧.holds (MakesItAll front.now template.now)
        result reader.old reader.new devices.old devices.new }
    ensures flushed { result ≡ 0 → P.Out.waiting devices.old.out ≡ false
        → P.Out.waiting devices.new.out ≡ false }
    ensures through { result ≡ 0
        → P.Outputs.waiting devices.new.outputs ≡ P.Outputs.waiting devices.old.outputs }
    ensures inputs { devices.new.inputs ≡ devices.old.inputs }
    ensures prints { ⟦<Devices<P> as Around<R>>⟧.holds (PrintingFiles front.now template.now)
        result reader.old reader.new devices.old devices.new }
{
    let Devices {
        outputs,
        out,
        err,
        ..
    } = devices;
    let (_, status) = print_lent::<R, P::Outputs, P::Out, P::Err, Brand>(
        alloc, outputs, front, &template, reader, out, err,
    );
    status
}

/// Prints such a stream to outputs that are lent, and go back, with the status. The call's proof says which they are.
fn print_lent<'r, R: ReadDevice, O: NamedOutputs, W: WriteDevice, E: Teller, L: Loan>(
    alloc: Global,
    outputs: &'r mut O,
    front: &[u8],
    template: &&str,
    reader: &mut R,
    out: &mut W,
    err: &mut E,
) -> (&'r mut O, u8)
    requires name { outputs.ghost_name ≡ L.name }
    ensures same { result.0.ghost_name ≡ outputs.entry.ghost_name }
    ensures status { result.1 ≤ 1 }
    ensures fault { IsNoTemplate template.now.now → result.1 ≡ 1 }
    ensures unread { IsNoTemplate template.now.now
        → R.remaining reader.new ≡ R.remaining reader.old }
    ensures files { result.1 ≡ 0 → IfSome (R.remaining reader.old) (λ bytes.
        MakesFiles template.now.now (front.now ++ bytes) (O.made outputs.old)
        (O.made result.0.now)) }
    ensures flushed { result.1 ≡ 0 → W.waiting out.old ≡ false → W.waiting out.new ≡ false }
    ensures through { result.1 ≡ 0 → O.waiting result.0.now ≡ O.waiting outputs.old }
    ensures prints { PrintsFiles front.now template.now.now result.1
        (around (failures (ReadFails (R.failed reader.new) (R.reads reader.new)) ⊥
        (W.failed out.new ≡ true) (O.failed result.0.now ≡ true))
        (E.said err.old) (E.said err.new) (R.remaining reader.old) (R.remaining reader.new)
        (W.contents out.old) (W.contents out.new)
        (O.made outputs.old) (O.made result.0.now)) }
{
    let lent: Lent<'r, O, L> = Lent::new(outputs);
    let (lent, status) = print_into::<Lent<'r, O, L>, R, W, E>(
        alloc, lent, front, template, reader, out, err,
    );
    (lent.into_inner(), status)
}

/// Prints such a stream to these outputs, which go back, with the status.
fn print_into<O: NamedOutputs + Drop, R: ReadDevice, W: WriteDevice, E: Teller>(
    alloc: Global,
    outputs: O,
    front: &[u8],
    template: &str,
    reader: &mut R,
    out: &mut W,
    err: &mut E,
) -> (O, u8)
    ensures status { result.1 ≤ 1 }
    ensures fault { IsNoTemplate template.now → result.1 ≡ 1 }
    ensures unread { IsNoTemplate template.now → R.remaining reader.new ≡ R.remaining reader.old }
    ensures files { result.1 ≡ 0 → IfSome (R.remaining reader.old) (λ bytes. MakesFiles template.now
        (front.now ++ bytes) (O.made outputs) (O.made result.0)) }
    ensures flushed { result.1 ≡ 0 → W.waiting out.old ≡ false → W.waiting out.new ≡ false }
    ensures through { result.1 ≡ 0 → O.waiting result.0 ≡ O.waiting outputs }
    ensures prints { PrintsFiles front.now template.now result.1
        (around (failures (ReadFails (R.failed reader.new) (R.reads reader.new)) ⊥
        (W.failed out.new ≡ true) (O.failed result.0 ≡ true))
        (E.said err.old) (E.said err.new) (R.remaining reader.old) (R.remaining reader.new)
        (W.contents out.old) (W.contents out.new) (O.made outputs) (O.made result.0)) }
{
    match FolderSink::open(alloc, outputs, template) {
        Ok(sink) => print_by::<O, R, W, E, Brand>(alloc, sink, front, reader, out, err),
        Err(unopened) => {
            let status = report(&unopened.error, err);
            (unopened.outputs, status)
        }
    }
}

/// Prints such a stream by a folder sink: where its outputs were made, and the status. The call's proof says which folder it is.
fn print_by<O: NamedOutputs + Drop, R: ReadDevice, W: WriteDevice, E: Teller, D: Folder>(
    alloc: Global,
    sink: FolderSink<O>,
    front: &[u8],
    reader: &mut R,
    out: &mut W,
    err: &mut E,
) -> (O, u8)
    requires names { name_parts sink ≡ D.parts }
    requires begun { O.made (outputs_of sink) ≡ D.begun }
    requires waits { O.waiting (outputs_of sink) ≡ D.waits }
    requires first { next_number sink ≡ 1 }
    requires faults { file_faults sink ≡ 0 }
    ensures flushed { result.1 ≡ 0 → W.waiting out.old ≡ false → W.waiting out.new ≡ false }
    ensures through { result.1 ≡ 0 → O.waiting result.0 ≡ D.waits }
    ensures prints { PrintsBy D.parts front.now result.1
        (around (failures (ReadFails (R.failed reader.new) (R.reads reader.new)) ⊥
        (W.failed out.new ≡ true) (O.failed result.0 ≡ true))
        (E.said err.old) (E.said err.new) (R.remaining reader.old) (R.remaining reader.new)
        (W.contents out.old) (W.contents out.new) D.begun (O.made result.0)) }
{
    let mut sheets: ToldFolder<O, D> = ToldFolder::new(sink);
    let (_, status) = print_answering::<R, ToldFolder<O, D>, W, E, Brand>(
        alloc,
        front,
        reader,
        &mut sheets,
        out,
        err,
    );
    (sheets.into_outputs(), status)
}

/// Prints such a stream to a sheet sink, and writes each reply to a writer that is lent, and goes back, with the status.
fn print_answering<'r, R: ReadDevice, S: SheetSink, W: WriteDevice, E: Teller, D: Waited>(
    alloc: Global,
    front: &[u8],
    reader: &mut R,
    sheets: &mut S,
    out: &'r mut W,
    err: &mut E,
) -> (&'r mut W, u8)
    requires name { out.ghost_name ≡ D.name }
    requires faults { (S.told sheets.old).faults < most_faults }
    requires waited { W.waiting out.old ≡ D.waited }
    ensures same { result.0.ghost_name ≡ out.entry.ghost_name }
    ensures sound { result.1 ≡ 0 → (S.told sheets.new).faults ≡ (S.told sheets.old).faults }
    ensures flushed { result.1 ≡ 0 → D.waited ≡ false → W.waiting result.0.now ≡ false }
    ensures prints { PrintsTo
        (failures (ReadFails (R.failed reader.new) (R.reads reader.new))
        ⊥ (W.failed result.0.now ≡ true) ⊤) result.1 front.now
        (change (E.said err.old) (E.said err.new))
        (change (R.remaining reader.old) (R.remaining reader.new))
        (change (S.told sheets.old) (S.told sheets.new))
        (change (W.contents out.old) (W.contents result.0.now)) }
{
    let lent: Lent<'r, W, D> = Lent::new(out);
    let (lent, status) = print_to::<R, S, Lent<'r, W, D>, E, D>(
        alloc, front, reader, sheets, lent, err,
    );
    (lent.into_inner(), status)
}

/// Prints such a stream to a sheet sink, and writes each reply when it is asked for. A fault stands on `err`. The answer has the writer of the
/// replies, and the status.
fn print_to<R: ReadDevice, S: SheetSink, W: WriteDevice + Drop, E: Teller, D: Waited>(
    alloc: Global,
    front: &[u8],
    reader: &mut R,
    sheets: &mut S,
    out: W,
    err: &mut E,
) -> (W, u8)
    requires faults { (S.told sheets.old).faults < most_faults }
    requires waited { W.waiting out ≡ D.waited }
    ensures sound { result.1 ≡ 0 → (S.told sheets.new).faults ≡ (S.told sheets.old).faults }
    ensures flushed { result.1 ≡ 0 → D.waited ≡ false → W.waiting result.0 ≡ false }
    ensures prints { PrintsTo
        (failures (ReadFails (R.failed reader.new) (R.reads reader.new))
        ⊥ (W.failed result.0 ≡ true) ⊤) result.1 front.now
        (change (E.said err.old) (E.said err.new))
        (change (R.remaining reader.old) (R.remaining reader.new))
        (change (S.told sheets.old) (S.told sheets.new))
        (change (W.contents out) (W.contents result.0)) }
{
    let mut replies: ThroughReplies<W, D> = ThroughReplies::new(out);
    let printed = print_behind(alloc, front, reader, 0, sheets, &mut replies);
    let status = told_status(&printed, err);
    (replies.into_inner(), status)
}
