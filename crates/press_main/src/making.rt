//! Outputs that are made of a text, and of a ticket.
ghost use Rattle.std.specs.Prelude.{◌≡◌, true, IfErr, OnOk};
ghost use Rattle.press_devices.specs.Reading.{ReadFails};
ghost use Rattle.press_files.specs.Causes.{failures};
ghost use Rattle.press_files.specs.Change.{change};
ghost use Rattle.press_forms.specs.Causes.{TextCause};
ghost use Rattle.press_files.specs.JobCauses.{JobCause};
ghost use Rattle.press_forms.specs.Assembly.{AssembledInto, StopsMaking};
ghost use Rattle.press_files.specs.Jobs.{MakesAJob, MakesNoJob, MakesTheTicket, StopsMakingJob};
ghost use Rattle.press_files.specs.Edge.{inputs_called, lent_texts};
ghost use Rattle.press_forms.specs.Ends.{Assembling};
ghost use Rattle.press_files.specs.Ends.{Writing};

use press_bits::Bitmap;
use press_devices::{ReadDevice, Teller, WriteDevice, report};
use press_files::{Around, Devices, JobFileError, NamedInputs, Platform, images_named, ticket_in};
use press_forms::{TextError, assembled};
use press_printing::write_job;
use press_sink::{NamedOutputs, write_output};
use press_ticket::Ticket;
use press_writer::{WriterError, check};
use std::alloc::Global;

/// Makes the output of this name, which holds the bytes of the assembly text that a reader has, and writes a fault to standard error. Of a text
/// that is refused nothing is made. The answer is the status: 0, and nothing of it waits in the program, or 1 after a fault.
pub fn asm_file<R: ReadDevice, P: Platform>(
    alloc: Global,
    name: &str,
    reader: &mut R,
    devices: &mut Devices<P>,
) -> u8
    ensures inputs { devices.new.inputs ≡ devices.old.inputs }
    ensures out { devices.new.out ≡ devices.old.out }
    ensures through { result ≡ 0
        → P.Outputs.waiting devices.new.outputs ≡ P.Outputs.waiting devices.old.outputs }
    ensures ended { ⟦<Devices<P> as Around<R>>⟧.holds (Assembling name.now)
        result reader.old reader.new devices.old devices.new }
{
    match make_stream(alloc, reader, &mut devices.outputs, name) {
        Ok(()) => 0,
        Err(error) => report(&error, &mut devices.err),
    }
}

/// Makes the output of this name of the assembly text that a reader has.
fn make_stream<R: ReadDevice, O: NamedOutputs>(
    alloc: Global,
    reader: &mut R,
    outputs: &mut O,
    name: &str,
) -> Result<(), TextError>
    ensures ok { OnOk result (AssembledInto name.now (R.remaining reader.old)
        (R.remaining reader.new) (O.made outputs.old) (O.made outputs.new)) }
    ensures through { OnOk result (O.waiting outputs.new ≡ O.waiting outputs.old) }
    ensures err { IfErr result (λ why. StopsMaking name.now (R.remaining reader.old)
        (R.remaining reader.new) (O.made outputs.old) (O.made outputs.new) why) }
    ensures cause { IfErr result (TextCause
        (failures (ReadFails (R.failed reader.new) (R.reads reader.new))
        ⊥ ⊥ (O.failed outputs.new ≡ true))) }
{
    let bytes = assembled(alloc, reader)?;
    write_output(outputs, name, &bytes).map_err(|_| TextError::WriteFault)
}

/// Makes the output of this name, which holds the job of the ticket that a reader has, with the images of the inputs of these names
/// in the order of its pages, and writes a fault to standard error. Nothing is made before the images are found to fit. The answer is the
/// status: 0, and nothing of it waits in the program, or 1 after a fault.
pub fn job_file<T: ReadDevice, P: Platform>(
    alloc: Global,
    name: &str,
    names: &[&[u8]],
    ticket: &mut T,
    devices: &mut Devices<P>,
) -> u8
    ensures inputs { devices.new.inputs ≡ devices.old.inputs }
    ensures out { devices.new.out ≡ devices.old.out }
    ensures through { result ≡ 0
        → P.Outputs.waiting devices.new.outputs ≡ P.Outputs.waiting devices.old.outputs }
    ensures ended { ⟦<Devices<P> as Around<T>>⟧.holds_by_inputs
        (Writing name.now (lent_texts names.now)) result
        ticket.old ticket.new devices.old devices.new }
{
    let Devices {
        inputs,
        outputs,
        err,
        ..
    } = devices;
    match make_ticket(alloc, ticket, inputs, names, outputs, name) {
        Ok(()) => 0,
        Err(error) => report(&error, err),
    }
}

/// Makes the output of this name of the ticket that a reader has, with the images of these inputs.
fn make_ticket<T: ReadDevice, I: NamedInputs, O: NamedOutputs>(
    alloc: Global,
    ticket: &mut T,
    inputs: &I,
    names: &[&[u8]],
    outputs: &mut O,
    name: &str,
) -> Result<(), JobFileError>
    ensures ok { OnOk result (MakesTheTicket name.now
        (T.remaining ticket.old) (T.remaining ticket.new)
        (inputs_called I.Input.ReadDevice I.NamedInputs inputs.now names.now)
        (O.made outputs.old) (O.made outputs.new)) }
    ensures through { OnOk result (O.waiting outputs.new ≡ O.waiting outputs.old) }
    ensures err { IfErr result (λ why. StopsMakingJob name.now (T.remaining ticket.old)
        (T.remaining ticket.new)
        (inputs_called I.Input.ReadDevice I.NamedInputs inputs.now names.now)
        (change (O.made outputs.old) (O.made outputs.new)) why) }
    ensures cause { IfErr result (JobCause
        (failures (ReadFails (T.failed ticket.new) (T.reads ticket.new))
        ⊥ ⊥ (O.failed outputs.new ≡ true))
        (T.remaining ticket.old) (T.remaining ticket.new)
        (inputs_called I.Input.ReadDevice I.NamedInputs inputs.now names.now)) }
{
    let ticket = ticket_in(alloc, ticket)?;
    let images = images_named(alloc, inputs, names)?;
    match make_job(alloc, &ticket, &images, outputs, name) {
        Ok(()) => Ok(()),
        Err(error) => Err(JobFileError::Writer(error)),
    }
}

/// Makes the output of this name of the job of a ticket with these images, once they are found to fit.
fn make_job<O: NamedOutputs>(
    alloc: Global,
    ticket: &Ticket,
    images: &[Bitmap],
    outputs: &mut O,
    name: &str,
) -> Result<(), WriterError>
    ensures ok { OnOk result (MakesAJob name.now ticket.now images.now
        (O.made outputs.old) (O.made outputs.new)) }
    ensures through { OnOk result (O.waiting outputs.new ≡ O.waiting outputs.old) }
    ensures err { IfErr result (λ why. MakesNoJob name.now ticket.now images.now
        (O.made outputs.old) (O.made outputs.new) why) }
    ensures cause { IfErr result (λ error.
        error ≡ WriterError.WriteFault → O.failed outputs.new ≡ true) }
{
    check(ticket, images)?;
    let Ok(mut output) = outputs.make(name) else {
        return Err(WriterError::WriteFault);
    };
    if let Err(error) = write_job(alloc, ticket, images, &mut output) {
        outputs.abandon(output);
        return Err(error);
    }
    if outputs.close(output).is_err() {
        return Err(WriterError::WriteFault);
    }
    Ok(())
}
