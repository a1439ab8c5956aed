//! Inputs that no output replaces.
ghost use Rattle.std.specs.Prelude.{◌≡◌, IfErr, OnOk};
ghost use Rattle.press_sink.specs.declared.fault.SinkError.TheVariants.{NoMemory, SinkFault};
ghost use Rattle.press_main.specs.Program.{PrintsAFile};
ghost use Rattle.press_words.specs.View.{request_seen};

use press_sink::{NamedOutputs, SinkError, is_side_name};
use press_words::{Input, Output, Request};

/// Notes the inputs of a request that makes files, so that none of these replaces one of them.
///
/// # Errors
///
/// `SinkFault` (301): the stream's file has the name of a side. `NoMemory`: they cannot be noted.
pub(crate) fn spare_inputs<O: NamedOutputs>(
    outputs: &mut O,
    request: &Request<'_>,
) -> Result<(), SinkError>
    ensures made { O.made outputs.new ≡ O.made outputs.old }
    ensures through { O.waiting outputs.new ≡ O.waiting outputs.old }
    ensures failed { O.failed outputs.new ≡ O.failed outputs.old }
    ensures own { IfErr result (λ error.
        error ≡ SinkFault → PrintsAFile (request_seen request.now)) }
    ensures spared { OnOk result (¬ (PrintsAFile (request_seen request.now))) }
{
    let Input::File(name) = request.input else {
        return Ok(());
    };
    match &request.output {
        Output::Files(_, template) if is_side_name(template, name) => Err(SinkError::SinkFault),
        Output::Files(_, _) | Output::Assembled(_) | Output::Page(_, _, _) => {
            spare(outputs, &[name])
        }
        Output::Job(_, images) => {
            spare(outputs, &[name])?;
            spare(outputs, images)
        }
        _ => Ok(()),
    }
}

/// Notes inputs by their names.
fn spare<O: NamedOutputs>(outputs: &mut O, names: &[&str]) -> Result<(), SinkError>
    ensures made { O.made outputs.new ≡ O.made outputs.old }
    ensures through { O.waiting outputs.new ≡ O.waiting outputs.old }
    ensures failed { O.failed outputs.new ≡ O.failed outputs.old }
    ensures memory { IfErr result (λ error. error ≡ NoMemory) }
{
    for name in names {
        if outputs.spare(name).is_err() {
            return Err(SinkError::NoMemory);
        }
    }
    Ok(())
}
