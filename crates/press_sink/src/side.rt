//! Sides of sheets, and their outputs (Netpbm, the raw form of the PBM format).
ghost use Rattle.std.specs.Prelude.{◌≡◌, ◌∷◌, [], true, IfErr, OnOk, OnErr};
ghost use Rattle.press_sink.specs.Kept.{output_of_side};
ghost use Rattle.press_sink.specs.Outputs.{MakesOutputs};

use crate::fault::SinkError;
use crate::named_outputs::{NamedOutputs, write_page};
use press_bits::Bitmap;

/// A side of a sheet, and the name of its output.
#[derive(Drop)]
pub(crate) struct Side<'a> {
    pub(crate) page: &'a Bitmap,
    pub(crate) name: String,
}

/// Makes the output of a side.
pub(crate) fn make_side<O: NamedOutputs>(outputs: &mut O, side: &Side<'_>) -> Result<(), SinkError>
    ensures made { MakesOutputs result (output_of_side side.now ∷ [])
        (O.made outputs.old) (O.made outputs.new) }
    ensures fault { IfErr result (λ error. error ≡ SinkError.SinkFault) }
    ensures through { OnOk result (O.waiting outputs.new ≡ O.waiting outputs.old) }
    ensures stays { O.failed outputs.old ≡ true → O.failed outputs.new ≡ true }
    ensures cause { OnErr result (O.failed outputs.new ≡ true) }
{
    match write_page(outputs, side.name.as_str(), side.page) {
        Ok(()) => Ok(()),
        Err(_) => Err(SinkError::SinkFault),
    }
}
