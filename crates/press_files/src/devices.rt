//! What is around the program, beside what it reads.
ghost use Rattle.std.specs.Prelude.{◌≡◌};

use crate::named_inputs::NamedInputs;
use press_devices::{Teller, WriteDevice};
use press_sink::NamedOutputs;

/// Which devices are lent: those of a process, or of bytes in memory.
pub trait Platform {
    type Inputs: NamedInputs;

    type Outputs: NamedOutputs;

    type Out: WriteDevice;

    type Err: Teller;
}

impl<I: NamedInputs, O: NamedOutputs, W: WriteDevice, E: Teller> Platform for (I, O, W, E) {
    type Inputs = I;

    type Outputs = O;

    type Out = W;

    type Err = E;
}

/// The devices that are lent to each subcommand beside its reader: inputs by their names, outputs by their names, standard output and
/// standard error.
#[derive(Drop)]
pub struct Devices<P: Platform> {
    pub inputs: P::Inputs,
    pub outputs: P::Outputs,
    pub out: P::Out,
    pub err: P::Err,
}

impl<I: NamedInputs, O: NamedOutputs, W: WriteDevice, E: Teller> Devices<(I, O, W, E)> {
    /// These devices.
    pub fn new(inputs: I, outputs: O, out: W, err: E) -> Self
        ensures inputs { result.inputs ≡ inputs }
        ensures outputs { result.outputs ≡ outputs }
        ensures out { result.out ≡ out }
        ensures err { result.err ≡ err }
    {
        Devices {
            inputs,
            outputs,
            out,
            err,
        }
    }
}
