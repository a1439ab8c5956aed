//! The edge of the program, as clauses name it: of devices, and of a reader beside them. It stands in proofs alone.
ghost use Rattle.std.specs.Prelude.{ℕ};
ghost use Rattle.press_files.specs.Edge.{Edge, Inputs, Promise, devices_edge, edge, inputs_of};

use crate::devices::{Devices, Platform};
use press_devices::ReadDevice;

/// What is around the program where nothing is read.
pub trait Alone {
    ghost edge: { Self → Edge };

    /// That this holds with a status, from these devices to those behind a call.
    ghost holds: { Promise → ℕ → Self → Self → Type 0 };
}

impl<P: Platform> Alone for Devices<P> {
    ghost edge = { devices_edge P.Inputs.NamedInputs P.Outputs.NamedOutputs
        P.Out.WriteDevice P.Err.Teller };

    ghost holds = { let at = devices_edge P.Inputs.NamedInputs P.Outputs.NamedOutputs
        P.Out.WriteDevice P.Err.Teller in
        λ Holds status old new. Holds status (at old) (at new) };
}

/// What is around the program while it reads what `R` has, and its inputs by their names.
pub trait Around<R> {
    ghost edge: { R → Self → Edge };

    ghost inputs: { Self → Inputs };

    /// That this holds with a status, from a reader and devices to those behind a call: what the reader had and has left, and the
    /// devices before and after.
    ghost holds: { Promise → ℕ → R → R → Self → Self → Type 0 };

    /// The same of what is promised by the inputs, as they were.
    ghost holds_by_inputs: { (Inputs → Promise) → ℕ → R → R → Self → Self → Type 0 };
}

impl<P: Platform, R: ReadDevice> Around<R> for Devices<P> {
    ghost edge = { edge R.ReadDevice P.Inputs.NamedInputs P.Outputs.NamedOutputs
        P.Out.WriteDevice P.Err.Teller };

    ghost inputs = { inputs_of P.Inputs.Input.ReadDevice P.Inputs.NamedInputs };

    ghost holds = { let at = edge R.ReadDevice P.Inputs.NamedInputs P.Outputs.NamedOutputs
        P.Out.WriteDevice P.Err.Teller in
        λ Holds status had left old new. Holds status (at had old) (at left new) };

    ghost holds_by_inputs = { let at = edge R.ReadDevice P.Inputs.NamedInputs P.Outputs.NamedOutputs
        P.Out.WriteDevice P.Err.Teller in
        let inputs = inputs_of P.Inputs.Input.ReadDevice P.Inputs.NamedInputs in
        λ Holds status had left old new. Holds (inputs old) status (at had old) (at left new) };
}
