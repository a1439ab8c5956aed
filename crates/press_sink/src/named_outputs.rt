//! Outputs that are made by their names, one after another (this profile).
ghost use Rattle.std.specs.Prelude.{◌≡◌, ◌∷◌, ◌||◌, [], true, List, Option, Bool, option_map, IfOk, OnOk, OnErr};
ghost use Rattle.press_devices.specs.Failing.{failed_with};
ghost use Rattle.press_pbm.specs.Spelling.{file_of};
ghost use Rattle.press_sink.specs.Outputs.{MadeOutput, MakesPrefix, Closes, GivesUp, opened, holding, with_outputs};

use press_bits::Bitmap;
use press_devices::{WriteDevice, write_whole};
use press_pbm::{WritePbmError, write_pbm};
use std::alloc::AllocError;
use std::io;

/// Where outputs are made by their names, one after another. What stood under the name of an output before is replaced when it is whole.
/// No output is an input: what an input has stays as it is, whatever is made.
pub trait NamedOutputs {
    /// What was made, in order, where that is known.
    ghost made: { Self → Option (List MadeOutput) };

    /// Whether making, writing or closing one failed or was interrupted so far; true also where that is not known.
    ghost failed: { Self → Bool };

    /// Whether bytes that were written to outputs which are not open any more may wait in the program.
    ghost waiting: { Self → Bool };

    /// An output that is open.
    type Output: WriteDevice + Drop;

    /// Notes an input by its name: an output that would replace it, as far as that can be told, cannot be made.
    ///
    /// # Errors
    ///
    /// Where there is no memory to note it.
    fn spare(&mut self, input: &str) -> Result<(), AllocError>
        ensures made { made self.new ≡ made self.old }
        ensures failed { failed self.new ≡ failed self.old }
        ensures waiting { waiting self.new ≡ waiting self.old };

    /// Makes the output of this name, which holds nothing yet.
    ///
    /// # Errors
    ///
    /// Where it cannot be made; nothing was made then.
    fn make(&mut self, name: &str) -> io::Result<Self::Output>
        ensures made { OnOk result
            (made self.new ≡ with_outputs (opened name.now ∷ []) (made self.old)) }
        ensures empty { IfOk result (λ output.
            Self.Output.contents output ≡ option_map (λ _. []) (made self.old)) }
        ensures fault { OnErr result (made self.new ≡ made self.old) }
        ensures failed { failed self.new ≡ failed_with (failed self.old) result }
        ensures waiting { waiting self.new ≡ waiting self.old };

    /// Closes the output that was made last. It holds what was written to it, of which nothing waits.
    ///
    /// # Errors
    ///
    /// Where what was written does not come through; the output holds a prefix of it then.
    fn close(&mut self, output: Self::Output) -> io::Result<()>
        ensures closes { Closes result (Self.Output.contents output)
            (made self.old) (made self.new) }
        ensures failed { failed self.new
            ≡ failed_with (failed self.old || Self.Output.failed output) result }
        ensures through { OnOk result (waiting self.new ≡ waiting self.old) };

    /// Gives up the output that was made last, which is not whole. It holds a prefix of what was written to it, or is removed where
    /// nothing tells of it.
    fn abandon(&mut self, output: Self::Output)
        ensures gives { GivesUp (Self.Output.contents output) (made self.old) (made self.new) }
        ensures failed { failed self.new ≡ (failed self.old || Self.Output.failed output) };
}

/// Makes the output of this name, which holds these bytes.
///
/// # Errors
///
/// Where it cannot be made or written; a prefix of it was made then.
pub fn write_output<O: NamedOutputs>(outputs: &mut O, name: &str, bytes: &[u8]) -> io::Result<()>
    ensures made { OnOk result (O.made outputs.new
        ≡ with_outputs (holding name.now bytes.now ∷ []) (O.made outputs.old)) }
    ensures fault { OnErr result (MakesPrefix (holding name.now bytes.now ∷ [])
        (O.made outputs.old) (O.made outputs.new)) }
    ensures through { OnOk result (O.waiting outputs.new ≡ O.waiting outputs.old) }
    ensures stays { O.failed outputs.old ≡ true → O.failed outputs.new ≡ true }
    ensures cause { OnErr result (O.failed outputs.new ≡ true) }
{
    let mut output = outputs.make(name)?;
    match write_whole(&mut output, bytes) {
        Ok(()) => outputs.close(output),
        Err(error) => {
            outputs.abandon(output);
            Err(error)
        }
    }
}

/// Makes the output of this name, the P4 file of a page.
///
/// # Errors
///
/// `WriteFault` (115) where it cannot be made or written; a prefix of it was made then.
///
/// Source: Netpbm, the raw form of the PBM format.
pub fn write_page<O: NamedOutputs>(
    outputs: &mut O,
    name: &str,
    page: &Bitmap,
) -> Result<(), WritePbmError>
    ensures made { OnOk result (O.made outputs.new
        ≡ with_outputs (holding name.now (file_of page.now) ∷ []) (O.made outputs.old)) }
    ensures fault { OnErr result (MakesPrefix (holding name.now (file_of page.now) ∷ [])
        (O.made outputs.old) (O.made outputs.new)) }
    ensures through { OnOk result (O.waiting outputs.new ≡ O.waiting outputs.old) }
    ensures stays { O.failed outputs.old ≡ true → O.failed outputs.new ≡ true }
    ensures cause { OnErr result (O.failed outputs.new ≡ true) }
{
    let Ok(mut output) = outputs.make(name) else {
        return Err(WritePbmError::WriteFault);
    };
    if let Err(error) = write_pbm(page, &mut output) {
        outputs.abandon(output);
        return Err(error);
    }
    match outputs.close(output) {
        Ok(()) => Ok(()),
        Err(_) => Err(WritePbmError::WriteFault),
    }
}
