//! Assembly text to bytes.
ghost use Rattle.std.specs.Prelude.{◌≡◌, IfOk, IfErr, OnOk, false, true};
ghost use Rattle.press_devices.specs.Reading.{ReadFails};
ghost use Rattle.press_forms.specs.Assembly.{Assembled, AssembledTo, TextRefused, StopsAssembling};
ghost use Rattle.press_forms.specs.Ends.{AssemblingOut};
ghost use Rattle.press_forms.specs.Causes.{TextCause};
ghost use Rattle.press_files.specs.Causes.{failures};

use press_asm::{AssembleError, assemble};
use press_devices::{
    NO_OUTPUT, ReadDevice, ReadFailed, Teller, WriteDevice, report, write_flushed,
};
use press_files::{Around, Devices, InputError, Platform, read_all};
use press_pbm::WRITE_FAULT;
use press_units::ToldFault;
use std::alloc::{AllocError, Global};
use std::error::Error;
use std::fmt;

/// Why an input was not assembled or disassembled.
#[derive(Debug, Drop)]
pub enum TextError {
    /// The input was not read to its end.
    Input(InputError),
    /// The text is refused.
    Refused(AssembleError),
    /// The stream of a text cannot be written, or its file not made.
    WriteFault,
    /// The text of a stream cannot be written.
    NoOutput,
    NoMemory,
}

impl fmt::Display for TextError {
    ghost use Rattle.press_forms.specs.Faults.{told_of_text};

    ghost output = { told_of_text };

    fn fmt<W: fmt::Write>(&self, f: &mut fmt::Formatter<W>) -> fmt::Result {
        match self {
            TextError::Input(error) => write!(f, "{error}"),
            TextError::Refused(error) => write!(f, "{error}"),
            TextError::WriteFault => write!(f, "{}", ToldFault(Some(WRITE_FAULT))),
            TextError::NoOutput => write!(f, "{NO_OUTPUT}"),
            TextError::NoMemory => write!(f, "{}", ToldFault(None)),
        }
    }
}

impl Error for TextError {}

impl From<InputError> for TextError {
    ghost use Rattle.std.specs.Prelude.{◌≡◌};
    ghost use Rattle.press_forms.specs.declared.assembly.TextError.TheVariants.{Input};

    ghost from_gives = { λ fault error. error ≡ Input fault };

    fn from(fault: InputError) -> TextError {
        TextError::Input(fault)
    }
}

impl From<ReadFailed> for TextError {
    ghost use Rattle.std.specs.Prelude.{◌≡◌};
    ghost use Rattle.press_files.specs.declared.inputs.InputError.TheVariants.{ReadFault};
    ghost use Rattle.press_forms.specs.declared.assembly.TextError.TheVariants.{Input};

    ghost from_gives = { λ _ error. error ≡ Input ReadFault };

    fn from(_fault: ReadFailed) -> TextError {
        TextError::Input(InputError::ReadFault)
    }
}

impl From<AllocError> for TextError {
    ghost use Rattle.std.specs.Prelude.{◌≡◌};
    ghost use Rattle.press_forms.specs.declared.assembly.TextError.TheVariants.{NoMemory};

    ghost from_gives = { λ _ error. error ≡ NoMemory };

    fn from(_error: AllocError) -> TextError {
        TextError::NoMemory
    }
}

/// The bytes of the assembly text that a reader has.
///
/// # Errors
///
/// 304 where it cannot be read; 401 to 403 of its first line that is none; `NoMemory`.
pub fn assembled<R: ReadDevice>(alloc: Global, reader: &mut R) -> Result<Vec<u8>, TextError>
    ensures ok { IfOk result (λ bytes.
        Assembled (R.remaining reader.old) (R.remaining reader.new) bytes.items) }
    ensures err { IfErr result (λ why.
        TextRefused (R.remaining reader.old) (R.remaining reader.new) why) }
    ensures cause { IfErr result (TextCause
        (failures (ReadFails (R.failed reader.new) (R.reads reader.new)) ⊥ ⊥ ⊥)) }
{
    let text = read_all(alloc, reader)?;
    assemble(alloc, &text).map_err(TextError::Refused)
}

/// Writes the bytes of the assembly text that a reader has to `out`.
fn assemble_to<R: ReadDevice, W: WriteDevice>(
    alloc: Global,
    reader: &mut R,
    out: &mut W,
) -> Result<(), TextError>
    ensures ok { OnOk result (AssembledTo (R.remaining reader.old) (R.remaining reader.new)
        (W.contents out.old) (W.contents out.new)) }
    ensures err { IfErr result (λ why.
        StopsAssembling (R.remaining reader.old) (R.remaining reader.new)
        (W.contents out.old) (W.contents out.new) why) }
    ensures flushed { OnOk result (W.waiting out.new ≡ false) }
    ensures cause { IfErr result (TextCause
        (failures (ReadFails (R.failed reader.new) (R.reads reader.new))
        ⊥ ⊥ (W.failed out.new ≡ true))) }
{
    let bytes = assembled(alloc, reader)?;
    write_flushed(out, &bytes).map_err(|_| TextError::WriteFault)
}

/// Writes the bytes of the assembly text that a reader has to standard output, and a fault to standard error. Of a text that is refused nothing
/// is written. The answer is the status: 0, and nothing waits in standard output, or 1 after a fault.
pub fn asm_text<R: ReadDevice, P: Platform>(
    alloc: Global,
    reader: &mut R,
    devices: &mut Devices<P>,
) -> u8
    ensures flushed { result ≡ 0 → P.Out.waiting devices.new.out ≡ false }
    ensures inputs { devices.new.inputs ≡ devices.old.inputs }
    ensures outputs { devices.new.outputs ≡ devices.old.outputs }
    ensures ended { ⟦<Devices<P> as Around<R>>⟧.holds AssemblingOut
        result reader.old reader.new devices.old devices.new }
{
    match assemble_to(alloc, reader, &mut devices.out) {
        Ok(()) => 0,
        Err(error) => report(&error, &mut devices.err),
    }
}
