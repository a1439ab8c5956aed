//! Inputs that are read whole.
ghost use Rattle.std.specs.Prelude.{◌≡◌, IfOk, IfErr, true};
ghost use Rattle.press_devices.specs.Reading.{ReadFails};
ghost use Rattle.press_files.specs.Causes.{InputCause};
ghost use Rattle.press_files.specs.Inputs.{ReadWhole};

use press_devices::{PIECE, READ_FAULT, ReadCount, ReadDevice, ReadFailed, read_next};
use press_units::ToldFault;
use std::alloc::{AllocError, Global};
use std::error::Error;
use std::fmt;

/// Why an input was not read to its end.
#[derive(Debug, Drop)]
pub enum InputError {
    /// It cannot be opened, a read failed, or there were too many.
    ReadFault,
    NoMemory,
}

impl InputError {
    ghost use Rattle.std.specs.Prelude.{◌≡◌};
    ghost use Rattle.press_files.specs.Faults.{input_number};

    /// Its number: 304, unless memory ran out.
    pub fn number(&self) -> Option<u16>
        ensures { result ≡ input_number self.now }
    {
        match self {
            InputError::ReadFault => Some(READ_FAULT),
            InputError::NoMemory => None,
        }
    }
}

impl fmt::Display for InputError {
    ghost use Rattle.press_files.specs.Faults.{input_text};
    ghost use Rattle.std.specs.Prelude.{Some};

    ghost output = { λ error. Some (input_text error) };

    fn fmt<W: fmt::Write>(&self, f: &mut fmt::Formatter<W>) -> fmt::Result {
        write!(f, "{}", ToldFault(self.number()))
    }
}

impl Error for InputError {}

impl From<ReadFailed> for InputError {
    ghost use Rattle.std.specs.Prelude.{◌≡◌};
    ghost use Rattle.press_files.specs.declared.inputs.InputError.TheVariants.{ReadFault};

    ghost from_gives = { λ _ error. error ≡ ReadFault };

    fn from(_fault: ReadFailed) -> InputError {
        InputError::ReadFault
    }
}

impl From<AllocError> for InputError {
    ghost use Rattle.std.specs.Prelude.{◌≡◌};
    ghost use Rattle.press_files.specs.declared.inputs.InputError.TheVariants.{NoMemory};

    ghost from_gives = { λ _ error. error ≡ NoMemory };

    fn from(_error: AllocError) -> InputError {
        InputError::NoMemory
    }
}

/// All that a reader has.
///
/// # Errors
///
/// `ReadFault` (304) where a read failed, or there were more than 4,294,967,295; `NoMemory`.
pub fn read_all<R: ReadDevice>(alloc: Global, reader: &mut R) -> Result<Vec<u8>, InputError>
    ensures whole { IfOk result (λ all.
        ReadWhole (R.remaining reader.old) (R.remaining reader.new) all.items) }
    ensures cause { IfErr result (InputCause
        (ReadFails (R.failed reader.new) (R.reads reader.new))) }
{
    let mut count = ReadCount::none();
    let mut piece = [0; PIECE];
    let mut all = Vec::new(alloc);
    loop {
        let length = read_next(reader, &mut piece, &mut count)?;
        if length == 0 {
            return Ok(all);
        }
        all.extend_from_slice(&piece[..length])?;
    }
}
