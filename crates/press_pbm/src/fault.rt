//! Why a P4 file was not read or written, and the numbers of these faults (this profile).
ghost use Rattle.std.specs.Prelude.{◌≡◌};
ghost use Rattle.press_pbm.specs.Faults.{fault_number, write_fault};

use press_bits::BlankError;
use press_units::ToldFault;
use std::error::Error;
use std::fmt;

/// The number of [`ReadPbmError::NotPbm`].
const NOT_PBM: u16 = 111;
/// That of [`ReadPbmError::BadSize`].
const BAD_SIZE: u16 = 112;
/// That of [`ReadPbmError::Truncated`].
const TRUNCATED: u16 = 113;
/// That of [`ReadPbmError::ReadFault`].
const READ_FAULT: u16 = 114;

/// The number of a fault at which an output cannot be made or written.
pub const WRITE_FAULT: u16 = 115;

/// Why no bitmap was read.
#[derive(Debug, Drop)]
pub enum ReadPbmError {
    /// No header of a P4 file begins as the input does.
    NotPbm,
    /// A side is 0 or above 16,384.
    BadSize,
    /// The input ends within the file.
    Truncated,
    /// A read failed.
    ReadFault,
    /// Memory ran out.
    NoMemory,
}

/// Why a bitmap was not written, or not all of it.
#[derive(Debug, Drop)]
pub enum WritePbmError {
    /// A write failed.
    WriteFault,
}

impl ReadPbmError {
    /// Its number: 111 to 114, unless memory ran out.
    pub fn number(&self) -> Option<u16>
        ensures { result ≡ fault_number self.now }
    {
        match self {
            ReadPbmError::NotPbm => Some(NOT_PBM),
            ReadPbmError::BadSize => Some(BAD_SIZE),
            ReadPbmError::Truncated => Some(TRUNCATED),
            ReadPbmError::ReadFault => Some(READ_FAULT),
            ReadPbmError::NoMemory => None,
        }
    }
}

impl WritePbmError {
    /// Its number: 115.
    pub fn number(&self) -> u16
        ensures { result ≡ write_fault }
    {
        match self {
            WritePbmError::WriteFault => WRITE_FAULT,
        }
    }
}

impl fmt::Display for ReadPbmError {
    ghost use Rattle.std.specs.Prelude.{Some};
    ghost use Rattle.press_units.specs.Faults.{fault_text};

    ghost output = { λ error. Some (fault_text (fault_number error)) };

    fn fmt<W: fmt::Write>(&self, f: &mut fmt::Formatter<W>) -> fmt::Result {
        write!(f, "{}", ToldFault(self.number()))
    }
}

impl Error for ReadPbmError {}

impl fmt::Display for WritePbmError {
    ghost use Rattle.std.specs.Prelude.{Some};
    ghost use Rattle.press_units.specs.Faults.{fault_text};

    ghost output = { λ error. Some (fault_text (Some write_fault)) };

    fn fmt<W: fmt::Write>(&self, f: &mut fmt::Formatter<W>) -> fmt::Result {
        write!(f, "{}", ToldFault(Some(self.number())))
    }
}

impl Error for WritePbmError {}

impl From<BlankError> for ReadPbmError {
    ghost use Rattle.std.specs.Prelude.{◌≡◌};
    ghost use Rattle.press_pbm.specs.Blank.{refusal_of};

    ghost from_gives = { λ blank error. error ≡ refusal_of blank };

    fn from(error: BlankError) -> ReadPbmError {
        match error {
            BlankError::BadSize => ReadPbmError::BadSize,
            BlankError::NoMemory => ReadPbmError::NoMemory,
        }
    }
}
