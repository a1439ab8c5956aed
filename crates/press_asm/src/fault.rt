//! Why a text is not assembled, and the numbers of these faults (this profile).
ghost use Rattle.std.specs.Prelude.{◌≡◌};
ghost use Rattle.press_asm.specs.Faults.{fault_number};

use press_units::ToldFault;
use std::alloc::AllocError;
use std::error::Error;
use std::fmt;

/// The number of [`AssembleError::BadLine`].
const BAD_LINE: u16 = 401;
/// That of [`AssembleError::BadValue`].
const BAD_VALUE: u16 = 402;
/// That of [`AssembleError::BadData`].
const BAD_DATA: u16 = 403;

/// Why a text is not assembled. Lines are counted from 1.
#[derive(Debug, Drop)]
pub enum AssembleError {
    /// The line has no form.
    BadLine(usize),
    /// The field of the line is no value field.
    BadValue(usize),
    /// The digits of the line are no bytes, its data is not as long as its value says, or it is no PJL line.
    BadData(usize),
    /// Memory ran out.
    NoMemory,
}

impl AssembleError {
    /// Its number: 401, 402 or 403, unless memory ran out.
    pub fn number(&self) -> Option<u16>
        ensures { result ≡ fault_number self.now }
    {
        match self {
            AssembleError::BadLine(_) => Some(BAD_LINE),
            AssembleError::BadValue(_) => Some(BAD_VALUE),
            AssembleError::BadData(_) => Some(BAD_DATA),
            AssembleError::NoMemory => None,
        }
    }
}

impl fmt::Display for AssembleError {
    ghost use Rattle.std.specs.Prelude.{Some};
    ghost use Rattle.press_asm.specs.Faults.{told_text};

    ghost output = { λ error. Some (told_text error) };

    fn fmt<W: fmt::Write>(&self, f: &mut fmt::Formatter<W>) -> fmt::Result {
        let fault = ToldFault(self.number());
        match self {
            AssembleError::BadLine(line)
            | AssembleError::BadValue(line)
            | AssembleError::BadData(line) => write!(f, "{fault} line {line}"),
            AssembleError::NoMemory => write!(f, "{fault}"),
        }
    }
}

impl Error for AssembleError {}

/// What is wrong with one line.
#[derive(Drop)]
pub enum LineFault {
    Line,
    Value,
    Data,
    NoMemory,
}

impl From<AllocError> for LineFault {
    ghost use Rattle.std.specs.Prelude.{◌≡◌};
    ghost use Rattle.press_asm.specs.declared.fault.LineFault.TheVariants.{NoMemory};

    ghost from_gives = { λ _ fault. fault ≡ NoMemory };

    fn from(_error: AllocError) -> LineFault {
        LineFault::NoMemory
    }
}

impl LineFault {
    ghost use Rattle.std.specs.Prelude.{◌≡◌};
    ghost use Rattle.press_asm.specs.Judged.{error_at};

    /// The error of a text whose line of this number has the fault.
    pub fn at(&self, number: usize) -> AssembleError
        ensures { result ≡ error_at self.now number }
    {
        match self {
            LineFault::Line => AssembleError::BadLine(number),
            LineFault::Value => AssembleError::BadValue(number),
            LineFault::Data => AssembleError::BadData(number),
            LineFault::NoMemory => AssembleError::NoMemory,
        }
    }
}
