//! Why no pattern was defined, and the numbers of these faults (this profile).
ghost use Rattle.std.specs.Prelude.{◌≡◌};
ghost use Rattle.press_pattern.specs.Faults.{define_number};

use press_units::ToldFault;
use std::alloc::AllocError;
use thiserror::Error;

/// The number of [`DefineError::BadHeader`].
const BAD_HEADER: u16 = 201;
/// That of [`DefineError::ShortData`].
const SHORT_DATA: u16 = 202;

/// Why no pattern was defined. The store is as it was.
#[derive(Debug, Drop, Error)]
#[error("{}", ToldFault(self.number()))]
pub enum DefineError {
    /// The data has fewer than 8 bytes, or does not begin with the header of a pattern of one bit a dot,
    /// with a height and a width above 0.
    BadHeader,
    /// The data ends before the last row.
    ShortData,
    /// Memory ran out.
    NoMemory,
}

impl DefineError {
    /// Its number: 201 or 202, unless memory ran out.
    pub fn number(&self) -> Option<u16>
        ensures { result ≡ define_number self.now }
    {
        match self {
            DefineError::BadHeader => Some(BAD_HEADER),
            DefineError::ShortData => Some(SHORT_DATA),
            DefineError::NoMemory => None,
        }
    }
}

impl From<AllocError> for DefineError {
    ghost use Rattle.press_pattern.specs.declared.fault.DefineError.TheVariants.{NoMemory};

    ghost from_gives = { λ _ error. error ≡ NoMemory };

    fn from(_error: AllocError) -> DefineError {
        DefineError::NoMemory
    }
}
