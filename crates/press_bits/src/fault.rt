//! Why no blank bitmap was made, and the number of this fault (this profile).
ghost use Rattle.std.specs.Prelude.{◌≡◌};
ghost use Rattle.press_bits.specs.Faults.{blank_number};

use press_units::ToldFault;
use thiserror::Error;

/// The number of [`BlankError::BadSize`].
const BAD_SIZE: u16 = 101;

/// Why no blank bitmap was made.
#[derive(Debug, Drop, Error)]
#[error("{}", ToldFault(self.number()))]
pub enum BlankError {
    /// A side is 0 or above [`crate::MAX_SIDE`].
    BadSize,
    /// Memory ran out.
    NoMemory,
}

impl BlankError {
    /// Its number: 101, unless memory ran out.
    pub fn number(&self) -> Option<u16>
        ensures { result ≡ blank_number self.now }
    {
        match self {
            BlankError::BadSize => Some(BAD_SIZE),
            BlankError::NoMemory => None,
        }
    }
}
