//! Why the table of breakpoints refuses something, the numbers of these refusals (this profile), and why a stream is not opened.
ghost use Rattle.std.specs.Prelude.{◌≡◌};
ghost use Rattle.press_debug.specs.Breaks.{refusal_number};

use press_devices::ReadFailed;
use press_units::ToldFault;
use std::alloc::AllocError;
use std::error::Error;
use std::fmt;

/// The number of `TooMany`.
const TOO_MANY: u16 = 501;

/// The number of `NoSuch`.
const NO_SUCH: u16 = 502;

/// Why a breakpoint was not set, or not cleared. Nothing changed.
#[derive(Clone, Copy, Debug, PartialEq, Eq)]
pub enum BreakError {
    /// No number is free.
    TooMany,
    /// No breakpoint stands at the number.
    NoSuch,
}

impl BreakError {
    /// Its number: 501 or 502.
    pub fn number(self) -> u16
        ensures { result ≡ refusal_number self }
    {
        match self {
            BreakError::TooMany => TOO_MANY,
            BreakError::NoSuch => NO_SUCH,
        }
    }
}

impl fmt::Display for BreakError {
    ghost use Rattle.std.specs.Prelude.{Some};
    ghost use Rattle.press_units.specs.Faults.{fault_text};

    ghost output = { λ refusal. Some (fault_text (Some (refusal_number refusal))) };

    fn fmt<W: fmt::Write>(&self, f: &mut fmt::Formatter<W>) -> fmt::Result {
        write!(f, "{}", ToldFault(Some(self.number())))
    }
}

impl Error for BreakError {}

/// Why the stream that a reader has was not opened. The callers tell it as what their own inputs answer: 304, or that memory ran out.
#[derive(Clone, Copy, Debug, PartialEq, Eq)]
pub enum OpenError {
    /// A read failed, or there were too many.
    ReadFault,
    NoMemory,
}

impl From<ReadFailed> for OpenError {
    ghost use Rattle.std.specs.Prelude.{◌≡◌};
    ghost use Rattle.press_debug.specs.declared.fault.OpenError.TheVariants.{ReadFault};

    ghost from_gives = { λ _ error. error ≡ ReadFault };

    fn from(_fault: ReadFailed) -> OpenError {
        OpenError::ReadFault
    }
}

impl From<AllocError> for OpenError {
    ghost use Rattle.std.specs.Prelude.{◌≡◌};
    ghost use Rattle.press_debug.specs.declared.fault.OpenError.TheVariants.{NoMemory};

    ghost from_gives = { λ _ error. error ≡ NoMemory };

    fn from(_error: AllocError) -> OpenError {
        OpenError::NoMemory
    }
}
