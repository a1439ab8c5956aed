//! Why the telling of a trace ended early, and what is told of it (this profile).

use press_devices::{NO_OUTPUT, READ_FAULT, ReadFailed};
use press_units::ToldFault;
use std::alloc::AllocError;
use std::error::Error;
use std::{fmt, io};

/// Why the telling of a trace ended early.
#[derive(Debug, Drop)]
pub enum TraceError {
    /// A read failed, or there were too many.
    ReadFault,
    /// A line cannot be written, or what was written does not go out of the program.
    Output(io::Error),
    NoMemory,
}

impl fmt::Display for TraceError {
    ghost use Rattle.std.specs.Prelude.{Some};
    ghost use Rattle.press_trace.specs.Faults.{told_text};

    ghost output = { λ error. Some (told_text error) };

    fn fmt<W: fmt::Write>(&self, f: &mut fmt::Formatter<W>) -> fmt::Result {
        match self {
            TraceError::ReadFault => write!(f, "{}", ToldFault(Some(READ_FAULT))),
            TraceError::Output(_) => write!(f, "{NO_OUTPUT}"),
            TraceError::NoMemory => write!(f, "{}", ToldFault(None)),
        }
    }
}

impl Error for TraceError {}

impl From<ReadFailed> for TraceError {
    ghost use Rattle.std.specs.Prelude.{◌≡◌};
    ghost use Rattle.press_trace.specs.declared.fault.TraceError.TheVariants.{ReadFault};

    ghost from_gives = { λ _ error. error ≡ ReadFault };

    fn from(_fault: ReadFailed) -> TraceError {
        TraceError::ReadFault
    }
}

impl From<io::Error> for TraceError {
    ghost use Rattle.std.specs.Prelude.{◌≡◌};
    ghost use Rattle.press_trace.specs.declared.fault.TraceError.TheVariants.{Output};

    ghost from_gives = { λ fault error. error ≡ Output fault };

    fn from(fault: io::Error) -> TraceError {
        TraceError::Output(fault)
    }
}

impl From<AllocError> for TraceError {
    ghost use Rattle.std.specs.Prelude.{◌≡◌};
    ghost use Rattle.press_trace.specs.declared.fault.TraceError.TheVariants.{NoMemory};

    ghost from_gives = { λ _ error. error ≡ NoMemory };

    fn from(_error: AllocError) -> TraceError {
        TraceError::NoMemory
    }
}
