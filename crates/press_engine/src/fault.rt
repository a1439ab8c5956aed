//! Why the engine did not carry a command out, and the numbers of these faults (this profile).
ghost use Rattle.std.specs.Prelude.{◌≡◌};
ghost use Rattle.press_engine.specs.Faults.{fault_number};

use press_sink::{REPLY_FAULT, SINK_FAULT};
use press_units::ToldFault;
use std::error::Error;
use std::fmt;

/// The number of what an engine answers that had a fault before.
pub const FAILED: u16 = 303;

/// Why the engine did not carry a command out.
#[derive(Debug, Drop)]
pub enum EngineError {
    /// The sheet sink had a fault.
    SinkFault,
    /// The reply sink had a fault.
    ReplyFault,
    /// An earlier command of this engine had a fault.
    Failed,
    NoMemory,
}

impl EngineError {
    /// Its number: 301, 302 or 303, unless memory ran out.
    pub fn number(&self) -> Option<u16>
        ensures { result ≡ fault_number self.now }
    {
        match self {
            EngineError::SinkFault => Some(SINK_FAULT),
            EngineError::ReplyFault => Some(REPLY_FAULT),
            EngineError::Failed => Some(FAILED),
            EngineError::NoMemory => None,
        }
    }
}

impl fmt::Display for EngineError {
    ghost use Rattle.std.specs.Prelude.{Some};
    ghost use Rattle.press_units.specs.Faults.{fault_text};

    ghost output = { λ error. Some (fault_text (fault_number error)) };

    fn fmt<W: fmt::Write>(&self, f: &mut fmt::Formatter<W>) -> fmt::Result {
        write!(f, "{}", ToldFault(self.number()))
    }
}

impl Error for EngineError {}
