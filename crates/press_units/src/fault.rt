//! What is told of a fault (this profile).
ghost use Rattle.std.specs.Prelude.{Some};
ghost use Rattle.press_units.specs.Faults.{fault_text};

use std::fmt;

/// What is told where memory ran out.
pub const NO_MEMORY: &str = "fault memory";

/// A fault as it is told: by its number; or, where it has none, that memory ran out.
#[derive(Clone, Copy, Debug, PartialEq, Eq)]
pub struct ToldFault(pub Option<u16>);

impl fmt::Display for ToldFault {
    ghost output = { λ fault. Some (fault_text fault.0) };

    fn fmt<W: fmt::Write>(&self, f: &mut fmt::Formatter<W>) -> fmt::Result {
        match self.0 {
            Some(number) => write!(f, "fault {number}"),
            None => f.write_str(NO_MEMORY),
        }
    }
}
