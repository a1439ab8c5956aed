//! Why the queue refuses a command, and the return codes.

ghost use Rattle.std.specs.Prelude.{◌≡◌};
ghost use Rattle.press_queue.specs.Refusal.{return_code_of, submit_number};

use press_units::ToldFault;
use std::alloc::AllocError;
use std::error::Error;
use std::fmt;

/// Why the queue did not carry a command out. A refusal changes nothing.
#[derive(Clone, Copy, Debug, PartialEq, Eq)]
pub enum Refusal {
    /// No entry has this number.
    Unknown,
    /// The entry has a status at which the command is not legal.
    WrongStatus,
    /// The queue takes no new entries.
    Closed,
    /// The queue has as many entries as it may have, or gave its last number.
    Full,
    /// The priority is not one of 0 to 100.
    BadPriority,
    /// The position is not one of 0 to the number of entries less one.
    BadPosition,
    /// As many entries are in flight as may be.
    InFlightFull,
}

impl Refusal {
    /// The return code that a response to the command has.
    pub fn return_code(self) -> u8
        ensures { result ≡ return_code_of self }
    {
        match self {
            Refusal::Unknown => 21,
            Refusal::WrongStatus => 22,
            Refusal::Closed => 23,
            Refusal::Full => 24,
            Refusal::BadPriority => 25,
            Refusal::BadPosition => 26,
            Refusal::InFlightFull => 27,
        }
    }
}

impl fmt::Display for Refusal {
    ghost use Rattle.std.specs.Prelude.{Some};
    ghost use Rattle.press_units.specs.Faults.{fault_text};

    ghost output = { λ refusal. Some (fault_text (Some (return_code_of refusal))) };

    fn fmt<W: fmt::Write>(&self, f: &mut fmt::Formatter<W>) -> fmt::Result {
        write!(f, "{}", ToldFault(Some(u16::from(self.return_code()))))
    }
}

impl Error for Refusal {}

/// Why the queue did not take a new entry. Nothing changed.
#[derive(Debug, Drop)]
pub enum SubmitError {
    Refused(Refusal),
    /// Memory ran out.
    NoMemory,
}

impl SubmitError {
    /// Its number, the return code of the refusal; none where memory ran out.
    pub fn number(&self) -> Option<u16>
        ensures { result ≡ submit_number self.now }
    {
        match self {
            SubmitError::Refused(refusal) => Some(u16::from(refusal.return_code())),
            SubmitError::NoMemory => None,
        }
    }
}

impl fmt::Display for SubmitError {
    ghost use Rattle.std.specs.Prelude.{Some};
    ghost use Rattle.press_units.specs.Faults.{fault_text};

    ghost output = { λ error. Some (fault_text (submit_number error)) };

    fn fmt<W: fmt::Write>(&self, f: &mut fmt::Formatter<W>) -> fmt::Result {
        write!(f, "{}", ToldFault(self.number()))
    }
}

impl Error for SubmitError {}

impl From<Refusal> for SubmitError {
    ghost use Rattle.std.specs.Prelude.{◌≡◌};
    ghost use Rattle.press_queue.specs.declared.refusal.SubmitError.TheVariants.{Refused};

    ghost from_gives = { λ refusal error. error ≡ Refused refusal };

    fn from(refusal: Refusal) -> SubmitError {
        SubmitError::Refused(refusal)
    }
}

impl From<AllocError> for SubmitError {
    ghost use Rattle.std.specs.Prelude.{◌≡◌};
    ghost use Rattle.press_queue.specs.declared.refusal.SubmitError.TheVariants.{NoMemory};

    ghost from_gives = { λ _ error. error ≡ NoMemory };

    fn from(_error: AllocError) -> SubmitError {
        SubmitError::NoMemory
    }
}
