//! Why a text or a value is no ticket, and the numbers of these faults.

ghost use Rattle.std.specs.Prelude.{◌≡◌};
ghost use Rattle.press_ticket.specs.Faults.{fault_number};

use crate::key::Key;
use press_units::ToldFault;
use std::alloc::AllocError;
use std::error::Error;
use std::fmt;

/// The number of [`TicketError::NotJson`].
const NOT_JSON: u16 = 601;
/// That of [`TicketError::NotProfile`].
const NOT_PROFILE: u16 = 602;
/// That of [`TicketError::WrongProcess`].
const WRONG_PROCESS: u16 = 603;
/// That of [`TicketError::BadRange`].
const BAD_RANGE: u16 = 604;
/// That of [`TicketError::BadAmount`].
const BAD_AMOUNT: u16 = 605;

/// Why a text or a value is no ticket.
///
/// Source: the numbers are this profile's.
#[derive(Debug, Drop)]
pub enum TicketError {
    /// It is no JSON text, or no object.
    NotJson,
    /// This key is unknown, or absent, or has a value that it may not have.
    NotProfile(Key),
    /// The process is none that this press carries out.
    WrongProcess,
    /// The number of pages, or a page, is out of range, or there are too many pages.
    BadRange,
    /// The number of copies is out of range.
    BadAmount,
    /// Memory ran out.
    NoMemory,
}

impl TicketError {
    /// Its number, where it is a fault of the ticket.
    pub fn number(&self) -> Option<u16>
        ensures { result ≡ fault_number self.now }
    {
        match self {
            TicketError::NotJson => Some(NOT_JSON),
            TicketError::NotProfile(_) => Some(NOT_PROFILE),
            TicketError::WrongProcess => Some(WRONG_PROCESS),
            TicketError::BadRange => Some(BAD_RANGE),
            TicketError::BadAmount => Some(BAD_AMOUNT),
            TicketError::NoMemory => None,
        }
    }
}

/// The fault, and the key of one that has a key.
impl fmt::Display for TicketError {
    ghost use Rattle.press_ticket.specs.Faults.{told_text};

    ghost output = { told_text };

    fn fmt<W: fmt::Write>(&self, f: &mut fmt::Formatter<W>) -> fmt::Result {
        let fault = ToldFault(self.number());
        match self {
            TicketError::NotProfile(key) => write!(f, "{fault} key {key}"),
            _ => write!(f, "{fault}"),
        }
    }
}

impl Error for TicketError {}

impl From<AllocError> for TicketError {
    ghost use Rattle.std.specs.Prelude.{◌≡◌};
    ghost use Rattle.press_ticket.specs.declared.fault.TicketError.TheVariants.{NoMemory};

    ghost from_gives = { λ _ error. error ≡ NoMemory };

    fn from(_error: AllocError) -> TicketError {
        TicketError::NoMemory
    }
}
