//! Why sheets and replies do not go out, and the numbers of these faults (this profile).
ghost use Rattle.std.specs.Prelude.{◌≡◌};
ghost use Rattle.press_sink.specs.Faults.{sink_number, reply_number, template_number};

use press_units::ToldFault;
use std::alloc::AllocError;
use std::error::Error;
use std::fmt;

/// The number of a sheet sink's fault.
pub const SINK_FAULT: u16 = 301;

/// The number of a reply sink's fault.
pub const REPLY_FAULT: u16 = 302;

/// The number of [`TemplateError::BadTemplate`].
const BAD_TEMPLATE: u16 = 121;

/// Why a sheet was not delivered.
#[derive(Debug, Drop)]
pub enum SinkError {
    /// The sink had a fault.
    SinkFault,
    NoMemory,
}

/// Why a reply was not written, or not all of it.
#[derive(Debug, Drop)]
pub enum ReplyError {
    /// The sink had a fault.
    ReplyFault,
    NoMemory,
}

/// Why a text is no template of file names.
#[derive(Debug, Drop)]
pub enum TemplateError {
    /// `%d` does not stand in it exactly once.
    BadTemplate,
    NoMemory,
}

impl SinkError {
    /// Its number: 301, unless memory ran out.
    pub fn number(&self) -> Option<u16>
        ensures { result ≡ sink_number self.now }
    {
        match self {
            SinkError::SinkFault => Some(SINK_FAULT),
            SinkError::NoMemory => None,
        }
    }
}

impl ReplyError {
    /// Its number: 302, unless memory ran out.
    pub fn number(&self) -> Option<u16>
        ensures { result ≡ reply_number self.now }
    {
        match self {
            ReplyError::ReplyFault => Some(REPLY_FAULT),
            ReplyError::NoMemory => None,
        }
    }
}

impl TemplateError {
    /// Its number: 121, unless memory ran out.
    pub fn number(&self) -> Option<u16>
        ensures { result ≡ template_number self.now }
    {
        match self {
            TemplateError::BadTemplate => Some(BAD_TEMPLATE),
            TemplateError::NoMemory => None,
        }
    }
}

impl fmt::Display for SinkError {
    ghost use Rattle.std.specs.Prelude.{Some};
    ghost use Rattle.press_units.specs.Faults.{fault_text};

    ghost output = { λ error. Some (fault_text (sink_number error)) };

    fn fmt<W: fmt::Write>(&self, f: &mut fmt::Formatter<W>) -> fmt::Result {
        write!(f, "{}", ToldFault(self.number()))
    }
}

impl Error for SinkError {}

impl fmt::Display for ReplyError {
    ghost use Rattle.std.specs.Prelude.{Some};
    ghost use Rattle.press_units.specs.Faults.{fault_text};

    ghost output = { λ error. Some (fault_text (reply_number error)) };

    fn fmt<W: fmt::Write>(&self, f: &mut fmt::Formatter<W>) -> fmt::Result {
        write!(f, "{}", ToldFault(self.number()))
    }
}

impl Error for ReplyError {}

impl fmt::Display for TemplateError {
    ghost use Rattle.std.specs.Prelude.{Some};
    ghost use Rattle.press_units.specs.Faults.{fault_text};

    ghost output = { λ error. Some (fault_text (template_number error)) };

    fn fmt<W: fmt::Write>(&self, f: &mut fmt::Formatter<W>) -> fmt::Result {
        write!(f, "{}", ToldFault(self.number()))
    }
}

impl Error for TemplateError {}

impl From<AllocError> for TemplateError {
    ghost use Rattle.std.specs.Prelude.{◌≡◌};
    ghost use Rattle.press_sink.specs.declared.fault.TemplateError.TheVariants.{NoMemory};

    ghost from_gives = { λ _ error. error ≡ NoMemory };

    fn from(_error: AllocError) -> TemplateError {
        TemplateError::NoMemory
    }
}
