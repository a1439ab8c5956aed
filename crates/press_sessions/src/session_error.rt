//! Why sessions with a press end early (this profile).
use press_core::{BadEngines, TurnError};
use press_devices::NO_OUTPUT;
use press_files::{InputError, JobFileError};
use press_pbm::ReadPbmError;
use press_sink::TemplateError;
use press_units::ToldFault;
use std::alloc::AllocError;
use std::error::Error;
use std::{fmt, io};

/// Why a session ended early.
#[derive(Debug, Drop)]
pub enum SessionError {
    /// No press has so many engines.
    Engines(BadEngines),
    /// The text that is to name the files is no template of them.
    Template(TemplateError),
    /// The file or an image of a message cannot be opened or read, or an image is refused; or the lines cannot be read.
    File(JobFileError),
    /// A turn had a fault, or is of an engine that there is not.
    Turn(TurnError),
    /// An answer or the listing cannot be written.
    Output(io::Error),
    NoMemory,
}

impl fmt::Display for SessionError {
    ghost use Rattle.press_sessions.specs.Faults.{told_of_session};

    ghost output = { told_of_session };

    fn fmt<W: fmt::Write>(&self, f: &mut fmt::Formatter<W>) -> fmt::Result {
        match self {
            SessionError::Engines(error) => write!(f, "{error}"),
            SessionError::Template(error) => write!(f, "{error}"),
            SessionError::File(error) => write!(f, "{error}"),
            SessionError::Turn(error) => write!(f, "{error}"),
            SessionError::Output(_) => write!(f, "{NO_OUTPUT}"),
            SessionError::NoMemory => write!(f, "{}", ToldFault(None)),
        }
    }
}

impl Error for SessionError {}

impl SessionError {
    ghost use Rattle.std.specs.Prelude.{◌≡◌};
    ghost use Rattle.press_sessions.specs.Sessions.{is_of_line};

    /// Whether it is a fault of a line: of its file, of an image, or of an engine that there is not. No device failed then but an input of
    /// the line, and memory was there.
    pub(crate) fn is_of_line(&self) -> bool
        ensures { result ≡ is_of_line self.now }
    {
        match self {
            SessionError::File(JobFileError::Input(InputError::ReadFault)) => true,
            SessionError::File(JobFileError::Image(ReadPbmError::NoMemory)) => false,
            SessionError::File(JobFileError::Image(_)) => true,
            SessionError::Turn(TurnError::NoEngine) => true,
            _ => false,
        }
    }
}

impl From<BadEngines> for SessionError {
    ghost use Rattle.std.specs.Prelude.{◌≡◌};
    ghost use Rattle.press_sessions.specs.declared.session_error.SessionError.TheVariants.{Engines};

    ghost from_gives = { λ fault error. error ≡ Engines fault };

    fn from(fault: BadEngines) -> SessionError {
        SessionError::Engines(fault)
    }
}

impl From<TemplateError> for SessionError {
    ghost use Rattle.std.specs.Prelude.{◌≡◌};
    ghost use Rattle.press_sessions.specs.declared.session_error.SessionError.TheVariants.{Template};

    ghost from_gives = { λ fault error. error ≡ Template fault };

    fn from(fault: TemplateError) -> SessionError {
        SessionError::Template(fault)
    }
}

impl From<InputError> for SessionError {
    ghost use Rattle.std.specs.Prelude.{◌≡◌};
    ghost use Rattle.press_sessions.specs.declared.session_error.SessionError.TheVariants.{File};
    ghost use Rattle.press_files.specs.declared.jobs.JobFileError.TheVariants.{Input};

    ghost from_gives = { λ fault error. error ≡ File (Input fault) };

    fn from(fault: InputError) -> SessionError {
        SessionError::File(JobFileError::Input(fault))
    }
}

impl From<JobFileError> for SessionError {
    ghost use Rattle.std.specs.Prelude.{◌≡◌};
    ghost use Rattle.press_sessions.specs.declared.session_error.SessionError.TheVariants.{File};

    ghost from_gives = { λ fault error. error ≡ File fault };

    fn from(fault: JobFileError) -> SessionError {
        SessionError::File(fault)
    }
}

impl From<TurnError> for SessionError {
    ghost use Rattle.std.specs.Prelude.{◌≡◌};
    ghost use Rattle.press_sessions.specs.Sessions.{stopped_by};

    ghost from_gives = { λ fault error. error ≡ stopped_by fault };

    fn from(fault: TurnError) -> SessionError {
        match fault {
            TurnError::NoMemory => SessionError::NoMemory,
            fault => SessionError::Turn(fault),
        }
    }
}

impl From<io::Error> for SessionError {
    ghost use Rattle.std.specs.Prelude.{◌≡◌};
    ghost use Rattle.press_sessions.specs.declared.session_error.SessionError.TheVariants.{Output};

    ghost from_gives = { λ fault error. error ≡ Output fault };

    fn from(fault: io::Error) -> SessionError {
        SessionError::Output(fault)
    }
}

impl From<AllocError> for SessionError {
    ghost use Rattle.std.specs.Prelude.{◌≡◌};
    ghost use Rattle.press_sessions.specs.declared.session_error.SessionError.TheVariants.{NoMemory};

    ghost from_gives = { λ _ error. error ≡ NoMemory };

    fn from(_error: AllocError) -> SessionError {
        SessionError::NoMemory
    }
}
