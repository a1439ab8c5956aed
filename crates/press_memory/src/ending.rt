//! Faults of calls over bytes in memory, as numbers (this profile).
ghost use Rattle.std.specs.Prelude.{◌≡◌};
ghost use Rattle.press_devices.specs.Reading.{ReadFails};
ghost use Rattle.press_devices.specs.Watching.{has_failed, reads_of};
ghost use Rattle.press_memory.specs.Faults.{fault_of, job_number, text_number, writer_number, EndsBy};

use crate::answer::{NO_FAULT, NO_MEMORY};
use press_devices::{READ_FAULT, Watched};
use press_files::JobFileError;
use press_forms::TextError;
use press_pbm::WRITE_FAULT;
use press_writer::WriterError;

/// The fault of a call over bytes in memory that ended with this status.
pub(crate) fn fault_after<R>(status: u8, reader: &Watched<R>) -> u32
    ensures { EndsBy status (ReadFails (has_failed reader.now) (reads_of reader.now)) result }
{
    if status == 0 {
        return NO_FAULT;
    }
    if reader.is_given_up() {
        return u32::from(READ_FAULT);
    }
    NO_MEMORY
}

/// A fault by its number; one that has none is that memory ran out.
pub(crate) fn fault_of(number: Option<u16>) -> u32
    ensures { result ≡ fault_of number }
{
    match number {
        Some(number) => u32::from(number),
        None => NO_MEMORY,
    }
}

/// The number of a text's fault.
pub(crate) fn text_number(error: &TextError) -> Option<u16>
    ensures { result ≡ text_number error.now }
{
    match error {
        TextError::Input(error) => error.number(),
        TextError::Refused(error) => error.number(),
        TextError::WriteFault => Some(WRITE_FAULT),
        TextError::NoOutput => None,
        TextError::NoMemory => None,
    }
}

/// The number of a job's fault.
pub(crate) fn job_number(error: &JobFileError) -> Option<u16>
    ensures { result ≡ job_number error.now }
{
    match error {
        JobFileError::Input(error) => error.number(),
        JobFileError::Ticket(error) => error.number(),
        JobFileError::Image(error) => error.number(),
        JobFileError::Writer(error) => error.number(),
        JobFileError::NoMemory => None,
    }
}

/// The number of the fault of a job that is written into memory, where a write fails because memory ran out.
pub(crate) fn writer_number(error: &WriterError) -> Option<u16>
    ensures { result ≡ writer_number error.now }
{
    match error {
        WriterError::WriteFault => None,
        _ => error.number(),
    }
}
