//! The stream of an assembly text in memory.
ghost use Rattle.press_memory.specs.Written.{StreamOf};

use crate::answer::{NO_FAULT, Written};
use crate::ending::{fault_of, text_number};
use press_devices::Watched;
use press_forms::assembled;
use std::alloc::Global;

/// The stream of an assembly text.
pub(crate) fn stream(alloc: Global, text: &[u8]) -> Written
    ensures { StreamOf text.now result.fault result.bytes.items }
{
    let mut reader = Watched::new(text);
    match assembled(alloc, &mut reader) {
        Ok(bytes) => Written {
            fault: NO_FAULT,
            bytes,
        },
        Err(error) => Written::nothing(alloc, fault_of(text_number(&error))),
    }
}
