//! The number of the fault that a session tells (docs/FAULTS.md).
ghost use Rattle.std.specs.Prelude.{◌≢◌, ◌≡◌};
ghost use Rattle.press_memory.specs.Faults.{Tells};

use crate::answer::{NO_FAULT, NO_MEMORY};
use press_devices::Teller;
use press_words::number_in;
use std::fmt::{Display, InlineText};

/// As many bytes of a fault as its number needs.
const FRONT: usize = 64;

/// What stands before the number of a fault.
const FAULT: &[u8] = b"fault ";

/// The greatest number of a fault.
const MOST: u64 = 65_535;

/// A teller that keeps the front of what it is told last. What it is told, its clauses do not say.
#[derive(Drop)]
pub(crate) struct LastTold {
    front: InlineText<FRONT>,
}

impl LastTold {
    /// Nothing was told yet.
    pub(crate) fn nothing() -> Self {
        LastTold {
            front: InlineText::new(),
        }
    }

    /// The number of the fault that was told; that memory ran out, where that has none.
    fn number(&self) -> u32
        ensures { result ≢ 0 }
    {
        let Some(behind) = self.front.as_str().as_bytes().strip_prefix(FAULT) else {
            return NO_MEMORY;
        };
        let end = behind.iter().position(|byte| !byte.is_ascii_digit());
        let digits = &behind[..end.unwrap_or(behind.len())];
        let number = number_in(digits).unwrap_or(0);
        if number == 0 || number > MOST {
            return NO_MEMORY;
        }
        number as u32
    }

    /// The fault of a call that told it, and ended with this status.
    pub(crate) fn fault(&self, status: u8) -> u32
        ensures { Tells status result }
    {
        if status == 0 {
            return NO_FAULT;
        }
        self.number()
    }
}

impl Teller for LastTold {
    ghost use Rattle.std.specs.Prelude.{None};

    ghost said = { λ _. None };

    fn tell<D: Display>(&mut self, text: &D) {
        self.front = InlineText::of(text);
    }
}
