//! What the press tells of itself (PJL Technical Reference Manual, the INFO command).

ghost use Rattle.std.specs.Prelude.{◌≡◌, ◌++◌, OnOk};
ghost use Rattle.press_pjl.specs.Replies.{fact_name, fact_named, fact_text};

use crate::effect::Facts;
use crate::named::{Named, find_named};
use itoa::Buffer;
use std::alloc::AllocError;

/// What the press tells of itself.
///
/// Source: PJL Technical Reference Manual, the INFO command.
#[derive(Clone, Copy)]
pub(crate) enum Fact {
    Id,
    PageCount,
}

const FACTS: [Fact; 2] = [Fact::Id, Fact::PageCount];

impl Named for Fact {
    ghost spelled = { fact_name };

    fn name(&self) -> &'static [u8] {
        match self {
            Fact::Id => b"ID",
            Fact::PageCount => b"PAGECOUNT",
        }
    }
}

impl Fact {
    /// The fact of a name.
    pub(crate) fn of(name: &[u8]) -> Option<Fact>
        ensures { result ≡ fact_named name.now }
    {
        find_named(&FACTS, name)
    }

    /// Appends what is told.
    pub(crate) fn append(self, facts: &Facts, out: &mut Vec<u8>) -> Result<(), AllocError>
        ensures { OnOk result (out.new.items ≡ out.old.items ++ fact_text facts.now self) }
    {
        match self {
            Fact::Id => out.extend_from_slice(b"\"DIGITAL PRESS\""),
            Fact::PageCount => {
                let mut digits = Buffer::new();
                out.extend_from_slice(digits.format(facts.total).as_bytes())
            }
        }
    }
}
