//! Kinds of commands, and why they are refused, as texts of JSON.

ghost use Rattle.std.specs.Prelude.{◌≡◌, ◌++◌, OnOk};
ghost use Rattle.press_trace.specs.Texts.{kind_data, refusal_word, refusal_data};
ghost use Rattle.serde_json.specs.Written.{compact_text};

use crate::appending::append_text;
use press_asm::write_kind;
use press_cmd::Kind;
use press_table::Refusal;
use std::alloc::{AllocError, Global};

/// Appends the kind of a command, as the assembly text spells it.
pub(crate) fn append_kind(alloc: Global, kind: Kind, text: &mut Vec<u8>) -> Result<(), AllocError>
    ensures { OnOk result (text.new.items ≡ text.old.items ++ compact_text (kind_data kind)) }
{
    let mut line = Vec::new(alloc);
    write_kind(kind, &mut line)?;
    append_text(alloc, &line, text)
}

/// The words of a reason why a command is refused.
pub fn refusal_word(refusal: Refusal) -> &'static [u8]
    ensures { result.now ≡ refusal_word refusal }
{
    match refusal {
        Refusal::HpGl => b"HP-GL/2",
        Refusal::Overlay => b"overlay",
        Refusal::NoRow => b"no row",
        Refusal::NoSuchValue => b"no such value",
    }
}

/// Appends why a command is refused.
pub(crate) fn append_refusal(
    alloc: Global,
    refusal: Refusal,
    text: &mut Vec<u8>,
) -> Result<(), AllocError>
    ensures { OnOk result (text.new.items
        ≡ text.old.items ++ compact_text (refusal_data refusal)) }
{
    append_text(alloc, refusal_word(refusal), text)
}
