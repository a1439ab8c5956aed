//! Members of objects, written to the end of a text.

ghost use Rattle.std.specs.Prelude.{◌≡◌, ◌++◌, OnOk, Some};
ghost use Rattle.serde_json.specs.Data.{number, unsigned};
ghost use Rattle.serde_json.specs.Find.{of_integer};
ghost use Rattle.press_trace.specs.Slots.{member_text};
ghost use Rattle.press_trace.specs.Texts.{text_of};

use crate::appending::{append_integer, append_key, append_number};
use std::alloc::{AllocError, Global};

/// Appends a member that is a whole number.
pub(crate) fn append_number_member(
    alloc: Global,
    later: bool,
    key: &str,
    count: u64,
    text: &mut Vec<u8>,
) -> Result<(), AllocError>
    requires { text_of key.now ≡ key.now }
    ensures { OnOk result (text.new.items
        ≡ text.old.items ++ member_text later key.now (Some (number (unsigned count)))) }
{
    append_key(alloc, later, key, text)?;
    append_number(count, text)
}

/// Appends a member that is an integer.
pub(crate) fn append_integer_member(
    alloc: Global,
    later: bool,
    key: &str,
    distance: i64,
    text: &mut Vec<u8>,
) -> Result<(), AllocError>
    requires { text_of key.now ≡ key.now }
    ensures { OnOk result (text.new.items
        ≡ text.old.items ++ member_text later key.now (Some (number (of_integer distance)))) }
{
    append_key(alloc, later, key, text)?;
    append_integer(distance, text)
}
