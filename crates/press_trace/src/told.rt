//! What a field tells.

ghost use Rattle.std.specs.Prelude.{◌≡◌, ◌++◌, OnOk, map};
ghost use Rattle.serde_json.specs.Data.{array};
ghost use Rattle.serde_json.specs.View.{items_of};
ghost use Rattle.serde_json.specs.Written.{compact_text};
ghost use Rattle.press_trace.specs.Told.{data_of, number_in, place_data, is_same};

use crate::appending::{append_comma, append_flag, append_integer, append_number};
use press_cursor::CursorPosition;
use std::alloc::AllocError;

/// What a field tells.
#[derive(Clone, Copy)]
pub enum Told<'a> {
    /// A whole number.
    Number(u64),
    /// Whether something is so.
    Flag(bool),
    /// Places of the cursor.
    Places(&'a [CursorPosition]),
    /// That there is no number.
    Nothing,
}

impl Told<'_> {
    /// Whether this tells the same.
    pub fn is_same(self, other: Told<'_>) -> bool
        ensures { result ≡ is_same self.entry other.entry }
    {
        match (self, other) {
            (Told::Number(one), Told::Number(two)) => one == two,
            (Told::Flag(one), Told::Flag(two)) => one == two,
            (Told::Places(one), Told::Places(two)) => one == two,
            (Told::Nothing, Told::Nothing) => true,
            _ => false,
        }
    }

    /// Appends what it tells.
    pub(crate) fn append(self, text: &mut Vec<u8>) -> Result<(), AllocError>
        ensures { OnOk result (text.new.items
            ≡ text.old.items ++ compact_text (data_of self.entry)) }
    {
        match self {
            Told::Number(number) => append_number(number, text),
            Told::Flag(flag) => append_flag(flag, text),
            Told::Places(places) => append_places(places, text),
            Told::Nothing => text.extend_from_slice(b"null"),
        }
    }
}

/// The number of an option, if there is one.
pub(crate) fn number_in(number: Option<u16>) -> Told<'static>
    ensures { result ≡ number_in number }
{
    match number {
        Some(number) => Told::Number(u64::from(number)),
        None => Told::Nothing,
    }
}

/// Appends a place as the array of its two distances.
fn append_place(place: CursorPosition, text: &mut Vec<u8>) -> Result<(), AllocError>
    ensures { OnOk result (text.new.items ≡ text.old.items ++ compact_text (place_data place)) }
{
    text.push(b'[')?;
    append_number(u64::from(place.x), text)?;
    text.push(b',')?;
    append_integer(place.y, text)?;
    text.push(b']')?;
    Ok(())
}

/// Appends places as an array.
fn append_places(places: &[CursorPosition], text: &mut Vec<u8>) -> Result<(), AllocError>
    ensures { OnOk result (text.new.items
        ≡ text.old.items ++ compact_text (array (items_of (map place_data places.now)))) }
{
    text.push(b'[')?;
    let mut later = false;
    for place in places {
        append_comma(later, text)?;
        append_place(*place, text)?;
        later = true;
    }
    text.push(b']')?;
    Ok(())
}
