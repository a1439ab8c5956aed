//! The commands that come most often, found at the front of bytes where they have come whole: parameters with a group, and control
//! bytes (PCL 5 Printer Language Technical Reference Manual, the syntax of escape sequences).

ghost use Rattle.std.specs.Prelude.{◌≡◌, ◌≤◌, ◌∷◌, ℕ, List, length, Bool, IfSome};
ghost use Rattle.press_cmd.specs.Grammar.{IsControl};
ghost use Rattle.press_cmd.specs.ParserState.{Pcl, Open};
ghost use Rattle.press_scan.specs.Modes.{mode_of, IsSettled};
ghost use Rattle.press_scan.specs.Peeks.{IsNextFound};
ghost use Rattle.press_scan.specs.Sequences.{IsWholePair};
ghost use Rattle.press_scan.specs.Stands.{IsFound};

use crate::awaited::first_pair;
use crate::field::field_length;
use crate::head::begins_pair;
use crate::pair::ending;
use crate::parser_state::{ParserState, Sequence};
use crate::reading::Found;
use press_cmd::{Command, ControlByte, Param, data_count, is_control};

/// The pair of a sequence at the front of the bytes, if it has come whole.
#[inline(always)]
fn whole_pair<'a>(sequence: Sequence, bytes: &'a [u8]) -> Option<Found<'a>>
    ensures { IfSome result (IsWholePair sequence.character sequence.group bytes.now) }
{
    let length = field_length(bytes);
    let (field, ahead) = bytes.split_at(length);
    let (byte, ahead) = ahead.split_first()?;
    let (end, mode) = ending(sequence, *byte)?;
    let count = data_count(sequence.character, Some(sequence.group), field, end);
    if ahead.len() < count {
        return None;
    }
    let param = Param::new(
        sequence.character,
        Some(sequence.group),
        field,
        end,
        &ahead[..count],
    );
    Some(Found {
        command: Command::Param(param),
        length: length + 1 + count,
        mode,
    })
}

/// The first pair of a sequence at the front of the bytes, if it has come whole.
#[inline(always)]
fn whole_sequence(bytes: &[u8]) -> Option<Found<'_>>
    ensures { IfSome result (IsFound Pcl bytes.now) }
{
    let (sequence, pair) = first_pair(bytes)?;
    let found = whole_pair(sequence, pair)?;
    Some(Found {
        command: found.command,
        length: found.length + 3,
        mode: found.mode,
    })
}

/// A further pair of a sequence at the front of the bytes, if it has come whole.
#[inline(always)]
fn further_pair<'a>(sequence: Sequence, bytes: &'a [u8]) -> Option<Found<'a>>
    requires { IsSettled (Open sequence.character sequence.group) bytes.now }
    ensures { IfSome result (IsFound (Open sequence.character sequence.group) bytes.now) }
{
    whole_pair(sequence, bytes)
}

/// The control byte of PCL that these bytes begin with.
#[inline(always)]
fn control_found<'a>(byte: u8) -> Found<'a>
    requires { IsControl byte }
    ensures { (bytes : List ℕ) → IsFound Pcl (byte ∷ bytes) result }
{
    Found {
        command: Command::Control(ControlByte::new(byte)),
        length: 1,
        mode: ParserState::Pcl,
    }
}

/// The parameter with a group, or the control byte, at the front of the bytes, if one has come whole.
#[inline(always)]
pub fn plain_at(mode: ParserState, bytes: &[u8]) -> Option<Found<'_>>
    ensures within { IfSome result (λ found. found.length ≤ length bytes.now) }
    ensures next { IfSome result (λ found. (ended : Bool)
        → IsNextFound (mode_of mode) bytes.now ended found) }
{
    let (first, _) = bytes.split_first()?;
    match mode {
        ParserState::Pcl if is_control(*first) => Some(control_found(*first)),
        ParserState::Pcl => whole_sequence(bytes),
        ParserState::Open(sequence) if begins_pair(*first) => further_pair(sequence, bytes),
        _ => None,
    }
}
