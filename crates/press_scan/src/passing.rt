//! Commands of one byte each, passed over at once: text and control bytes of PCL, and bytes of another language.

ghost use Rattle.std.specs.Prelude.{◌≡◌, ◌≤◌, length, take, true, false};
ghost use Rattle.std.specs.List.{list_all};
ghost use Rattle.press_cmd.specs.Kinds.{kind_of};
ghost use Rattle.press_scan.specs.Modes.{mode_of};
ghost use Rattle.press_scan.specs.Passing.{is_plain, byte_command, ArePlain};

use crate::parser_state::ParserState;
use press_cmd::{ESCAPE, Kind};

/// Commands of one byte each that were passed over.
#[derive(Clone, Copy, Debug, PartialEq, Eq)]
pub struct Passed {
    /// How many: one at least.
    pub count: usize,
    /// The kind of the last of them.
    pub kind: Kind,
}

/// Whether a byte is a text byte, or with control bytes any but the escape character.
fn is_plain(controls: bool, byte: u8) -> bool
    ensures { result ≡ is_plain controls byte }
{
    if controls { byte != ESCAPE } else { 32 <= byte }
}

/// How many text bytes stand at the front.
fn text_length(bytes: &[u8]) -> usize
    ensures within { result ≤ length bytes.now }
    ensures plain { list_all (is_plain false) (take result bytes.now) ≡ true }
{
    for place in 0..bytes.len() {
        if !is_plain(false, bytes[place]) {
            return place;
        }
    }
    bytes.len()
}

/// How many bytes stand before the first escape character.
fn unescaped_length(bytes: &[u8]) -> usize
    ensures within { result ≤ length bytes.now }
    ensures plain { list_all (is_plain true) (take result bytes.now) ≡ true }
{
    for place in 0..bytes.len() {
        if !is_plain(true, bytes[place]) {
            return place;
        }
    }
    bytes.len()
}

/// How many bytes at the front are commands of one byte each that are passed over, in the mode in which they are scanned.
pub fn passed_prefix(mode: ParserState, controls: bool, bytes: &[u8]) -> usize
    ensures within { result ≤ length bytes.now }
    ensures plain { ArePlain controls (mode_of mode) (take result bytes.now) }
{
    match mode {
        ParserState::Pcl if !controls => text_length(bytes),
        ParserState::Pcl | ParserState::OtherLanguage => unescaped_length(bytes),
        _ => 0,
    }
}

/// The kind of the command that a byte other than the escape character is.
pub fn byte_kind(mode: ParserState, byte: u8) -> Kind
    ensures { result ≡ kind_of (byte_command (mode_of mode) byte) }
{
    match mode {
        ParserState::OtherLanguage => Kind::Foreign(byte),
        _ if byte < 32 => Kind::Control(byte),
        _ => Kind::Text(byte),
    }
}
