//! Margins and text length (PCL 5 Printer Language Technical Reference Manual, the margin commands and Text Length
//! command).

ghost use Rattle.std.specs.Prelude.{◌≡◌, ◌<◌, ◌^◌, unsigned_abs};
ghost use Rattle.press_units.specs.Value.{whole_part};
ghost use Rattle.press_page.specs.Margins.{text_room, default_text_length, default_margins, top_margin_of, text_length_of, left_margin_of, right_margin_of};

use crate::media::PageSetup;
use crate::numbers::{above, below, cut, within};
use press_units::{Unit, Value, position_of, to_pos};

/// The top margin after a reset: half an inch.
pub(crate) const DEFAULT_TOP: u32 = 3600;

/// The least room below the text by default: half an inch.
const DEFAULT_BOTTOM: u32 = 3600;

/// The margins and the text length, in positions (1/7200 inch).
#[derive(Clone, Copy, Debug, PartialEq, Eq)]
pub struct Margins {
    /// The distances of the left and the right margin from the left edge of the logical page.
    pub left: u32,
    pub right: u32,
    /// The distance of the top margin from the upper edge of the logical page.
    pub top: u32,
    /// How far below the top margin the text ends.
    pub text_length: u32,
}

/// The room for text on a page of this length, below the top margin.
fn text_room(length: u32, top: u32) -> u32
    ensures { result ≡ text_room length top }
{
    length.saturating_sub(top).saturating_sub(DEFAULT_BOTTOM)
}

/// The text length by default: as many whole lines as the page has room for, or all the room where lines have no height.
pub(crate) fn default_text_length(length: u32, top: u32, vertical_motion: u16) -> u32
    ensures { result ≡ default_text_length length top vertical_motion }
{
    let room = text_room(length, top);
    let line = u32::from(vertical_motion);
    if line == 0 {
        room
    } else {
        line * (room / line)
    }
}

/// The top margin that a value of lines stands for, where it lies on the page.
pub(crate) fn top_margin_of(value: Value, vertical_motion: u16, length: u32) -> Option<u32>
    ensures { result ≡ top_margin_of value.tenthousandths vertical_motion length }
{
    if vertical_motion == 0 {
        return None;
    }
    let line = Unit {
        positions: vertical_motion,
    };
    within(length, to_pos(value, line).0)
}

/// How many lines a value counts.
fn lines_of(value: Value) -> i64
    ensures lines { result ≡ whole_part value.tenthousandths }
    ensures bound { unsigned_abs result < 2 ^ 16 }
{
    value.whole()
}

/// The text length of so many lines, where the text ends on the page.
pub(crate) fn text_length_of(
    value: Value,
    vertical_motion: u16,
    top: u32,
    length: u32,
) -> Option<u32>
    ensures { result ≡ text_length_of (whole_part value.tenthousandths) vertical_motion top length }
{
    let lines = lines_of(value);
    if vertical_motion == 0 || lines < 1 {
        return None;
    }
    let text_length = lines as u32 * u32::from(vertical_motion);
    if u64::from(top) + u64::from(text_length) <= u64::from(length) {
        Some(text_length)
    } else {
        None
    }
}

/// The left margin that a value of columns stands for, where it is not negative and lies left of the right margin.
pub(crate) fn left_margin_of(value: Value, horizontal_motion: u16, right: u32) -> Option<u32>
    ensures { result ≡ left_margin_of value.tenthousandths horizontal_motion right }
{
    if value.tenthousandths < 0 {
        return None;
    }
    let column = Unit {
        positions: horizontal_motion,
    };
    below(right, to_pos(value, column).0.unsigned_abs() as u32)
}

/// The right margin behind a column, cut to the page, where it lies right of the left margin.
pub(crate) fn right_margin_of(
    value: Value,
    horizontal_motion: u16,
    left: u32,
    width: u32,
) -> Option<u32>
    ensures { result ≡ right_margin_of value.tenthousandths horizontal_motion left width }
{
    let behind = position_of(value.tenthousandths + 10_000, u32::from(horizontal_motion));
    above(left, cut(width, behind.0))
}

impl Margins {
    /// The margins after a reset.
    pub(crate) fn defaults(page_setup: PageSetup, vertical_motion: u16) -> Self
        ensures { result ≡ default_margins page_setup vertical_motion }
    {
        Margins {
            left: 0,
            right: page_setup.logical_width(),
            top: DEFAULT_TOP,
            text_length: default_text_length(
                page_setup.logical_length(),
                DEFAULT_TOP,
                vertical_motion,
            ),
        }
    }
}
