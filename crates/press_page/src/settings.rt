//! Motion indices, line termination, perforation skip and copies (PCL 5 Printer Language Technical Reference Manual,
//! the commands of these names).

ghost use Rattle.std.specs.Prelude.{◌≡◌, ◌<◌};
ghost use Rattle.press_page.specs.Settings.{measure_of, line_termination_of, terminated, horizontal_motion_of};
ghost use Rattle.press_page.specs.Settings.{vertical_motion_of, line_spacing_of, skip_change_of, copies_of, half_line};
ghost use Rattle.press_page.specs.Settings.{default_settings};

use press_units::{POSITIONS_PER_INCH, Unit, UnitOfMeasure, Value, to_pos};

/// The greatest horizontal motion index, in its unit.
const GREATEST_HORIZONTAL_MOTION: i64 = 840;

/// The greatest vertical motion index, in its unit.
const GREATEST_VERTICAL_MOTION: i64 = 336;

/// The most copies of a page. This range is this profile's.
pub const MOST_COPIES: u16 = 999;

/// The vertical motion index of six lines to the inch.
pub(crate) const DEFAULT_VERTICAL_MOTION: u16 = 1200;

/// The horizontal motion index of ten columns to the inch.
pub(crate) const DEFAULT_HORIZONTAL_MOTION: u16 = 720;

/// What belongs to the end of a line.
#[derive(Clone, Copy, Debug, PartialEq, Eq)]
pub struct LineTermination {
    /// Whether a carriage return is followed by a line feed.
    pub feed_after_return: bool,
    /// Whether a line feed and a form feed are preceded by a carriage return.
    pub return_before_feed: bool,
}

/// How commands measure, where lines end, and how many copies go out: what a macro call restores. Lengths are positions
/// (1/7200 inch).
#[derive(Clone, Copy, Debug, PartialEq, Eq)]
pub struct Settings {
    /// PCL units per inch.
    pub unit_of_measure: UnitOfMeasure,
    /// The horizontal motion index: the distance from one column to the next.
    pub horizontal_motion: u16,
    /// The vertical motion index: the distance from one line to the next.
    pub vertical_motion: u16,
    pub line_termination: LineTermination,
    /// Whether line feeds skip from the end of the text to the next page.
    pub perforation_skip: bool,
    /// How many times a sheet goes out.
    pub copies: u16,
}

/// The unit of measure of so many units per inch, where that is a legal one.
///
/// Source: PCL 5 Printer Language Technical Reference Manual, Unit of Measure command.
pub fn measure_of(number: i64) -> Option<UnitOfMeasure>
    ensures { result ≡ measure_of number }
{
    if number < 0 || number > i64::from(POSITIONS_PER_INCH) {
        return None;
    }
    UnitOfMeasure::new(number as u16)
}

/// What belongs to the end of a line.
fn terminated(feed_after_return: bool, return_before_feed: bool) -> LineTermination
    ensures { result ≡ terminated feed_after_return return_before_feed }
{
    LineTermination {
        feed_after_return,
        return_before_feed,
    }
}

/// The line termination that `ESC & k # G` names by a number.
///
/// Source: PCL 5 Printer Language Technical Reference Manual, Line Termination command.
pub fn line_termination_of(number: i64) -> Option<LineTermination>
    ensures { result ≡ line_termination_of number }
{
    match number {
        0 => Some(terminated(false, false)),
        1 => Some(terminated(true, false)),
        2 => Some(terminated(false, true)),
        3 => Some(terminated(true, true)),
        _ => None,
    }
}

/// The horizontal motion index that a value of 0 to 840 stands for, in 1/7200 inch.
///
/// Source: PCL 5 Printer Language Technical Reference Manual, Horizontal Motion Index command.
pub fn horizontal_motion_of(value: Value) -> Option<u16>
    ensures { result ≡ horizontal_motion_of value.tenthousandths }
{
    if value.tenthousandths < 0 || value.tenthousandths > 10_000 * GREATEST_HORIZONTAL_MOTION {
        return None;
    }
    Some(to_pos(value, Unit::horizontal_motion()).0.unsigned_abs() as u16)
}

/// The vertical motion index that a value of 0 to 336 stands for, in 1/7200 inch.
///
/// Source: PCL 5 Printer Language Technical Reference Manual, Vertical Motion Index command.
pub fn vertical_motion_of(value: Value) -> Option<u16>
    ensures { result ≡ vertical_motion_of value.tenthousandths }
{
    if value.tenthousandths < 0 || value.tenthousandths > 10_000 * GREATEST_VERTICAL_MOTION {
        return None;
    }
    Some(to_pos(value, Unit::vertical_motion()).0.unsigned_abs() as u16)
}

/// The vertical motion index under so many lines to the inch, in 1/7200 inch.
///
/// Source: PCL 5 Printer Language Technical Reference Manual, Line Spacing command.
pub fn line_spacing_of(number: i64) -> Option<u16>
    ensures { result ≡ line_spacing_of number }
{
    match number {
        1 => Some(7200),
        2 => Some(3600),
        3 => Some(2400),
        4 => Some(1800),
        6 => Some(1200),
        8 => Some(900),
        12 => Some(600),
        16 => Some(450),
        24 => Some(300),
        48 => Some(150),
        _ => None,
    }
}

/// The perforation skip that `ESC & l # L` asks for, where that is a change.
pub(crate) fn skip_change_of(number: i64, held: bool) -> Option<bool>
    ensures { result ≡ skip_change_of number held }
{
    if held && number == 0 {
        Some(false)
    } else if !held && number == 1 {
        Some(true)
    } else {
        None
    }
}

/// How many copies a number asks for: at least 1, and at most 999.
///
/// Source: PCL 5 Printer Language Technical Reference Manual, Number of Copies command.
pub fn copies_of(number: i64) -> Option<u16>
    ensures { result ≡ copies_of number }
{
    if number < 1 {
        None
    } else {
        Some(number.min(i64::from(MOST_COPIES)) as u16)
    }
}

impl Settings {
    /// The settings after a reset.
    pub(crate) fn defaults(copies: u16) -> Self
        ensures { result ≡ default_settings copies }
    {
        Settings {
            unit_of_measure: UnitOfMeasure::default(),
            horizontal_motion: DEFAULT_HORIZONTAL_MOTION,
            vertical_motion: DEFAULT_VERTICAL_MOTION,
            line_termination: terminated(false, false),
            perforation_skip: true,
            copies,
        }
    }

    /// Half a line, as a half-line feed moves.
    pub fn half_line(&self) -> u16
        ensures { result ≡ half_line self.now.vertical_motion }
    {
        self.vertical_motion / 2
    }
}
