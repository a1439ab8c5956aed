//! The rectangle that a fill has (PCL 5 Printer Language Technical Reference Manual, Rectangular Area Fill Graphics).

ghost use Rattle.std.specs.Prelude.{◌≡◌};
ghost use Rattle.press_table.specs.Rectangle.{no_rectangle, size_of, dots_up};

use press_units::{Resolution, Unit, Value, to_pos};

/// The size of the rectangle that a fill paints, in positions (1/7200 inch).
///
/// Source: PCL 5 Printer Language Technical Reference Manual, Rectangular Area Fill Graphics.
#[derive(Clone, Copy, Debug, PartialEq, Eq)]
pub struct Rectangle {
    pub width: u32,
    pub height: u32,
}

impl Rectangle {
    /// No rectangle: both sizes are 0.
    pub(crate) fn none() -> Self
        ensures { result ≡ no_rectangle }
    {
        Rectangle {
            width: 0,
            height: 0,
        }
    }
}

/// The size that a value of so many units stands for, unless the value is negative.
pub(crate) fn size_of(value: Value, unit: Unit) -> Option<u32>
    ensures { result ≡ size_of value.tenthousandths unit.positions }
{
    if value.tenthousandths < 0 {
        None
    } else {
        Some(to_pos(value, unit).0.unsigned_abs() as u32)
    }
}

/// How many dots of a page a size takes, a begun one as a whole one.
pub(crate) fn dots_up(resolution: Resolution, size: u32) -> u32
    ensures { result ≡ dots_up resolution size }
{
    size.div_ceil(u32::from(resolution.positions_per_dot()))
}
