//! What marks are made with: the rectangle, the pattern, the modes, raster graphics (PCL 5 Printer Language Technical
//! Reference Manual, the commands of these names).

ghost use Rattle.std.specs.Prelude.{◌≡◌};
ghost use Rattle.press_units.specs.Value.{whole_part};
ghost use Rattle.press_table.specs.Drawing.{initial_drawing, set_rectangle_width, set_rectangle_height, set_pattern_id};
ghost use Rattle.press_table.specs.Drawing.{is_opaque, set_source_transparency, set_pattern_transparency};

use crate::rectangle::{Rectangle, size_of};
use press_bits::Mode;
use press_pattern::{Pattern, PatternKind};
use press_raster::RasterSettings;
use press_units::{Unit, Value};

/// The greatest pattern ID.
pub(crate) const GREATEST_PATTERN_ID: i64 = 32_767;

/// How marks are made: what is set beside the page environment.
///
/// Source: PCL 5 Printer Language Technical Reference Manual, The PCL Print Model, Raster Graphics, and Rectangular Area Fill
/// Graphics.
#[derive(Clone, Copy, Debug)]
pub struct Drawing {
    /// The rectangle that a fill paints.
    pub rectangle: Rectangle,
    /// The ID under which patterns are defined, selected and filled with.
    pub pattern_id: u16,
    /// The current pattern.
    pub pattern: Pattern,
    /// Whether white dots of source and pattern are opaque.
    pub mode: Mode,
    /// What raster graphics is set to.
    pub raster: RasterSettings,
}

/// Whether white dots are opaque, by the number of a transparency command: 0 says no, 1 says yes.
pub(crate) fn is_opaque(number: i64) -> Option<bool>
    ensures { result ≡ is_opaque number }
{
    match number {
        0 => Some(false),
        1 => Some(true),
        _ => None,
    }
}

impl Drawing {
    /// No rectangle, pattern ID 0, solid black, both white dots transparent, raster graphics as after power on.
    pub(crate) fn initial() -> Self
        ensures { result ≡ initial_drawing }
    {
        Drawing {
            rectangle: Rectangle::none(),
            pattern_id: 0,
            pattern: Pattern {
                kind: PatternKind::Black,
                id: 0,
            },
            mode: Mode {
                source_opaque: false,
                pattern_opaque: false,
            },
            raster: RasterSettings::initial(),
        }
    }

    /// `*c#A` and `*c#H`: the width of the rectangle, in units.
    pub(crate) fn set_rectangle_width(&mut self, value: Value, unit: Unit)
        ensures { self.new ≡ set_rectangle_width value.tenthousandths unit.positions self.old }
    {
        if let Some(width) = size_of(value, unit) {
            self.rectangle.width = width;
        }
    }

    /// `*c#B` and `*c#V`: the height of the rectangle, in units.
    pub(crate) fn set_rectangle_height(&mut self, value: Value, unit: Unit)
        ensures { self.new ≡ set_rectangle_height value.tenthousandths unit.positions self.old }
    {
        if let Some(height) = size_of(value, unit) {
            self.rectangle.height = height;
        }
    }

    /// `*c#G`: the pattern ID.
    pub(crate) fn set_pattern_id(&mut self, value: Value)
        ensures { self.new ≡ set_pattern_id (whole_part value.tenthousandths) self.old }
    {
        let number = value.whole();
        if (0..=GREATEST_PATTERN_ID).contains(&number) {
            self.pattern_id = number as u16;
        }
    }

    /// `*v#N`: source transparency.
    pub(crate) fn set_source_transparency(&mut self, value: Value)
        ensures { self.new ≡ set_source_transparency (whole_part value.tenthousandths) self.old }
    {
        if let Some(opaque) = is_opaque(value.whole()) {
            self.mode.source_opaque = opaque;
        }
    }

    /// `*v#O`: pattern transparency.
    pub(crate) fn set_pattern_transparency(&mut self, value: Value)
        ensures { self.new ≡ set_pattern_transparency (whole_part value.tenthousandths) self.old }
    {
        if let Some(opaque) = is_opaque(value.whole()) {
            self.mode.pattern_opaque = opaque;
        }
    }
}
