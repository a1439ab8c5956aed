//! Positions, units and dots (PCL 5 Printer Language Technical Reference Manual, units of measure).

ghost use Rattle.std.specs.Prelude.{◌≡◌, ◌<◌, ◌≤◌, ◌*◌, ◌^◌, ◌↔◌, IsSome, IfSome, is_some, unsigned_abs};
ghost use Rattle.press_units.specs.Measure.{IsMeasure, is_measure, decipoint, horizontal_motion_unit, vertical_motion_unit, pcl_unit};
ghost use Rattle.press_units.specs.Position.{position_of, dot_of, dots_per_inch, positions_per_dot};

use crate::value::Value;
use std::marker::Model;

/// A position or a distance, in 1/7200 inch.
#[derive(Clone, Copy, Debug, PartialEq, Eq, PartialOrd, Ord)]
pub struct Pos(pub i64);

/// What a value counts: a length of so many positions.
#[derive(Clone, Copy, Debug, PartialEq, Eq)]
pub struct Unit {
    pub positions: u16,
}

/// The positions of an inch.
pub const POSITIONS_PER_INCH: u16 = 7200;

impl Unit {
    /// A decipoint: a tenth of a point, 1/720 inch.
    pub fn decipoint() -> Unit
        ensures { result.positions ≡ decipoint }
    {
        Unit {
            positions: POSITIONS_PER_INCH / 720,
        }
    }

    /// The unit of the horizontal motion index, 1/120 inch.
    pub fn horizontal_motion() -> Unit
        ensures { result.positions ≡ horizontal_motion_unit }
    {
        Unit {
            positions: POSITIONS_PER_INCH / 120,
        }
    }

    /// The unit of the vertical motion index, 1/48 inch.
    pub fn vertical_motion() -> Unit
        ensures { result.positions ≡ vertical_motion_unit }
    {
        Unit {
            positions: POSITIONS_PER_INCH / 48,
        }
    }
}

/// The resolution of a page.
///
/// Source: PJL Technical Reference Manual, the RESOLUTION variable; which there are is this profile's.
#[derive(Clone, Copy, Debug, PartialEq, Eq)]
pub enum Resolution {
    Dpi300,
    Dpi600,
}

/// All resolutions, the factory's first.
pub const RESOLUTIONS: [Resolution; 2] = [Resolution::Dpi300, Resolution::Dpi600];

impl Resolution {
    /// Dots per inch.
    pub fn dots_per_inch(self) -> u16
        ensures dots { result ≡ dots_per_inch self }
        ensures some { 1 ≤ result }
        ensures most { result ≤ 600 }
    {
        match self {
            Resolution::Dpi300 => 300,
            Resolution::Dpi600 => 600,
        }
    }

    /// The positions of a dot.
    pub fn positions_per_dot(self) -> u16
        ensures positions { result ≡ positions_per_dot self }
        ensures some { 1 ≤ result }
    {
        POSITIONS_PER_INCH / self.dots_per_inch()
    }
}

/// How many PCL units an inch has.
#[derive(Clone, Copy, Debug, PartialEq, Eq)]
pub struct UnitOfMeasure {
    units_per_inch: u16,
}

impl Model for UnitOfMeasure {
    ghost use Rattle.std.specs.Prelude.{ℕ};
    ghost use Rattle.press_units.specs.Measure.{IsMeasure};

    ghost Value = { ℕ };

    ghost view = { λ m. m.units_per_inch };

    ghost invariant = { λ m. IsMeasure m.units_per_inch };

    ghost inverse = { λ n. record { units_per_inch = n } };
}

impl Default for UnitOfMeasure {
    ghost is_default = { λ measure. measure ≡ 300 };

    /// 300 units per inch.
    fn default() -> Self {
        UnitOfMeasure {
            units_per_inch: 300,
        }
    }
}

impl UnitOfMeasure {
    /// The unit of measure of so many units per inch: one of the 26 divisors of 7200 from 96 on.
    pub fn new(units_per_inch: u16) -> Option<Self>
        ensures legal { IsSome result ↔ IsMeasure units_per_inch }
        ensures test { is_some result ≡ is_measure units_per_inch }
        ensures value { IfSome result (λ measure. measure ≡ units_per_inch) }
    {
        if 96 <= units_per_inch
            && units_per_inch <= POSITIONS_PER_INCH
            && POSITIONS_PER_INCH % units_per_inch == 0
        {
            Some(UnitOfMeasure { units_per_inch })
        } else {
            None
        }
    }

    /// A PCL unit.
    pub fn unit(self) -> Unit
        ensures { result.positions ≡ pcl_unit self }
    {
        // the unit that most streams have is not divided
        if self.units_per_inch == 300 {
            return Unit {
                positions: POSITIONS_PER_INCH / 300,
            };
        }
        Unit {
            positions: POSITIONS_PER_INCH / self.units_per_inch,
        }
    }
}

/// The position that so many ten-thousandths of a distance make: the product, the rest dropped towards zero.
/// The distance is a unit, a motion index or a length on a page, in positions.
pub fn position_of(tenthousandths: i64, distance: u32) -> Pos
    requires { unsigned_abs tenthousandths < 2 ^ 31 }
    ensures position { result.0 ≡ position_of tenthousandths distance }
    ensures bound { 10000 * unsigned_abs result.0 ≤ unsigned_abs tenthousandths * distance }
{
    Pos(tenthousandths * i64::from(distance) / 10_000)
}

/// The position that a value of so many units stands for.
pub fn to_pos(value: Value, unit: Unit) -> Pos
    ensures position { result.0 ≡ position_of value.tenthousandths unit.positions }
    ensures bound { unsigned_abs result.0 < 2 ^ 32 }
{
    position_of(value.tenthousandths, u32::from(unit.positions))
}

/// The dot on which a position lies.
pub fn dot(position: Pos, resolution: Resolution) -> i64
    ensures { result ≡ dot_of position.0 resolution }
{
    match resolution {
        Resolution::Dpi300 => position.0.div_euclid(24),
        Resolution::Dpi600 => position.0.div_euclid(12),
    }
}
