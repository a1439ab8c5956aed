//! Resolution, method, source width and source height (PCL 5 Printer Language Technical Reference Manual, Raster
//! Graphics).

ghost use Rattle.std.specs.Prelude.{◌≡◌, ◌<◌, ◌≤◌, ◌^◌, pos};
ghost use Rattle.std.specs.Ordering.{int_eq};
ghost use Rattle.press_raster.specs.Settings.{raster_dots_per_inch, row_height, is_whole_dots, dot_size, resolution_of, side_of, coding_of};
ghost use Rattle.press_raster.specs.Settings.{initial, set_resolution, set_source_width, set_source_height, set_method};
ghost use Rattle.press_raster.specs.Transfer.{dots_of_row};
ghost use Rattle.press_units.specs.Value.{whole_part};

use press_rows::Method;
use press_units::{POSITIONS_PER_INCH, Resolution, Value};

/// The resolutions of raster graphics, by "Raster Graphics Resolution" (`ESC * t # R`).
///
/// Source: PCL 5 Printer Language Technical Reference Manual, Raster Graphics, Raster Graphics Resolution command.
#[derive(Clone, Copy, Debug, PartialEq, Eq)]
pub enum RasterResolution {
    Dpi75,
    Dpi100,
    Dpi150,
    Dpi200,
    Dpi300,
    Dpi600,
}

/// All resolutions of raster graphics.
const RASTER_RESOLUTIONS: [RasterResolution; 6] = [
    RasterResolution::Dpi75,
    RasterResolution::Dpi100,
    RasterResolution::Dpi150,
    RasterResolution::Dpi200,
    RasterResolution::Dpi300,
    RasterResolution::Dpi600,
];

impl RasterResolution {
    /// The resolution of so many dots per inch, where there is one, and a dot of it is whole dots of a page.
    ///
    /// Source: PCL 5 Printer Language Technical Reference Manual, Raster Graphics, Raster Graphics Resolution command.
    pub fn of_number(print: Resolution, number: i64) -> Option<Self>
        ensures { result ≡ resolution_of print number }
    {
        RASTER_RESOLUTIONS.iter().copied().find(|resolution| resolution.is(number)
            && resolution.is_whole_dots(print))
    }

    /// Whether it is of so many dots per inch.
    fn is(self, number: i64) -> bool
        ensures { result ≡ int_eq (pos (raster_dots_per_inch self)) number }
    {
        i64::from(self.dots_per_inch()) == number
    }

    /// Whether a dot of a row is a whole number of dots of a page.
    fn is_whole_dots(self, print: Resolution) -> bool
        ensures { result ≡ is_whole_dots self print }
    {
        print.dots_per_inch() % self.dots_per_inch() == 0
    }

    /// Dots of a row per inch.
    pub fn dots_per_inch(self) -> u16
        ensures dots { result ≡ raster_dots_per_inch self }
        ensures some { 1 ≤ result }
        ensures most { result ≤ 600 }
    {
        match self {
            RasterResolution::Dpi75 => 75,
            RasterResolution::Dpi100 => 100,
            RasterResolution::Dpi150 => 150,
            RasterResolution::Dpi200 => 200,
            RasterResolution::Dpi300 => 300,
            RasterResolution::Dpi600 => 600,
        }
    }

    /// How many positions (1/7200 inch) a row takes down the page.
    pub fn row_height(self) -> u16
        ensures { result ≡ row_height self }
    {
        POSITIONS_PER_INCH / self.dots_per_inch()
    }

    /// How many dots of a page a dot of a row is wide and high.
    pub(crate) fn dot_size(self, print: Resolution) -> u32
        ensures size { result ≡ dot_size self print }
        ensures most { result ≤ 8 }
    {
        let dots = u32::from(print.dots_per_inch());
        match self {
            RasterResolution::Dpi75 => dots / 75,
            RasterResolution::Dpi100 => dots / 100,
            RasterResolution::Dpi150 => dots / 150,
            RasterResolution::Dpi200 => dots / 200,
            RasterResolution::Dpi300 => dots / 300,
            RasterResolution::Dpi600 => dots / 600,
        }
    }
}

/// What the data of a transfer stands for, by "Set Compression Method" (`ESC * b # M`).
///
/// Source: PCL 5 Printer Language Technical Reference Manual, Raster Graphics, Set Compression Method command.
#[derive(Clone, Copy, Debug, PartialEq, Eq)]
pub enum RowCoding {
    /// One row, by a method from 0 to 3.
    By(Method),
    /// Method 5, adaptive compression: blocks of rows, each by its own method.
    Adaptive,
}

impl RowCoding {
    /// What data stands for by a number: 0 to 3, or 5.
    ///
    /// Source: PCL 5 Printer Language Technical Reference Manual, Raster Graphics, Set Compression Method command.
    pub fn of_number(number: i64) -> Option<Self>
        ensures { result ≡ coding_of number }
    {
        match number {
            5 => Some(RowCoding::Adaptive),
            _ => Method::of_number(number).map(RowCoding::By),
        }
    }
}

/// What raster graphics is set to: plain data, which a macro call restores. A setter takes the value of its command; a
/// value that the command does not know changes nothing.
///
/// Resolution, source width and source height may be set only while raster graphics is off, which is the caller's to see
/// to.
#[derive(Clone, Copy, Debug, PartialEq, Eq)]
pub struct RasterSettings {
    pub resolution: RasterResolution,
    pub coding: RowCoding,
    /// How many dots wide a row is; without, a row ends at the right edge of the logical page.
    pub source_width: Option<u16>,
    /// After how many rows the next ones have no effect.
    pub source_height: Option<u16>,
}

/// A side of a raster picture, in its dots: at least one.
///
/// Source: PCL 5 Printer Language Technical Reference Manual, Raster Graphics, Raster Width and Raster Height commands.
pub fn side_of(value: Value) -> Option<u16>
    ensures { result ≡ side_of (whole_part value.tenthousandths) }
{
    let number = value.whole();
    if number < 1 {
        None
    } else {
        Some(number as u16)
    }
}

impl RasterSettings {
    ghost use Rattle.std.specs.Prelude.{Option};

    /// The settings after power on, `ESC E` and a universal exit: 75 dots per inch, method 0, no source width and no source
    /// height.
    pub fn initial() -> Self
        ensures { result ≡ initial }
    {
        RasterSettings {
            resolution: RasterResolution::Dpi75,
            coding: RowCoding::By(Method::Unencoded),
            source_width: None,
            source_height: None,
        }
    }

    /// `ESC * t # R`: the resolution of the rows on a page: 75, 100, 150 or 300 dots per inch, and on one of 600 also 200
    /// or 600.
    ///
    /// Source: PCL 5 Printer Language Technical Reference Manual, Raster Graphics, Raster Graphics Resolution command.
    pub fn set_resolution(&mut self, print: Resolution, value: Value)
        ensures { self.new ≡ set_resolution print value.tenthousandths self.old }
    {
        if let Some(resolution) = RasterResolution::of_number(print, value.whole()) {
            self.resolution = resolution;
        }
    }

    /// `ESC * r # S`: the source width, in dots of a row, at least 1.
    ///
    /// Source: PCL 5 Printer Language Technical Reference Manual, Raster Graphics, Raster Width command.
    pub fn set_source_width(&mut self, value: Value)
        ensures { self.new ≡ set_source_width value.tenthousandths self.old }
    {
        if let Some(width) = side_of(value) {
            self.source_width = Some(width);
        }
    }

    /// `ESC * r # T`: the source height, in rows, at least 1.
    ///
    /// Source: PCL 5 Printer Language Technical Reference Manual, Raster Graphics, Raster Height command.
    pub fn set_source_height(&mut self, value: Value)
        ensures { self.new ≡ set_source_height value.tenthousandths self.old }
    {
        if let Some(height) = side_of(value) {
            self.source_height = Some(height);
        }
    }

    /// `ESC * b # M`: the compression method of the rows: 0 to 3, or 5, adaptive compression.
    ///
    /// Source: PCL 5 Printer Language Technical Reference Manual, Raster Graphics, Set Compression Method command.
    pub fn set_method(&mut self, value: Value)
        ensures { self.new ≡ set_method value.tenthousandths self.old }
    {
        if let Some(coding) = RowCoding::of_number(value.whole()) {
            self.coding = coding;
        }
    }

    /// How many dots a row has that begins at a distance from the left edge of a logical page, in positions (1/7200 inch).
    pub(crate) fn dots_of_row(self, logical_width: u32, left: u32) -> usize
        ensures dots { result ≡ dots_of_row self.source_width self.resolution logical_width left }
        ensures bound { result < 2 ^ 29 }
    {
        match self.source_width {
            Some(width) => usize::from(width),
            None => {
                let positions = logical_width.saturating_sub(left) as usize;
                let dots_per_inch = usize::from(self.resolution.dots_per_inch());
                positions * dots_per_inch / usize::from(POSITIONS_PER_INCH)
            }
        }
    }
}
