//! Tiles, lent and owned.

ghost use Rattle.std.specs.Prelude.{◌≡◌, ◌%◌, ◌*◌, ◌≤◌, length, IfOk, IsTrue};
ghost use Rattle.press_bits.specs.Lines.{bytes_per_line};
ghost use Rattle.press_pattern.specs.Solid.{solid_black};
ghost use Rattle.press_bits.specs.Mark.{row};
ghost use Rattle.press_pattern.specs.Tiling.{IsWhiteTile, tile_line, tile_row};

use press_bits::{DotRow, line_bytes};
use press_store::Duplicate;
use std::alloc::{AllocError, Global};
use std::marker::Model;

/// The line for line `y` of the frame of a tile of so many lines. Those of the patterns that always exist are not divided by a number
/// that varies.
fn line_of(y: u32, height: u16) -> u32
    requires { 1 ≤ height }
    ensures { result ≡ y % height }
{
    match height {
        1 => 0,
        8 => y % 8,
        16 => y % 16,
        _ => y % u32::from(height),
    }
}

/// A tile, lent: what a pattern repeats over the page. Contracts see its width and height in dots, and
/// the bytes of its lines.
#[derive(Drop)]
pub struct Tile<'a> {
    width: u16,
    height: u16,
    /// The lines from the top, each from a new byte on, the most significant bit leftmost, 1 for black.
    rows: &'a [u8],
}

impl<'a> Model for Tile<'a> {
    ghost use Rattle.press_pattern.specs.Tiling.{Tiling, tiling_code, HasLines};

    ghost Value = { Tiling };

    ghost coded = { tiling_code };

    ghost view = { λ t. record { width = t.width; height = t.height; rows = t.rows.now } };

    ghost invariant = { λ t. HasLines t.width t.height t.rows.now };
}

impl<'a> Tile<'a> {
    /// The tile with these lines.
    pub(crate) fn of_rows(width: u16, height: u16, rows: &'a [u8]) -> Self
        requires some_width { 1 ≤ width }
        requires some_height { 1 ≤ height }
        requires whole { length rows.now ≡ height * bytes_per_line width }
        ensures { result ≡ record { width = width; height = height; rows = rows.now } }
    {
        Tile {
            width,
            height,
            rows,
        }
    }

    /// How many dots a line has.
    pub fn width(&self) -> u16
        ensures width { result ≡ self.now.width }
        ensures some { 1 ≤ result }
    {
        self.width
    }

    /// How many lines the tile has.
    pub fn height(&self) -> u16
        ensures height { result ≡ self.now.height }
        ensures some { 1 ≤ result }
    {
        self.height
    }

    /// The bytes of the tile for line `y` of the frame, which is its line `y` modulo its height. As many
    /// dots as it is wide stand in them; bits past the last one may be any.
    ///
    /// Source: PCL 5 Printer Language Technical Reference Manual, The PCL Print Model, on patterns.
    pub fn row(&self, y: u32) -> &'a [u8]
        ensures row { result.now ≡ tile_row self.now y }
        ensures long { length result.now ≡ bytes_per_line self.now.width }
    {
        let bytes = line_bytes(usize::from(self.width));
        let start = line_of(y, self.height) as usize * bytes;
        &self.rows[start..start + bytes]
    }

    /// The dots of the tile for line `y` of the frame; see [`Tile::row`].
    pub fn line(&self, y: u32) -> DotRow<'a>
        ensures row { row result ≡ tile_line self.now y }
        ensures some { 1 ≤ result.dots }
    {
        DotRow {
            bits: self.row(y),
            dots: usize::from(self.width),
        }
    }

    /// Whether no bit of the lines is set: then the tile has no black dot.
    pub fn is_white(&self) -> bool
        ensures { IsTrue result → IsWhiteTile self.now }
    {
        let bits = self.rows;
        DotRow { bits, dots: 0 }.is_white()
    }

    /// Whether it is the tile of solid black.
    pub fn is_solid_black(&self) -> bool
        ensures { IsTrue result → self.now ≡ solid_black }
    {
        self.width == 8 && self.height == 1 && self.rows[0] == 0xFF
    }
}

/// A tile that owns its lines. Contracts see it as the tile that it is.
#[derive(Drop)]
pub struct OwnedTile {
    width: u16,
    height: u16,
    rows: Vec<u8>,
}

impl Model for OwnedTile {
    ghost use Rattle.press_pattern.specs.Tiling.{Tiling, tiling_code, HasLines};

    ghost Value = { Tiling };

    ghost coded = { tiling_code };

    ghost view = { λ t. record { width = t.width; height = t.height; rows = t.rows.items } };

    ghost invariant = { λ t. HasLines t.width t.height t.rows.items };
}

impl OwnedTile {
    /// The tile with these lines from the top, each from a new byte on.
    pub fn of_rows(width: u16, height: u16, rows: Vec<u8>) -> Self
        requires some_width { 1 ≤ width }
        requires some_height { 1 ≤ height }
        requires whole { length rows.items ≡ height * bytes_per_line width }
        ensures { result ≡ record { width = width; height = height; rows = rows.items } }
    {
        OwnedTile {
            width,
            height,
            rows,
        }
    }

    /// The tile, lent.
    pub fn as_tile(&self) -> Tile<'_>
        ensures { result ≡ self.now }
    {
        Tile::of_rows(self.width, self.height, &self.rows)
    }

    /// An equal tile.
    ///
    /// # Errors
    ///
    /// Where memory ran out.
    pub fn copy(&self) -> Result<Self, AllocError>
        ensures { IfOk result (λ tile. tile ≡ self.now) }
    {
        Ok(OwnedTile {
            width: self.width,
            height: self.height,
            rows: self.rows.clone()?,
        })
    }
}

impl Duplicate for OwnedTile {
    fn duplicate(&self) -> Result<Self, AllocError> {
        self.copy()
    }
}
