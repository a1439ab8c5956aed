//! What a mark is painted with (PCL 5 Printer Language Technical Reference Manual, The PCL Print Model).

ghost use Rattle.std.specs.Prelude.{◌≡◌};
ghost use Rattle.press_pattern.specs.Brush.{brush_mode, black_brush};

use crate::fixed;
use crate::pattern::PatternKind;
use crate::tile::Tile;
use press_bits::Mode;

/// What a mark is painted with: the tile of a pattern, and the mode in which it meets the page.
///
/// Source: PCL 5 Printer Language Technical Reference Manual, The PCL Print Model.
#[derive(Drop)]
pub struct Brush<'a> {
    pub tile: Tile<'a>,
    pub mode: Mode,
}

/// The mode in which a pattern of a kind meets the page: the white dots of solid white are opaque.
pub(crate) fn mode_of(kind: PatternKind, mode: Mode) -> Mode
    ensures { result ≡ brush_mode kind mode }
{
    match kind {
        PatternKind::White => Mode {
            pattern_opaque: true,
            ..mode
        },
        PatternKind::Black | PatternKind::Shading | PatternKind::CrossHatch | PatternKind::User =>
            mode,
    }
}

impl Brush<'static> {
    /// Solid black.
    pub fn black(mode: Mode) -> Self
        ensures { result ≡ black_brush mode }
    {
        Brush {
            tile: fixed::black(),
            mode,
        }
    }
}
