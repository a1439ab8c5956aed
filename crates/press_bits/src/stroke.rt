//! What is painted along a line of a page.
ghost use Rattle.std.specs.Prelude.{◌≡◌, ◌^◌, ◌<◌, true};
ghost use Rattle.press_bits.specs.Mark.{IsBlack, IsInk, row};

use crate::dot_row::DotRow;
use crate::mode::Mode;
use crate::repeats::Repeats;

/// The dots of a row that lie on a page, along one side of it: `count` of them from dot `skip` of the row on, which lies at
/// place `first`.
#[derive(Clone, Copy, Debug)]
pub(crate) struct Run {
    pub(crate) first: usize,
    pub(crate) skip: usize,
    pub(crate) count: usize,
}

/// A run of the dots of a source row that is painted through a row of a pattern. One that is laid takes the place of what was there; of
/// ink all dots are black.
#[derive(Clone, Copy)]
pub(crate) struct Stroke<'s, 'p> {
    pub(crate) run: Run,
    pub(crate) source: DotRow<'s>,
    pub(crate) through: Repeats<'p>,
    pub(crate) mode: Mode,
    pub(crate) laid: bool,
    pub(crate) ink: bool,
    ghost small: { source.dots < 2 ^ 64 },
    ghost opaque: { laid ≡ true → mode.source_opaque ≡ true },
    ghost through_black: { laid ≡ true → IsBlack (row through.pattern) },
    ghost all_black: { ink ≡ true → IsInk (row source) },
}
