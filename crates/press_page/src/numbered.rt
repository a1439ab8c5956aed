//! What commands name by a number: page sizes, orientations and the sides that are printed (PCL 5 Printer Language Technical
//! Reference Manual, Page Size, Logical Page Orientation and Simplex/Duplex Print commands).

ghost use Rattle.std.specs.Prelude.{◌≡◌, ℕ};
ghost use Rattle.press_page.specs.Numbers.{numbered};
ghost use Rattle.press_page.specs.PageSetup.{size_number, orientation_number, duplex_number};

use crate::media::{DuplexMode, Orientation, PageSize};

/// What a command names by a number.
pub trait Numbered: Copy {
    ghost number_of: { Self → ℕ };

    /// Its number, as its command has it.
    fn number(&self) -> u32
        ensures { result ≡ number_of self.now };
}

/// The first of some things that has a number.
pub(crate) fn find_numbered<N: Numbered>(things: &[N], number: i64) -> Option<N>
    ensures { result ≡ numbered N.number_of things.now number }
{
    things
        .iter()
        .copied()
        .find(|thing| i64::from(thing.number()) == number)
}

impl Numbered for PageSize {
    ghost number_of = { size_number };

    fn number(&self) -> u32 {
        match self {
            PageSize::Executive => 1,
            PageSize::Letter => 2,
            PageSize::Legal => 3,
            PageSize::Ledger => 6,
            PageSize::A4 => 26,
            PageSize::A3 => 27,
        }
    }
}

impl Numbered for Orientation {
    ghost number_of = { orientation_number };

    fn number(&self) -> u32 {
        match self {
            Orientation::Portrait => 0,
            Orientation::Landscape => 1,
            Orientation::ReversePortrait => 2,
            Orientation::ReverseLandscape => 3,
        }
    }
}

impl Numbered for DuplexMode {
    ghost number_of = { duplex_number };

    fn number(&self) -> u32 {
        match self {
            DuplexMode::OneSided => 0,
            DuplexMode::TwoSidedLongEdge => 1,
            DuplexMode::TwoSidedShortEdge => 2,
        }
    }
}
