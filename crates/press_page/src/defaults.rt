//! The values to which a reset goes back (PJL Technical Reference Manual, environment variables).

use crate::media::{Binding, Orientation, PageSize};
use press_units::Resolution;

/// The values of the job language's variables, to which a reset goes back.
#[derive(Clone, Copy, Debug, PartialEq, Eq)]
pub struct Defaults {
    /// 1 to 999.
    pub copies: u16,
    pub size: PageSize,
    /// Portrait or landscape.
    pub orientation: Orientation,
    pub duplex: bool,
    pub binding: Binding,
    pub resolution: Resolution,
}

impl Defaults {
    ghost use Rattle.std.specs.Prelude.{◌≡◌};
    ghost use Rattle.press_page.specs.Environment.{factory};

    /// The factory values: one copy, Letter, portrait, simplex, bound along the long edge, 300 dots per inch.
    pub fn factory() -> Self
        ensures { result ≡ factory }
    {
        Defaults {
            copies: 1,
            size: PageSize::Letter,
            orientation: Orientation::Portrait,
            duplex: false,
            binding: Binding::LongEdge,
            resolution: Resolution::Dpi300,
        }
    }
}
