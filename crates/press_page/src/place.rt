//! Dots of the frame and of the physical page (PCL 5 Printer Language Technical Reference Manual, the PCL coordinate
//! system).

ghost use Rattle.std.specs.Prelude.{◌≡◌, ◌<◌, ◌^◌, ◌+ℤ◌, pos, unsigned_abs};
ghost use Rattle.press_units.specs.Position.{dot_of};
ghost use Rattle.press_page.specs.Place.{lies_on, to_physical, ArePlacementsInverse, lines_below};

use crate::media::{Orientation, turned};
use press_units::{Pos, Resolution, dot};

/// The size of a page, in dots.
#[derive(Clone, Copy, Debug, PartialEq, Eq)]
pub struct Extent {
    pub width: u32,
    pub height: u32,
}

/// A dot of a page or of its frame.
#[derive(Clone, Copy, Debug, PartialEq, Eq)]
pub struct Dot {
    /// How many dots right of the left edge.
    pub x: u32,
    /// How many dots below the upper edge.
    pub y: u32,
}

/// The dot of the frame on which the cursor lies.
#[derive(Clone, Copy, Debug, PartialEq, Eq)]
pub struct CursorDot {
    /// How many dots right of the left edge.
    pub x: u32,
    /// How many dots below the upper edge; above it, a negative number.
    pub y: i32,
}

/// Lines of the frame, one below the other.
#[derive(Clone, Copy, Debug, PartialEq, Eq)]
pub struct FrameLines {
    /// How many lines below the upper edge the first one is.
    pub first: u32,
    /// How many lines they are.
    pub count: u32,
}

impl Extent {
    /// Whether a dot lies on a page of this size.
    pub fn contains(self, dot: Dot) -> bool
        ensures { result ≡ lies_on self dot }
    {
        dot.x < self.width && dot.y < self.height
    }
}

/// The physical dot of a dot of the frame, which a dot outside of it does not have.
pub(crate) fn to_physical(orientation: Orientation, page: Extent, dot: Dot) -> Option<Dot>
    ensures { result ≡ to_physical orientation page dot }
{
    if !turned(orientation, page).contains(dot) {
        return None;
    }
    Some(match orientation {
        Orientation::Portrait => dot,
        Orientation::Landscape => Dot {
            x: dot.y,
            y: page.height - 1 - dot.x,
        },
        Orientation::ReversePortrait => Dot {
            x: page.width - 1 - dot.x,
            y: page.height - 1 - dot.y,
        },
        Orientation::ReverseLandscape => Dot {
            x: page.width - 1 - dot.y,
            y: dot.x,
        },
    })
}

/// The law of placement: a dot of the frame has a physical dot exactly where that dot has it as its dot of the frame.
pub fn placement_is_inverse(orientation: Orientation, page: Extent)
    ensures { ArePlacementsInverse orientation page }
{}

/// The line of the frame on which the cursor lies, `y` below a top margin; above the upper edge, a negative number.
pub(crate) fn cursor_line(y: i64, top_margin: u32, resolution: Resolution) -> i32
    requires { unsigned_abs y < 2 ^ 33 }
    ensures { result ≡ dot_of (y +ℤ pos top_margin) resolution }
{
    dot(Pos(y + i64::from(top_margin)), resolution) as i32
}

impl CursorDot {
    /// The lines of the frame that a mark of so many lines covers, the first of them that of the dot. Lines above the upper
    /// edge are dropped.
    pub fn lines(self, count: u32) -> FrameLines
        ensures { result ≡ lines_below self.y count }
    {
        if self.y < 0 {
            FrameLines {
                first: 0,
                count: count.saturating_sub(self.y.unsigned_abs()),
            }
        } else {
            FrameLines {
                first: self.y as u32,
                count,
            }
        }
    }
}
