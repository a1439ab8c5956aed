//! Page sizes, orientations and the sides that are printed, and where the logical page lies (PCL 5 Printer Language Technical
//! Reference Manual, Page Control Commands).

ghost use Rattle.std.specs.Prelude.{◌≡◌, ◌≤◌, ◌<◌, ◌*◌};
ghost use Rattle.press_page.specs.PageSetup.{page_size_of, orientation_of, duplex_of, sized, dimensions_of, turned, offset_of, scale, table_frame, table_offset};
ghost use Rattle.press_page.specs.PageSetup.{physical_page, frame, offset, logical_width, logical_length, logical_page, with_duplex};
ghost use Rattle.press_page.specs.PageSetup.{duplex_mode};

use crate::numbered::find_numbered;
use crate::place::{Dot, Extent, to_physical};
use press_cursor::LogicalPage;
use press_units::{POSITIONS_PER_INCH, Resolution};

/// The page sizes of this press.
#[derive(Clone, Copy, Debug, PartialEq, Eq)]
pub enum PageSize {
    Executive,
    Letter,
    Legal,
    Ledger,
    A4,
    A3,
}

/// All page sizes, the factory's first.
pub const PAGE_SIZES: [PageSize; 6] = [
    PageSize::Letter,
    PageSize::Legal,
    PageSize::A4,
    PageSize::Executive,
    PageSize::Ledger,
    PageSize::A3,
];

/// How the logical page lies on the physical page.
#[derive(Clone, Copy, Debug, PartialEq, Eq)]
pub enum Orientation {
    Portrait,
    Landscape,
    ReversePortrait,
    ReverseLandscape,
}

/// All orientations.
const ORIENTATIONS: [Orientation; 4] = [
    Orientation::Portrait,
    Orientation::Landscape,
    Orientation::ReversePortrait,
    Orientation::ReverseLandscape,
];

/// The edge along which sheets are bound that are printed on both sides.
#[derive(Clone, Copy, Debug, PartialEq, Eq)]
pub enum Binding {
    LongEdge,
    ShortEdge,
}

/// Which sides of a sheet are printed: what a simplex/duplex command asks for.
#[derive(Clone, Copy, Debug, PartialEq, Eq)]
pub enum DuplexMode {
    OneSided,
    TwoSidedLongEdge,
    TwoSidedShortEdge,
}

/// All that a simplex/duplex command asks for.
const ALL_DUPLEX_MODES: [DuplexMode; 3] = [
    DuplexMode::OneSided,
    DuplexMode::TwoSidedLongEdge,
    DuplexMode::TwoSidedShortEdge,
];

/// The media: what a macro call does not restore.
#[derive(Clone, Copy, Debug, PartialEq, Eq)]
pub struct PageSetup {
    pub size: PageSize,
    pub orientation: Orientation,
    /// Whether both sides of a sheet are printed.
    pub duplex: bool,
    /// The edge of the binding in duplex; it is kept in simplex.
    pub binding: Binding,
    /// The resolution of pages. No command sets it, but a line of the job language.
    pub resolution: Resolution,
}

/// A page size in dots of 1/300 inch: width and height, and how far the logical page begins right of the page's left
/// edge in portrait and in landscape.
#[derive(Clone, Copy)]
pub(crate) struct Dimensions {
    width: u32,
    height: u32,
    portrait_offset: u32,
    landscape_offset: u32,
}

/// Positions (1/7200 inch) of a dot of the table of page sizes.
const TABLE_DOT: u32 = POSITIONS_PER_INCH as u32 / 300;

/// A line of the table of page sizes.
fn sized(width: u32, height: u32, portrait_offset: u32, landscape_offset: u32) -> Dimensions
    ensures { result ≡ sized width height portrait_offset landscape_offset }
{
    Dimensions {
        width,
        height,
        portrait_offset,
        landscape_offset,
    }
}

/// How many dots of a page a dot of the table of page sizes is, along a line.
fn scale(resolution: Resolution) -> u32
    ensures scale { result ≡ scale resolution }
    ensures bound { result ≤ 2 }
{
    match resolution {
        Resolution::Dpi300 => 1,
        Resolution::Dpi600 => 2,
    }
}

/// The frame: the physical page, turned in the two landscape orientations.
pub(crate) fn turned(orientation: Orientation, page: Extent) -> Extent
    ensures { result ≡ turned orientation page }
{
    match orientation {
        Orientation::Portrait | Orientation::ReversePortrait => page,
        Orientation::Landscape | Orientation::ReverseLandscape => Extent {
            width: page.height,
            height: page.width,
        },
    }
}

impl PageSize {
    /// The page size that `ESC & l # A` names by a number.
    ///
    /// Source: PCL 5 Printer Language Technical Reference Manual, Page Size command.
    pub(crate) fn of_number(number: i64) -> Option<Self>
        ensures { result ≡ page_size_of number }
    {
        find_numbered(&PAGE_SIZES, number)
    }

    /// The size in dots of 1/300 inch.
    fn dimensions(self) -> Dimensions
        ensures size { result ≡ dimensions_of self }
        ensures width { result.width < 8192 }
        ensures height { result.height < 8192 }
        ensures portrait { 2 * result.portrait_offset ≤ result.width }
        ensures landscape { 2 * result.landscape_offset ≤ result.height }
    {
        match self {
            PageSize::Letter => sized(2550, 3300, 75, 60),
            PageSize::Legal => sized(2550, 4200, 75, 60),
            PageSize::A4 => sized(2480, 3507, 71, 59),
            PageSize::Executive => sized(2175, 3150, 75, 60),
            PageSize::Ledger => sized(3300, 5100, 75, 60),
            PageSize::A3 => sized(3507, 4960, 71, 59),
        }
    }
}

impl Orientation {
    /// The orientation that `ESC & l # O` names by a number.
    ///
    /// Source: PCL 5 Printer Language Technical Reference Manual, Logical Page Orientation command.
    pub(crate) fn of_number(number: i64) -> Option<Self>
        ensures { result ≡ orientation_of number }
    {
        find_numbered(&ORIENTATIONS, number)
    }
}

impl DuplexMode {
    /// The sides that `ESC & l # S` names by a number.
    ///
    /// Source: PCL 5 Printer Language Technical Reference Manual, Simplex/Duplex Print command.
    pub(crate) fn of_number(number: i64) -> Option<Self>
        ensures { result ≡ duplex_of number }
    {
        find_numbered(&ALL_DUPLEX_MODES, number)
    }
}

/// How far the logical page begins right of the frame's left edge, in dots of 1/300 inch.
fn offset_of(orientation: Orientation, size: Dimensions) -> u32
    ensures { result ≡ offset_of orientation size }
{
    match orientation {
        Orientation::Portrait | Orientation::ReversePortrait => size.portrait_offset,
        Orientation::Landscape | Orientation::ReverseLandscape => size.landscape_offset,
    }
}

impl PageSetup {
    ghost use Rattle.std.specs.Prelude.{◌≡◌, ◌≤◌, ◌<◌, ◌*◌, ◌^◌};
    ghost use Rattle.press_page.specs.PageSetup.{table_frame, table_offset, physical_page, frame, offset, logical_width, logical_length, logical_page};
    ghost use Rattle.press_page.specs.PageSetup.{with_duplex, duplex_mode};
    ghost use Rattle.press_page.specs.Place.{to_physical};

    /// The frame, in dots of the table of page sizes.
    fn table_frame(self) -> Extent
        ensures frame { result ≡ table_frame self }
        ensures height { result.height < 8192 }
        ensures offsets { 2 * table_offset self ≤ result.width }
        ensures width { result.width < 8192 }
    {
        let size = self.size.dimensions();
        let page = Extent {
            width: size.width,
            height: size.height,
        };
        turned(self.orientation, page)
    }

    /// How far the logical page begins right of the frame's left edge, and ends left of its right edge, in dots of the table
    /// of page sizes.
    fn table_offset(self) -> u32
        ensures offset { result ≡ table_offset self }
        ensures bound { result < 8192 }
    {
        offset_of(self.orientation, self.size.dimensions())
    }

    /// The physical page, in its dots.
    pub fn physical_page(self) -> Extent
        ensures page { result ≡ physical_page self }
        ensures width { result.width < 2 ^ 14 }
        ensures height { result.height < 2 ^ 14 }
    {
        let size = self.size.dimensions();
        let scale = scale(self.resolution);
        Extent {
            width: size.width * scale,
            height: size.height * scale,
        }
    }

    /// The frame, in dots of the page: the physical page as the orientation turns it.
    pub fn frame(self) -> Extent
        ensures { result ≡ frame self }
    {
        turned(self.orientation, self.physical_page())
    }

    /// How far the logical page begins right of the frame's left edge, and ends left of its right edge, in dots of the page.
    pub fn offset(self) -> u32
        ensures offset { result ≡ offset self }
        ensures bound { result < 2 ^ 14 }
    {
        self.table_offset() * scale(self.resolution)
    }

    /// The width of the logical page, in positions (1/7200 inch): it is the same at each resolution.
    pub fn logical_width(self) -> u32
        ensures { result ≡ logical_width self }
    {
        TABLE_DOT * (self.table_frame().width - 2 * self.table_offset())
    }

    /// The length of the logical page, in positions (1/7200 inch): it is the same at each resolution.
    pub fn logical_length(self) -> u32
        ensures { result ≡ logical_length self }
    {
        TABLE_DOT * self.table_frame().height
    }

    /// The logical page under a top margin.
    pub fn logical_page(self, top_margin: u32) -> LogicalPage
        ensures { result ≡ logical_page self top_margin }
    {
        LogicalPage {
            width: self.logical_width(),
            length: self.logical_length(),
            top_margin,
        }
    }

    /// The dot of the physical page that a dot of the frame is; a dot outside of the frame has none.
    pub fn to_physical(self, dot: Dot) -> Option<Dot>
        ensures { result ≡ to_physical self.orientation (physical_page self) dot }
    {
        to_physical(self.orientation, self.physical_page(), dot)
    }

    /// The media after `ESC & l # S`: simplex leaves the binding.
    pub fn with_duplex(self, sides: DuplexMode) -> PageSetup
        ensures { result ≡ with_duplex sides self }
    {
        match sides {
            DuplexMode::OneSided => PageSetup {
                duplex: false,
                ..self
            },
            DuplexMode::TwoSidedLongEdge => PageSetup {
                duplex: true,
                binding: Binding::LongEdge,
                ..self
            },
            DuplexMode::TwoSidedShortEdge => PageSetup {
                duplex: true,
                binding: Binding::ShortEdge,
                ..self
            },
        }
    }

    /// The sides that are printed.
    pub fn duplex_mode(self) -> DuplexMode
        ensures { result ≡ duplex_mode self }
    {
        match (self.duplex, self.binding) {
            (false, _) => DuplexMode::OneSided,
            (true, Binding::LongEdge) => DuplexMode::TwoSidedLongEdge,
            (true, Binding::ShortEdge) => DuplexMode::TwoSidedShortEdge,
        }
    }
}
