//! What can be seen of the engine.

use crate::machine::Last;
use press_cursor::CursorPosition;
use press_page::PageEnv;
use press_pjl::PjlEnv;
use press_raster::RasterPosition;
use press_table::Drawing;
use press_units::Pos;

/// What can be seen of an engine. Positions are in 1/7200 inch.
///
/// Source: PCL 5 Printer Language Technical Reference Manual, the print environment; PJL Technical Reference Manual, the PJL
/// environments.
#[derive(Clone, Copy, Debug)]
pub struct View<'a> {
    /// How many steps it took; the greatest number stays.
    pub step: u64,
    /// How many macro bodies run.
    pub depth: u8,
    /// What the last step took.
    pub last: Last,
    /// The cursor's distance from the left edge of the logical page.
    pub x: Pos,
    /// The cursor's distance below the top margin; above it, it is negative.
    pub y: Pos,
    /// The positions of the cursor that were pushed, the newest last.
    pub stack: &'a [CursorPosition],
    /// How many sheets were handed out, each copy counted; the greatest number stays.
    pub sheets: u64,
    /// The same since the job began.
    pub since_job: u64,
    /// The job language's environment.
    pub language: PjlEnv,
    /// Settings, margins and media.
    pub environment: PageEnv,
    /// How marks are made.
    pub drawing: Drawing,
    /// The ID under which macros are defined and started.
    pub macro_id: u16,
    /// The ID of the macro that is laid under every page.
    pub overlay: Option<u16>,
    /// The ID of the macro definition that is open.
    pub defining: Option<u16>,
    /// Where rows of raster graphics begin and how many there were, while it is on.
    pub raster: Option<RasterPosition>,
    /// Whether HP-GL/2 is on.
    pub hp_gl: bool,
    /// Whether a mark was made on the page.
    pub marked: bool,
}
