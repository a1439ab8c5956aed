//! The page environment of PCL 5: page sizes and orientations, margins, motion indices and copies, one setter for each
//! command, and where a dot lies on the physical page.
#![tactic(auto)]

mod defaults;
mod environment;
mod margins;
mod media;
mod numbered;
mod numbers;
mod place;
mod settings;

pub use defaults::Defaults;
pub use environment::PageEnv;
pub use margins::Margins;
pub use media::{Binding, DuplexMode, Orientation, PAGE_SIZES, PageSetup, PageSize};
pub use numbered::Numbered;
pub use place::{CursorDot, Dot, Extent, FrameLines, placement_is_inverse};
pub use settings::{
    LineTermination, MOST_COPIES, Settings, copies_of, horizontal_motion_of, line_spacing_of,
    line_termination_of, measure_of, vertical_motion_of,
};
