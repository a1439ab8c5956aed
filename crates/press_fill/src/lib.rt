//! Rectangle fills: a rectangle of the frame, painted on a canvas or a page of any orientation with any pattern.
#![tactic(auto)]

mod filling;
mod paint;
mod rect;
mod rule;

pub use filling::{fill, fill_canvas};
pub use rect::Rect;
pub use rule::{DotEffect, dot_rule};
