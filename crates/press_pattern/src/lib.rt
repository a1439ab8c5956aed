//! The patterns that marks are painted with: the tiles of the solid, shading and cross-hatch patterns,
//! and the store of user-defined ones.
//!
//! A tile is a small field of dots that a pattern repeats over the page: at column `a` of line `b` of
//! the frame lies the tile's dot at column `a` modulo its width of line `b` modulo its height.
#![tactic(auto)]

mod brush;
mod fault;
mod fixed;
mod pattern;
mod patterns;
mod tile;
mod user_data;

pub use brush::Brush;
pub use fault::DefineError;
pub use pattern::{Pattern, PatternKind};
pub use patterns::Patterns;
pub use tile::{OwnedTile, Tile};
