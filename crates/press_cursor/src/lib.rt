//! The cursor of PCL 5: moves within the logical page, and the stack of pushed positions.
#![tactic(auto)]

mod cursor;
mod logical_page;
mod stack;

pub use cursor::Cursor;
pub use logical_page::LogicalPage;
pub use stack::{CursorPosition, STACK_DEPTH};
