//! The canvas of a page: marks are painted in the order of its frame, and the page is turned once when it closes.
#![tactic(auto)]

mod block;
mod canvas;
mod changes;
mod columns;
mod frame;
mod lines;
mod turned_strip;
mod turning;

pub use canvas::Canvas;
pub use frame::Frame;
pub use turning::turned;
