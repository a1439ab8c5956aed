//! The rows of PCL 5 raster graphics: what the data of a transfer stands for under the compression
//! methods 0 to 3, the blocks of rows of method 5, and short data for a row.
//!
//! A row is a slice of bytes, one bit a dot, the most significant bit leftmost, 1 black. The seed row
//! is the row before it, zero at first.
#![tactic(auto)]

mod blocks;
mod compression;
mod decoder;
mod delta_row;
mod encoder;
mod pack_bits;
mod run_length;
mod runs;
pub mod width_law;

pub use blocks::{Blocks, Run};
pub use compression::Method;
pub use decoder::decode;
pub use encoder::encode;
