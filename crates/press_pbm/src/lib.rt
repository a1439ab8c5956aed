//! P4 files: pages of dots as the raw form of the Netpbm format PBM has them.
#![tactic(auto)]

mod fault;
pub mod file_laws;
mod fuse_read;
mod fuse_write;
mod place;
mod reading;
mod writing;

pub use fault::{ReadPbmError, WRITE_FAULT, WritePbmError};
pub use fuse_read::FuseRead;
pub use fuse_write::FuseWrite;
pub use reading::read_pbm;
pub use writing::write_pbm;
