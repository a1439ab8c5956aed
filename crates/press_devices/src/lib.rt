//! Devices: what is read from and written to, whether a call of it failed, how many reads were made of it, and where faults are told
//! (this profile).
#![tactic(auto)]

mod reading;
mod telling;
mod watched;
mod writing;

pub use reading::{MOST_READS, PIECE, READ_FAULT, ReadCount, ReadDevice, ReadFailed, read_next};
pub use telling::{NO_OUTPUT, Teller, report};
pub use watched::Watched;
pub use writing::{WriteDevice, write_flushed, write_pieces, write_whole};
