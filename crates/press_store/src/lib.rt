//! Things under their IDs, each temporary or permanent: the macros and the user-defined patterns of a printer
//! (PCL 5 Printer Language Technical Reference Manual, Macros, and The PCL Print Model).
#![tactic(auto)]

mod entry;
mod store;

pub use entry::{Duplicate, Entry};
pub use store::Store;
