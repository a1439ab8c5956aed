//! Assembly text: its lines, the commands that they stand for, and the bytes of these.
#![tactic(auto)]

mod assembler;
mod fault;
mod form;
pub mod form_law;
mod judge;
mod kinds;
mod names;
mod word;
mod write;
mod written;

pub use assembler::assemble;
pub use fault::AssembleError;
pub use kinds::{kind_named, write_kind};
pub use write::write_line;
