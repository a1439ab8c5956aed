//! The disassembler: from the bytes of a stream to assembly text.
#![tactic(auto)]

mod disassembler;
pub mod reading_back;

pub use disassembler::{disassemble, write_lines};
