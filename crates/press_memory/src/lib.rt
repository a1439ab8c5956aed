//! The calls that the program makes, over bytes in memory: each puts the front of what it has into a room.
#![tactic(auto)]

mod answer;
mod around;
mod calls;
mod ending;
mod job;
mod memory_files;
mod playing;
mod room_outputs;
mod settings;
mod settled;
mod sides;
mod streams;
mod texts;
mod told;

pub use answer::RombixelaAnswer;
pub use calls::{asm, disasm, list, print, session, sums, trace, version, write};
