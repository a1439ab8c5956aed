//! Streams in other forms: as assembly text and back, explained, as a trace, and as the page that is open behind a step; and sessions with a debugger of one.
#![tactic(auto)]

mod assembly;
mod debugger_lines;
mod debugging;
mod disassembly;
mod explained;
mod paging;
mod traced;

pub use assembly::{TextError, asm_text, assembled};
pub use debugging::debug_lines;
pub use disassembly::disasm_bytes;
pub use explained::explain_bytes;
pub use paging::{PagingError, page_file};
pub use traced::{tell_by, tell_trace};
