//! What the program does. It reads a print stream, and lists its sheets, writes them to files, or writes the stream as assembly
//! text, explained or not. It makes a stream of assembly text. It steps through a stream, tells its trace, or makes the page of a step a file. It
//! writes the job of a ticket, and has a session with a press.
#![tactic(auto)]

mod behind;
mod making;
mod program;
mod sparing;
mod tables;

pub use making::{asm_file, job_file};
pub use press_devices::Teller;
pub use press_files::{
    Devices, InputError, NamedFile, NamedFiles, NamedInputs, Platform, print_files, print_list,
    print_sums, write_files,
};
pub use press_forms::{PagingError, asm_text, debug_lines, disasm_bytes, page_file, tell_trace};
pub use press_sessions::press_lines;
pub use press_words::{Input, Output, Refusal, Request, SessionRequest, request_of};
pub use program::run_words;
pub use tables::tables_text;
