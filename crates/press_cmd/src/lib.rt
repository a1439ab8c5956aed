//! The commands of a PCL 5 and PJL stream: which bytes are which command, and commands as values.
#![tactic(auto)]

mod body;
mod carried;
mod command;
pub mod grammar_laws;
mod marks;
mod payload;
pub mod pjl;
mod records;
mod storing;
mod variant;

pub use body::Body;
pub use carried::{carries_data, data_count, spells_exit};
pub use command::{Command, kind, write_command};
pub use marks::{
    ESCAPE, LINE_FEED, LONGEST_LINE, PJL_MARK, UEL, differs, is_character, is_control, is_end,
    is_escape_end, is_group, is_text,
};
pub use payload::{Broken, ControlByte, EscapeByte, Param, PjlLine, TextByte};
pub use records::Records;
pub use storing::bytes_count;
pub use variant::Kind;
