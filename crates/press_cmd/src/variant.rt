//! The kinds of commands.

/// The kind of a command: its variant, with its byte, or with the parameterized character, the group character and the
/// parameter or termination character in upper case (`end`).
#[derive(Clone, Copy, Debug, PartialEq, Eq)]
pub enum Kind {
    Escape(u8),
    Param {
        character: u8,
        group: Option<u8>,
        end: u8,
    },
    Control(u8),
    Text(u8),
    Broken,
    Uel,
    PjlLine,
    Foreign(u8),
}
