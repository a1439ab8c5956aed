//! The names of the forms of lines, each with the space behind it. A universal exit is its name alone.

/// A universal exit.
pub const EXIT: [u8; 3] = *b"uel";

/// A two-character escape sequence.
pub const ESCAPE: [u8; 4] = *b"esc ";

/// A parameter.
pub const PARAM: [u8; 4] = *b"par ";

/// A control byte.
pub const CONTROL: [u8; 4] = *b"ctl ";

/// A text byte.
pub const TEXT: [u8; 4] = *b"txt ";

/// A byte of another language.
pub const FOREIGN: [u8; 4] = *b"for ";

/// Bytes that broke.
pub const BROKEN: [u8; 4] = *b"brk ";

/// A PJL line.
pub const LINE: [u8; 4] = *b"pjl ";
