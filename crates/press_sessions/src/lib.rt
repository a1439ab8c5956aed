//! Sessions with a press, line by line.
#![tactic(auto)]

mod event_lines;
mod session;
mod session_error;
mod sessions;

pub use sessions::press_lines;
