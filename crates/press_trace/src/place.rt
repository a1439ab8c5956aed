//! Where commands stand in a stream.

/// Where a command of a stream stands: its first byte, counted from 0, and how many bytes it has.
#[derive(Clone, Copy)]
pub(crate) struct Place {
    pub(crate) at: usize,
    pub(crate) bytes: usize,
}
