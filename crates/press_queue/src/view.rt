//! What a queue lends.

use crate::entry::Entry;
use indexmap::IndexMap;

/// What a queue shows: its entries under their numbers, in order, its two flags, and the last number
/// that it gave.
#[derive(Clone, Copy)]
pub struct QueueView<'a> {
    pub entries: &'a IndexMap<u64, Entry>,
    /// Whether no entry begins.
    pub held: bool,
    /// Whether it takes no new entries.
    pub closed: bool,
    /// 0 where it gave none.
    pub last: u64,
}
