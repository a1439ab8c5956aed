//! The entries of a queue under their numbers, in the order of the queue.

ghost use Rattle.std.specs.Prelude.{◌≡◌, ◌<◌, IsSome, None, OnOk, OnErr, Some, IsTrue};
ghost use Rattle.indexmap.specs.IndexMap.{index_map_len};
ghost use Rattle.press_queue.specs.Entries.{entry_numbered, with_entry, with_status, place_of, put, put_again, moved_to, changed, is_within};
ghost use Rattle.press_queue.specs.Entries.{first_waiting, first_to_go_on, first_running, running_ones, count_in_flight};

use crate::command::EntryChange;
use crate::entry::Entry;
use crate::status::Status;
use indexmap::IndexMap;
use std::alloc::AllocError;

pub type Entries = IndexMap<u64, Entry>;

/// The entry that has this number.
pub fn entry_numbered(entries: &Entries, number: u64) -> Option<Entry>
    ensures { result ≡ entry_numbered number entries.now.entries }
{
    entries.get(&number).copied()
}

/// Puts another entry under a number.
pub fn replace(entries: &mut Entries, number: u64, entry: Entry)
    ensures { entries.new.entries ≡ with_entry number entry entries.old.entries }
{
    if let Some(slot) = entries.get_mut(&number) {
        *slot = entry;
    }
}

/// Gives an entry another status.
pub fn set_status(entries: &mut Entries, number: u64, entry: Entry, status: Status)
    ensures { entries.new.entries ≡ with_status number status entry entries.old.entries }
{
    replace(entries, number, Entry { status, ..entry });
}

/// The index of the first entry of lower priority, or the length.
fn place_of(entries: &Entries, priority: u8) -> usize
    ensures { result ≡ place_of priority entries.now.entries }
{
    let mut place = 0;
    for (_, entry) in entries.iter() {
        if entry.priority < priority {
            return place;
        }
        place += 1;
    }
    place
}

/// Puts a new entry before the first of lower priority. An `Err` changes nothing.
#[tactic(auto, using(crate::proofs::PutLemmas::placed, crate::proofs::PutLemmas::place_within))]
pub fn put(entries: &mut Entries, number: u64, entry: Entry) -> Result<(), AllocError>
    requires { entry_numbered number entries.old.entries ≡ None }
    ensures ok { OnOk result (entries.new.entries ≡ put number entry entries.old.entries) }
    ensures err { OnErr result (entries.new.entries ≡ entries.old.entries) }
{
    let place = place_of(entries, entry.priority);
    entries.insert_before(place, number, entry)?;
    Ok(())
}

/// Takes an entry out, and puts it as a new one is, without asking for memory.
pub fn put_again(entries: &mut Entries, number: u64, entry: Entry)
    requires { IsSome (entry_numbered number entries.old.entries) }
    ensures { entries.new.entries ≡ put_again number entry entries.old.entries }
{
    if let Some(place) = entries.get_index_of(&number) {
        let last = entries.len() - 1;
        entries.move_index(place, last);
        entries[last] = entry;
        let found = place_of(entries, entry.priority);
        let to = if found < last { found } else { last };
        entries.move_index(last, to);
    }
}

/// Moves an entry to an index.
pub fn move_to(entries: &mut Entries, index: usize, number: u64, entry: Entry)
    requires there { entry_numbered number entries.old.entries ≡ Some entry }
    requires within { index < index_map_len entries.old }
    ensures { entries.new.entries ≡ moved_to index number entry entries.old.entries }
{
    if let Some(place) = entries.get_index_of(&number) {
        entries.move_index(place, index);
    }
}

/// Makes this of an entry, as a command asks.
pub fn change(entries: &mut Entries, number: u64, entry: Entry, change: EntryChange)
    requires there { entry_numbered number entries.old.entries ≡ Some entry }
    requires within { IsTrue (is_within change (index_map_len entries.old)) }
    ensures { entries.new.entries ≡ changed change number entry entries.old.entries }
{
    match change {
        EntryChange::Status(status) => set_status(entries, number, entry, status),
        EntryChange::Priority(priority) => put_again(entries, number, Entry { priority, ..entry }),
        EntryChange::Index(index) => move_to(entries, index, number, entry),
        EntryChange::Removal => {
            entries.shift_remove(&number);
        }
    }
}

/// The first entry that waits, with its number.
pub fn first_waiting(entries: &Entries) -> Option<(u64, Entry)>
    ensures { result ≡ first_waiting entries.now.entries }
{
    for (number, entry) in entries.iter() {
        if entry.status.is_waiting() {
            return Some((*number, *entry));
        }
    }
    None
}

/// The first entry that waits and has begun, with its number.
pub fn first_to_go_on(entries: &Entries) -> Option<(u64, Entry)>
    ensures { result ≡ first_to_go_on entries.now.entries }
{
    for (number, entry) in entries.iter() {
        if entry.status.is_waiting() && entry.begun {
            return Some((*number, *entry));
        }
    }
    None
}

/// The first entry that runs, with its number.
pub fn first_running(entries: &Entries) -> Option<(u64, Entry)>
    ensures { result ≡ first_running entries.now.entries }
{
    for (number, entry) in entries.iter() {
        if entry.status.is_running() {
            return Some((*number, *entry));
        }
    }
    None
}

/// How many entries are in flight.
pub fn count_in_flight(entries: &Entries) -> usize
    ensures { result ≡ count_in_flight entries.now.entries }
{
    let mut count = 0;
    for (_, entry) in entries.iter() {
        if entry.is_in_flight() {
            count += 1;
        }
    }
    count
}

/// Keeps the entries that run.
pub fn keep_running(entries: &mut Entries)
    ensures { entries.new.entries ≡ running_ones entries.old.entries }
{
    entries.retain(|_, entry| entry.status.is_running());
}
