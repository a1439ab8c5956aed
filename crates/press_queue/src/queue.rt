//! The queue, and what each queue command does to it (CIP4 JDF 1.5, the queue commands).

ghost use Rattle.std.specs.Prelude.{◌≡◌};
ghost use Rattle.press_queue.specs.Priority.{priority_of, position_within};

use crate::command::{EntryChange, EntryCommand};
use crate::entries;
use crate::entries::Entries;
use crate::entry::Entry;
use crate::refusal::{Refusal, SubmitError};
use crate::status::{End, QueueStatus, Status};
use crate::view::QueueView;
use std::alloc::Global;
use std::marker::Model;

/// The most entries that a queue has.
pub const MAX_ENTRIES: usize = 64;
/// The most entries that are in flight: begun, in the list, and not ended.
pub const MAX_IN_FLIGHT: usize = 8;
/// The highest priority.
pub const MAX_PRIORITY: u8 = 100;

/// A queue of jobs. Contracts see it as its entries under their numbers, in order, its two flags and
/// the last number that it gave.
///
/// Source: CIP4 JDF 1.5, the queue and the queue commands. At which statuses a command is legal, and
/// the limits, are this profile's.
#[derive(Drop)]
pub struct Queue {
    entries: Entries,
    held: bool,
    closed: bool,
    last: u64,
}

impl Model for Queue {
    ghost use Rattle.press_queue.specs.State.{QueueState};

    ghost Value = { QueueState };

    ghost use Rattle.press_queue.specs.EveryQueue.{IsQueue};
    ghost use Rattle.press_queue.specs.Inside.{queue_state};

    ghost view = { queue_state };

    ghost invariant = { λ q. IsQueue (queue_state q) };
}

impl Queue {
    ghost use Rattle.std.specs.Prelude.{◌≡◌, ◌<◌, None, Err, IfOk, IfErr, OnOk, IsTrue, length};
    ghost use Rattle.press_queue.specs.Answers.{Submits};
    ghost use Rattle.press_queue.specs.Entries.{entry_numbered, is_within};
    ghost use Rattle.press_queue.specs.EveryQueue.{IsQueue};
    ghost use Rattle.press_queue.specs.State.{empty_queue};
    ghost use Rattle.press_queue.specs.View.{shown};
    ghost use Rattle.press_queue.specs.Rows as rows;

    /// A queue without entries, open and not held. Entries are numbered from 1.
    pub fn new(alloc: Global) -> Self
        ensures { result ≡ empty_queue }
    {
        Queue {
            entries: Entries::new(alloc),
            held: false,
            closed: false,
            last: 0,
        }
    }

    /// Takes a new entry of a priority from 0 to 100, which waits before the first of lower priority, and
    /// gives its number.
    ///
    /// # Errors
    ///
    /// `Closed` (23), `Full` (24), `BadPriority` (25), in this order, and else `NoMemory` where memory
    /// ran out. Each changes nothing.
    pub fn submit(&mut self, priority: i128) -> Result<u64, SubmitError>
        ensures row { Submits (rows.submit priority self.old) self.old result self.new }
        ensures fresh { IfOk result (λ number. entry_numbered number self.old.entries ≡ None) }
    {
        let priority = self.admits(priority)?;
        let number = self.last + 1;
        entries::put(&mut self.entries, number, Entry::waiting(priority))?;
        self.last = number;
        Ok(number)
    }

    /// The priority of a new entry that would be taken.
    ///
    /// # Errors
    ///
    /// `Closed` (23), `Full` (24), `BadPriority` (25), in this order: those of `submit`.
    pub fn admits(&self, priority: i128) -> Result<u8, Refusal>
        ensures ok { IfOk result (λ taken.
            rows.submit priority self.now ≡ rows.submitted taken self.now) }
        ensures room { OnOk result (length self.now.entries < rows.most_entries) }
        ensures below { OnOk result (self.now.last < rows.last_number) }
        ensures err { IfErr result (λ refusal.
            rows.submit priority self.now ≡ (self.now, Err refusal)) }
    {
        if self.closed {
            return Err(Refusal::Closed);
        }
        if self.entries.len() >= MAX_ENTRIES || self.last == u64::MAX {
            return Err(Refusal::Full);
        }
        priority_of(priority).ok_or(Refusal::BadPriority)
    }

    /// The entry that a command names, where the command is legal.
    fn legal_entry(&self, command: EntryCommand, number: u64) -> Result<Entry, Refusal>
        ensures { result ≡ rows.legal_entry command number self.now.entries }
    {
        match entries::entry_numbered(&self.entries, number) {
            None => Err(Refusal::Unknown),
            Some(entry) if command.is_legal(entry.status) => Ok(entry),
            Some(_) => Err(Refusal::WrongStatus),
        }
    }

    /// What a command makes of an entry at which it is legal.
    fn change_of(&self, command: EntryCommand) -> Result<EntryChange, Refusal>
        ensures value { result ≡ rows.change_of command self.now }
        ensures within { IfOk result (λ change. IsTrue (is_within change (length self.now.entries))) }
    {
        Ok(match command {
            EntryCommand::Hold => EntryChange::Status(Status::Held),
            EntryCommand::Resume => EntryChange::Status(Status::Waiting),
            EntryCommand::Suspend => {
                if entries::count_in_flight(&self.entries) >= MAX_IN_FLIGHT {
                    return Err(Refusal::InFlightFull);
                }
                EntryChange::Status(Status::Suspended)
            }
            EntryCommand::Abort => EntryChange::Status(Status::Aborted),
            EntryCommand::Remove => EntryChange::Removal,
            EntryCommand::SetPriority(priority) => {
                EntryChange::Priority(priority_of(priority).ok_or(Refusal::BadPriority)?)
            }
            EntryCommand::SetPosition(position) => {
                let index = position_within(self.entries.len(), position);
                EntryChange::Index(index.ok_or(Refusal::BadPosition)?)
            }
        })
    }

    /// Carries out a command to an entry.
    ///
    /// # Errors
    ///
    /// `Unknown` (21) and `WrongStatus` (22); then `InFlightFull` (27), `BadPriority` (25) or
    /// `BadPosition` (26), each of the one command that it is of. They change nothing.
    pub fn command(&mut self, number: u64, command: EntryCommand) -> Result<(), Refusal>
        ensures row { (self.new, result) ≡ rows.commanded command number self.old }
        ensures bounds { IsQueue self.old }
    {
        let entry = self.legal_entry(command, number)?;
        let change = self.change_of(command)?;
        entries::change(&mut self.entries, number, entry, change);
        Ok(())
    }

    /// Holds an entry that waits.
    ///
    /// # Errors
    ///
    /// `Unknown` (21) and then `WrongStatus` (22). They change nothing.
    pub fn hold(&mut self, number: u64) -> Result<(), Refusal>
        ensures { (self.new, result) ≡ rows.hold number self.old }
    {
        self.command(number, EntryCommand::Hold)
    }

    /// Lets an entry that is held or suspended wait.
    ///
    /// # Errors
    ///
    /// `Unknown` (21) and then `WrongStatus` (22). They change nothing.
    pub fn resume(&mut self, number: u64) -> Result<(), Refusal>
        ensures { (self.new, result) ≡ rows.resume number self.old }
    {
        self.command(number, EntryCommand::Resume)
    }

    /// Suspends an entry that runs.
    ///
    /// # Errors
    ///
    /// `Unknown` (21), `WrongStatus` (22), and then `InFlightFull` (27). They change nothing.
    pub fn suspend(&mut self, number: u64) -> Result<(), Refusal>
        ensures { (self.new, result) ≡ rows.suspend number self.old }
    {
        self.command(number, EntryCommand::Suspend)
    }

    /// Aborts an entry that did not end.
    ///
    /// # Errors
    ///
    /// `Unknown` (21) and then `WrongStatus` (22). They change nothing.
    pub fn abort(&mut self, number: u64) -> Result<(), Refusal>
        ensures { (self.new, result) ≡ rows.abort number self.old }
    {
        self.command(number, EntryCommand::Abort)
    }

    /// Takes an entry that waits, is held or ended off the list.
    ///
    /// # Errors
    ///
    /// `Unknown` (21) and then `WrongStatus` (22). They change nothing.
    pub fn remove(&mut self, number: u64) -> Result<(), Refusal>
        ensures { (self.new, result) ≡ rows.remove number self.old }
    {
        self.command(number, EntryCommand::Remove)
    }

    /// Gives an entry that waits or is held a priority from 0 to 100, and puts it as a new one is.
    ///
    /// # Errors
    ///
    /// `Unknown` (21), `WrongStatus` (22), and then `BadPriority` (25). They change nothing.
    pub fn set_priority(&mut self, number: u64, priority: i128) -> Result<(), Refusal>
        ensures { (self.new, result) ≡ rows.set_priority number priority self.old }
    {
        self.command(number, EntryCommand::SetPriority(priority))
    }

    /// Moves an entry that waits or is held to an index of the list, from 0. Its priority stays.
    ///
    /// # Errors
    ///
    /// `Unknown` (21), `WrongStatus` (22), and then `BadPosition` (26). They change nothing.
    pub fn set_position(&mut self, number: u64, position: i128) -> Result<(), Refusal>
        ensures { (self.new, result) ≡ rows.set_position number position self.old }
    {
        self.command(number, EntryCommand::SetPosition(position))
    }

    /// From now on no entry begins.
    pub fn hold_queue(&mut self)
        ensures { self.new ≡ rows.hold_queue self.old }
    {
        self.held = true;
    }

    /// Entries begin again.
    pub fn resume_queue(&mut self)
        ensures { self.new ≡ rows.resume_queue self.old }
    {
        self.held = false;
    }

    /// New entries are taken again.
    pub fn open_queue(&mut self)
        ensures { self.new ≡ rows.open_queue self.old }
    {
        self.closed = false;
    }

    /// From now on no new entry is taken.
    pub fn close_queue(&mut self)
        ensures { self.new ≡ rows.close_queue self.old }
    {
        self.closed = true;
    }

    /// Takes every entry that does not run off the list.
    pub fn flush(&mut self)
        ensures row { self.new ≡ rows.flush self.old }
        ensures bounds { IsQueue self.old }
    {
        entries::keep_running(&mut self.entries);
    }

    /// The entry that comes next: the first that waits, or, where the most entries are in flight, the
    /// first that waits and has begun.
    fn next_to_run(&self) -> Option<(u64, Entry)>
        ensures { result ≡ rows.next_to_run self.now.entries }
    {
        if entries::count_in_flight(&self.entries) < MAX_IN_FLIGHT {
            entries::first_waiting(&self.entries)
        } else {
            entries::first_to_go_on(&self.entries)
        }
    }

    /// The first entry that waits runs, at the place that it had, and its number is given; where eight
    /// are in flight, the first that waits and has begun. `None` where there is none, or the queue is
    /// held. Entries that run are no matter: whether another may run beside them, the caller knows.
    pub fn begin(&mut self) -> Option<u64>
        ensures row { (self.new, result) ≡ rows.begin self.old }
        ensures bounds { IsQueue self.old }
    {
        if self.held {
            return None;
        }
        let (number, entry) = self.next_to_run()?;
        let begun = Entry {
            status: Status::Running,
            begun: true,
            ..entry
        };
        entries::replace(&mut self.entries, number, begun);
        Some(number)
    }

    /// An entry that runs ends.
    pub fn finish(&mut self, number: u64, end: End)
        requires { IsTrue (rows.entry_runs number self.old) }
        ensures { self.new ≡ rows.finish_entry number end self.old }
    {
        if let Some(entry) = entries::entry_numbered(&self.entries, number) {
            entries::set_status(&mut self.entries, number, entry, end.status());
        }
    }

    /// Its entries, in order, its flags, and the last number that it gave.
    ///
    /// Of every queue: no number stands twice, and each is one that the queue gave; at most 64 entries are in the list, and
    /// at most eight are in flight, of which at most seven do not run.
    pub fn status(&self) -> QueueView<'_>
        ensures shown { shown result ≡ self.now }
        ensures bounds { IsQueue self.now }
    {
        QueueView {
            entries: &self.entries,
            held: self.held,
            closed: self.closed,
            last: self.last,
        }
    }

    /// The status of the queue as a whole.
    pub fn queue_status(&self) -> QueueStatus
        ensures { result ≡ rows.queue_status self.now }
    {
        if self.closed && self.held {
            QueueStatus::Blocked
        } else if self.closed {
            QueueStatus::Closed
        } else if self.held {
            QueueStatus::Held
        } else if self.entries.len() >= MAX_ENTRIES {
            QueueStatus::Full
        } else if self.running().is_some() {
            QueueStatus::Running
        } else {
            QueueStatus::Waiting
        }
    }

    /// The entry that has this number.
    pub fn entry(&self, number: u64) -> Option<Entry>
        ensures { result ≡ entry_numbered number self.now.entries }
    {
        entries::entry_numbered(&self.entries, number)
    }

    /// Whether the entry of this number runs.
    pub fn is_running(&self, number: u64) -> bool
        ensures { result ≡ rows.entry_runs number self.now }
    {
        match entries::entry_numbered(&self.entries, number) {
            Some(entry) => entry.status.is_running(),
            None => false,
        }
    }

    /// The number of the first entry that runs.
    pub fn running(&self) -> Option<u64>
        ensures value { result ≡ rows.running self.now }
        ensures bounds { IsQueue self.now }
    {
        let (number, _) = entries::first_running(&self.entries)?;
        Some(number)
    }
}

/// A priority, if the number is one.
fn priority_of(priority: i128) -> Option<u8>
    ensures { result ≡ priority_of priority }
{
    u8::try_from(priority).ok().filter(|n| *n <= MAX_PRIORITY)
}

/// The index that a position names in a queue of this length.
fn position_within(len: usize, position: i128) -> Option<usize>
    ensures { result ≡ position_within len position }
{
    usize::try_from(position).ok().filter(|n| *n < len)
}
