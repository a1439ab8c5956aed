//! What each message does to a press. The response is made before anything changes.

use crate::fault::{Refused, Stop};
use crate::flag::FlagCommand;
use crate::heading::Heading;
use crate::listings::{entry_id, listed_device, listed_queue, number_with_id};
use crate::message_type::MessageType;
use crate::parameters::{id_and_number, id_parameter};
use crate::press::Press;
use crate::response::{Additions, accepted, adding, text};
use crate::submission::submission;
use crate::work::Work;
use crate::works::{enter, follow, forget_gone};
use press_bits::Bitmap;
use press_queue::{EntryCommand, Refusal};
use serde_json::Value;
use std::alloc::AllocError;

impl Press {
    ghost use Rattle.std.specs.Prelude.{◌≡◌, ◌+◌, IfOk, IfErr, OnOk, codes, false, map, nat_eq};
    ghost use Rattle.std.specs.List.{IsDistinct};
    ghost use Rattle.std.specs.Map.{keys_of};
    ghost use Rattle.serde_json.specs.Data.{string};
    ghost use Rattle.serde_json.specs.View.{view, items_view, items_of};
    ghost use Rattle.press_queue.specs.declared.command.EntryCommand.TheVariants as commands;
    ghost use Rattle.press_queue.specs.Rows as rows;
    ghost use Rattle.press_core.specs.declared.fault.Stop.TheVariants.{NoMemory};
    ghost use Rattle.press_core.specs.Listings.{entry_id, listed_queue, listed_device};
    ghost use Rattle.press_core.specs.Response.{adding, accepted_text};
    ghost use Rattle.press_core.specs.Rows as table;
    ghost use Rattle.press_core.specs.Shown.{HaveNoFloat, shown_heading, additions_of};
    ghost use Rattle.press_core.specs.declared.message_type.MessageType.TheVariants.{SubmitQueueEntry};
    ghost use Rattle.press_core.specs.Stops.{AnswersMessage, Accepts};
    ghost use Rattle.press_core.specs.World as world;

    /// Carries a message out. The response is made before anything changes.
    pub(crate) fn carry_out(
        &mut self,
        heading: Heading<'_>,
        message_type: MessageType,
        message: &Value,
        images: &[Bitmap],
    ) -> Result<Vec<u8>, Stop>
        ensures answers { AnswersMessage
            (table.response_row message_type (view message.now) images.now self.old)
            self.old (shown_heading heading.entry) result self.new }
        ensures printable { Accepts
            (table.ticket_of_type message_type (view message.now) images.now) images.now result }
    {
        match message_type {
            MessageType::SubmitQueueEntry => self.submit(heading, message, images),
            MessageType::HoldQueueEntry => self.command(heading, message, EntryCommand::Hold),
            MessageType::SuspendQueueEntry => self.command(heading, message, EntryCommand::Suspend),
            MessageType::ResumeQueueEntry => self.command(heading, message, EntryCommand::Resume),
            MessageType::AbortQueueEntry => self.command(heading, message, EntryCommand::Abort),
            MessageType::RemoveQueueEntry => self.command(heading, message, EntryCommand::Remove),
            MessageType::SetQueueEntryPriority => self.set_priority(heading, message),
            MessageType::SetQueueEntryPosition => self.set_position(heading, message),
            MessageType::QueueStatus => self.tell_queue(heading),
            MessageType::Status => self.tell_devices(heading),
            MessageType::HoldQueue => self.set_flag(heading, FlagCommand::Hold),
            MessageType::ResumeQueue => self.set_flag(heading, FlagCommand::Resume),
            MessageType::OpenQueue => self.set_flag(heading, FlagCommand::Open),
            MessageType::CloseQueue => self.set_flag(heading, FlagCommand::Close),
            MessageType::FlushQueue => self.flush(heading),
        }
    }

    /// The entry of this ID.
    fn number_of(&self, id: &str) -> Result<u64, Refused>
        ensures value { result ≡ table.entry_number_of id.now self.now.queue }
        ensures distinct { IsDistinct nat_eq (keys_of self.now.queue.entries) }
    {
        number_with_id(id, self.queue.status().entries).ok_or(Refused::with_code(
            Refusal::Unknown.return_code(),
        ))
    }

    /// The entry that a message names.
    fn named_entry(&self, message: &Value) -> Result<u64, Refused>
        ensures value { result ≡ table.named_entry (view message.now) self.now.queue }
        ensures distinct { OnOk result (IsDistinct nat_eq (keys_of self.now.queue.entries)) }
    {
        match id_parameter(message) {
            Ok(id) => self.number_of(id),
            Err(fault) => Err(Refused::from(fault)),
        }
    }

    /// The entry that a message names, and a number beside it.
    fn named_entry_with(&self, key: &str, message: &Value) -> Result<(u64, i128), Refused>
        ensures value { result ≡ table.named_entry_with key.now (view message.now) self.now.queue }
        ensures distinct { OnOk result (IsDistinct nat_eq (keys_of self.now.queue.entries)) }
    {
        match id_and_number(message, key) {
            Ok((id, number)) => Ok((self.number_of(id)?, number)),
            Err(fault) => Err(Refused::from(fault)),
        }
    }

    /// Takes a new entry, with its ticket and its images.
    fn submit(
        &mut self,
        heading: Heading<'_>,
        message: &Value,
        images: &[Bitmap],
    ) -> Result<Vec<u8>, Stop>
        ensures answers { AnswersMessage (table.submit_row (view message.now) images.now self.old)
            self.old (shown_heading heading.entry) result self.new }
        ensures printable { Accepts
            (table.ticket_of_type SubmitQueueEntry (view message.now) images.now)
            images.now result }
    {
        let (ticket, priority) = submission(self.alloc, message, images)?;
        // Asked before the images are copied.
        self.queue.admits(priority)?;
        let response = self.entered(heading)?;
        self.works.reserve(1)?;
        let work = Work::new(self.alloc, ticket, images)?;
        enter(&mut self.queue, &mut self.works, priority, work)?;
        Ok(response)
    }

    /// The response to the next submission, where it is taken.
    fn entered(&self, heading: Heading<'_>) -> Result<Vec<u8>, AllocError>
        ensures { IfOk result (λ bytes. nat_eq self.now.queue.last rows.last_number ≡ false
            → bytes.items ≡ accepted_text (shown_heading heading.entry)
            (adding (codes "QueueEntryID") (string (entry_id (self.now.queue.last + 1))))) }
    {
        let next = self.queue.status().last.saturating_add(1);
        let id = Value::String(entry_id(self.alloc, next)?);
        accepted(self.alloc, heading, adding(self.alloc, "QueueEntryID", id)?)
    }

    /// What the response to a command to an entry adds.
    fn added_by(&self, command: EntryCommand) -> Result<Additions, AllocError>
        ensures added { IfOk result (λ additions.
            additions_of additions.items ≡ table.added_by command) }
        ensures no_float { IfOk result (λ additions. HaveNoFloat (additions_of additions.items)) }
    {
        match command {
            EntryCommand::Remove => {
                let removed = text(self.alloc, "Removed")?;
                adding(self.alloc, "Status", removed)
            }
            _ => Ok(Vec::new(self.alloc)),
        }
    }

    /// Carries out a command to the entry of this number, and what follows of it.
    fn command_entry(
        &mut self,
        heading: Heading<'_>,
        number: u64,
        command: EntryCommand,
    ) -> Result<Vec<u8>, Stop>
        ensures { AnswersMessage (table.entry_row command number self.old)
            self.old (shown_heading heading.entry) result self.new }
    {
        let response = accepted(self.alloc, heading, self.added_by(command)?)?;
        self.queue.command(number, command)?;
        let engines = &mut self.engines;
        follow(command, number, &self.queue, &mut self.works, engines);
        Ok(response)
    }

    /// Carries out a command to the entry that a message names.
    fn command(
        &mut self,
        heading: Heading<'_>,
        message: &Value,
        command: EntryCommand,
    ) -> Result<Vec<u8>, Stop>
        ensures { AnswersMessage (table.named_row command (view message.now) self.old)
            self.old (shown_heading heading.entry) result self.new }
    {
        let number = self.named_entry(message)?;
        self.command_entry(heading, number, command)
    }

    /// Gives an entry another priority.
    fn set_priority(&mut self, heading: Heading<'_>, message: &Value) -> Result<Vec<u8>, Stop>
        ensures { AnswersMessage (table.numbered_row (codes "Priority")
            (λ priority. commands.SetPriority priority) (view message.now) self.old)
            self.old (shown_heading heading.entry) result self.new }
    {
        let (number, priority) = self.named_entry_with("Priority", message)?;
        self.command_entry(heading, number, EntryCommand::SetPriority(priority))
    }

    /// Moves an entry to an index of the list.
    fn set_position(&mut self, heading: Heading<'_>, message: &Value) -> Result<Vec<u8>, Stop>
        ensures { AnswersMessage (table.numbered_row (codes "Position")
            (λ position. commands.SetPosition position) (view message.now) self.old)
            self.old (shown_heading heading.entry) result self.new }
    {
        let (number, position) = self.named_entry_with("Position", message)?;
        self.command_entry(heading, number, EntryCommand::SetPosition(position))
    }

    /// Tells the queue.
    fn tell_queue(&self, heading: Heading<'_>) -> Result<Vec<u8>, Stop>
        ensures tells { IfOk result (λ bytes.
            bytes.items ≡ accepted_text (shown_heading heading.entry)
            (adding (codes "Queue") (listed_queue self.now.queue))) }
        ensures err { IfErr result (λ stop. stop ≡ NoMemory) }
    {
        let queue = listed_queue(self.alloc, &self.queue)?;
        Ok(accepted(self.alloc, heading, adding(self.alloc, "Queue", queue)?)?)
    }

    /// Tells what engine 0 does; and where there are others, what each does.
    fn tell_devices(&self, heading: Heading<'_>) -> Result<Vec<u8>, Stop>
        ensures tells { IfOk result (λ bytes.
            bytes.items ≡ accepted_text (shown_heading heading.entry)
            (table.devices_added self.now)) }
        ensures err { IfErr result (λ stop. stop ≡ NoMemory) }
    {
        let additions = self.devices_added()?;
        Ok(accepted(self.alloc, heading, additions)?)
    }

    /// What is told of the engines.
    fn devices_added(&self) -> Result<Additions, AllocError>
        ensures { IfOk result (λ additions.
            additions_of additions.items ≡ table.devices_added self.now) }
    {
        let device = listed_device(self.alloc, self.status())?;
        let mut additions = adding(self.alloc, "Device", device)?;
        if self.engines.count() > 1 {
            additions.push(("Engines", Value::Array(self.listed_devices()?)))?;
        }
        Ok(additions)
    }

    /// What each engine does, from engine 0 on.
    fn listed_devices(&self) -> Result<Vec<Value>, AllocError>
        ensures { IfOk result (λ values. items_view values.items
            ≡ items_of (map listed_device (world.devices self.now))) }
    {
        let mut values = Vec::new(self.alloc);
        for engine in 0..self.engines.count() {
            values.push(listed_device(self.alloc, self.device(engine))?)?;
        }
        Ok(values)
    }

    /// Sets a flag of the queue.
    fn set_flag(&mut self, heading: Heading<'_>, command: FlagCommand) -> Result<Vec<u8>, Stop>
        ensures { AnswersMessage
            (table.accepting (world.with_queue (table.flagged command self.old.queue) self.old))
            self.old (shown_heading heading.entry) result self.new }
    {
        let response = accepted(self.alloc, heading, Vec::new(self.alloc))?;
        match command {
            FlagCommand::Hold => self.queue.hold_queue(),
            FlagCommand::Resume => self.queue.resume_queue(),
            FlagCommand::Open => self.queue.open_queue(),
            FlagCommand::Close => self.queue.close_queue(),
        }
        Ok(response)
    }

    /// Takes every entry that does not run off the list.
    fn flush(&mut self, heading: Heading<'_>) -> Result<Vec<u8>, Stop>
        ensures { AnswersMessage
            (table.accepting (world.without_gone
            (world.with_queue (rows.flush self.old.queue) self.old)))
            self.old (shown_heading heading.entry) result self.new }
    {
        let response = accepted(self.alloc, heading, Vec::new(self.alloc))?;
        self.queue.flush();
        forget_gone(&mut self.works, &self.queue);
        Ok(response)
    }
}
