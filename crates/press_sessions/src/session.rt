//! A session with a press: what each of its lines is answered.
ghost use Rattle.std.specs.Prelude.{◌≡◌, ◌∷◌, [], Bool, map, true, false, IfOk, IfErr, OnOk};
ghost use Rattle.press_devices.specs.Reading.{SomeFails};
ghost use Rattle.std.specs.Io.KnownBytes.{Appends};
ghost use Rattle.std.specs.String.{string_bytes};
ghost use Rattle.press_files.specs.EntryListing.{entry_listing};
ghost use Rattle.press_files.specs.EntryPages.{parts_in};
ghost use Rattle.press_files.specs.PagesKept.{deliveries_of, faults_of};
ghost use Rattle.press_files.specs.NamedInputs.{named};
ghost use Rattle.press_sessions.specs.EventLines.{MessageLine, line_seen};
ghost use Rattle.press_sessions.specs.Sessions.{
  turn_text,
  TakesEvent,
  TakesAsked,
  TakesLines,
  EventFails,
  HasFault,
  IsUnanswered,
  StopsListing,
  beginning,
  by_rules,
  handed_back,
  standing,
};
ghost use Rattle.press_theorem.specs.Events as happening;

use crate::event_lines::{LineEvent, event_of};
use crate::session_error::SessionError;
use press_core::{Press, Turn};
use press_devices::{WriteDevice, write_flushed};
use press_files::{
    EntryFolder, EntryPages, EntryTemplate, NamedInputs, images_named, list_delivered, open_named,
    read_all,
};
use press_sink::NamedOutputs;
use press_theorem::{PressEvent, carry_out_events};
use press_words::{WHAT, line_of, words_of};
use std::alloc::{AllocError, Global};
use std::str;

/// A press, and where the sheets that it delivers go.
#[derive(Drop)]
pub(crate) struct Session<O: NamedOutputs, D: EntryFolder> {
    alloc: Global,
    press: Press,
    pages: EntryPages<O, D>,
}

impl<O: NamedOutputs + Drop, D: EntryFolder> Session<O, D> {
    ghost use Rattle.std.specs.Prelude.{◌≢◌, None};
    ghost use Rattle.press_files.specs.EntryPages.{MakesPages};

    /// A session with a press, of which nothing is delivered yet.
    pub(crate) fn new(
        alloc: Global,
        press: Press,
        outputs: O,
        template: Option<EntryTemplate>,
        sums: bool,
    ) -> Self
        requires parts { parts_in template ≡ D.parts }
        requires begun { O.made outputs ≡ D.begun }
        requires waits { O.waiting outputs ≡ D.waits }
        requires sums { sums ≡ D.sums }
        ensures { standing result ≡ beginning press }
    {
        Session {
            alloc,
            press,
            pages: EntryPages::new(alloc, outputs, template, sums),
        }
    }

    /// Where the outputs were made.
    pub(crate) fn into_outputs(self) -> O
        ensures makes { ∥ MakesPages D.parts (deliveries_of self.pages) (faults_of self.pages)
            D.begun (O.made result) ∥₁ }
        ensures cause { faults_of self.pages ≢ 0 → O.failed result ≡ true }
        ensures through { faults_of self.pages ≡ 0 → O.waiting result ≡ D.waits }
        ensures unmade { D.parts ≡ None → O.made result ≡ D.begun }
    {
        let Session { pages, .. } = self;
        pages.into_outputs()
    }

    /// Lists the sheets.
    pub(crate) fn list<W: WriteDevice>(&self, out: &mut W) -> Result<(), SessionError>
        ensures ok { OnOk result (Appends (W.contents out.old) (W.contents out.new)
            (entry_listing D.sums (deliveries_of self.now.pages))) }
        ensures err { IfErr result (StopsListing (W.failed out.new ≡ true) D.sums
            (deliveries_of self.now.pages)
            (W.contents out.old) (W.contents out.new)) }
        ensures flushed { OnOk result (W.waiting out.new ≡ false) }
    {
        let listing = self.listing()?;
        write_flushed(out, &listing)?;
        Ok(())
    }

    /// The listing of the sheets.
    fn listing(&self) -> Result<Vec<u8>, AllocError>
        ensures { IfOk result (λ listing. listing.items
            ≡ entry_listing D.sums (deliveries_of self.now.pages)) }
    {
        let mut listing = Vec::new(self.alloc);
        match list_delivered(&mut listing, self.pages.sheets()) {
            Ok(()) => Ok(listing),
            Err(_) => Err(AllocError),
        }
    }

    /// Carries out a line: its answer.
    pub(crate) fn answer<I: NamedInputs>(
        &mut self,
        inputs: &I,
        line: &[u8],
    ) -> Result<Vec<u8>, SessionError>
        requires { faults_of self.old.pages ≡ 0 }
        ensures ok { IfOk result (λ answer.
            (goes_on : Bool) → TakesLines (by_rules
            (named (SomeFails I.Input.failed I.Input.reads)
            (I.bytes inputs.now) (I.missing inputs.now)) goes_on D.parts)
            (line.now ∷ []) (standing self.old) (standing self.new) answer.items) }
        ensures err { IfErr result (λ why. IsUnanswered
            (named (SomeFails I.Input.failed I.Input.reads)
            (I.bytes inputs.now) (I.missing inputs.now))
            line.now (standing self.old) why (standing self.new)) }
    {
        let words = words_of(self.alloc, line)?;
        match event_of(&words) {
            Some(event) => self.happen(inputs, event),
            None => Ok(line_of(self.alloc, WHAT)?),
        }
    }

    /// Lets the event of a line happen: its answer.
    fn happen<I: NamedInputs>(
        &mut self,
        inputs: &I,
        event: LineEvent<'_>,
    ) -> Result<Vec<u8>, SessionError>
        requires { faults_of self.old.pages ≡ 0 }
        ensures ok { IfOk result (λ answer. TakesAsked
            (named (SomeFails I.Input.failed I.Input.reads)
            (I.bytes inputs.now) (I.missing inputs.now)) D.parts
            (line_seen event.entry)
            (standing self.old) (standing self.new) answer.items) }
        ensures err { IfErr result (λ why. HasFault
            (named (SomeFails I.Input.failed I.Input.reads)
            (I.bytes inputs.now) (I.missing inputs.now))
            (line_seen event.entry) (standing self.old) why (standing self.new)) }
    {
        match event {
            LineEvent::Message(file, images) => self.message(inputs, file, images),
            LineEvent::Turn { engine, most } => self.carry_out(PressEvent::Turn { engine, most }),
            LineEvent::Operator(command) => self.carry_out(PressEvent::Operator(command)),
        }
    }

    /// Takes the message of a file, with the images of others: its response. No output replaces one of these.
    fn message<I: NamedInputs>(
        &mut self,
        inputs: &I,
        file: &[u8],
        images: &[&[u8]],
    ) -> Result<Vec<u8>, SessionError>
        requires { faults_of self.old.pages ≡ 0 }
        ensures ok { IfOk result (λ answer. TakesAsked
            (named (SomeFails I.Input.failed I.Input.reads)
            (I.bytes inputs.now) (I.missing inputs.now)) D.parts
            (MessageLine file.now (map (λ name. name.now) images.now))
            (standing self.old) (standing self.new) answer.items) }
        ensures err { IfErr result (λ why. HasFault
            (named (SomeFails I.Input.failed I.Input.reads)
            (I.bytes inputs.now) (I.missing inputs.now))
            (MessageLine file.now (map (λ name. name.now) images.now))
            (standing self.old) why (standing self.new)) }
    {
        self.spare(file)?;
        for image in images {
            self.spare(image)?;
        }
        let mut input = open_named(inputs, file)?;
        let text = read_all(self.alloc, &mut input)?;
        let images = images_named(self.alloc, inputs, images)?;
        self.carry_out(PressEvent::Message {
            text: &text,
            images: &images,
        })
    }

    /// Notes an input by its name, so that no output replaces it. One that is no text names no file.
    fn spare(&mut self, name: &[u8]) -> Result<(), AllocError>
        ensures { standing self.new ≡ standing self.old }
    {
        match str::from_utf8(name) {
            Ok(name) => self.pages.spare(name),
            Err(_) => Ok(()),
        }
    }

    /// Lets an event happen to the press: the lines of the files that are made of what it hands out, and that of its answer.
    fn carry_out(&mut self, event: PressEvent<'_>) -> Result<Vec<u8>, SessionError>
        requires { faults_of self.old.pages ≡ 0 }
        ensures ok { IfOk result (λ answer. TakesEvent D.parts (happening.event_of event.entry)
            (standing self.old) (standing self.new) answer.items) }
        ensures err { IfErr result (λ why. EventFails (happening.event_of event.entry)
            (standing self.old) why (standing self.new)) }
    {
        let mut response = Vec::new(self.alloc);
        let mut turns = Vec::new(self.alloc);
        let count = self.pages.sheets().sheets().len();
        let (press, pages) = (&mut self.press, &mut self.pages);
        carry_out_events(press, &[event], pages, &mut response, &mut turns)?;
        let mut lines = self.pages.lines_behind(count)?;
        let answer = answer_of(self.alloc, response, &turns)?;
        lines.extend_from_slice(&answer)?;
        Ok(lines)
    }
}

/// The line of the answer of an event: of its response, or of the turn that it was, or that it was carried out.
fn answer_of(alloc: Global, response: Vec<u8>, turns: &[Turn]) -> Result<Vec<u8>, AllocError>
    ensures { IfOk result (λ line. line.items ≡ handed_back response.items turns.now) }
{
    match turns.first() {
        Some(turn) => Ok(turn_line(alloc, *turn)?.into_bytes()),
        None if response.is_empty() => line_of(alloc, b"ok"),
        None => Ok(response),
    }
}

/// The line of what a turn did.
fn turn_line(alloc: Global, turn: Turn) -> Result<String, AllocError>
    ensures { IfOk result (λ line. string_bytes line ≡ turn_text turn.entry turn.steps) }
{
    let steps = turn.steps;
    match turn.entry {
        Some(number) => format!(in alloc; "turn Q{number} {steps}\n"),
        None => format!(in alloc; "turn - {steps}\n"),
    }
}
