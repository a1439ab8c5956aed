//! Named outputs whose bytes go into the caller's room (this profile).
ghost use Rattle.std.specs.Prelude.{◌≡◌, ◌<◌, ◌+◌, ◌^◌, List, ℕ, [], None, length};
ghost use Rattle.press_memory.specs.Answers.{HandedTo};
ghost use Rattle.press_memory.specs.Rooms.{held_last};
ghost use Rattle.press_memory.specs.Written.{held_by_all};

use crate::answer::RombixelaAnswer;
use crate::settled::Settled;
use press_sink::{ListedOutput, NamedOutputs};
use std::alloc::{AllocError, Global};
use std::io::{self, ErrorKind};
use std::marker::{Brand, PhantomData};

/// A room that a caller lent: which one it is, and what it held before. It stands in proofs alone; that of a call says which it is.
pub(crate) trait Lent {
    ghost name: { ℕ };

    ghost before: { List ℕ };
}

impl Lent for Brand {
    ghost use Rattle.std.specs.Prelude.{[]};

    ghost name = { 0 };

    ghost before = { [] };
}

/// Named outputs whose bytes go into the caller's room, one behind the other, as far as they fit, and are counted. What the output that was made
/// last holds is kept until the next is made: it may be written anew until then.
#[derive(Drop)]
pub(crate) struct RoomOutputs<'r, D: Lent> {
    alloc: Global,
    settled: Settled,
    last: Option<ListedOutput>,
    room: &'r mut [u8],
    answer: RombixelaAnswer,
    of: PhantomData<D>,
    ghost same: { room.ghost_name ≡ D.name },
    ghost handed: { HandedTo (held_by_all settled) D.before room.now answer },
    ghost begun: { last ≡ None → settled ≡ [] },
    ghost counted: { answer.bytes + length (held_last last) < 2 ^ 64 },
}

impl<'r, D: Lent> RoomOutputs<'r, D> {
    ghost use Rattle.std.specs.Prelude.{◌≡◌, ◌++◌, ◌∷◌, [], Some, None};
    ghost use Rattle.std.specs.String.{string_bytes};
    ghost use Rattle.press_memory.specs.Answers.{HandedTo};
    ghost use Rattle.press_memory.specs.Rooms.{outputs_with};
    ghost use Rattle.press_memory.specs.Written.{held_by_all};
    ghost use Rattle.press_sink.specs.Outputs.{Closes, last_holds, opened};

    /// Nothing was made yet.
    pub(crate) fn new(alloc: Global, room: &'r mut [u8]) -> Self
        requires name { room.ghost_name ≡ D.name }
        requires before { room.old ≡ D.before }
        ensures { outputs_with result.settled result.last ≡ [] }
    {
        RoomOutputs {
            alloc,
            settled: Settled::none(),
            last: None,
            room,
            answer: RombixelaAnswer::nothing(0),
            of: PhantomData,
        }
    }

    /// Makes the output of this name behind the one that was made last: hands what that holds to the room, and gives its memory back without it.
    fn next(&mut self, name: String) -> Vec<u8>
        ensures made { outputs_with self.new.settled self.new.last
            ≡ outputs_with self.old.settled self.old.last ++ opened (string_bytes name) ∷ [] }
        ensures empty { result.items ≡ [] }
    {
        let before = self.last.replace(ListedOutput { name, holds: None });
        let Some(before) = before else {
            return Vec::new(self.alloc);
        };
        self.settled.add(&before);
        let ListedOutput { name: _, holds } = before;
        let Some(mut bytes) = holds else {
            return Vec::new(self.alloc);
        };
        self.answer.hand_more(&bytes, self.room);
        bytes.clear();
        bytes
    }

    /// Has the output that was made last hold this.
    fn hold(&mut self, output: Vec<u8>)
        requires { self.old.answer.bytes + length output.items < 2 ^ 64 }
        ensures { outputs_with self.new.settled self.new.last
            ≡ last_holds (Some output.items) (outputs_with self.old.settled self.old.last) }
    {
        if let Some(last) = &mut self.last {
            last.holds = Some(output);
        }
    }

    /// Keeps what was written to the output that was made last, or nothing of it where there are more bytes than can be counted.
    fn keep(&mut self, mut output: Vec<u8>) -> io::Result<()>
        ensures { Closes result (Some output.items)
            (Some (outputs_with self.old.settled self.old.last))
            (Some (outputs_with self.new.settled self.new.last)) }
    {
        if self.answer.bytes.checked_add(output.len() as u64).is_none() {
            output.clear();
            self.hold(output);
            return Err(io::Error::from(ErrorKind::FileTooLarge));
        }
        self.hold(output);
        Ok(())
    }

    /// The room, and the answer, whose fault is none.
    pub(crate) fn into_parts(self) -> (&'r mut [u8], RombixelaAnswer)
        ensures name { result.0.ghost_name ≡ D.name }
        ensures handed { HandedTo (held_by_all (outputs_with self.entry.settled self.entry.last))
            D.before result.0.now result.1 }
    {
        let RoomOutputs {
            last,
            room,
            mut answer,
            ..
        } = self;
        if let Some(
            ListedOutput {
                holds: Some(bytes),
                ..
            },
        ) = &last
        {
            answer.hand_more(bytes, room);
        }
        (room, answer)
    }
}

impl<D: Lent> NamedOutputs for RoomOutputs<'_, D> {
    ghost use Rattle.std.specs.Prelude.{Some, true, false};
    ghost use Rattle.press_memory.specs.Rooms.{outputs_with};

    ghost made = { λ outputs. Some (outputs_with outputs.settled outputs.last) };

    ghost failed = { λ _. true };

    ghost waiting = { λ _. false };

    type Output = Vec<u8>;

    fn spare(&mut self, _input: &str) -> Result<(), AllocError> {
        Ok(())
    }

    fn make(&mut self, name: &str) -> io::Result<Vec<u8>> {
        let name = String::from_str(self.alloc, name)?;
        Ok(self.next(name))
    }

    fn close(&mut self, output: Vec<u8>) -> io::Result<()> {
        self.keep(output)
    }

    fn abandon(&mut self, output: Vec<u8>) {
        let _ = self.keep(output);
    }
}
