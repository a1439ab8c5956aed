//! The P4 files of the sides of a stream, into the caller's room (Netpbm, the raw form of the PBM format).
ghost use Rattle.std.specs.Prelude.{◌≡◌};
ghost use Rattle.press_memory.specs.Answers.{Answers};
ghost use Rattle.press_memory.specs.Settings.{BySettings};
ghost use Rattle.press_memory.specs.Written.{SidesOf};

use crate::answer::{RombixelaAnswer, hand_over};
use crate::ending::fault_after;
use crate::memory_files::MemoryFiles;
use crate::room_outputs::{Lent, RoomOutputs};
use crate::settings::prefix_in;
use press_devices::Watched;
use press_files::{Devices, print_files};
use std::alloc::Global;
use std::io;
use std::marker::Brand;

/// The names of the outputs, which nobody sees: their numbers.
const NAMES: &str = "%d";

/// Puts the P4 files of all sides of a stream into the room, one behind the other, by settings.
pub(crate) fn sides(
    alloc: Global,
    settings: &[u8],
    stream: &[u8],
    room: &mut [u8],
) -> RombixelaAnswer
    ensures { Answers (BySettings settings.now (λ prefix. SidesOf prefix stream.now))
        result room.old room.new }
{
    let prefix = match prefix_in(alloc, settings) {
        Ok(prefix) => prefix,
        Err(error) => return hand_over(error.number(), &[], room),
    };
    let (_, answer) = sides_behind::<Brand>(alloc, &prefix, stream, room);
    answer
}

/// Puts the P4 files of all sides of a stream behind these bytes into the room, which is handed back. The call's proof says which room it is.
fn sides_behind<'r, D: Lent>(
    alloc: Global,
    prefix: &[u8],
    stream: &[u8],
    room: &'r mut [u8],
) -> (&'r mut [u8], RombixelaAnswer)
    requires name { room.ghost_name ≡ D.name }
    requires before { room.old ≡ D.before }
    ensures room { result.0.ghost_name ≡ room.entry.ghost_name }
    ensures sides { Answers (SidesOf prefix.now stream.now) result.1 room.old result.0.now }
{
    let mut reader = Watched::new(stream);
    let outputs: RoomOutputs<'r, D> = RoomOutputs::new(alloc, room);
    let inputs = MemoryFiles::none(alloc);
    let mut devices = Devices::new(inputs, outputs, io::sink(), io::sink());
    let status = print_files(alloc, prefix, NAMES, &mut reader, &mut devices);
    let fault = fault_after(status, &reader);
    let (room, mut answer) = devices.outputs.into_parts();
    answer.fault = fault;
    (room, answer)
}
