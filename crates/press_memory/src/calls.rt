//! The calls of the library: each puts the front of what it has into the caller's room.
ghost use Rattle.press_memory.specs.Answers.{Answers};
ghost use Rattle.press_memory.specs.Session.{SessionOf};
ghost use Rattle.press_memory.specs.Settings.{BySettings};
ghost use Rattle.press_memory.specs.Written.{JobOf, ListingOf, SidesOf, StreamOf, SumsOf, TextOf, TraceOf, VersionOf};

use crate::answer::{NO_FAULT, RombixelaAnswer, hand_over};
use crate::{job, playing, sides, streams, texts};
use std::alloc::Global;

/// The version of the press, and the kit that proved it.
const VERSION: &[u8] = b"1.0.0 (proved by rattle-kit-13f)";

/// The P4 files of all sides of a stream, one behind the other, as `print` makes them, with the printer's own settings.
pub fn print(alloc: Global, settings: &[u8], stream: &[u8], room: &mut [u8]) -> RombixelaAnswer
    ensures { Answers (BySettings settings.now (λ prefix. SidesOf prefix stream.now))
        result room.old room.new }
{
    sides::sides(alloc, settings, stream, room)
}

/// The listing of a stream, as `print --list` writes it, with the printer's own settings.
pub fn list(alloc: Global, settings: &[u8], stream: &[u8], room: &mut [u8]) -> RombixelaAnswer
    ensures { Answers (BySettings settings.now (λ prefix. ListingOf prefix stream.now))
        result room.old room.new }
{
    let written = streams::listing(alloc, settings, stream);
    hand_over(written.fault, &written.bytes, room)
}

/// The same with the SHA-256 of each side behind its line, as `print --list --sums` writes it.
pub fn sums(alloc: Global, settings: &[u8], stream: &[u8], room: &mut [u8]) -> RombixelaAnswer
    ensures { Answers (BySettings settings.now (λ prefix. SumsOf prefix stream.now))
        result room.old room.new }
{
    let written = streams::sums(alloc, settings, stream);
    hand_over(written.fault, &written.bytes, room)
}

/// The trace of a stream, as `trace` writes it, with the printer's own settings.
pub fn trace(alloc: Global, settings: &[u8], stream: &[u8], room: &mut [u8]) -> RombixelaAnswer
    ensures { Answers (BySettings settings.now (λ prefix. TraceOf prefix stream.now))
        result room.old room.new }
{
    let written = streams::trace(alloc, settings, stream);
    hand_over(written.fault, &written.bytes, room)
}

/// The assembly text of a stream, as `disasm` writes it.
pub fn disasm(alloc: Global, stream: &[u8], room: &mut [u8]) -> RombixelaAnswer
    ensures { Answers (TextOf stream.now) result room.old room.new }
{
    let written = streams::text(alloc, stream);
    hand_over(written.fault, &written.bytes, room)
}

/// The stream of an assembly text, as `asm` makes it.
pub fn asm(alloc: Global, text: &[u8], room: &mut [u8]) -> RombixelaAnswer
    ensures { Answers (StreamOf text.now) result room.old room.new }
{
    let written = texts::stream(alloc, text);
    hand_over(written.fault, &written.bytes, room)
}

/// The job of a ticket with the images of P4 files that stand one behind the other, as `write` makes it.
pub fn write(alloc: Global, ticket: &[u8], images: &[u8], room: &mut [u8]) -> RombixelaAnswer
    ensures { Answers (JobOf ticket.now images.now) result room.old room.new }
{
    let written = job::job(alloc, ticket, images);
    hand_over(written.fault, &written.bytes, room)
}

/// What a session with a press of so many engines writes, as `press` does, by lines of events, with files of which a line with the name, a line
/// with the number of bytes, and these bytes stand one behind the other.
pub fn session(
    alloc: Global,
    engines: u64,
    files: &[u8],
    lines: &[u8],
    room: &mut [u8],
) -> RombixelaAnswer
    ensures { Answers (SessionOf engines lines.now) result room.old room.new }
{
    let written = playing::session(alloc, engines, files, lines);
    hand_over(written.fault, &written.bytes, room)
}

/// The version of the press, as `--version` tells it.
pub fn version(room: &mut [u8]) -> RombixelaAnswer
    ensures { Answers VersionOf result room.old room.new }
{
    hand_over(NO_FAULT, VERSION, room)
}
