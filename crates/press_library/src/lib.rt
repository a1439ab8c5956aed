//! The press for C: functions from bytes to bytes, each the call that the program makes (docs/LIBRARY.md).
#![tactic(auto)]

ghost use Rattle.press_memory.specs.Answers.{Answers};
ghost use Rattle.press_memory.specs.Session.{SessionOf};
ghost use Rattle.press_memory.specs.Settings.{BySettings};
ghost use Rattle.press_memory.specs.Written.{JobOf, ListingOf, SidesOf, StreamOf, SumsOf, TextOf, TraceOf, VersionOf};

use press_memory::RombixelaAnswer;
use std::alloc::Global;

/// The P4 files of all sides of a stream, one behind the other, as `print` makes them, with the printer's own settings.
#[unsafe(no_mangle)]
pub extern "C" fn rombixela_print(
    alloc: Global,
    settings: &[u8],
    stream: &[u8],
    room: &mut [u8],
) -> RombixelaAnswer
    ensures { Answers (BySettings settings.now (λ prefix. SidesOf prefix stream.now))
        result room.old room.new }
{
    press_memory::print(alloc, settings, stream, room)
}

/// The listing of a stream, as `print --list` writes it, with the printer's own settings.
#[unsafe(no_mangle)]
pub extern "C" fn rombixela_list(
    alloc: Global,
    settings: &[u8],
    stream: &[u8],
    room: &mut [u8],
) -> RombixelaAnswer
    ensures { Answers (BySettings settings.now (λ prefix. ListingOf prefix stream.now))
        result room.old room.new }
{
    press_memory::list(alloc, settings, stream, room)
}

/// The same with the SHA-256 of each side behind its line, as `print --list --sums` writes it.
#[unsafe(no_mangle)]
pub extern "C" fn rombixela_sums(
    alloc: Global,
    settings: &[u8],
    stream: &[u8],
    room: &mut [u8],
) -> RombixelaAnswer
    ensures { Answers (BySettings settings.now (λ prefix. SumsOf prefix stream.now))
        result room.old room.new }
{
    press_memory::sums(alloc, settings, stream, room)
}

/// The trace of a stream, as `trace` writes it, with the printer's own settings.
#[unsafe(no_mangle)]
pub extern "C" fn rombixela_trace(
    alloc: Global,
    settings: &[u8],
    stream: &[u8],
    room: &mut [u8],
) -> RombixelaAnswer
    ensures { Answers (BySettings settings.now (λ prefix. TraceOf prefix stream.now))
        result room.old room.new }
{
    press_memory::trace(alloc, settings, stream, room)
}

/// The assembly text of a stream, as `disasm` writes it.
#[unsafe(no_mangle)]
pub extern "C" fn rombixela_disasm(alloc: Global, stream: &[u8], room: &mut [u8]) -> RombixelaAnswer
    ensures { Answers (TextOf stream.now) result room.old room.new }
{
    press_memory::disasm(alloc, stream, room)
}

/// The stream of an assembly text, as `asm` makes it.
#[unsafe(no_mangle)]
pub extern "C" fn rombixela_asm(alloc: Global, text: &[u8], room: &mut [u8]) -> RombixelaAnswer
    ensures { Answers (StreamOf text.now) result room.old room.new }
{
    press_memory::asm(alloc, text, room)
}

/// The job of a ticket with the images of P4 files that stand one behind the other, as `write` makes it.
#[unsafe(no_mangle)]
pub extern "C" fn rombixela_write(
    alloc: Global,
    ticket: &[u8],
    images: &[u8],
    room: &mut [u8],
) -> RombixelaAnswer
    ensures { Answers (JobOf ticket.now images.now) result room.old room.new }
{
    press_memory::write(alloc, ticket, images, room)
}

/// What a session with a press of so many engines writes, as `press` does, by lines of events, with files of which a line with the name, a line
/// with the number of bytes, and these bytes stand one behind the other.
#[unsafe(no_mangle)]
pub extern "C" fn rombixela_session(
    alloc: Global,
    engines: u64,
    files: &[u8],
    lines: &[u8],
    room: &mut [u8],
) -> RombixelaAnswer
    ensures { Answers (SessionOf engines lines.now) result room.old room.new }
{
    press_memory::session(alloc, engines, files, lines, room)
}

/// The version of the press, as `--version` tells it.
#[unsafe(no_mangle)]
pub extern "C" fn rombixela_version(room: &mut [u8]) -> RombixelaAnswer
    ensures { Answers VersionOf result room.old room.new }
{
    press_memory::version(room)
}
