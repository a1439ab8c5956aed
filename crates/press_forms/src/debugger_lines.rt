//! Lines of the debugger: what each asks of it.
ghost use Rattle.std.specs.Prelude.{◌≡◌, position};
ghost use Rattle.press_words.specs.Lines.{is_space};
ghost use Rattle.press_forms.specs.DebuggerLines.{asked_alone, asked_with, asked_of};

use press_asm::kind_named;
use press_cmd::Kind;
use press_words::{number_word, space_place};

/// What a line asks of the debugger.
#[derive(Clone, Copy)]
pub enum DebuggerLine {
    /// One step, into a body that it starts.
    Step,
    /// Steps to the first state in which no more bodies run.
    Over,
    /// At most so many steps.
    Go(u64),
    /// A breakpoint at the commands of a kind.
    Break(Kind),
    /// That the breakpoint of this number goes.
    Clear(u64),
    /// The kinds of the last commands.
    Recent,
}

/// What a line asks, if it asks anything: `step`, `over`, `go N`, `break KIND`, `clear N` or `recent`.
pub fn asked_of(line: &[u8]) -> Option<DebuggerLine>
    ensures { result ≡ asked_of line.now }
{
    match space_place(line) {
        Some(place) => asked_with(&line[..place], &line[place + 1..]),
        None => asked_alone(line),
    }
}

/// What a line of one word asks.
fn asked_alone(word: &[u8]) -> Option<DebuggerLine>
    ensures { result ≡ asked_alone word.now }
{
    if word == b"step".as_slice() {
        Some(DebuggerLine::Step)
    } else if word == b"over".as_slice() {
        Some(DebuggerLine::Over)
    } else if word == b"recent".as_slice() {
        Some(DebuggerLine::Recent)
    } else {
        None
    }
}

/// What a line of this first word asks, by the rest of it.
fn asked_with(word: &[u8], rest: &[u8]) -> Option<DebuggerLine>
    ensures { result ≡ asked_with word.now rest.now }
{
    if word == b"go".as_slice() {
        Some(DebuggerLine::Go(number_word(rest)?))
    } else if word == b"break".as_slice() {
        Some(DebuggerLine::Break(kind_named(rest)?))
    } else if word == b"clear".as_slice() {
        Some(DebuggerLine::Clear(number_word(rest)?))
    } else {
        None
    }
}
