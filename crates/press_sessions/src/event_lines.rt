//! Lines of events: what each asks of the press.
ghost use Rattle.std.specs.Prelude.{◌≡◌, map, option_map};
ghost use Rattle.std.specs.List.{list_any};
ghost use Rattle.press_sessions.specs.EventLines.{is_empty, event_in, kind_named, asked_by, line_seen};

use press_core::OperatorCommand;
use press_words::number_in;

/// What a line asks of the press.
#[derive(Clone, Copy)]
pub enum LineEvent<'a> {
    /// A message: the name of its file, and the names of the files of its images.
    Message(&'a [u8], &'a [&'a [u8]]),
    /// A turn of an engine, of at most so many steps.
    Turn { engine: u64, most: u64 },
    /// A command of the operator.
    Operator(OperatorCommand),
}

/// The kind of a line of events.
#[derive(Clone, Copy)]
pub enum LineKind {
    Message,
    Turn,
    Pause,
    Continue,
    Abort,
}

/// What a line of these words asks, if it is one of an event: `message FILE IMG..`, `turn N`, `turn N ENGINE`, `pause`,
/// `continue` or `abort`. No word is empty, since one space stands between two.
pub fn event_of<'a>(words: &'a [&'a [u8]]) -> Option<LineEvent<'a>>
    ensures { option_map line_seen result ≡ event_in (map (λ word. word.now) words.entry.now) }
{
    if has_empty(words) {
        return None;
    }
    let (first, others) = words.split_first()?;
    asked_by(kind_named(first)?, others)
}

/// Whether a word is empty.
fn has_empty(words: &[&[u8]]) -> bool
    ensures { result ≡ list_any is_empty (map (λ word. word.now) words.now) }
{
    for word in words {
        if word.is_empty() {
            return true;
        }
    }
    false
}

/// The kind of the lines that begin with this word.
fn kind_named(word: &[u8]) -> Option<LineKind>
    ensures { result ≡ kind_named word.now }
{
    if word == b"message".as_slice() {
        Some(LineKind::Message)
    } else if word == b"turn".as_slice() {
        Some(LineKind::Turn)
    } else if word == b"pause".as_slice() {
        Some(LineKind::Pause)
    } else if word == b"continue".as_slice() {
        Some(LineKind::Continue)
    } else if word == b"abort".as_slice() {
        Some(LineKind::Abort)
    } else {
        None
    }
}

/// What a line of this kind asks, by the words behind the first.
fn asked_by<'a>(kind: LineKind, words: &'a [&'a [u8]]) -> Option<LineEvent<'a>>
    ensures { option_map line_seen result ≡ asked_by kind (map (λ word. word.now) words.entry.now) }
{
    match (kind, words) {
        (LineKind::Message, [file, images @ ..]) => Some(LineEvent::Message(file, images)),
        (LineKind::Turn, [number]) => Some(LineEvent::Turn {
            engine: 0,
            most: number_in(number)?,
        }),
        (LineKind::Turn, [number, engine]) => Some(LineEvent::Turn {
            engine: number_in(engine)?,
            most: number_in(number)?,
        }),
        (LineKind::Pause, []) => Some(LineEvent::Operator(OperatorCommand::Pause)),
        (LineKind::Continue, []) => Some(LineEvent::Operator(OperatorCommand::Continue)),
        (LineKind::Abort, []) => Some(LineEvent::Operator(OperatorCommand::AbortRunning)),
        _ => None,
    }
}
