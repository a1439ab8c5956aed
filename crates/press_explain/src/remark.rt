//! The remark on a command.
ghost use Rattle.std.specs.Prelude.{◌≡◌, ◌++◌, OnOk};
ghost use Rattle.press_explain.specs.Remarks.{IsBox, are_alike, effect_said, is_again, is_likewise, or_nothing, outcome, recorded_said, refused_said, remark, remark_line, deeds};

use crate::deeds::append_deeds;
use press_cmd::{Kind, LINE_FEED};
use press_engine::{Last, View};
use press_table::Refusal;
use press_trace::appending::append_number;
use press_trace::page::Change;
use press_trace::text::refusal_word;
use std::alloc::{AllocError, Global};

/// What the step took, where a command is one step: with more, bodies ran.
fn outcome(was: &View<'_>, now: &View<'_>) -> Last
    ensures { result ≡ outcome was.now now.now }
{
    if now.step.saturating_sub(was.step) == 1 {
        now.last
    } else {
        Last::Nothing
    }
}

/// Whether commands are of one sort of bytes that are passed over.
fn are_alike(old: Kind, new: Kind) -> bool
    ensures { result ≡ are_alike old new }
{
    matches!(
        (old, new),
        (Kind::Text(_), Kind::Text(_)) | (Kind::Foreign(_), Kind::Foreign(_))
    )
}

/// Whether a refusal is the same for one like it.
fn is_again(old: Refusal, new: Refusal, alike: bool) -> bool
    ensures { result ≡ is_again old new alike }
{
    match (old, new) {
        (Refusal::HpGl, Refusal::HpGl) => true,
        (Refusal::NoRow, Refusal::NoRow) => alike,
        _ => false,
    }
}

/// Whether a command was passed over like the one before it.
fn is_likewise(before: Last, last: Last) -> bool
    ensures { result ≡ is_likewise before last }
{
    match (before, last) {
        (Last::Refused(old, why), Last::Refused(new, again)) => {
            is_again(why, again, are_alike(old, new))
        }
        _ => false,
    }
}

/// Appends into which macro a command was recorded.
fn append_recorded(defining: Option<u16>, text: &mut Vec<u8>) -> Result<(), AllocError>
    ensures { OnOk result (text.new.items ≡ text.old.items ++ recorded_said defining) }
{
    text.extend_from_slice(b"; recorded")?;
    match defining {
        Some(id) => {
            text.extend_from_slice(b" in macro ")?;
            append_number(u64::from(id), text)
        }
        None => Ok(()),
    }
}

/// Appends why a command was refused.
fn append_refused(refusal: Refusal, text: &mut Vec<u8>) -> Result<(), AllocError>
    ensures { OnOk result (text.new.items ≡ text.old.items ++ refused_said refusal) }
{
    text.extend_from_slice(b"; refused: ")?;
    text.extend_from_slice(refusal_word(refusal))
}

/// Appends what is said of a command, or that it did nothing.
fn append_or_nothing(said: &[u8], text: &mut Vec<u8>) -> Result<(), AllocError>
    ensures { OnOk result (text.new.items ≡ text.old.items ++ or_nothing said.now) }
{
    if said.is_empty() {
        return text.extend_from_slice(b"; changes nothing");
    }
    text.extend_from_slice(said)
}

/// Appends all that a command did, or that it did nothing.
fn append_all(
    alloc: Global,
    was: &View<'_>,
    now: &View<'_>,
    change: Change,
    replies: &[u8],
    text: &mut Vec<u8>,
) -> Result<(), AllocError>
    requires { IsBox change }
    ensures { OnOk result (text.new.items
        ≡ text.old.items ++ or_nothing (deeds was.now now.now change replies.now)) }
{
    let mut said = Vec::new(alloc);
    append_deeds(was, now, change, replies, &mut said)?;
    append_or_nothing(&said, text)
}

/// Appends what a command did: it was recorded, or refused, or did something, or nothing.
fn append_effect(
    alloc: Global,
    last: Last,
    was: &View<'_>,
    now: &View<'_>,
    change: Change,
    replies: &[u8],
    text: &mut Vec<u8>,
) -> Result<(), AllocError>
    requires { IsBox change }
    ensures { OnOk result (text.new.items
        ≡ text.old.items ++ effect_said last was.now now.now change replies.now) }
{
    match last {
        Last::Recorded(_) => append_recorded(was.defining, text),
        Last::Refused(_, refusal) => append_refused(refusal, text),
        Last::Nothing | Last::Ran(_) => append_all(alloc, was, now, change, replies, text),
    }
}

/// Appends the remark on what begins there, is called so, and did this.
pub(crate) fn append_line(
    alloc: Global,
    at: usize,
    name: &[u8],
    was: &View<'_>,
    now: &View<'_>,
    change: Change,
    replies: &[u8],
    text: &mut Vec<u8>,
) -> Result<(), AllocError>
    requires { IsBox change }
    ensures { OnOk result (text.new.items ≡ text.old.items ++ remark_line at name.now
        (effect_said (outcome was.now now.now) was.now now.now change replies.now)) }
{
    text.extend_from_slice(b"; at ")?;
    append_number(at as u64, text)?;
    text.extend_from_slice(b": ")?;
    text.extend_from_slice(name)?;
    append_effect(alloc, outcome(was, now), was, now, change, replies, text)?;
    text.push(LINE_FEED)?;
    Ok(())
}

/// Appends the remark on a command that begins there; none, where it was passed over like the one before it.
pub(crate) fn append_remark(
    alloc: Global,
    at: usize,
    name: &[u8],
    was: &View<'_>,
    now: &View<'_>,
    change: Change,
    replies: &[u8],
    text: &mut Vec<u8>,
) -> Result<(), AllocError>
    requires { IsBox change }
    ensures { OnOk result (text.new.items
        ≡ text.old.items ++ remark at name.now was.now now.now change replies.now) }
{
    if is_likewise(was.last, outcome(was, now)) {
        return Ok(());
    }
    append_line(alloc, at, name, was, now, change, replies, text)
}
