//! The line of a table step.

ghost use Rattle.std.specs.Prelude.{◌≡◌, ◌++◌, Option, IfOk, OnOk, option_map, codes, true};
ghost use Rattle.press_engine.specs.declared.view.View.{View};
ghost use Rattle.press_trace.specs.LineSlots.{begin_slots, page_slots, went_slots, cursor_slots, end_slots};
ghost use Rattle.press_trace.specs.Lines.{last_told, recorded_told, refused_told, delivered_told, reply_told, steps_told, run_members, line_text};
ghost use Rattle.press_trace.specs.Pages.{opened_data, change_data, LiesIn};
ghost use Rattle.press_trace.specs.Seen.{IsAlikeIf};
ghost use Rattle.press_trace.specs.Slots.{member_text, texts_behind};

use crate::appending::{append_flag, append_key, append_text};
use crate::members::{append_integer_member, append_number_member};
use crate::page::{PageTold, append_change, append_opened};
use crate::place::Place;
use crate::seen::{Seen, append_view};
use crate::sent::WentOut;
use crate::spelled::spelled;
use crate::text::{append_kind, append_refusal};
use press_canvas::Canvas;
use press_cmd::LINE_FEED;
use press_engine::{Last, View};
use press_units::Pos;
use std::alloc::{AllocError, Global};

/// Appends how many sheets went out, if any did.
fn append_delivered(alloc: Global, sheets: u64, text: &mut Vec<u8>) -> Result<(), AllocError>
    ensures { OnOk result (text.new.items
        ≡ text.old.items ++ member_text true (codes "delivered") (delivered_told sheets)) }
{
    if sheets == 0 {
        return Ok(());
    }
    append_number_member(alloc, true, "delivered", sheets, text)
}

/// Appends the kind of the command that a step took.
fn append_last(alloc: Global, last: Last, text: &mut Vec<u8>) -> Result<(), AllocError>
    ensures { OnOk result (text.new.items
        ≡ text.old.items ++ member_text true (codes "last") (last_told last)) }
{
    match last {
        Last::Ran(kind) | Last::Recorded(kind) | Last::Refused(kind, _) => {
            append_key(alloc, true, "last", text)?;
            append_kind(alloc, kind, text)
        }
        Last::Nothing => Ok(()),
    }
}

/// Appends whether it was recorded.
fn append_recorded(alloc: Global, last: Last, text: &mut Vec<u8>) -> Result<(), AllocError>
    ensures { OnOk result (text.new.items
        ≡ text.old.items ++ member_text true (codes "recorded") (recorded_told last)) }
{
    match last {
        Last::Recorded(_) => {
            append_key(alloc, true, "recorded", text)?;
            append_flag(true, text)
        }
        _ => Ok(()),
    }
}

/// Appends why it was refused, if it was.
fn append_refused(alloc: Global, last: Last, text: &mut Vec<u8>) -> Result<(), AllocError>
    ensures { OnOk result (text.new.items
        ≡ text.old.items ++ member_text true (codes "refused") (refused_told last)) }
{
    match last {
        Last::Refused(_, refusal) => {
            append_key(alloc, true, "refused", text)?;
            append_refusal(alloc, refusal, text)
        }
        _ => Ok(()),
    }
}

/// Appends the bytes of the replies that went out, if there are any.
fn append_reply(alloc: Global, replies: &[u8], text: &mut Vec<u8>) -> Result<(), AllocError>
    ensures { OnOk result (text.new.items
        ≡ text.old.items ++ member_text true (codes "reply") (reply_told replies.now)) }
{
    if replies.is_empty() {
        return Ok(());
    }
    append_key(alloc, true, "reply", text)?;
    append_text(alloc, replies, text)
}

/// Appends how many steps a line tells, where they are more than one.
fn append_steps(alloc: Global, steps: usize, text: &mut Vec<u8>) -> Result<(), AllocError>
    ensures { OnOk result (text.new.items
        ≡ text.old.items ++ member_text true (codes "steps") (steps_told steps)) }
{
    if steps == 1 {
        return Ok(());
    }
    append_number_member(alloc, true, "steps", steps as u64, text)
}

/// Appends the members behind the first one: how many bytes the command has, how many sheets went out, how many bodies run, and its kind.
fn append_begin(
    alloc: Global,
    place: Place,
    sheets: u64,
    now: &View<'_>,
    text: &mut Vec<u8>,
) -> Result<(), AllocError>
    ensures { OnOk result (text.new.items
        ≡ text.old.items ++ texts_behind (begin_slots place sheets now.now)) }
{
    append_number_member(alloc, true, "bytes", place.bytes as u64, text)?;
    append_delivered(alloc, sheets, text)?;
    append_number_member(alloc, true, "depth", u64::from(now.depth), text)?;
    append_last(alloc, now.last, text)?;
    Ok(())
}

/// Appends what is told of the open page, which is this one.
fn append_page(
    alloc: Global,
    told: PageTold,
    page: Option<&Canvas>,
    text: &mut Vec<u8>,
) -> Result<(), AllocError>
    requires { LiesIn told.change (option_map (λ page. page.now) page) }
    ensures { OnOk result (text.new.items ≡ text.old.items ++ texts_behind (page_slots
        (opened_data told.opened (option_map (λ page. page.now) page.entry))
        (change_data told.change (option_map (λ page. page.now) page.entry)))) }
{
    append_opened(alloc, told.opened, page, text)?;
    append_change(alloc, told.change, page, text)
}

/// Appends whether the command was recorded, why it was refused, what went out, and how many sheets did so far.
fn append_went(
    alloc: Global,
    replies: &[u8],
    now: &View<'_>,
    text: &mut Vec<u8>,
) -> Result<(), AllocError>
    ensures { OnOk result (text.new.items
        ≡ text.old.items ++ texts_behind (went_slots replies.now now.now)) }
{
    append_recorded(alloc, now.last, text)?;
    append_refused(alloc, now.last, text)?;
    append_reply(alloc, replies, text)?;
    append_number_member(alloc, true, "sheets", now.sheets, text)
}

/// Appends the cursor.
fn append_cursor(alloc: Global, x: Pos, y: Pos, text: &mut Vec<u8>) -> Result<(), AllocError>
    ensures { OnOk result (text.new.items ≡ text.old.items ++ texts_behind (cursor_slots x y)) }
{
    append_integer_member(alloc, true, "x", x.0, text)?;
    append_integer_member(alloc, true, "y", y.0, text)
}

/// Appends the last members: how many steps were taken, how many the line tells, what changed of what can be seen, and the cursor.
fn append_end(
    alloc: Global,
    steps: usize,
    before: Option<&View<'_>>,
    now: &View<'_>,
    text: &mut Vec<u8>,
) -> Result<(), AllocError>
    ensures { OnOk result (text.new.items ≡ text.old.items ++ texts_behind
        (end_slots steps (option_map (λ view. view.now) before.entry) now.now)) }
{
    append_number_member(alloc, true, "step", now.step, text)?;
    append_steps(alloc, steps, text)?;
    append_view(alloc, before, now, text)?;
    append_cursor(alloc, now.x, now.y, text)?;
    Ok(())
}

/// The line of a step, which tells so many.
fn step_line(
    alloc: Global,
    steps: usize,
    place: Place,
    went: &WentOut,
    before: Option<&View<'_>>,
    now: &View<'_>,
    told: PageTold,
    page: Option<&Canvas>,
) -> Result<Vec<u8>, AllocError>
    requires { LiesIn told.change (option_map (λ page. page.now) page) }
    ensures { IfOk result (λ line. line.items ≡ line_text (run_members steps place
        went.now.sheets went.now.replies.items (option_map (λ view. view.now) before.entry) now.now
        (opened_data told.opened (option_map (λ page. page.now) page.entry))
        (change_data told.change (option_map (λ page. page.now) page.entry)))) }
{
    let mut text = Vec::new(alloc);
    text.push(b'{')?;
    append_number_member(alloc, false, "at", place.at as u64, &mut text)?;
    append_begin(alloc, place, went.sheets, now, &mut text)?;
    append_page(alloc, told, page, &mut text)?;
    append_went(alloc, &went.replies, now, &mut text)?;
    append_end(alloc, steps, before, now, &mut text)?;
    text.push(b'}')?;
    let mut line = spelled(alloc, text)?;
    line.push(LINE_FEED)?;
    Ok(line)
}

/// The line of a step, which tells so many, by what was kept of the step before.
pub(crate) fn seen_line(
    alloc: Global,
    steps: usize,
    place: Place,
    went: &WentOut,
    before: &Option<Seen>,
    now: &View<'_>,
    told: PageTold,
    page: Option<&Canvas>,
) -> Result<Vec<u8>, AllocError>
    requires { LiesIn told.change (option_map (λ page. page.now) page) }
    ensures { IfOk result (λ line. (seen : Option View) × IsAlikeIf before.now seen
        × (line.items ≡ line_text (run_members steps place went.now.sheets went.now.replies.items
        seen now.now (opened_data told.opened (option_map (λ page. page.now) page.entry))
        (change_data told.change (option_map (λ page. page.now) page.entry))))) }
{
    match before {
        Some(before) => {
            let view = before.view();
            step_line(alloc, steps, place, went, Some(&view), now, told, page)
        }
        None => step_line(alloc, steps, place, went, None, now, told, page),
    }
}
