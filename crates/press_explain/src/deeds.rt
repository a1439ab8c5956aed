//! What a command did, part by part, written to the end of a text.
ghost use Rattle.std.specs.Prelude.{◌≡◌, ◌++◌, OnOk};
ghost use Rattle.std.specs.List.{flat_map};
ghost use Rattle.press_explain.specs.Remarks.{IsBox, bodies_said, box_said, changed_word, corner_said, deeds, extent_said, field_changed, fields_said, group_changed, moved_said, page_said, replies_said, seen_said, sheets_said, told_said, went_said};
ghost use Rattle.press_trace.specs.declared.page.Change.TheVariants.{Patch};

use crate::saying::append_shown;
use press_bits::Region;
use press_engine::View;
use press_trace::appending::{append_integer, append_number};
use press_trace::fields::{Field, GROUPS, Group};
use press_trace::page::Change;
use press_trace::told::Told;
use press_units::Pos;
use std::alloc::AllocError;

/// Appends where a box lies.
fn append_corner(region: Region, text: &mut Vec<u8>) -> Result<(), AllocError>
    requires { IsBox (Patch region) }
    ensures { OnOk result (text.new.items ≡ text.old.items ++ corner_said region) }
{
    text.extend_from_slice(b" dots at ")?;
    append_number((8 * region.left) as u64, text)?;
    text.extend_from_slice(b", ")?;
    append_number(u64::from(region.top), text)
}

/// Appends how large a box is.
fn append_extent(width: u64, height: u64, text: &mut Vec<u8>) -> Result<(), AllocError>
    ensures { OnOk result (text.new.items ≡ text.old.items ++ extent_said width height) }
{
    text.extend_from_slice(b"; marks within ")?;
    append_number(width, text)?;
    text.extend_from_slice(b" by ")?;
    append_number(height, text)
}

/// Appends the box in which dots changed.
fn append_box(region: Region, text: &mut Vec<u8>) -> Result<(), AllocError>
    requires { IsBox (Patch region) }
    ensures { OnOk result (text.new.items ≡ text.old.items ++ box_said region) }
{
    let width = 8 * (region.right - region.left);
    append_extent(width as u64, u64::from(region.bottom - region.top), text)?;
    append_corner(region, text)
}

/// Appends what changed of the open page.
fn append_page(change: Change, text: &mut Vec<u8>) -> Result<(), AllocError>
    requires { IsBox change }
    ensures { OnOk result (text.new.items ≡ text.old.items ++ page_said change) }
{
    match change {
        Change::Nothing => Ok(()),
        Change::Closed => text.extend_from_slice(b"; the page closes"),
        Change::Patch(region) => append_box(region, text),
    }
}

/// Appends the word of what changed, behind what stands before it.
fn append_word(word: &[u8], text: &mut Vec<u8>) -> Result<(), AllocError>
    ensures { OnOk result (text.new.items ≡ text.old.items ++ changed_word word.now) }
{
    text.extend_from_slice(b"; ")?;
    text.extend_from_slice(word)?;
    text.extend_from_slice(b" ")
}

/// Appends how many sheets were handed out before and behind, where that is not the same.
fn append_sheets(old: u64, new: u64, text: &mut Vec<u8>) -> Result<(), AllocError>
    ensures { OnOk result (text.new.items ≡ text.old.items ++ sheets_said old new) }
{
    if old == new {
        return Ok(());
    }
    append_word(b"sheets", text)?;
    append_number(old, text)?;
    text.extend_from_slice(b" to ")?;
    append_number(new, text)
}

/// Appends how many commands of bodies ran, of so many steps, if any did.
fn append_bodies(steps: u64, text: &mut Vec<u8>) -> Result<(), AllocError>
    ensures { OnOk result (text.new.items ≡ text.old.items ++ bodies_said steps) }
{
    let count = steps.saturating_sub(1);
    if count == 0 {
        return Ok(());
    }
    text.extend_from_slice(b"; runs ")?;
    append_number(count, text)?;
    text.extend_from_slice(b" recorded commands")
}

/// Appends a place of the cursor before and behind, where that is not the same.
fn append_moved(axis: &str, old: Pos, new: Pos, text: &mut Vec<u8>) -> Result<(), AllocError>
    ensures { OnOk result (text.new.items
        ≡ text.old.items ++ moved_said axis.now old.0 new.0) }
{
    if old.0 == new.0 {
        return Ok(());
    }
    append_word(axis.as_bytes(), text)?;
    append_integer(old.0, text)?;
    text.extend_from_slice(b" to ")?;
    append_integer(new.0, text)
}

/// Appends what a field tells.
fn append_told(told: Told<'_>, text: &mut Vec<u8>) -> Result<(), AllocError>
    ensures { OnOk result (text.new.items ≡ text.old.items ++ told_said told.entry) }
{
    match told {
        Told::Number(count) => append_number(count, text),
        Told::Flag(true) => text.extend_from_slice(b"on"),
        Told::Flag(false) => text.extend_from_slice(b"off"),
        Told::Places(places) => {
            append_number(places.len() as u64, text)?;
            text.extend_from_slice(b" pushed")
        }
        Told::Nothing => text.extend_from_slice(b"none"),
    }
}

/// Appends a field of a group, where it tells something else than before.
fn append_field(
    was: &View<'_>,
    now: &View<'_>,
    group: Group,
    field: Field,
    text: &mut Vec<u8>,
) -> Result<(), AllocError>
    ensures { OnOk result (text.new.items
        ≡ text.old.items ++ field_changed was.now now.now group field) }
{
    let old = field.told(was);
    let new = field.told(now);
    if old.is_same(new) {
        return Ok(());
    }
    text.extend_from_slice(b"; ")?;
    text.extend_from_slice(group.word().as_bytes())?;
    text.extend_from_slice(b".")?;
    text.extend_from_slice(field.key().as_bytes())?;
    text.extend_from_slice(b" ")?;
    append_told(old, text)?;
    text.extend_from_slice(b" to ")?;
    append_told(new, text)
}

/// Appends those of these fields of a group that tell something else than before.
fn append_those(
    was: &View<'_>,
    now: &View<'_>,
    group: Group,
    fields: &[Field],
    text: &mut Vec<u8>,
) -> Result<(), AllocError>
    ensures { OnOk result (text.new.items
        ≡ text.old.items ++ flat_map (field_changed was.now now.now group) fields.now) }
{
    for field in fields {
        append_field(was, now, group, *field, text)?;
    }
    Ok(())
}

/// Appends those fields of a group that tell something else than before.
fn append_group(
    was: &View<'_>,
    now: &View<'_>,
    group: Group,
    text: &mut Vec<u8>,
) -> Result<(), AllocError>
    ensures { OnOk result (text.new.items
        ≡ text.old.items ++ group_changed was.now now.now group) }
{
    append_those(was, now, group, group.fields(), text)
}

/// Appends those fields of these groups that tell something else than before.
fn append_groups(
    was: &View<'_>,
    now: &View<'_>,
    groups: &[Group],
    text: &mut Vec<u8>,
) -> Result<(), AllocError>
    ensures { OnOk result (text.new.items
        ≡ text.old.items ++ flat_map (group_changed was.now now.now) groups.now) }
{
    for group in groups {
        append_group(was, now, *group, text)?;
    }
    Ok(())
}

/// Appends the fields that tell something else than before.
fn append_fields(was: &View<'_>, now: &View<'_>, text: &mut Vec<u8>) -> Result<(), AllocError>
    ensures { OnOk result (text.new.items ≡ text.old.items ++ fields_said was.now now.now) }
{
    append_groups(was, now, &GROUPS, text)
}

/// Appends what was sent to the host.
fn append_replies(replies: &[u8], text: &mut Vec<u8>) -> Result<(), AllocError>
    ensures { OnOk result (text.new.items ≡ text.old.items ++ replies_said replies.now) }
{
    if replies.is_empty() {
        return Ok(());
    }
    text.extend_from_slice(b"; replies: ")?;
    append_shown(replies, text)
}

/// Appends what went out: what changed of the open page, sheets, and how many commands of bodies ran.
fn append_went(
    was: &View<'_>,
    now: &View<'_>,
    change: Change,
    text: &mut Vec<u8>,
) -> Result<(), AllocError>
    requires { IsBox change }
    ensures { OnOk result (text.new.items
        ≡ text.old.items ++ went_said was.now now.now change) }
{
    append_page(change, text)?;
    append_sheets(was.sheets, now.sheets, text)?;
    append_bodies(now.step.saturating_sub(was.step), text)
}

/// Appends what changed of what can be seen, and what was replied.
fn append_seen(
    was: &View<'_>,
    now: &View<'_>,
    replies: &[u8],
    text: &mut Vec<u8>,
) -> Result<(), AllocError>
    ensures { OnOk result (text.new.items
        ≡ text.old.items ++ seen_said was.now now.now replies.now) }
{
    append_moved("x", was.x, now.x, text)?;
    append_moved("y", was.y, now.y, text)?;
    append_fields(was, now, text)?;
    append_replies(replies, text)
}

/// Appends all that a command did, by what could be seen before it and can be seen now, what changed of the open page, and what was replied.
pub(crate) fn append_deeds(
    was: &View<'_>,
    now: &View<'_>,
    change: Change,
    replies: &[u8],
    text: &mut Vec<u8>,
) -> Result<(), AllocError>
    requires { IsBox change }
    ensures { OnOk result (text.new.items
        ≡ text.old.items ++ deeds was.now now.now change replies.now) }
{
    append_went(was, now, change, text)?;
    append_seen(was, now, replies, text)
}
