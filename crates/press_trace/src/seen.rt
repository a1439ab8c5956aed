//! What changed of what can be seen.

ghost use Rattle.std.specs.Prelude.{◌≡◌, ◌++◌, IfOk, OnOk, option_map, not, map, codes, true, false};
ghost use Rattle.std.specs.List.{list_any};
ghost use Rattle.press_trace.specs.Fields.{group_word};
ghost use Rattle.press_trace.specs.Lines.{view_object};
ghost use Rattle.press_trace.specs.Seen.{is_told, tells_some, field_slot, group_told, group_slot, IsAlike};
ghost use Rattle.press_trace.specs.Slots.{member_text, is_later, texts_of};

use crate::appending::append_key;
use crate::fields::{Field, GROUPS, Group};
use press_cursor::CursorPosition;
use press_engine::View;
use std::alloc::{AllocError, Global};

/// What could be seen at some time, kept.
#[derive(Drop)]
pub struct Seen {
    /// All but the positions that were pushed.
    view: View<'static>,
    pushed: Vec<CursorPosition>,
}

impl Seen {
    /// What can be seen now.
    pub fn of(alloc: Global, view: &View<'_>) -> Result<Self, AllocError>
        ensures { IfOk result (λ seen. IsAlike seen view.now) }
    {
        let View {
            step,
            depth,
            last,
            x,
            y,
            stack,
            sheets,
            since_job,
            language,
            environment,
            drawing,
            macro_id,
            overlay,
            defining,
            raster,
            hp_gl,
            marked,
        } = *view;
        let mut pushed = Vec::new(alloc);
        pushed.extend_from_slice(stack)?;
        Ok(Seen {
            view: View {
                step,
                depth,
                last,
                x,
                y,
                stack: &[],
                sheets,
                since_job,
                language,
                environment,
                drawing,
                macro_id,
                overlay,
                defining,
                raster,
                hp_gl,
                marked,
            },
            pushed,
        })
    }

    /// What could be seen.
    pub fn view(&self) -> View<'_>
        ensures { IsAlike self.now result }
    {
        View {
            stack: &self.pushed,
            ..self.view
        }
    }
}

/// Whether a field is told: it tells something else than before, or there is nothing before.
fn is_told(before: Option<&View<'_>>, now: &View<'_>, field: Field) -> bool
    ensures { result ≡ is_told (option_map (λ view. view.now) before.entry) now.now field }
{
    match before {
        Some(before) => !field.told(before).is_same(field.told(now)),
        None => true,
    }
}

/// Whether some of these fields are told.
fn tells_some(before: Option<&View<'_>>, now: &View<'_>, fields: &[Field]) -> bool
    ensures { result
        ≡ list_any (is_told (option_map (λ view. view.now) before.entry) now.now) fields.now }
{
    fields.iter().any(|field| is_told(before, now, *field))
}

/// Whether a field of some of these groups is told.
fn tells_some_group(before: Option<&View<'_>>, now: &View<'_>, groups: &[Group]) -> bool
    ensures { result
        ≡ list_any (tells_some (option_map (λ view. view.now) before.entry) now.now) groups.now }
{
    groups
        .iter()
        .any(|group| tells_some(before, now, group.fields()))
}

/// Appends those of these fields that are told.
fn append_fields(
    alloc: Global,
    before: Option<&View<'_>>,
    now: &View<'_>,
    fields: &[Field],
    text: &mut Vec<u8>,
) -> Result<(), AllocError>
    ensures { OnOk result (text.new.items ≡ text.old.items ++ texts_of false
        (map (field_slot (option_map (λ view. view.now) before.entry) now.now) fields.now)) }
{
    let mut later = false;
    for field in fields {
        if is_told(before, now, *field) {
            append_key(alloc, later, field.key(), text)?;
            field.told(now).append(text)?;
            later = true;
        }
    }
    Ok(())
}

/// Appends the object of a group under its word, if a field of it is told. The answer is whether something stands in front of what comes next.
fn append_group(
    alloc: Global,
    later: bool,
    before: Option<&View<'_>>,
    now: &View<'_>,
    group: Group,
    text: &mut Vec<u8>,
) -> Result<bool, AllocError>
    ensures text { OnOk result (text.new.items ≡ text.old.items ++ member_text later
        (group_word group) (group_told (option_map (λ view. view.now) before.entry) now.now group)) }
    ensures behind { IfOk result (λ behind. behind ≡ is_later later
        (group_told (option_map (λ view. view.now) before.entry) now.now group)) }
{
    if !tells_some(before, now, group.fields()) {
        return Ok(later);
    }
    append_key(alloc, later, group.word(), text)?;
    text.push(b'{')?;
    append_fields(alloc, before, now, group.fields(), text)?;
    text.push(b'}')?;
    Ok(true)
}

/// Appends the objects of those of these groups in which a field is told.
fn append_groups(
    alloc: Global,
    before: Option<&View<'_>>,
    now: &View<'_>,
    groups: &[Group],
    text: &mut Vec<u8>,
) -> Result<(), AllocError>
    ensures { OnOk result (text.new.items ≡ text.old.items ++ texts_of false
        (map (group_slot (option_map (λ view. view.now) before.entry) now.now) groups.now)) }
{
    let mut later = false;
    for group in groups {
        later = append_group(alloc, later, before, now, *group, text)?;
    }
    Ok(())
}

/// Appends what changed of what can be seen, behind another member.
pub(crate) fn append_view(
    alloc: Global,
    before: Option<&View<'_>>,
    now: &View<'_>,
    text: &mut Vec<u8>,
) -> Result<(), AllocError>
    ensures { OnOk result (text.new.items ≡ text.old.items ++ member_text true (codes "view")
        (view_object (option_map (λ view. view.now) before.entry) now.now)) }
{
    if !tells_some_group(before, now, &GROUPS) {
        return Ok(());
    }
    append_key(alloc, true, "view", text)?;
    text.push(b'{')?;
    append_groups(alloc, before, now, &GROUPS, text)?;
    text.push(b'}')?;
    Ok(())
}
