//! The lines that tell the files of entries' sides.
ghost use Rattle.std.specs.Prelude.{◌≡◌, ◌++◌, List, OnOk, IfOk, Some, length};
ghost use Rattle.press_sink.specs.Template.{side_name};
ghost use Rattle.press_sink.specs.declared.delivery.Delivery.{Delivery};
ghost use Rattle.press_files.specs.EntryPages.{page_line, page_lines, sheet_page_lines};
ghost use Rattle.press_files.specs.EntryKept.{ArePlaced, entry_deliveries_of, kept_page_lines};
ghost use Rattle.press_files.specs.EntryTemplate.{entry_parts, names_of};

use crate::entry_sheets::EntrySheet;
use crate::entry_template::EntryTemplate;
use std::alloc::{AllocError, Global};

/// The lines of the sides of sheets behind the first so many, by the template of their names.
pub(crate) fn page_lines(
    alloc: Global,
    template: &EntryTemplate,
    sheets: &[EntrySheet],
    count: usize,
) -> Result<Vec<u8>, AllocError>
    requires { ArePlaced sheets.now }
    ensures { IfOk result (λ lines. (before behind : List Delivery)
        → entry_deliveries_of sheets.now ≡ before ++ behind → length before ≡ count
        → lines.items ≡ page_lines (Some (entry_parts template.now)) before behind) }
{
    match sheets.get(count..) {
        Some(behind) => lines_of(alloc, template, behind),
        None => Ok(Vec::new(alloc)),
    }
}

/// The lines of the sides of sheets.
fn lines_of(
    alloc: Global,
    template: &EntryTemplate,
    sheets: &[EntrySheet],
) -> Result<Vec<u8>, AllocError>
    ensures { IfOk result (λ lines.
        lines.items ≡ kept_page_lines (entry_parts template.now) sheets.now) }
{
    let mut lines = Vec::new(alloc);
    for sheet in sheets {
        append_sheet(alloc, &mut lines, template, sheet)?;
    }
    Ok(lines)
}

/// Appends the lines of the sides of a sheet.
fn append_sheet(
    alloc: Global,
    lines: &mut Vec<u8>,
    template: &EntryTemplate,
    sheet: &EntrySheet,
) -> Result<(), AllocError>
    ensures { OnOk result (lines.new.items ≡ lines.old.items
        ++ sheet_page_lines (entry_parts template.now) sheet.now.sheet.tag sheet.now.number
        sheet.now.side sheet.now.sheet.sheet.value) }
{
    append_side(alloc, lines, template, sheet, "front", sheet.side)?;
    if sheet.sheet.back.is_none() {
        return Ok(());
    }
    append_side(
        alloc,
        lines,
        template,
        sheet,
        "back",
        sheet.side.saturating_add(1),
    )
}

/// Appends the line of a side of a sheet, which has this number among the sides of its entry.
fn append_side(
    alloc: Global,
    lines: &mut Vec<u8>,
    template: &EntryTemplate,
    sheet: &EntrySheet,
    side: &str,
    place: u64,
) -> Result<(), AllocError>
    ensures { OnOk result (lines.new.items ≡ lines.old.items
        ++ page_line sheet.now.sheet.tag sheet.now.number side.now
        (side_name (names_of (entry_parts template.now) sheet.now.sheet.tag) place)) }
{
    let (entry, number) = (sheet.sheet.tag, sheet.number);
    let name = template.name(alloc, entry, place)?;
    let line = format!(in alloc; "sheet Q{entry} {number} {side} {name}\n")?;
    lines.extend_from_slice(line.as_bytes())
}
