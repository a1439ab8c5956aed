//! What changed of the open page.

ghost use Rattle.std.specs.Prelude.{◌≡◌, ◌++◌, IfOk, None, Some, option_map, MatchOption, OnOk, codes, true, false};
ghost use Rattle.serde_json.specs.Data.{array};
ghost use Rattle.serde_json.specs.View.{items_of};
ghost use Rattle.serde_json.specs.Written.{compact_text};
ghost use Rattle.press_bits.specs.Patches.{ChangedIn, LiesOn};
ghost use Rattle.press_canvas.specs.Turned.{extent};
ghost use Rattle.press_trace.specs.Pages.{rows_of, patch_data, patch_slots, size_data, opened_data, change_data, LiesIn, Follows, KeepsRest, StartsFrom, IsPageTold};
ghost use Rattle.press_trace.specs.Slots.{member_text, texts_of};

use crate::appending::{append_key, append_number};
use crate::members::append_number_member;
use crate::rows::append_rows;
use crate::touched::Touched;
use press_bits::Region;
use press_canvas::Canvas;
use press_page::Extent;
use std::alloc::{AllocError, Global};

/// What changed of the open page.
#[derive(Clone, Copy)]
pub enum Change {
    /// Nothing.
    Nothing,
    /// It closed.
    Closed,
    /// This region of it.
    Patch(Region),
}

/// What is told of the open page: whether it is a new one, and what changed on it.
#[derive(Clone, Copy)]
pub struct PageTold {
    pub opened: bool,
    pub change: Change,
}

/// That it is as it was.
pub(crate) const AS_IT_WAS: PageTold = PageTold {
    opened: false,
    change: Change::Nothing,
};

/// Appends the rows of a region of a page as a member.
fn append_rows_member(
    alloc: Global,
    page: &Canvas,
    region: Region,
    text: &mut Vec<u8>,
) -> Result<(), AllocError>
    requires { LiesOn page.now region }
    ensures { OnOk result (text.new.items ≡ text.old.items
        ++ member_text true (codes "rows") (Some (array (items_of (rows_of page.now region))))) }
{
    append_key(alloc, true, "rows", text)?;
    append_rows(alloc, page, region, text)
}

/// Appends the members of a region of a page.
fn append_region(
    alloc: Global,
    page: &Canvas,
    region: Region,
    text: &mut Vec<u8>,
) -> Result<(), AllocError>
    requires { LiesOn page.now region }
    ensures { OnOk result (text.new.items
        ≡ text.old.items ++ texts_of false (patch_slots page.now region)) }
{
    let width = page.extent().width as usize;
    let left = 8 * region.left;
    let right = (8 * region.right).min(width);
    let lines = region.bottom - region.top;
    append_number_member(alloc, false, "height", u64::from(lines), text)?;
    append_rows_member(alloc, page, region, text)?;
    append_number_member(alloc, true, "width", (right - left) as u64, text)?;
    append_number_member(alloc, true, "x", left as u64, text)?;
    append_number_member(alloc, true, "y", u64::from(region.top), text)?;
    Ok(())
}

/// Appends a region of a page, with its rows.
fn append_patch(
    alloc: Global,
    page: &Canvas,
    region: Region,
    text: &mut Vec<u8>,
) -> Result<(), AllocError>
    requires { LiesOn page.now region }
    ensures { OnOk result (text.new.items
        ≡ text.old.items ++ compact_text (patch_data page.now region)) }
{
    text.push(b'{')?;
    append_region(alloc, page, region, text)?;
    text.push(b'}')?;
    Ok(())
}

/// Appends the size of a page.
fn append_size(page: &Canvas, text: &mut Vec<u8>) -> Result<(), AllocError>
    ensures { OnOk result (text.new.items ≡ text.old.items ++ compact_text (size_data page.now)) }
{
    let Extent { width, height } = page.extent();
    text.push(b'[')?;
    append_number(u64::from(width), text)?;
    text.push(b',')?;
    append_number(u64::from(height), text)?;
    text.push(b']')?;
    Ok(())
}

/// Appends the size of a page that opened, behind another member.
pub(crate) fn append_opened(
    alloc: Global,
    opened: bool,
    now: Option<&Canvas>,
    text: &mut Vec<u8>,
) -> Result<(), AllocError>
    ensures { OnOk result (text.new.items ≡ text.old.items ++ member_text true (codes "opened")
        (opened_data opened (option_map (λ page. page.now) now.entry))) }
{
    match now {
        Some(page) if opened => {
            append_key(alloc, true, "opened", text)?;
            append_size(page, text)
        }
        _ => Ok(()),
    }
}

/// Appends what changed of the open page, behind another member.
pub(crate) fn append_change(
    alloc: Global,
    change: Change,
    now: Option<&Canvas>,
    text: &mut Vec<u8>,
) -> Result<(), AllocError>
    requires { LiesIn change (option_map (λ page. page.now) now) }
    ensures { OnOk result (text.new.items ≡ text.old.items ++ member_text true (codes "page")
        (change_data change (option_map (λ page. page.now) now.entry))) }
{
    match (change, now) {
        (Change::Closed, _) => {
            append_key(alloc, true, "page", text)?;
            text.extend_from_slice(b"null")
        }
        (Change::Patch(region), Some(page)) => {
            append_key(alloc, true, "page", text)?;
            append_patch(alloc, page, region, text)
        }
        _ => Ok(()),
    }
}

/// The page on which a change is told, and whether it is a new one: the one before, where it has the size of the one after, and else a white one.
fn start(
    alloc: Global,
    before: Option<Canvas>,
    after: &Canvas,
) -> Result<(Canvas, bool), AllocError>
    ensures { IfOk result (λ started.
        StartsFrom before after.now started.0 (opened_data started.1 (Some after.now))) }
{
    match before {
        Some(page) if page.extent() == after.extent() => Ok((page, false)),
        _ => Ok((after.white(alloc)?, true)),
    }
}

/// Follows a page to a later one of its size, of which a step touched this. The answer is the region that changed, if anything did.
fn catch_up(
    alloc: Global,
    page: &mut Canvas,
    after: &Canvas,
    touched: Touched,
) -> Result<Option<Region>, AllocError>
    requires extent { extent after.now ≡ extent page.old }
    requires keeps { KeepsRest touched (Some page.old) (Some after.now) }
    ensures region { IfOk result (λ region. MatchOption region (page.old ≡ after.now)
        (λ region. ChangedIn page.old after.now region)) }
    ensures page { OnOk result (page.new ≡ after.now) }
{
    match touched {
        Touched::Nothing => Ok(None),
        Touched::Lines {
            orientation,
            first,
            end,
        } => page.catch_up_between(alloc, after, orientation, first, end),
        Touched::Whole => page.catch_up(alloc, after),
    }
}

/// Follows a page to a later one of its size, of which a step touched this. The answer is what changed.
fn follow(
    alloc: Global,
    page: &mut Canvas,
    after: &Canvas,
    touched: Touched,
) -> Result<Change, AllocError>
    requires extent { extent after.now ≡ extent page.old }
    requires keeps { KeepsRest touched (Some page.old) (Some after.now) }
    ensures told { IfOk result (λ change.
        Follows page.old after.now (change_data change (Some after.now))) }
    ensures lies { IfOk result (λ change. LiesIn change (Some after.now)) }
    ensures page { OnOk result (page.new ≡ after.now) }
{
    let _extent = after.extent();
    match catch_up(alloc, page, after, touched)? {
        Some(region) => Ok(Change::Patch(region)),
        None => Ok(Change::Nothing),
    }
}

/// What is told where no page is open.
fn closed(before: Option<Canvas>) -> PageTold
    ensures { IsPageTold before None
        (opened_data result.opened None) (change_data result.change None) }
{
    PageTold {
        opened: false,
        change: match before {
            Some(_) => Change::Closed,
            None => Change::Nothing,
        },
    }
}

/// What is told of the open page now, which is this one, where it was so before.
fn told_open(
    alloc: Global,
    before: Option<Canvas>,
    after: &Canvas,
    touched: Touched,
) -> Result<(Option<Canvas>, PageTold), AllocError>
    requires { KeepsRest touched before (Some after.now) }
    ensures told { IfOk result (λ answer. IsPageTold before (Some after.now)
        (opened_data answer.1.opened (Some after.now))
        (change_data answer.1.change (Some after.now))) }
    ensures lies { IfOk result (λ answer. LiesIn answer.1.change (Some after.now)) }
    ensures page { IfOk result (λ answer. answer.0 ≡ Some after.now) }
{
    let (mut page, opened) = start(alloc, before, after)?;
    let touched = if opened { Touched::Whole } else { touched };
    let change = follow(alloc, &mut page, after, touched)?;
    Ok((Some(page), PageTold { opened, change }))
}

/// What is told of the open page now, where it was so before, and a step touched this of it. The answer has the page of now, too.
pub fn told_page(
    alloc: Global,
    before: Option<Canvas>,
    now: Option<&Canvas>,
    touched: Touched,
) -> Result<(Option<Canvas>, PageTold), AllocError>
    requires { KeepsRest touched before (option_map (λ page. page.now) now) }
    ensures told { IfOk result (λ answer. IsPageTold before
        (option_map (λ page. page.now) now.entry)
        (opened_data answer.1.opened (option_map (λ page. page.now) now.entry))
        (change_data answer.1.change (option_map (λ page. page.now) now.entry))) }
    ensures lies { IfOk result (λ answer.
        LiesIn answer.1.change (option_map (λ page. page.now) now.entry)) }
    ensures page { IfOk result (λ answer. answer.0 ≡ option_map (λ page. page.now) now.entry) }
{
    match now {
        Some(after) => told_open(alloc, before, after, touched),
        None => Ok((None, closed(before))),
    }
}
