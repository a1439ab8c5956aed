//! Numbers of a ticket, held against their ranges.

ghost use Rattle.std.specs.Prelude.{◌≡◌, ◌≤◌, true, length, nat_le, IfOk, IfSome, option_map, option_and_then};
ghost use Rattle.std.specs.List.{list_all};
ghost use Rattle.press_ticket.specs.Pages.{page_order};
ghost use Rattle.press_ticket.specs.Ticket.{is_within};
ghost use Rattle.press_ticket.specs.Reading.{up_to, range_of, ranges_of, if_few};

use crate::page_range;
use crate::page_range::{MAX_PAGES, PageRange};
use std::alloc::{AllocError, Global};

/// A number from 1 to the most.
pub fn up_to(most: u16, number: i128) -> Option<u16>
    ensures value { result ≡ up_to most number }
    ensures bounds { IfSome result (λ n. (1 ≤ n) × (n ≤ most)) }
{
    u16::try_from(number)
        .ok()
        .filter(|number| *number >= 1 && *number <= most)
}

/// The pages of a pair, of so many.
fn range_of(page_count: u16, pair: (i128, i128)) -> Option<PageRange>
    ensures value { result ≡ range_of page_count pair }
    ensures within { IfSome result (λ range. is_within page_count range ≡ true) }
{
    Some(PageRange {
        first: page_range::page_at(page_count, pair.0)?,
        last: page_range::page_at(page_count, pair.1)?,
    })
}

/// The pages of pairs, of so many.
fn ranges_of(
    alloc: Global,
    page_count: u16,
    pairs: &[(i128, i128)],
) -> Result<Option<Vec<PageRange>>, AllocError>
    ensures value { IfOk result (λ found. option_map (λ ranges. ranges.items) found
        ≡ ranges_of page_count pairs.now) }
    ensures within { IfOk result (λ found. IfSome found
        (λ ranges. list_all (is_within page_count) ranges.items ≡ true)) }
{
    let mut found = Vec::new(alloc);
    for pair in pairs {
        let Some(range) = range_of(page_count, *pair) else {
            return Ok(None);
        };
        found.push(range)?;
    }
    Ok(Some(found))
}

/// The pages of pairs, of so many, at most [`MAX_PAGES`] in all.
pub fn few_ranges_of(
    alloc: Global,
    page_count: u16,
    pairs: &[(i128, i128)],
) -> Result<Option<Vec<PageRange>>, AllocError>
    ensures value { IfOk result (λ found. option_map (λ ranges. ranges.items) found
        ≡ option_and_then if_few (ranges_of page_count pairs.now)) }
    ensures within { IfOk result (λ found. IfSome found
        (λ ranges. list_all (is_within page_count) ranges.items ≡ true)) }
    ensures few { IfOk result (λ found. IfSome found
        (λ ranges. nat_le (length (page_order ranges.items)) MAX_PAGES ≡ true)) }
{
    let found = ranges_of(alloc, page_count, pairs)?;
    Ok(found.filter(|ranges| page_range::are_few(ranges)))
}
