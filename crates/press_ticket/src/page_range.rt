//! Ranges of pages (CIP4 JDF 1.5, run lists; this profile's form of them).

ghost use Rattle.std.specs.Prelude.{◌≡◌, ◌<◌, ◌≤◌, ◌++◌, ℕ, nat_le, length, slice_get, Some, IfOk, IfSome, OnOk};
ghost use Rattle.press_ticket.specs.Pages.{page_at, pages_of, page_order};

use std::alloc::{AllocError, Global};

/// Pages of a set, from the first to the last, downwards where the last is less. Pages count from 0.
///
/// Source: CIP4 JDF 1.5, run lists; this profile's form of them.
#[derive(Clone, Copy, Debug, PartialEq, Eq)]
pub struct PageRange {
    pub first: u16,
    pub last: u16,
}

/// The most pages of a set.
pub const MAX_PAGES: u16 = 999;

impl PageRange {
    /// How many pages it has.
    pub fn count(self) -> usize
        ensures pages { result ≡ length (pages_of self) }
        ensures bound { result ≤ 65536 }
    {
        if self.first <= self.last {
            usize::from(self.last - self.first) + 1
        } else {
            usize::from(self.first - self.last) + 1
        }
    }

    /// The page at an index, from 0.
    pub fn page(self, index: usize) -> u16
        requires { index < length (pages_of self) }
        ensures value { slice_get (pages_of self) index ≡ Some result }
        ensures within { (n : ℕ) → self.first < n → self.last < n → result < n }
    {
        if self.first <= self.last {
            self.first + index as u16
        } else {
            self.first - index as u16
        }
    }
}

/// The page that a number names, of so many: a negative number counts from the end, -1 the last.
pub fn page_at(page_count: u16, number: i128) -> Option<u16>
    ensures value { result ≡ page_at page_count number }
    ensures within { IfSome result (λ page. page < page_count) }
{
    let page = if number < 0 {
        number + i128::from(page_count)
    } else {
        number
    };
    u16::try_from(page).ok().filter(|page| *page < page_count)
}

/// Whether the ranges have at most [`MAX_PAGES`] pages in all.
pub fn are_few(ranges: &[PageRange]) -> bool
    ensures { result ≡ nat_le (length (page_order ranges.now)) MAX_PAGES }
{
    let mut total = 0;
    for range in ranges {
        total += range.count();
        if total > usize::from(MAX_PAGES) {
            return false;
        }
    }
    true
}

/// The pages of the ranges, in order.
pub fn page_order(alloc: Global, ranges: &[PageRange]) -> Result<Vec<u16>, AllocError>
    ensures { IfOk result (λ pages. pages.items ≡ page_order ranges.now) }
{
    let mut pages = Vec::new(alloc);
    for range in ranges {
        push_pages(&mut pages, *range)?;
    }
    Ok(pages)
}

/// Adds the pages of a range at the end.
fn push_pages(pages: &mut Vec<u16>, range: PageRange) -> Result<(), AllocError>
    ensures { OnOk result (pages.new.items ≡ pages.old.items ++ pages_of range) }
{
    for index in 0..range.count() {
        pages.push(range.page(index))?;
    }
    Ok(())
}
