//! Where a page differs from an earlier one.
#![tactic(auto)]

ghost use Rattle.std.specs.Prelude.{◌≡◌, ℕ, ◌+◌, ◌-◌, ◌*◌, ◌<◌, ◌≤◌, ◌⊎◌, false, pos, IfSome, MatchOption};
ghost use Rattle.press_bits.specs.Page.{Page, HasNoDotOutside};
ghost use Rattle.press_bits.specs.Lines.{bytes_per_line};
ghost use Rattle.press_bits.specs.Bands.{AreReady, band_lines};
ghost use Rattle.press_bits.specs.Patches.{AgreeBeside, ChangedIn, LiesOn, is_in};
ghost use Rattle.press_bits.specs.Changes.{Covers, EndsAbove, is_in_any, with_lines};

use crate::bands::{BAND, Bands, MAX_SIDE};
use crate::comparing::{Span, differing};
use crate::dot_row::DotRow;
use crate::mode::OPAQUE;
use crate::region::Region;

/// A region with bytes of a line below it too.
fn with_span(region: Option<Region>, y: u32, span: Span) -> Region
    requires small { y < MAX_SIDE }
    requires some { span.left < span.right }
    requires above { IfSome region (EndsAbove y) }
    ensures holds { (x n : ℕ) → is_in result x n ≡ false → is_in_any region x n ≡ false }
    ensures line { (x : ℕ) → is_in result x y ≡ false → (x < 8 * span.left) ⊎ (8 * span.right ≤ x) }
    ensures lies { (page : Page) → IfSome region (LiesOn page) → y < page.height
        → span.right ≤ bytes_per_line page.width → LiesOn page result }
    ensures bottom { result.bottom ≡ y + 1 }
{
    match region {
        None => Region {
            top: y,
            bottom: y + 1,
            left: span.left,
            right: span.right,
        },
        Some(region) => Region {
            top: region.top,
            bottom: y + 1,
            left: region.left.min(span.left),
            right: region.right.max(span.right),
        },
    }
}

/// The region with what differs in one more line.
fn with_line(before: &Bands, after: &Bands, region: Option<Region>, y: u32) -> Option<Region>
    requires width { after.now.page.width ≡ before.now.page.width }
    requires height { after.now.page.height ≡ before.now.page.height }
    requires high { y < before.now.page.height }
    requires small { y < MAX_SIDE }
    requires covers { Covers before.now.page after.now.page region y }
    ensures { Covers before.now.page after.now.page result (y + 1) }
{
    match differing(before.line(y), after.line(y)) {
        None => region,
        Some(span) => Some(with_span(region, y, span)),
    }
}

/// The region with what differs in one more band.
fn with_band(
    before: &Bands,
    after: &Bands,
    height: u32,
    given: Option<Region>,
    band: usize,
) -> Option<Region>
    requires width { after.now.page.width ≡ before.now.page.width }
    requires height { after.now.page.height ≡ before.now.page.height }
    requires high { height ≡ before.now.page.height }
    requires small { height ≤ MAX_SIDE }
    requires here { band_lines * band < before.now.page.height }
    requires covers { Covers before.now.page after.now.page given (band_lines * band) }
    ensures { Covers before.now.page after.now.page result (band_lines * (band + 1)) }
{
    if before.is_same_band(after, band) {
        return given;
    }
    let first = (BAND * band) as u32;
    let mut region = given;
    for y in first..height.min(first + 64) {
        region = with_line(before, after, region, y);
    }
    region
}

/// The region in which a page differs from an earlier one of its size; none where they are equal.
pub(crate) fn changed(before: &Bands, after: &Bands) -> Option<Region>
    requires width { after.now.page.width ≡ before.now.page.width }
    requires height { after.now.page.height ≡ before.now.page.height }
    ensures { MatchOption result (before.now.page ≡ after.now.page)
        (λ region. ChangedIn before.now.page after.now.page region) }
{
    let height = before.height();
    let count = (after.height() as usize + 63) / BAND;
    let mut region = None;
    for band in 0..count {
        region = with_band(before, after, height, region, band);
    }
    region
}

/// The region in which a page differs from an earlier one of its size that agrees above line `first` and from line `end` on; none
/// where they are equal. No other line is looked at.
pub(crate) fn changed_between(before: &Bands, after: &Bands, first: u32, end: u32) -> Option<Region>
    requires width { after.now.page.width ≡ before.now.page.width }
    requires height { after.now.page.height ≡ before.now.page.height }
    requires beside { AgreeBeside first end before.now.page after.now.page }
    ensures { MatchOption result (before.now.page ≡ after.now.page)
        (λ region. ChangedIn before.now.page after.now.page region) }
{
    let height = before.height();
    let _ = after.height();
    let mut region = None;
    for y in first..end.min(height) {
        region = with_line(before, after, region, y);
    }
    region
}

/// Takes over lines of another page of this size, from `first` on and before `end`.
pub(crate) fn take_lines(page: &mut Bands, other: &Bands, first: u32, end: u32)
    requires width { other.now.page.width ≡ page.old.page.width }
    requires height { other.now.page.height ≡ page.old.page.height }
    requires some { first ≤ end }
    requires end { end ≤ page.old.page.height }
    requires ready { AreReady page.old (pos first) (end - first) }
    ensures lines { page.new.page ≡ with_lines page.old.page other.now.page first end }
    ensures ready { page.new.ready ≡ page.old.ready }
    ensures inside { HasNoDotOutside other.now.page }
{
    let dots = other.width() as usize;
    let _ = page.width();
    for y in first..end {
        let bits = other.line(y);
        let row = DotRow { bits, dots };
        page.paint_row(0, i64::from(y), row, DotRow::black(), OPAQUE);
    }
}
