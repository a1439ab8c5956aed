//! Where a page differs from an earlier one, by what differs in their frames.

ghost use Rattle.std.specs.Prelude.{◌≡◌, ℕ, ◌+◌, ◌-◌, ◌*◌, ◌<◌, ◌≤◌, false};
ghost use Rattle.press_bits.specs.Page.{HasNoDotOutside, Page};
ghost use Rattle.press_bits.specs.Patches.{DifferIn, LiesOn, is_in};
ghost use Rattle.press_page.specs.PageSetup.{turned};
ghost use Rattle.press_page.specs.Place.{placed_dot};
ghost use Rattle.press_canvas.specs.Changes.{AgreeAround, AgreeAt, AreOn, IsBeside};
ghost use Rattle.press_canvas.specs.Turned.{extent};

use press_bits::{Bitmap, Region};
use press_page::{Extent, Orientation};

/// Dots of a page or of a frame: of the lines from `top` on and before `bottom` those in the columns from `left` on and before `right`.
#[derive(Clone, Copy)]
pub(crate) struct Rectangle {
    pub(crate) left: u32,
    pub(crate) right: u32,
    pub(crate) top: u32,
    pub(crate) bottom: u32,
}

/// Whether two pages differ in a column, in the lines from `top` on and before `bottom`.
fn differ_at(before: &Bitmap, after: &Bitmap, column: u32, top: u32, bottom: u32) -> bool
    ensures { result ≡ false → AgreeAt before.now after.now top bottom column }
{
    for y in top..bottom {
        if before.get(column, y) != after.get(column, y) {
            return true;
        }
    }
    false
}

/// The first column from `first` on in which two pages differ in the lines of a region, or column `last`.
fn left_of(before: &Bitmap, after: &Bitmap, region: Region, first: u32, last: u32) -> u32
    requires { first ≤ last }
    ensures within { result ≤ last }
    ensures agree { (x : ℕ) → first ≤ x → x < result
        → AgreeAt before.now after.now region.top region.bottom x }
{
    for column in first..last {
        if differ_at(before, after, column, region.top, region.bottom) {
            return column;
        }
    }
    last
}

/// The column behind the last one before `end` in which two pages differ in the lines of a region, or that behind column `first`.
fn right_of(before: &Bitmap, after: &Bitmap, region: Region, first: u32, end: u32) -> u32
    requires { first < end }
    ensures some { first < result }
    ensures within { result ≤ end }
    ensures agree { (x : ℕ) → result ≤ x → x < end
        → AgreeAt before.now after.now region.top region.bottom x }
{
    for count in 0..end - first - 1 {
        let column = end - 1 - count;
        if differ_at(before, after, column, region.top, region.bottom) {
            return column + 1;
        }
    }
    first + 1
}

/// The dots of a region that hold all in which two pages differ that differ in this region alone.
pub(crate) fn changed_dots(before: &Bitmap, after: &Bitmap, region: Region) -> Rectangle
    requires differ { DifferIn before.now after.now region }
    requires lies { LiesOn before.now region }
    ensures agree { AgreeAround before.now after.now result }
    ensures on { AreOn (extent before.now) result }
    ensures inside { HasNoDotOutside before.now × HasNoDotOutside after.now }
{
    let (width, _) = (before.width(), after.width());
    let end = (8 * region.right).min(width as usize) as u32;
    let left = left_of(before, after, region, 8 * region.left as u32, end - 1);
    Rectangle {
        left,
        right: right_of(before, after, region, left, end),
        top: region.top,
        bottom: region.bottom,
    }
}

/// The dots of a page on which dots of its frame lie.
pub(crate) fn on_page(orientation: Orientation, page: Extent, dots: Rectangle) -> Rectangle
    requires { AreOn (turned orientation page) dots }
    ensures on { AreOn page result }
    ensures beside { (x y : ℕ) → x < page.width → y < page.height → IsBeside result x y
        → (let dot = placed_dot orientation page.width page.height x y in
        IsBeside dots dot.0 dot.1) }
{
    let Extent { width, height } = page;
    let Rectangle {
        left,
        right,
        top,
        bottom,
    } = dots;
    match orientation {
        Orientation::Portrait => dots,
        Orientation::Landscape => Rectangle {
            left: top,
            right: bottom,
            top: height - right,
            bottom: height - left,
        },
        Orientation::ReversePortrait => Rectangle {
            left: width - right,
            right: width - left,
            top: height - bottom,
            bottom: height - top,
        },
        Orientation::ReverseLandscape => Rectangle {
            left: width - bottom,
            right: width - top,
            top: left,
            bottom: right,
        },
    }
}

/// The bytes in which dots of a page stand.
pub(crate) fn region_of(dots: Rectangle) -> Region
    ensures beside { (x y : ℕ) → is_in result x y ≡ false → IsBeside dots x y }
    ensures lies { (page : Page) → AreOn (extent page) dots → LiesOn page result }
{
    Region {
        top: dots.top,
        bottom: dots.bottom,
        left: dots.left as usize / 8,
        right: (dots.right as usize).div_ceil(8),
    }
}
