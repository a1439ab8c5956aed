//! The logical page, and the nearest place on it (PCL 5 Printer Language Technical Reference Manual, the logical page).

ghost use Rattle.std.specs.Prelude.{◌≡◌, ◌<◌, ◌^◌, unsigned_abs};
ghost use Rattle.press_cursor.specs.Bounds.{nearest_x, nearest_y};

/// The logical page, as far as it bounds the cursor. Lengths are positions (1/7200 inch).
#[derive(Clone, Copy, Debug)]
pub struct LogicalPage {
    pub width: u32,
    pub length: u32,
    /// The distance of the top margin from the upper edge.
    pub top_margin: u32,
}

/// The place along the line that is nearest to a position, within the width of the logical page.
pub(crate) fn nearest_x(x: i64, page: LogicalPage) -> u32
    ensures { result ≡ nearest_x x page }
{
    if x < 0 {
        0
    } else if x > i64::from(page.width) {
        page.width
    } else {
        x as u32
    }
}

/// The place nearest to a position that counts from the top margin: from the upper edge of the logical page to its lower.
pub(crate) fn nearest_y(y: i64, page: LogicalPage) -> i64
    ensures nearest { result ≡ nearest_y y page }
    ensures bound { unsigned_abs result < 2 ^ 33 }
{
    let upper = -i64::from(page.top_margin);
    let lower = i64::from(page.length) - i64::from(page.top_margin);
    upper.max(y.min(lower))
}
