//! The rows of a region of a page.

ghost use Rattle.std.specs.Prelude.{◌≡◌, ◌++◌, ◌+◌, ◌*◌, ◌<◌, ◌≤◌, ℕ, length, slice_index, if◌then◌else◌, OnOk};
ghost use Rattle.hex.specs.Hex.{encode_upper};
ghost use Rattle.serde_json.specs.Data.{array, string};
ghost use Rattle.serde_json.specs.View.{items_of};
ghost use Rattle.serde_json.specs.Written.{compact_text};
ghost use Rattle.press_bits.specs.Page.{black_at};
ghost use Rattle.press_bits.specs.Patches.{LiesOn};
ghost use Rattle.press_pbm.specs.Spelling.{byte_of_dots, line_bytes};
ghost use Rattle.press_trace.specs.Pages.{rows_of, row_in};

use crate::appending::{append_comma, append_hexadecimal};
use press_bits::{Bitmap, Region, WIDEST_ROW};
use press_canvas::Canvas;
use std::alloc::{AllocError, Global};

/// The rows of a page that does not lie upright are gathered by eight dots where they have at most so many bytes.
const MOST_GATHERED: usize = 16;

/// Appends bytes of a line of a page.
fn append_row(line: &[u8], region: Region, text: &mut Vec<u8>) -> Result<(), AllocError>
    requires some { region.left < region.right }
    requires within { region.right ≤ length line.now }
    ensures value { OnOk result (text.new.items
        ≡ text.old.items ++ compact_text (string (encode_upper (row_in region line.now)))) }
    ensures bytes { (i : ℕ) → slice_index line.now i < 256 }
{
    append_hexadecimal(&line[region.left..region.right], text)
}

/// Appends the rows of a region of a page, read of its lines.
fn append_read(page: &Bitmap, region: Region, text: &mut Vec<u8>) -> Result<(), AllocError>
    requires { LiesOn page.now region }
    ensures { OnOk result (text.new.items
        ≡ text.old.items ++ compact_text (array (items_of (rows_of page.now region)))) }
{
    let _width = page.width();
    text.push(b'[')?;
    for y in region.top..region.bottom {
        append_comma(region.top < y, text)?;
        append_row(page.line(y), region, text)?;
    }
    text.push(b']')?;
    Ok(())
}

/// The bit of a dot.
fn bit_of(dot: bool) -> u8
    ensures { result ≡ (if dot then 1 else 0) }
{
    u8::from(dot)
}

/// Eight dots of a line of a page as a byte: the leftmost is the most significant bit.
fn byte_at(page: &Canvas, index: u32, y: u32) -> u8
    ensures { result ≡ byte_of_dots (λ j. black_at page.now (8 * index + j) y) }
{
    let dots = page.dots(index, y);
    128 * bit_of(dots[0])
        + 64 * bit_of(dots[1])
        + 32 * bit_of(dots[2])
        + 16 * bit_of(dots[3])
        + 8 * bit_of(dots[4])
        + 4 * bit_of(dots[5])
        + 2 * bit_of(dots[6])
        + bit_of(dots[7])
}

/// Gathers the row of a region in a line of a page, by eight dots.
fn gather_row(page: &Canvas, region: Region, y: u32, row: &mut Vec<u8>) -> Result<(), AllocError>
    requires lies { LiesOn page.now region }
    requires narrow { region.right ≤ WIDEST_ROW }
    ensures { OnOk result (row.new.items ≡ row_in region (line_bytes page.now y)) }
{
    row.clear();
    for index in region.left..region.right {
        row.push(byte_at(page, index as u32, y))?;
    }
    Ok(())
}

/// Appends the rows of a region of a page, gathered by eight dots.
fn append_gathered(
    alloc: Global,
    page: &Canvas,
    region: Region,
    text: &mut Vec<u8>,
) -> Result<(), AllocError>
    requires lies { LiesOn page.now region }
    requires narrow { region.right ≤ WIDEST_ROW }
    ensures { OnOk result (text.new.items
        ≡ text.old.items ++ compact_text (array (items_of (rows_of page.now region)))) }
{
    let mut row = Vec::new(alloc);
    text.push(b'[')?;
    for line in region.top..region.bottom {
        append_comma(region.top < line, text)?;
        gather_row(page, region, line, &mut row)?;
        append_hexadecimal(&row, text)?;
    }
    text.push(b']')?;
    Ok(())
}

/// Appends the rows of a region of a page. Those of a page that lies upright are read; short ones of another are gathered, and long ones are
/// read of the page that is turned.
pub(crate) fn append_rows(
    alloc: Global,
    page: &Canvas,
    region: Region,
    text: &mut Vec<u8>,
) -> Result<(), AllocError>
    requires { LiesOn page.now region }
    ensures { OnOk result (text.new.items
        ≡ text.old.items ++ compact_text (array (items_of (rows_of page.now region)))) }
{
    let _extent = page.extent();
    if let Some(bitmap) = page.upright() {
        return append_read(bitmap, region, text);
    }
    if region.right - region.left <= MOST_GATHERED {
        return append_gathered(alloc, page, region, text);
    }
    append_read(&page.page(alloc)?, region, text)
}
