//! Adaptive data: blocks of rows (PCL 5 Printer Language Technical Reference Manual, Raster Graphics, Set Compression Method
//! command, method 5).

ghost use Rattle.std.specs.Prelude.{◌≡◌, ◌≤◌, ◌++◌, [], None, Some, IfSome, drop, length, option_map, slice_get};
ghost use Rattle.press_rows.specs.Blocks.{and_then_items, block, block_len, from_row, is_row, items, items_of_run};
ghost use Rattle.press_rows.specs.Blocks.{row_in, rows_of_no_data, run_items, seed_at_row};
ghost use Rattle.press_rows.specs.BlocksInside.{item_of};
ghost use Rattle.press_rows.specs.Methods.{method_at, methods};

use crate::compression::Method;
use crate::decoder::decode;
use std::marker::Model;

/// What stands at the front of adaptive data: rows of the same data, one after another; or, in place of a row, that the seed
/// row becomes white.
#[derive(Clone, Copy, Debug)]
pub enum Run<'a> {
    /// The seed row becomes white.
    WhiteSeed,
    /// So many rows by a method with the same data, at least one.
    Rows {
        method: Method,
        data: &'a [u8],
        count: usize,
    },
}

/// Adaptive data, block by block. Contracts see the items that are left: rows, each by one of the four methods with its data,
/// and white seed rows.
///
/// Source: PCL 5 Printer Language Technical Reference Manual, Raster Graphics, Set Compression Method command.
#[derive(Drop)]
pub struct Blocks<'a> {
    /// The method of the rows of no data that are left of a block, and how many these are.
    method: Method,
    rows: usize,
    /// The data behind that.
    rest: &'a [u8],
}

impl<'a> Model for Blocks<'a> {
    ghost use Rattle.std.specs.Prelude.{List, ◌++◌, Some, [], replicate};
    ghost use Rattle.press_rows.specs.Blocks.{Item, items};

    ghost Value = { List Item };

    ghost view = { λ b. replicate b.rows (Some (b.method, [])) ++ items 0 b.rest.now };
}

/// The method of a block's command byte, 0 to 3.
fn method_of_command(command: u8) -> Option<Method>
    ensures { result ≡ method_at command methods }
{
    Method::of_number(i64::from(command))
}

impl<'a> Blocks<'a> {
    /// The blocks of this data.
    pub fn new(data: &'a [u8]) -> Self
        ensures { result ≡ items 0 «data».now }
    {
        Blocks {
            method: Method::Unencoded,
            rows: 0,
            rest: data,
        }
    }

    /// A block of so many rows of no data, or a white seed row where none is asked for: its first item.
    fn begin_rows(
        &mut self,
        method: Method,
        count: usize,
        rest: &'a [u8],
    ) -> Option<(Method, &'a [u8])>
        ensures given { Some (item_of result)
            ≡ slice_get (rows_of_no_data method count ++ items 0 rest.now) 0 }
        ensures left { self.new ≡ drop 1 (rows_of_no_data method count ++ items 0 rest.now) }
    {
        self.method = method;
        self.rows = count.saturating_sub(1);
        self.rest = rest;
        if count == 0 {
            None
        } else {
            Some((method, &[]))
        }
    }

    /// The first item of a block with a whole header.
    fn begin_block(
        &mut self,
        method: Option<Method>,
        command: u8,
        count: usize,
        bytes: &'a [u8],
    ) -> Option<Option<(Method, &'a [u8])>>
        requires { self.old ≡ and_then_items (block method command count bytes.now)
            (items (block_len method count) bytes.now) }
        ensures given { option_map item_of result ≡ slice_get self.old 0 }
        ensures left { self.new ≡ drop 1 self.old }
    {
        if let Some(method) = method {
            let end = count.min(bytes.len());
            self.rows = 0;
            self.rest = &bytes[end..];
            return Some(Some((method, &bytes[..end])));
        }
        if command == 4 {
            return Some(self.begin_rows(Method::Unencoded, count, bytes));
        }
        if command == 5 {
            return Some(self.begin_rows(Method::DeltaRow, count, bytes));
        }
        self.rows = 0;
        self.rest = &[];
        None
    }

    /// The first item of what is left.
    fn next(&mut self) -> Option<Option<(Method, &'a [u8])>>
        ensures given { option_map item_of result ≡ slice_get self.old 0 }
        ensures left { self.new ≡ drop 1 self.old }
    {
        if self.rows > 0 {
            self.rows -= 1;
            return Some(Some((self.method, &[])));
        }
        let [command, high, low, bytes @ ..] = self.rest else {
            return None;
        };
        let count = 256 * usize::from(*high) + usize::from(*low);
        self.begin_block(method_of_command(*command), *command, count, bytes)
    }

    /// Takes rows that stand at the front with the same data: those that are left of a block, or one; or a white seed row.
    /// `None` at the end of the data.
    ///
    /// Source: PCL 5 Printer Language Technical Reference Manual, Raster Graphics, Set Compression Method command.
    pub fn next_run(&mut self) -> Option<Run<'a>>
        ensures prefix { self.old ≡ items_of_run result ++ self.new }
        ensures some { IfSome result (λ run. 1 ≤ length (run_items run)) }
        ensures end { result ≡ None → self.old ≡ [] }
    {
        if self.rows > 0 {
            let count = self.rows;
            self.rows = 0;
            return Some(Run::Rows {
                method: self.method,
                data: &[],
                count,
            });
        }
        match self.next()? {
            None => Some(Run::WhiteSeed),
            Some((method, data)) => Some(Run::Rows {
                method,
                data,
                count: 1,
            }),
        }
    }

    /// Decodes the next row into a row as wide as `out`, after the seed row, and says whether there is one. A block that asks
    /// for no empty row, or no repeated one, makes the seed row white, also where no row follows.
    ///
    /// Source: PCL 5 Printer Language Technical Reference Manual, Raster Graphics, Set Compression Method command; what cut
    /// blocks and counts of 0 stand for is this profile's.
    pub fn next_row(&mut self, seed: &mut [u8], out: &mut [u8]) -> bool
        requires { length seed.old ≡ length out.old }
        ensures row { result ≡ is_row (from_row self.old) }
        ensures left { self.new ≡ drop 1 (from_row self.old) }
        ensures seed { seed.new ≡ seed_at_row self.old seed.old }
        ensures out { out.new ≡ row_in (from_row self.old) seed.new out.old }
    {
        while let Some(item) = self.next() {
            match item {
                None => seed.fill(0),
                Some((method, data)) => {
                    decode(method, data, seed, out);
                    return true;
                }
            }
        }
        false
    }
}
