//! The cursor and its moves (PCL 5 Printer Language Technical Reference Manual, cursor positioning).

ghost use Rattle.std.specs.Prelude.{◌≡◌, ◌<◌, ◌≤◌, ◌^◌, ℤ, pos, ◌+ℤ◌, unsigned_abs};
ghost use Rattle.press_cursor.specs.Cursor.{first_line, origin, first_line_y};

use crate::logical_page::{LogicalPage, nearest_x, nearest_y};
use crate::stack::{CursorPosition, PositionStack};
use press_units::Pos;
use std::alloc::AllocError;
use std::marker::Model;

/// Where the cursor is on the logical page, in positions (1/7200 inch), and the positions that were pushed.
#[derive(Debug, Drop)]
pub struct Cursor {
    /// The distance from the left edge of the logical page.
    x: u32,
    /// The distance below the top margin; above it, it is negative.
    y: i64,
    stack: PositionStack,
}

impl Model for Cursor {
    ghost use Rattle.std.specs.Prelude.{◌<◌, ◌^◌, unsigned_abs};
    ghost use Rattle.press_cursor.specs.CursorState.{CursorState};

    ghost Value = { CursorState };

    ghost view = { λ cursor. record { x = cursor.x; y = cursor.y; stack = cursor.stack } };

    ghost invariant = { λ cursor. unsigned_abs cursor.y < 2 ^ 33 };
}

impl Clone for Cursor {
    ghost is_clone = { λ cursor copy. copy ≡ cursor };

    ghost is_infallible = { λ _. Unit {0} };

    fn clone(&self) -> Result<Self, AllocError> {
        Ok(Cursor {
            x: self.x,
            y: self.y,
            stack: self.stack.clone()?,
        })
    }
}

/// The first line: three quarters of a line below the top margin.
fn first_line(vertical_motion: u16) -> i64
    ensures line { result ≡ first_line vertical_motion }
    ensures bound { unsigned_abs result < 2 ^ 33 }
{
    i64::from(3 * u32::from(vertical_motion) / 4)
}

/// The first line, within the logical page.
fn first_line_y(vertical_motion: u16, page: LogicalPage) -> i64
    ensures nearest { result ≡ first_line_y vertical_motion page }
    ensures bound { unsigned_abs result < 2 ^ 33 }
{
    nearest_y(first_line(vertical_motion), page)
}

/// Where a move begins: where the cursor is, if it is relative, else at the given place.
fn origin(relative: bool, at: i64, absolute: i64) -> i64
    requires here { unsigned_abs at < 2 ^ 33 }
    requires there { unsigned_abs absolute < 2 ^ 33 }
    ensures origin { result ≡ origin relative at absolute }
    ensures bound { unsigned_abs result < 2 ^ 33 }
{
    if relative { at } else { absolute }
}

/// Where a move leads.
fn destination(origin: i64, distance: Pos) -> i64
    requires here { unsigned_abs origin < 2 ^ 33 }
    requires near { unsigned_abs distance.0 < 2 ^ 32 }
    ensures { result ≡ origin +ℤ distance.0 }
{
    origin + distance.0
}

impl Cursor {
    ghost use Rattle.std.specs.Prelude.{◌≡◌, ◌<◌, ◌≤◌, ◌^◌, pos, true, length, is_some, unsigned_abs};
    ghost use Rattle.press_cursor.specs.Cursor.{position, at, home, moved_home, moved_x, moved_y, moved_rows};
    ghost use Rattle.press_cursor.specs.Cursor.{moved_to_first_line, clamped, pushed, popped, is_left_of, is_right_of, at_least};
    ghost use Rattle.press_cursor.specs.Cursor.{at_most};
    ghost use Rattle.press_cursor.specs.Stack.{most_pushed, has_room, newest};

    /// The cursor at home, with nothing pushed: on the left margin, three quarters of a line below the top margin.
    pub fn at_home(left_margin: u32, vertical_motion: u16, page: LogicalPage) -> Self
        ensures { result ≡ home left_margin vertical_motion page }
    {
        Cursor {
            x: nearest_x(i64::from(left_margin), page),
            y: first_line_y(vertical_motion, page),
            stack: PositionStack::new(),
        }
    }

    /// The distance from the left edge of the logical page.
    pub fn x(&self) -> u32
        ensures { result ≡ self.now.x }
    {
        self.x
    }

    /// The distance below the top margin; above it, it is negative.
    pub fn y(&self) -> i64
        ensures y { result ≡ self.now.y }
        ensures bound { unsigned_abs result < 2 ^ 33 }
    {
        self.y
    }

    /// Where the cursor is.
    pub fn position(&self) -> CursorPosition
        ensures position { result ≡ position self.now }
        ensures bound { unsigned_abs result.y < 2 ^ 33 }
    {
        CursorPosition {
            x: self.x,
            y: self.y,
        }
    }

    /// The positions that were pushed, the newest last: at most 20.
    pub fn stack(&self) -> &[CursorPosition]
        ensures stack { result.now ≡ self.now.stack }
        ensures bound { length result.now ≤ most_pushed }
    {
        self.stack.as_slice()
    }

    /// Moves along the line: from where the cursor is, if the move is relative, else from the left edge of the logical
    /// page.
    pub fn move_x(&mut self, distance: Pos, relative: bool, page: LogicalPage)
        requires { unsigned_abs distance.0 < 2 ^ 32 }
        ensures { self.new ≡ moved_x distance.0 relative page self.old }
    {
        let origin = origin(relative, i64::from(self.x), 0);
        self.x = nearest_x(destination(origin, distance), page);
    }

    /// Moves down or up: from where the cursor is, if the move is relative, else from the top margin.
    pub fn move_y(&mut self, distance: Pos, relative: bool, page: LogicalPage)
        requires { unsigned_abs distance.0 < 2 ^ 32 }
        ensures { self.new ≡ moved_y distance.0 relative page self.old }
    {
        let origin = origin(relative, self.y, 0);
        self.y = nearest_y(destination(origin, distance), page);
    }

    /// Moves down or up by rows: from where the cursor is, if the move is relative, else from the first line.
    pub fn move_rows(
        &mut self,
        distance: Pos,
        relative: bool,
        vertical_motion: u16,
        page: LogicalPage,
    )
        requires { unsigned_abs distance.0 < 2 ^ 32 }
        ensures { self.new ≡ moved_rows distance.0 relative vertical_motion page self.old }
    {
        let origin = origin(relative, self.y, first_line(vertical_motion));
        self.y = nearest_y(destination(origin, distance), page);
    }

    /// Moves down by a part of a line or a whole one.
    pub fn move_down(&mut self, distance: u16, page: LogicalPage)
        ensures { self.new ≡ moved_y (pos distance) true page self.old }
    {
        self.move_y(Pos(i64::from(distance)), true, page);
    }

    /// Moves to the first line; x stays.
    pub fn move_to_first_line(&mut self, vertical_motion: u16, page: LogicalPage)
        ensures { self.new ≡ moved_to_first_line vertical_motion page self.old }
    {
        self.y = first_line_y(vertical_motion, page);
    }

    /// Moves home; what was pushed stays pushed.
    pub fn move_home(&mut self, left_margin: u32, vertical_motion: u16, page: LogicalPage)
        ensures { self.new ≡ moved_home left_margin vertical_motion page self.old }
    {
        self.x = nearest_x(i64::from(left_margin), page);
        self.move_to_first_line(vertical_motion, page);
    }

    /// Goes home, as [`Cursor::at_home`] has it, and drops what was pushed.
    pub fn go_home(&mut self, left_margin: u32, vertical_motion: u16, page: LogicalPage)
        ensures { self.new ≡ home left_margin vertical_motion page }
    {
        self.move_home(left_margin, vertical_motion, page);
        self.stack.clear();
    }

    /// Moves to a position, or to the nearest one within the logical page.
    pub fn move_to(&mut self, position: CursorPosition, page: LogicalPage)
        ensures { self.new ≡ at position page self.old }
    {
        self.x = nearest_x(i64::from(position.x), page);
        self.y = nearest_y(position.y, page);
    }

    /// Moves to the nearest position within the logical page.
    pub fn clamp(&mut self, page: LogicalPage)
        ensures { self.new ≡ clamped page self.old }
    {
        self.move_to(self.position(), page);
    }

    /// Moves right to a margin, if the cursor is left of it; answers whether it moved.
    pub fn at_least_x(&mut self, margin: u32) -> bool
        ensures cursor { self.new ≡ at_least margin self.old }
        ensures moved { result ≡ is_left_of margin self.old }
    {
        let moves = self.x < margin;
        self.x = self.x.max(margin);
        moves
    }

    /// Moves left to a margin, if the cursor is right of it; answers whether it moved.
    pub fn at_most_x(&mut self, margin: u32) -> bool
        ensures cursor { self.new ≡ at_most margin self.old }
        ensures moved { result ≡ is_right_of margin self.old }
    {
        let moves = margin < self.x;
        self.x = self.x.min(margin);
        moves
    }

    /// Pushes the position, where fewer than 20 are pushed; answers whether it did.
    pub fn push(&mut self) -> bool
        ensures cursor { self.new ≡ pushed self.old }
        ensures done { result ≡ has_room self.old.stack }
    {
        let position = self.position();
        self.stack.push(position)
    }

    /// Pops the position that was pushed last, where there is one, and moves to it, or to the nearest one within the
    /// logical page; answers whether there was one.
    pub fn pop(&mut self, page: LogicalPage) -> bool
        ensures cursor { self.new ≡ popped page self.old }
        ensures done { result ≡ is_some (newest self.old.stack) }
    {
        match self.stack.pop() {
            Some(position) => {
                self.move_to(position, page);
                true
            }
            None => false,
        }
    }
}
