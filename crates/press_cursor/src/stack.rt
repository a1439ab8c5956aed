//! The positions that were pushed (PCL 5 Printer Language Technical Reference Manual, Push/Pop Cursor Position
//! command).

ghost use Rattle.std.specs.Prelude.{◌≡◌, ◌≤◌, ◌-◌, List, [], length, take};
ghost use Rattle.press_cursor.specs.Stack.{most_pushed, has_room, with_pushed, newest};

use std::alloc::AllocError;
use std::marker::Model;

/// How many positions the stack of the cursor holds.
pub const STACK_DEPTH: usize = 20;

/// A position of the cursor, in positions (1/7200 inch).
#[derive(Clone, Copy, Debug, PartialEq, Eq)]
pub struct CursorPosition {
    /// The distance from the left edge of the logical page.
    pub x: u32,
    /// The distance below the top margin; above it, it is negative.
    pub y: i64,
}

/// The positions that were pushed and not yet popped, at most 20.
#[derive(Debug, Drop)]
pub(crate) struct PositionStack {
    positions: [CursorPosition; STACK_DEPTH],
    depth: usize,
}

// Clauses see the positions, the newest last.
impl Model for PositionStack {
    ghost use Rattle.std.specs.Prelude.{List, take, ◌≤◌};
    ghost use Rattle.press_cursor.specs.declared.stack.CursorPosition.{CursorPosition};

    ghost Value = { List CursorPosition };

    ghost view = { λ stack. take stack.depth stack.positions };

    ghost invariant = { λ stack. stack.depth ≤ 20 };
}

impl Clone for PositionStack {
    ghost is_clone = { λ stack copy. copy ≡ stack };

    ghost is_infallible = { λ _. Unit {0} };

    fn clone(&self) -> Result<Self, AllocError> {
        Ok(PositionStack {
            positions: self.positions,
            depth: self.depth,
        })
    }
}

impl PositionStack {
    /// The empty stack.
    pub fn new() -> Self
        ensures { result ≡ [] }
    {
        PositionStack {
            positions: [CursorPosition { x: 0, y: 0 }; STACK_DEPTH],
            depth: 0,
        }
    }

    /// Drops all positions.
    pub fn clear(&mut self)
        ensures { self.new ≡ [] }
    {
        self.depth = 0;
    }

    /// The positions, the newest last.
    pub fn as_slice(&self) -> &[CursorPosition]
        ensures positions { result.now ≡ self.now }
        ensures bound { length result.now ≤ most_pushed }
    {
        &self.positions[..self.depth]
    }

    /// Pushes a position where the stack has room; answers whether it had.
    pub fn push(&mut self, position: CursorPosition) -> bool
        ensures stack { self.new ≡ with_pushed position self.old }
        ensures room { result ≡ has_room self.old }
    {
        if self.depth == STACK_DEPTH {
            return false;
        }
        self.positions[self.depth] = position;
        self.depth += 1;
        true
    }

    /// Pops the newest position, where there is one.
    pub fn pop(&mut self) -> Option<CursorPosition>
        ensures newest { result ≡ newest self.old }
        ensures rest { self.new ≡ take (length self.old - 1) self.old }
    {
        if self.depth == 0 {
            return None;
        }
        self.depth -= 1;
        Some(self.positions[self.depth])
    }
}
