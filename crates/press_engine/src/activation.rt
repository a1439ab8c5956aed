//! A body that runs, as a value (PCL 5 Printer Language Technical Reference Manual, Macros).

use press_cmd::Body;
use press_cursor::CursorPosition;
use press_table::{BodyEnd, EjectCause, SavedEnvironment};
use std::alloc::AllocError;

/// What comes when a running body is used up.
#[derive(Clone, Copy)]
pub enum ActivationEnd {
    /// The body of a macro ends.
    Macro(BodyEnd),
    /// An overlay ends: what was kept at its start is restored, the cursor is put back, and the page closes.
    Close {
        cause: EjectCause,
        kept: SavedEnvironment,
        position: CursorPosition,
    },
}

/// A body that runs: a macro's, or an overlay's.
#[derive(Drop)]
pub struct Activation {
    /// What is left of it.
    pub body: Body,
    /// Whether it is an overlay, or runs in one.
    pub in_overlay: bool,
    /// How many macros may start in it, one in the other.
    pub macro_levels: u8,
    /// How many bodies run outside it.
    pub depth: u8,
    pub end: ActivationEnd,
}

impl Clone for Activation {
    ghost use Rattle.std.specs.Prelude.{◌≡◌};

    ghost is_clone = { λ activation copy. copy ≡ activation };

    fn clone(&self) -> Result<Self, AllocError> {
        Ok(Activation {
            body: self.body.copy()?,
            in_overlay: self.in_overlay,
            macro_levels: self.macro_levels,
            depth: self.depth,
            end: self.end,
        })
    }
}
