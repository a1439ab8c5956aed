//! A rectangle of the frame (PCL 5 Printer Language Technical Reference Manual, Rectangular Area Fill Graphics).

/// A rectangle, in dots of the frame.
#[derive(Clone, Copy, Debug, PartialEq, Eq)]
pub struct Rect {
    /// How many dots right of the left edge it begins.
    pub x: u32,
    /// How many dots below the upper edge it begins.
    pub y: u32,
    pub width: u32,
    pub height: u32,
}
