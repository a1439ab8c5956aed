//! Patterns by kind and ID (PCL 5 Printer Language Technical Reference Manual, Select Current Pattern command).

/// The kinds of patterns.
///
/// Source: PCL 5 Printer Language Technical Reference Manual, The PCL Print Model, the Select Current
/// Pattern command.
#[derive(Clone, Copy, Debug, PartialEq, Eq)]
pub enum PatternKind {
    /// Solid black, whatever the ID.
    Black,
    /// Solid white, whatever the ID.
    White,
    /// HP-defined shading; the ID is its per cent, 1 to 100.
    Shading,
    /// HP-defined cross-hatch; the ID is its number, 1 to 6.
    CrossHatch,
    /// User-defined, under its ID.
    User,
}

/// A pattern: its kind and its ID.
#[derive(Clone, Copy, Debug, PartialEq, Eq)]
pub struct Pattern {
    pub kind: PatternKind,
    pub id: u16,
}
