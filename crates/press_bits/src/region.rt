//! Regions of pages.
#![tactic(auto)]

ghost use Rattle.std.specs.Prelude.{◌≡◌, ◌+◌, ◌-◌, ◌≤◌, ◌<◌, min};

/// Lines of a page, from `top` on and before `bottom`, and of each the bytes from `left` on and before `right`.
#[derive(Clone, Copy, Debug, PartialEq, Eq)]
pub struct Region {
    pub top: u32,
    pub bottom: u32,
    pub left: usize,
    pub right: usize,
}

/// How much of a length that begins at a place lies before an edge.
pub fn cut_length(from: u32, length: usize, edge: u32) -> u32
    ensures cut { result ≡ min length (edge - from) }
    ensures within { result ≤ length }
    ensures before { 0 < result → from + result ≤ edge }
    ensures most { result ≤ edge }
    ensures same_end { min (from + length) edge ≡ min (from + result) edge }
{
    length.min(edge.saturating_sub(from) as usize) as u32
}
