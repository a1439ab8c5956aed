//! Rows of bytes that are compared.
#![tactic(auto)]

ghost use Rattle.std.specs.Prelude.{◌≡◌, ◌≢◌, ℕ, ◌<◌, ◌≤◌, length, slice_index, MatchOption};
ghost use Rattle.press_bits.specs.Mark.{row_dot};
ghost use Rattle.press_bits.specs.Changes.{IsSpan};

/// Bytes of a row, from `left` on and before `right`.
#[derive(Clone, Copy, Debug)]
pub(crate) struct Span {
    pub left: usize,
    pub right: usize,
}

impl Span {
    ghost use Rattle.std.specs.Prelude.{max, min};

    /// With the bytes from `left` on and before `right` too.
    pub(crate) fn with(self, left: usize, right: usize) -> Span
        ensures left { result.left ≡ min self.left left }
        ensures right { result.right ≡ max self.right right }
    {
        Span {
            left: self.left.min(left),
            right: self.right.max(right),
        }
    }
}

/// How many bytes are the same, from the first on.
fn same_before(before: &[u8], after: &[u8]) -> usize
    requires { length after.now ≡ length before.now }
    ensures within { result ≤ length before.now }
    ensures same { (k : ℕ) → k < result → slice_index after.now k ≡ slice_index before.now k }
    ensures other { result < length before.now
        → slice_index after.now result ≢ slice_index before.now result }
{
    for index in 0..before.len() {
        if after[index] != before[index] {
            return index;
        }
    }
    before.len()
}

/// From where on all bytes are the same, behind a byte.
fn same_from(before: &[u8], after: &[u8], byte: usize) -> usize
    requires long { length after.now ≡ length before.now }
    requires within { byte < length before.now }
    ensures behind { byte < result }
    ensures within { result ≤ length before.now }
    ensures same { (k : ℕ) → result ≤ k → k < length before.now
        → slice_index after.now k ≡ slice_index before.now k }
{
    let mut end = byte + 1;
    for index in byte + 1..before.len() {
        if after[index] != before[index] {
            end = index + 1;
        }
    }
    end
}

/// The bytes from the first to the last that differ; none where the rows are the same.
pub(crate) fn differing(before: &[u8], after: &[u8]) -> Option<Span>
    requires { length after.now ≡ length before.now }
    ensures { MatchOption result ((i : ℕ) → row_dot after.now i ≡ row_dot before.now i)
        (λ span. IsSpan before.now after.now span) }
{
    if before == after {
        return None;
    }
    let left = same_before(before, after);
    let right = same_from(before, after, left);
    Some(Span { left, right })
}
