//! Bands of a page: sixty-four lines, or none.
#![tactic(auto)]

ghost use Rattle.std.specs.Prelude.{◌≡◌, ◌<◌, ◌≤◌, ◌+◌, ◌-◌, ◌*◌, ◌^◌, ℕ, [], false, nat_lt, length, replicate, IfOk, IsTrue};
ghost use Rattle.press_bits.specs.Mark.{row_dot};
ghost use Rattle.press_bits.specs.Bands.{HasDotsIn};
ghost use Rattle.press_bits.specs.Ranges.{IsBlackened, IsPaintedAlong};

use crate::comparing::Span;
use crate::painting::{blacken, paint_across};
use crate::stroke::Stroke;
use std::alloc::{AllocError, Global};
use std::marker::Model;

/// Bytes without a black dot.
///
/// # Errors
///
/// Where memory ran out.
pub fn white_bytes(alloc: Global, count: usize) -> Result<Vec<u8>, AllocError>
    ensures { IfOk result (λ v. v.items ≡ replicate count 0) }
{
    vec![in alloc; 0u8; count]
}

/// Whitens bytes whose black dots all stand in these.
fn whiten(bytes: &mut [u8], marked: Span)
    requires { HasDotsIn marked bytes.old }
    ensures { bytes.new ≡ replicate (length bytes.old) 0 }
{
    if marked.left < marked.right {
        bytes[marked.left..marked.right].fill(0);
    }
}

/// Sixty-four lines of a page, or none where the band is not there.
#[derive(Drop)]
pub(crate) struct Band {
    bytes: Vec<u8>,
    /// The bytes among which all black dots stand.
    marked: Span,
}

impl Model for Band {
    ghost use Rattle.std.specs.Prelude.{ℕ, List};
    ghost use Rattle.press_bits.specs.Bands.{HasDotsIn};

    ghost Value = { List ℕ };

    ghost view = { λ band. band.bytes.items };

    ghost invariant = { λ band. HasDotsIn band.marked band.bytes.items };
}

impl Band {
    pub(crate) fn missing(alloc: Global) -> Self
        ensures { result ≡ [] }
    {
        Band {
            bytes: Vec::new(alloc),
            marked: Span { left: 0, right: 0 },
        }
    }

    pub(crate) fn white(alloc: Global, count: usize) -> Result<Self, AllocError>
        ensures { IfOk result (λ band. band ≡ replicate count 0) }
    {
        Ok(Band {
            bytes: white_bytes(alloc, count)?,
            marked: Span {
                left: count,
                right: 0,
            },
        })
    }

    /// A white band of so many bytes, in the memory of this one where it has as many.
    pub(crate) fn whitened(self, count: usize) -> Result<Self, AllocError>
        ensures { IfOk result (λ band. band ≡ replicate count 0) }
    {
        let Band { mut bytes, marked } = self;
        if bytes.len() != count {
            return Band::white(*bytes.allocator(), count);
        }
        whiten(&mut bytes, marked);
        let marked = Span {
            left: count,
            right: 0,
        };
        Ok(Band { bytes, marked })
    }

    /// An equal band.
    pub(crate) fn copy(&self) -> Result<Self, AllocError>
        ensures { IfOk result (λ band. band ≡ self.now) }
    {
        Ok(Band {
            bytes: self.bytes.clone()?,
            marked: self.marked,
        })
    }

    pub(crate) fn is_there(&self) -> bool
        ensures { result ≡ nat_lt 0 (length self.now) }
    {
        !self.bytes.is_empty()
    }

    pub(crate) fn bytes(&self) -> &[u8]
        ensures { result.now ≡ self.now }
    {
        &self.bytes
    }

    /// Whether no dot was painted into the bytes from `first` on and before `end`: they are white.
    pub(crate) fn is_unmarked(&self, first: usize, end: usize) -> bool
        ensures { IsTrue result → (p : ℕ) → 8 * first ≤ p → p < 8 * end
            → row_dot self.now p ≡ false }
    {
        end <= self.marked.left || self.marked.right <= first
    }

    /// Paints a run of source dots, through a pattern, into the line that begins at a byte.
    #[inline(always)]
    pub(crate) fn paint(&mut self, line: usize, stroke: &Stroke<'_, '_>)
        requires within { 8 * line + stroke.now.run.first + stroke.now.run.count
            ≤ 8 * length self.old }
        requires long { 8 ≤ length self.old }
        requires small { length self.old < 2 ^ 40 }
        requires enough { stroke.now.run.skip + stroke.now.run.count ≤ stroke.now.source.dots }
        ensures long { length self.new ≡ length self.old }
        ensures dots { IsPaintedAlong self.old self.new line stroke.now }
    {
        let first = line + stroke.run.first / 8;
        let end = line + (stroke.run.first + stroke.run.count).div_ceil(8);
        self.marked = self.marked.with(first, end);
        paint_across(&mut self.bytes, line, stroke);
    }

    /// Blackens so many dots, from one on.
    pub(crate) fn blacken(&mut self, first: usize, dots: usize)
        requires within { first + dots ≤ 8 * length self.old }
        requires long { 8 ≤ length self.old }
        requires small { length self.old < 2 ^ 40 }
        ensures long { length self.new ≡ length self.old }
        ensures dots { IsBlackened self.old self.new first (first + dots) }
    {
        self.marked = self.marked.with(first / 8, (first + dots).div_ceil(8));
        blacken(&mut self.bytes, first, first + dots);
    }
}
