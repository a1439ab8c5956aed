//! The page that marks are made on.

ghost use Rattle.std.specs.Prelude.{◌≡◌, ◌*◌, true, IfOk, IfSome, MatchOption, OnErr, OnOk};
ghost use Rattle.std.specs.Borrow.{Lends, sem};
ghost use Rattle.press_bits.specs.Page.{HasNoDotOutside, black_at, blank, is_page_size};
ghost use Rattle.press_bits.specs.Lines.{eight_from};
ghost use Rattle.press_bits.specs.Patches.{ChangedIn};
ghost use Rattle.press_canvas.specs.Changes.{AgreeBesideLines};
ghost use Rattle.press_canvas.specs.Turned.{extent, frame_page};
ghost use Rattle.press_canvas.specs.contracts.canvas.Canvas.{the_row};
ghost use Rattle.press_canvas.specs.contracts.frame.Frame.{the_row as frame_row};

use crate::frame::Frame;
use crate::turning::{turned, turned_size, white};
use press_bits::{Bitmap, Region};
use press_page::{Extent, Orientation};
use std::alloc::{AllocError, Global};
use std::marker::Model;

/// A page that marks are made on. Contracts see the physical page; it is kept as its frame, and turned once.
#[derive(Drop)]
pub struct Canvas {
    frame: Frame,
}

impl Model for Canvas {
    ghost use Rattle.press_bits.specs.Page.{Page, page_code};
    ghost use Rattle.press_canvas.specs.Turned.{frame_page};

    ghost Value = { Page };

    ghost coded = { page_code };

    ghost view = { λ canvas. frame_page canvas.frame };
}

impl Canvas {
    /// A white page.
    ///
    /// # Errors
    ///
    /// Where memory ran out.
    pub fn blank(alloc: Global, orientation: Orientation, page: Extent) -> Result<Self, AllocError>
        requires { is_page_size page.width page.height ≡ true }
        ensures { IfOk result (λ canvas. canvas ≡ blank page.width page.height) }
    {
        let bitmap = white(alloc, turned_size(orientation, page))?;
        Ok(Canvas {
            frame: Frame {
                bitmap,
                orientation,
            },
        })
    }

    /// An equal page, in memory of its own.
    ///
    /// # Errors
    ///
    /// Where memory ran out.
    pub fn copy(&self) -> Result<Self, AllocError>
        ensures { IfOk result (λ canvas. canvas ≡ self.now) }
    {
        Ok(Canvas {
            frame: Frame {
                bitmap: self.frame.bitmap.copy()?,
                orientation: self.frame.orientation,
            },
        })
    }

    /// The page, where it is the physical one already.
    pub fn of_page(page: Bitmap) -> Self
        ensures { result ≡ page }
    {
        let _width = page.width();
        Canvas {
            frame: Frame {
                bitmap: page,
                orientation: Orientation::Portrait,
            },
        }
    }

    /// Takes the memory of another page, which is no longer needed, for lines that are marked from now on. No dot changes.
    pub fn reuse(&mut self, other: Bitmap)
        ensures { self.new ≡ self.old }
    {
        self.frame.bitmap.reuse(other);
    }

    /// The frame of the page, for one who paints marks on it.
    pub fn frame(&mut self) -> &mut Frame
        ensures* writes_back { sem 𝓛
            (Lends the_row frame_row self.entry result (λ frame. frame_page frame)) }
        ensures value { frame_page result.now ≡ self.old }
    {
        &mut self.frame
    }

    /// The dots of the page, where it lies upright, so that its frame is the page.
    pub fn upright(&self) -> Option<&Bitmap>
        ensures { IfSome result (λ page. page.now ≡ self.now) }
    {
        let _width = self.frame.bitmap.width();
        match self.frame.orientation {
            Orientation::Portrait => Some(&self.frame.bitmap),
            _ => None,
        }
    }

    /// How many dots the page has.
    pub fn extent(&self) -> Extent
        ensures extent { result ≡ extent self.now }
        ensures fits { is_page_size result.width result.height ≡ true }
        ensures inside { HasNoDotOutside self.now }
    {
        self.frame.page_extent()
    }

    /// A white page of this size, which lies as this one does.
    ///
    /// # Errors
    ///
    /// Where memory ran out.
    pub fn white(&self, alloc: Global) -> Result<Self, AllocError>
        ensures { IfOk result (λ canvas. canvas ≡ blank self.now.width self.now.height) }
    {
        Canvas::blank(alloc, self.frame.orientation, self.extent())
    }

    /// Whether the dot at column `x` of line `y` of the page is black; `false` outside the page.
    pub fn get(&self, x: u32, y: u32) -> bool
        ensures { result ≡ black_at self.now x y }
    {
        self.frame.get(x, y)
    }

    /// Whether each of eight dots of line `y` of the page is black, from dot `8 * index` on; `false` outside the page.
    pub fn dots(&self, index: u32, y: u32) -> [bool; 8]
        ensures { result ≡ eight_from (λ n. black_at self.now n y) (8 * index) }
    {
        self.frame.dots(index, y)
    }

    /// Becomes another page of this size. The answer is the region in which they differed: none exactly where they were equal. Pages that
    /// lie alike are compared as they lie.
    ///
    /// # Errors
    ///
    /// Where memory ran out; the page is then as it was.
    pub fn catch_up(&mut self, alloc: Global, after: &Canvas) -> Result<Option<Region>, AllocError>
        requires { extent after.now ≡ extent self.old }
        ensures region { IfOk result (λ region. MatchOption region (self.old ≡ after.now)
            (λ region. ChangedIn self.old after.now region)) }
        ensures ok { OnOk result (self.new ≡ after.now) }
        ensures err { OnErr result (self.new ≡ self.old) }
    {
        self.frame.catch_up(alloc, &after.frame)
    }

    /// The same, where the pages agree above line `first` of a frame that lies so, and from line `end` on. Of pages that are kept so no other
    /// line is looked at.
    ///
    /// # Errors
    ///
    /// Where memory ran out; the page is then as it was.
    pub fn catch_up_between(
        &mut self,
        alloc: Global,
        after: &Canvas,
        orientation: Orientation,
        first: u32,
        end: u32,
    ) -> Result<Option<Region>, AllocError>
        requires extent { extent after.now ≡ extent self.old }
        requires beside { AgreeBesideLines orientation first end self.old after.now }
        ensures region { IfOk result (λ region. MatchOption region (self.old ≡ after.now)
            (λ region. ChangedIn self.old after.now region)) }
        ensures ok { OnOk result (self.new ≡ after.now) }
        ensures err { OnErr result (self.new ≡ self.old) }
    {
        self.frame
            .catch_up_between(alloc, &after.frame, orientation, first, end)
    }

    /// The physical page, in memory of its own.
    ///
    /// # Errors
    ///
    /// Where memory ran out.
    pub fn page(&self, alloc: Global) -> Result<Bitmap, AllocError>
        ensures { IfOk result (λ page. page ≡ self.now) }
    {
        turned(&self.frame.bitmap, alloc, self.frame.orientation, None)
    }

    /// The physical page, and memory that it did not take, for another one. It may take that of a page that is no longer needed.
    ///
    /// # Errors
    ///
    /// Where memory ran out.
    pub fn turned(
        self,
        alloc: Global,
        spare: Option<Bitmap>,
    ) -> Result<(Bitmap, Option<Bitmap>), AllocError>
        ensures { IfOk result (λ pages. pages.0 ≡ self) }
    {
        self.frame.turned(alloc, spare)
    }
}
