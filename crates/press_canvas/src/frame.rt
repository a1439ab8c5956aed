//! Frames of pages.

ghost use Rattle.std.specs.Prelude.{◌≡◌, ◌≢◌, ◌<◌, ◌≤◌, ◌*◌, true, IfOk, IsErr, MatchOption, OnErr, OnOk};
ghost use Rattle.press_bits.specs.Page.{HasNoDotOutside, black_at, is_page_size};
ghost use Rattle.press_bits.specs.Lines.{eight_from};
ghost use Rattle.press_bits.specs.Patches.{ChangedIn};
ghost use Rattle.press_page.specs.Place.{placed_dot};
ghost use Rattle.press_page.specs.declared.media.Orientation.TheVariants.{Portrait};
ghost use Rattle.press_canvas.specs.Changes.{AgreeBesideLines};
ghost use Rattle.press_canvas.specs.Turned.{extent, frame_page, opposite};

use crate::changes::{changed_dots, on_page, region_of};
use crate::turning::{turned, turned_size};
use press_bits::{Bitmap, MAX_SIDE, Region};
use press_page::{Extent, Orientation};
use std::alloc::{AllocError, Global};

/// The frame of a page: its dots in the order in which marks are painted, and the orientation that turns it into the page.
#[derive(Drop)]
pub struct Frame {
    pub bitmap: Bitmap,
    pub orientation: Orientation,
}

/// The orientation that turns a page back.
fn opposite(orientation: Orientation) -> Orientation
    ensures { result ≡ opposite orientation }
{
    match orientation {
        Orientation::Portrait => Orientation::Portrait,
        Orientation::Landscape => Orientation::ReverseLandscape,
        Orientation::ReversePortrait => Orientation::ReversePortrait,
        Orientation::ReverseLandscape => Orientation::Landscape,
    }
}

/// The dot of a frame that lies at a column and a line of its page, which has so many dots: its column and its line.
fn placed_dot(orientation: Orientation, page: Extent, x: u32, y: u32) -> (u32, u32)
    requires column { x < page.width }
    requires line { y < page.height }
    ensures { result ≡ placed_dot orientation page.width page.height x y }
{
    match orientation {
        Orientation::Portrait => (x, y),
        Orientation::Landscape => (page.height - 1 - y, x),
        Orientation::ReversePortrait => (page.width - 1 - x, page.height - 1 - y),
        Orientation::ReverseLandscape => (y, page.width - 1 - x),
    }
}

impl Frame {
    /// Lays the frame as an orientation has it. The page is the same.
    ///
    /// # Errors
    ///
    /// Where memory ran out.
    pub fn lie_as(&mut self, alloc: Global, orientation: Orientation) -> Result<(), AllocError>
        ensures same { frame_page self.new ≡ frame_page self.old }
        ensures lies { OnOk result (self.new.orientation ≡ orientation) }
    {
        if self.orientation == orientation {
            return Ok(());
        }
        let page = turned(&self.bitmap, alloc, self.orientation, None)?;
        let _width = page.width();
        self.bitmap = turned(&page, alloc, opposite(orientation), None)?;
        self.orientation = orientation;
        Ok(())
    }

    /// The page of the frame, and the memory of the frame, where the page did not take it. The page may take that of a page that is
    /// no longer needed.
    ///
    /// # Errors
    ///
    /// Where memory ran out; where the frame is the page, none is taken.
    pub(crate) fn turned(
        self,
        alloc: Global,
        spare: Option<Bitmap>,
    ) -> Result<(Bitmap, Option<Bitmap>), AllocError>
        ensures page { IfOk result (λ pages. pages.0 ≡ frame_page self) }
        ensures memory { IsErr result → self.orientation ≢ Portrait }
    {
        let _width = self.bitmap.width();
        if let Orientation::Portrait = self.orientation {
            return Ok((self.bitmap, spare));
        }
        let page = turned(&self.bitmap, alloc, self.orientation, spare)?;
        Ok((page, Some(self.bitmap)))
    }

    /// How many dots the page of the frame has.
    pub(crate) fn page_extent(&self) -> Extent
        ensures extent { result ≡ extent (frame_page self.now) }
        ensures fits { is_page_size result.width result.height ≡ true }
        ensures inside { HasNoDotOutside (frame_page self.now) }
        ensures frame { HasNoDotOutside self.now.bitmap }
    {
        let (width, height) = (self.bitmap.width(), self.bitmap.height());
        turned_size(self.orientation, Extent { width, height })
    }

    /// Whether the dot at column `x` of line `y` of its page is black; `false` outside the page.
    pub(crate) fn get(&self, x: u32, y: u32) -> bool
        ensures { result ≡ black_at (frame_page self.now) x y }
    {
        let page = self.page_extent();
        if x >= page.width || y >= page.height {
            return false;
        }
        let (column, line) = placed_dot(self.orientation, page, x, y);
        self.bitmap.get(column, line)
    }

    /// Eight dots of a line of its page from dot `x` on, asked one by one.
    fn dots_asked(&self, x: u32, y: u32) -> [bool; 8]
        requires { x ≤ MAX_SIDE }
        ensures { result ≡ eight_from (λ n. black_at (frame_page self.now) n y) x }
    {
        [
            self.get(x, y),
            self.get(x + 1, y),
            self.get(x + 2, y),
            self.get(x + 3, y),
            self.get(x + 4, y),
            self.get(x + 5, y),
            self.get(x + 6, y),
            self.get(x + 7, y),
        ]
    }

    /// Whether each of eight dots of a line of its page is black, from dot `8 * index` on; `false` outside the page.
    pub(crate) fn dots(&self, index: u32, y: u32) -> [bool; 8]
        ensures { result ≡ eight_from (λ n. black_at (frame_page self.now) n y) (8 * index) }
    {
        let page = self.page_extent();
        if index >= page.width.div_ceil(8) || y >= page.height {
            return [false; 8];
        }
        match self.orientation {
            Orientation::Landscape => self.bitmap.column(page.height - 1 - y, index),
            _ => self.dots_asked(8 * index, y),
        }
    }

    /// Takes over the lines of a region of another frame that lies so, outside of which they agree. The answer is the region of the pages in
    /// which they differed.
    ///
    /// # Errors
    ///
    /// Where memory ran out; the page is then as it was.
    fn take_lines(&mut self, after: &Frame, region: Region) -> Result<Region, AllocError>
        requires alike { after.now.orientation ≡ self.old.orientation }
        requires changed { ChangedIn self.old.bitmap after.now.bitmap region }
        ensures region { IfOk result (λ region.
            ChangedIn (frame_page self.old) (frame_page after.now) region) }
        ensures ok { OnOk result (frame_page self.new ≡ frame_page after.now) }
        ensures err { OnErr result (frame_page self.new ≡ frame_page self.old) }
    {
        let dots = changed_dots(&self.bitmap, &after.bitmap, region);
        let changed = on_page(self.orientation, self.page_extent(), dots);
        self.bitmap.take_lines(&after.bitmap, region)?;
        Ok(region_of(changed))
    }

    /// Becomes a frame of another page of this size. The answer is the region in which the pages differed; none exactly where they were equal.
    ///
    /// # Errors
    ///
    /// Where memory ran out; the page is then as it was.
    pub(crate) fn catch_up(
        &mut self,
        alloc: Global,
        after: &Frame,
    ) -> Result<Option<Region>, AllocError>
        requires { extent (frame_page after.now) ≡ extent (frame_page self.old) }
        ensures region { IfOk result (λ region.
            MatchOption region (frame_page self.old ≡ frame_page after.now)
            (λ region. ChangedIn (frame_page self.old) (frame_page after.now) region)) }
        ensures ok { OnOk result (frame_page self.new ≡ frame_page after.now) }
        ensures err { OnErr result (frame_page self.new ≡ frame_page self.old) }
    {
        self.lie_as(alloc, after.orientation)?;
        match self.bitmap.changed(&after.bitmap) {
            Some(region) => Ok(Some(self.take_lines(after, region)?)),
            None => Ok(None),
        }
    }

    /// The same, where the pages agree above line `first` of a frame that lies so, and from line `end` on: where both frames lie so, no other
    /// line is looked at.
    ///
    /// # Errors
    ///
    /// Where memory ran out; the page is then as it was.
    pub(crate) fn catch_up_between(
        &mut self,
        alloc: Global,
        after: &Frame,
        orientation: Orientation,
        first: u32,
        end: u32,
    ) -> Result<Option<Region>, AllocError>
        requires extent { extent (frame_page after.now) ≡ extent (frame_page self.old) }
        requires beside { AgreeBesideLines orientation first end
            (frame_page self.old) (frame_page after.now) }
        ensures region { IfOk result (λ region.
            MatchOption region (frame_page self.old ≡ frame_page after.now)
            (λ region. ChangedIn (frame_page self.old) (frame_page after.now) region)) }
        ensures ok { OnOk result (frame_page self.new ≡ frame_page after.now) }
        ensures err { OnErr result (frame_page self.new ≡ frame_page self.old) }
    {
        if self.orientation != orientation || after.orientation != orientation {
            return self.catch_up(alloc, after);
        }
        match self.bitmap.changed_between(&after.bitmap, first, end) {
            Some(region) => Ok(Some(self.take_lines(after, region)?)),
            None => Ok(None),
        }
    }
}
