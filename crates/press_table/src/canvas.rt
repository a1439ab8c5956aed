//! The page that marks are made on, with the front that waits (PCL 5 Printer Language Technical Reference Manual, The
//! PCL Print Model).

use press_bits::{Bitmap, Sheet};
use press_canvas::Canvas;
use press_page::PageSetup;
use std::alloc::{AllocError, Global};
use std::marker::Model;

/// The page that is being printed, from its first mark on, and memory that serves the pages that come: that of the sheet that went
/// out last, and that of a frame that was turned. Contracts see the page alone.
#[derive(Drop)]
pub struct Current {
    page: Option<Canvas>,
    spare: Option<Bitmap>,
    spare_back: Option<Bitmap>,
    spare_frame: Option<Bitmap>,
}

impl Model for Current {
    ghost use Rattle.std.specs.Prelude.{Option};
    ghost use Rattle.std.specs.Coded.{coded_option};
    ghost use Rattle.press_bits.specs.Page.{Page, page_code};

    ghost Value = { Option Page };

    ghost coded = { coded_option page_code };

    ghost view = { λ current. current.page };
}

impl Current {
    ghost use Rattle.std.specs.Prelude.{◌≡◌, None, Some, is_some, option_map, IfOk};
    ghost use Rattle.press_table.specs.Place.{blank_page};

    /// No page, and no memory.
    pub(crate) fn none() -> Self
        ensures { result ≡ None }
    {
        Current {
            page: None,
            spare: None,
            spare_back: None,
            spare_frame: None,
        }
    }

    /// An equal page, in memory of its own.
    pub(crate) fn copy(&self) -> Result<Self, AllocError>
        ensures { IfOk result (λ copy. copy ≡ self.now) }
    {
        let page = match &self.page {
            Some(page) => Some(page.copy()?),
            None => None,
        };
        Ok(Current {
            page,
            spare: None,
            spare_back: None,
            spare_frame: None,
        })
    }

    /// Whether there is a page.
    pub(crate) fn is_some(&self) -> bool
        ensures { result ≡ is_some self.now }
    {
        self.page.is_some()
    }

    /// The dots of the page.
    pub fn drawn(&self) -> Option<&Canvas>
        ensures { option_map (λ page. page.now) result ≡ self.now }
    {
        self.page.as_ref()
    }

    /// Takes the page out.
    pub(crate) fn take(&mut self) -> Option<Canvas>
        ensures page { result ≡ self.old }
        ensures left { self.new ≡ None }
    {
        self.page.take()
    }

    /// Puts a page in.
    pub(crate) fn put(&mut self, page: Canvas)
        ensures { self.new ≡ Some page }
    {
        self.page = Some(page);
    }

    /// Memory of a page that is no longer needed, where some is kept.
    fn take_spare(&mut self) -> Option<Bitmap>
        ensures { self.new ≡ self.old }
    {
        match self.spare.take() {
            Some(spare) => Some(spare),
            None => self.spare_back.take(),
        }
    }

    /// Memory for a frame: that of a frame that was turned, or of a page.
    fn take_frame(&mut self) -> Option<Bitmap>
        ensures { self.new ≡ self.old }
    {
        match self.spare_frame.take() {
            Some(spare) => Some(spare),
            None => self.take_spare(),
        }
    }

    /// The blank page of the media, which is not put in. Its marks take the memory that is kept.
    #[tactic(auto, using(crate::proofs::PlaceLemmas::media_fits))]
    pub(crate) fn blank(
        &mut self,
        alloc: Global,
        page_setup: PageSetup,
    ) -> Result<Canvas, AllocError>
        ensures page { IfOk result (λ page. page ≡ blank_page page_setup) }
        ensures same { self.new ≡ self.old }
    {
        let mut page = Canvas::blank(alloc, page_setup.orientation, page_setup.physical_page())?;
        if let Some(spare) = self.take_frame() {
            page.reuse(spare);
        }
        Ok(page)
    }

    /// The physical page of one that was taken out. It takes the memory that is kept, and that of the frame is kept.
    pub(crate) fn turn(&mut self, alloc: Global, page: Canvas) -> Result<Bitmap, AllocError>
        ensures page { IfOk result (λ turned. turned ≡ page) }
        ensures same { self.new ≡ self.old }
    {
        let spare = self.take_spare();
        let (turned, left) = page.turned(alloc, spare)?;
        self.spare_frame = left;
        Ok(turned)
    }

    /// Keeps the memory of a sheet that went out.
    pub(crate) fn keep(&mut self, sheet: Sheet)
        ensures { self.new ≡ self.old }
    {
        self.spare = Some(sheet.front);
        self.spare_back = sheet.back;
    }
}
