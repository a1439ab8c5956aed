//! What a macro call restores, and the environment of an overlay.

ghost use Rattle.std.specs.Prelude.{◌≡◌};
ghost use Rattle.press_table.specs.Calls.{lies_as, restored_environment, overlay_environment};

use crate::drawing::Drawing;
use crate::effect::{BodyEnd, BodyStart};
use crate::state::State;
use press_cmd::Body;
use press_cursor::CursorPosition;
use press_page::{Defaults, PageEnv, PageSetup};
use std::alloc::AllocError;

/// What a macro call keeps at its start, and restores at its end.
#[derive(Clone, Copy)]
pub struct SavedEnvironment {
    /// Its settings, and its margins where page size and orientation are the same at the end.
    pub environment: PageEnv,
    pub drawing: Drawing,
    pub macro_id: u16,
}

/// Whether media have the same size and orientation.
fn lies_as(page_setup: PageSetup, other: PageSetup) -> bool
    ensures { result ≡ lies_as page_setup other }
{
    page_setup.size == other.size && page_setup.orientation == other.orientation
}

/// The environment at the end of a call: the settings that were kept, the margins too where the media lies as it did, and the
/// media of now.
fn restored_environment(kept: PageEnv, now: PageEnv) -> PageEnv
    ensures { result ≡ restored_environment kept now }
{
    let margins = if lies_as(kept.page_setup, now.page_setup) {
        kept.margins
    } else {
        now.margins
    };
    PageEnv {
        settings: kept.settings,
        margins,
        page_setup: now.page_setup,
    }
}

/// The environment of an overlay: as after a reset, with the copies and the media of now.
fn overlay_environment(environment: PageEnv) -> PageEnv
    ensures { result ≡ overlay_environment environment }
{
    let page_setup = environment.page_setup;
    PageEnv::reset_from(&Defaults {
        copies: environment.settings.copies,
        size: page_setup.size,
        orientation: page_setup.orientation,
        duplex: page_setup.duplex,
        binding: page_setup.binding,
        resolution: page_setup.resolution,
    })
}

impl State {
    ghost use Rattle.std.specs.Prelude.{◌≡◌, IfOk, IsErr, IsSome};
    ghost use Rattle.press_table.specs.Calls.{kept_of, end_of, restored, at_start, at_end, overlay_body, overlaid, put_back};

    /// What a call keeps.
    ///
    /// Source: PCL 5 Printer Language Technical Reference Manual, Macros.
    pub fn kept(&self) -> SavedEnvironment
        ensures { result ≡ kept_of self.now }
    {
        SavedEnvironment {
            environment: self.environment,
            drawing: self.drawing,
            macro_id: self.macro_id,
        }
    }

    /// What comes at the end of a body that starts now.
    ///
    /// Source: PCL 5 Printer Language Technical Reference Manual, Macros.
    pub fn end_of(&self, start: BodyStart) -> BodyEnd
        ensures { result ≡ end_of start self.now }
    {
        match start {
            BodyStart::Execute => BodyEnd::Execute,
            BodyStart::Call => BodyEnd::Call(self.kept()),
        }
    }

    /// Restores what was kept; the cursor stays where it is, on the logical page.
    fn restore(&mut self, kept: SavedEnvironment)
        ensures { self.new ≡ restored kept self.old }
    {
        self.environment = restored_environment(kept.environment, self.environment);
        self.drawing = kept.drawing;
        self.macro_id = kept.macro_id;
        let page = self.bounds();
        self.cursor.clamp(page);
        self.graphics.end();
    }

    /// What comes at the start of a body.
    ///
    /// Source: PCL 5 Printer Language Technical Reference Manual, Macros.
    pub fn start_body(&mut self, end: &BodyEnd)
        ensures { self.new ≡ at_start end.now self.old }
    {
        if let BodyEnd::Call(_) = end {
            self.graphics.end();
        }
    }

    /// What comes when a body is used up.
    ///
    /// Source: PCL 5 Printer Language Technical Reference Manual, Macros.
    pub fn end_body(&mut self, end: BodyEnd)
        ensures { self.new ≡ at_end end self.old }
    {
        match end {
            BodyEnd::Execute => {}
            BodyEnd::Call(kept) => self.restore(kept),
        }
    }

    /// The body of the overlay, where it is on and its macro exists.
    ///
    /// # Errors
    ///
    /// Where memory ran out.
    pub fn overlay_body(&self) -> Result<Option<Body>, AllocError>
        ensures { IfOk result (λ body. body ≡ overlay_body self.now) }
    {
        match self.overlay {
            Some(id) => self.macros.body(id),
            None => Ok(None),
        }
    }

    /// The environment of an overlay holds, and the cursor is at home.
    ///
    /// Source: PCL 5 Printer Language Technical Reference Manual, Macros, overlay; the environment is this profile's.
    pub fn start_overlay(&mut self)
        ensures { self.new ≡ overlaid self.old }
    {
        self.environment = overlay_environment(self.environment);
        self.drawing = Drawing::initial();
        self.macro_id = 0;
        self.move_home();
    }

    /// What was kept before the overlay is restored, and the cursor is put back.
    ///
    /// Source: PCL 5 Printer Language Technical Reference Manual, Macros, overlay; the environment is this profile's.
    pub fn end_overlay(&mut self, kept: SavedEnvironment, position: CursorPosition)
        ensures { self.new ≡ put_back kept position self.old }
    {
        self.restore(kept);
        let page = self.bounds();
        self.cursor.move_to(position, page);
    }
}
