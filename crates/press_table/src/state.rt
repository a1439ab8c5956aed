//! The state that commands change.

ghost use Rattle.std.specs.Prelude.{◌≡◌, IfOk};
ghost use Rattle.press_table.specs.Outcome.{first_home};

use crate::canvas::Current;
use crate::drawing::Drawing;
use press_bits::Bitmap;
use press_cursor::{Cursor, LogicalPage};
use press_macros::MacroStore;
use press_page::PageEnv;
use press_pattern::Patterns;
use press_pjl::{Facts, PjlEnv};
use press_raster::Raster;
use press_units::Unit;
use std::alloc::{AllocError, Global};

/// All that the command table reads and changes.
#[derive(Drop)]
pub struct State {
    /// The job language's environment.
    pub language: PjlEnv,
    /// Settings, margins and media.
    pub environment: PageEnv,
    /// How marks are made.
    pub drawing: Drawing,
    /// The ID under which macros are defined and started.
    pub macro_id: u16,
    /// The ID of the macro that is laid under every page.
    pub overlay: Option<u16>,
    pub cursor: Cursor,
    /// Whether HP-GL/2 is on, which this press skips.
    pub hp_gl: bool,
    /// How many sheets went out, each copy counted; the greatest number stays.
    pub sheets: u64,
    /// The same since the job began.
    pub since_job: u64,
    pub patterns: Patterns,
    /// Macros, and the definition that is open.
    pub macros: MacroStore,
    /// Raster graphics, off or on.
    pub graphics: Raster,
    /// The page that is being printed, from its first mark on; none is a blank page without a mark.
    pub page: Current,
    /// The front that waits for its back.
    pub pending: Option<Bitmap>,
}

/// An equal front, where one waits, in memory of its own.
fn copy_front(front: &Option<Bitmap>) -> Result<Option<Bitmap>, AllocError>
    ensures { IfOk result (λ copy. copy ≡ front.now) }
{
    match front {
        Some(front) => Ok(Some(front.copy()?)),
        None => Ok(None),
    }
}

/// The cursor at home on a page of this environment, with nothing pushed.
fn first_home(environment: &PageEnv) -> Cursor
    ensures { result ≡ first_home environment.now }
{
    Cursor::at_home(
        environment.margins.left,
        environment.settings.vertical_motion,
        environment.logical_page(),
    )
}

impl State {
    ghost use Rattle.std.specs.Prelude.{◌≡◌, ℕ, pos, IfOk};
    ghost use Rattle.press_table.specs.Motion.{column, pcl_unit_of};
    ghost use Rattle.press_table.specs.JobLanguage.{facts_of};
    ghost use Rattle.press_table.specs.Outcome.{power_on_state, reset_fields, bounds};

    /// The state after power on.
    ///
    /// Source: PCL 5 Printer Language Technical Reference Manual, the print environment.
    pub fn power_on(alloc: Global) -> Self
        ensures { result ≡ power_on_state }
    {
        let language = PjlEnv::power_on();
        let environment = PageEnv::reset_from(&language.current);
        State {
            language,
            environment,
            drawing: Drawing::initial(),
            macro_id: 0,
            overlay: None,
            cursor: first_home(&environment),
            hp_gl: false,
            sheets: 0,
            since_job: 0,
            patterns: Patterns::new(alloc),
            macros: MacroStore::new(alloc),
            graphics: Raster::new(alloc),
            page: Current::none(),
            pending: None,
        }
    }

    /// Equal patterns, macros and raster graphics, in memory of their own.
    fn copy_stores(&self) -> Result<(Patterns, MacroStore, Raster), AllocError>
        ensures { IfOk result (λ stores.
            stores ≡ (self.now.patterns, self.now.macros, self.now.graphics)) }
    {
        let patterns = self.patterns.copy()?;
        let macros = self.macros.copy()?;
        let graphics = self.graphics.copy()?;
        Ok((patterns, macros, graphics))
    }

    /// The page that is being printed, and the front that waits, in memory of their own.
    fn copy_pages(&self) -> Result<(Current, Option<Bitmap>), AllocError>
        ensures { IfOk result (λ pages. pages ≡ (self.now.page, self.now.pending)) }
    {
        let page = self.page.copy()?;
        let pending = copy_front(&self.pending)?;
        Ok((page, pending))
    }

    /// An equal state, in memory of its own.
    ///
    /// # Errors
    ///
    /// Where memory ran out.
    pub fn copy(&self) -> Result<Self, AllocError>
        ensures { IfOk result (λ state. state ≡ self.now) }
    {
        let cursor = self.cursor.clone()?;
        let (patterns, macros, graphics) = self.copy_stores()?;
        let (page, pending) = self.copy_pages()?;
        Ok(State {
            language: self.language,
            environment: self.environment,
            drawing: self.drawing,
            macro_id: self.macro_id,
            overlay: self.overlay,
            cursor,
            hp_gl: self.hp_gl,
            sheets: self.sheets,
            since_job: self.since_job,
            patterns,
            macros,
            graphics,
            page,
            pending,
        })
    }

    /// Page environment by the job language's current values, drawing, macro ID and cursor as after power on, overlay, HP-GL/2
    /// and raster graphics off, and no temporary pattern or macro.
    pub(crate) fn reset_fields(&mut self)
        ensures { self.new ≡ reset_fields self.old }
    {
        let environment = PageEnv::reset_from(&self.language.current);
        self.environment = environment;
        self.drawing = Drawing::initial();
        self.macro_id = 0;
        self.overlay = None;
        self.hp_gl = false;
        self.patterns.delete_temporary();
        self.macros.delete_temporary();
        self.graphics.end();
        self.cursor.go_home(
            environment.margins.left,
            environment.settings.vertical_motion,
            environment.logical_page(),
        );
    }

    /// What a line of the job language is told of the press.
    pub(crate) fn facts(&self) -> Facts
        ensures { result ≡ facts_of self.now }
    {
        Facts {
            total: self.sheets,
            since_job: self.since_job,
        }
    }

    /// The logical page, which bounds the cursor.
    pub(crate) fn bounds(&self) -> LogicalPage
        ensures { result ≡ bounds self.now }
    {
        self.environment.logical_page()
    }

    /// The distance from one column to the next.
    pub(crate) fn column(&self) -> Unit
        ensures { result.positions ≡ column self.now }
    {
        Unit {
            positions: self.environment.settings.horizontal_motion,
        }
    }

    /// The distance from one line to the next.
    pub(crate) fn line(&self) -> Unit
        ensures { result.positions ≡ self.now.environment.settings.vertical_motion }
    {
        Unit {
            positions: self.environment.settings.vertical_motion,
        }
    }

    /// A PCL unit.
    pub(crate) fn pcl_unit(&self) -> Unit
        ensures { result.positions ≡ pcl_unit_of self.now }
    {
        self.environment.settings.unit_of_measure.unit()
    }
}
