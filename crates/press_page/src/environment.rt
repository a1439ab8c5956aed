//! The page environment, one setter for each command (PCL 5 Printer Language Technical Reference Manual, the print
//! environment and Page Control Commands).

ghost use Rattle.std.specs.Prelude.{◌≡◌, ◌<◌, ◌/◌, ◌^◌, ◌+ℤ◌, pos, int_lt, unsigned_abs};
ghost use Rattle.press_units.specs.Position.{positions_per_dot};

use crate::defaults::Defaults;
use crate::margins::{
    DEFAULT_TOP, Margins, default_text_length, left_margin_of, right_margin_of, text_length_of,
    top_margin_of,
};
use crate::media::{DuplexMode, Orientation, PageSetup, PageSize};
use crate::place::{CursorDot, cursor_line};
use crate::settings::{
    DEFAULT_HORIZONTAL_MOTION, DEFAULT_VERTICAL_MOTION, Settings, copies_of, horizontal_motion_of,
    line_spacing_of, line_termination_of, measure_of, skip_change_of, vertical_motion_of,
};
use press_cursor::{CursorPosition, LogicalPage};
use press_units::{Resolution, Value};

/// The page environment. A setter takes the value of its command; a value that the command does not know changes
/// nothing.
///
/// `set_page_size`, `set_orientation` and `set_duplex` answer whether the page closes, if it has a mark: it does at each
/// value that they know. At every other setter the page never closes; what some of them answer is whether they had
/// effect. A page that closes does so on the media that held until then: ask a copy of the environment first, and change
/// it after the close by `change_page_size`, `change_orientation` or `change_duplex`.
#[derive(Clone, Copy, Debug, PartialEq, Eq)]
pub struct PageEnv {
    /// What a macro call restores.
    pub settings: Settings,
    /// What a macro call restores if size and orientation are as before.
    pub margins: Margins,
    /// What a macro call does not restore.
    pub page_setup: PageSetup,
}

/// Whether a move down by a distance passes a limit.
fn passes(limit: i64, y: i64, distance: u16) -> bool
    requires { unsigned_abs y < 2 ^ 33 }
    ensures { result ≡ int_lt limit (y +ℤ pos distance) }
{
    limit < y + i64::from(distance)
}

/// How many whole dots of a page a distance in positions is.
fn whole_dots(distance: u32, resolution: Resolution) -> u32
    ensures { result ≡ distance / positions_per_dot resolution }
{
    match resolution {
        Resolution::Dpi300 => distance / 24,
        Resolution::Dpi600 => distance / 12,
    }
}

impl PageEnv {
    ghost use Rattle.std.specs.Prelude.{◌≡◌, ◌<◌, ◌^◌, is_some, unsigned_abs};
    ghost use Rattle.press_page.specs.Place.{cursor_dot};
    ghost use Rattle.press_page.specs.Environment.{reset_environment, logical_page_of, set_unit_of_measure, set_line_termination};
    ghost use Rattle.press_page.specs.Environment.{set_horizontal_motion, set_vertical_motion, set_line_spacing, with_top};
    ghost use Rattle.press_page.specs.Environment.{asked_top, set_top_margin, asked_text_length, set_text_length, set_perforation_skip};
    ghost use Rattle.press_page.specs.Environment.{skip_moves_top, asked_left, set_left_margin, asked_right, set_right_margin};
    ghost use Rattle.press_page.specs.Environment.{clear_margins, with_default_margins, closes_page, asked_page_size};
    ghost use Rattle.press_page.specs.Environment.{with_page_size, set_page_size, asked_orientation, with_orientation};
    ghost use Rattle.press_page.specs.Environment.{set_orientation, asked_duplex, with_duplex_mode, set_duplex, set_copies};
    ghost use Rattle.press_page.specs.Environment.{text_end, passes_text};

    /// The page environment after power on, `ESC E` and a universal exit.
    pub fn reset_from(defaults: &Defaults) -> Self
        ensures { result ≡ reset_environment defaults.now }
    {
        let page_setup = PageSetup {
            size: defaults.size,
            orientation: defaults.orientation,
            duplex: defaults.duplex,
            binding: defaults.binding,
            resolution: defaults.resolution,
        };
        PageEnv {
            settings: Settings::defaults(defaults.copies),
            margins: Margins::defaults(page_setup, DEFAULT_VERTICAL_MOTION),
            page_setup,
        }
    }

    /// The logical page, with its top margin.
    pub fn logical_page(&self) -> LogicalPage
        ensures { result ≡ logical_page_of self.now }
    {
        self.page_setup.logical_page(self.margins.top)
    }

    /// The dot of the frame on which the cursor lies, whose line is negative above the upper edge.
    pub fn cursor_dot(&self, cursor: CursorPosition) -> CursorDot
        requires { unsigned_abs cursor.y < 2 ^ 33 }
        ensures { result ≡ cursor_dot self.now.page_setup self.now.margins.top cursor }
    {
        let resolution = self.page_setup.resolution;
        CursorDot {
            x: self.page_setup.offset() + whole_dots(cursor.x, resolution),
            y: cursor_line(cursor.y, self.margins.top, resolution),
        }
    }

    /// `ESC & u # D`: the unit of measure, one of the 26 legal ones.
    pub fn set_unit_of_measure(&mut self, value: Value)
        ensures { self.new ≡ set_unit_of_measure value.tenthousandths self.old }
    {
        if let Some(measure) = measure_of(value.whole()) {
            self.settings.unit_of_measure = measure;
        }
    }

    /// `ESC & k # G`: line termination, 0 to 3.
    pub fn set_line_termination(&mut self, value: Value)
        ensures { self.new ≡ set_line_termination value.tenthousandths self.old }
    {
        if let Some(termination) = line_termination_of(value.whole()) {
            self.settings.line_termination = termination;
        }
    }

    /// `ESC & k # H`: the horizontal motion index in 1/120 inch, 0 to 840.
    pub fn set_horizontal_motion(&mut self, value: Value)
        ensures { self.new ≡ set_horizontal_motion value.tenthousandths self.old }
    {
        if let Some(motion) = horizontal_motion_of(value) {
            self.settings.horizontal_motion = motion;
        }
    }

    /// `ESC & l # C`: the vertical motion index in 1/48 inch, 0 to 336.
    pub fn set_vertical_motion(&mut self, value: Value)
        ensures { self.new ≡ set_vertical_motion value.tenthousandths self.old }
    {
        if let Some(motion) = vertical_motion_of(value) {
            self.settings.vertical_motion = motion;
        }
    }

    /// `ESC & l # D`: line spacing, in lines to the inch.
    pub fn set_line_spacing(&mut self, value: Value)
        ensures { self.new ≡ set_line_spacing value.tenthousandths self.old }
    {
        if let Some(motion) = line_spacing_of(value.whole()) {
            self.settings.vertical_motion = motion;
        }
    }

    /// Sets the top margin, and the text length to its default.
    fn set_top(&mut self, top: u32)
        ensures { self.new ≡ with_top top self.old }
    {
        let length = self.page_setup.logical_length();
        self.margins.top = top;
        self.margins.text_length = default_text_length(length, top, self.settings.vertical_motion);
    }

    /// `ESC & l # E`: the top margin in lines; answers whether it has effect. The text length goes to its default.
    pub fn set_top_margin(&mut self, value: Value) -> bool
        ensures set { self.new ≡ set_top_margin value.tenthousandths self.old }
        ensures effect { result ≡ is_some (asked_top value.tenthousandths self.old) }
    {
        let length = self.page_setup.logical_length();
        match top_margin_of(value, self.settings.vertical_motion, length) {
            Some(top) => {
                self.set_top(top);
                true
            }
            None => false,
        }
    }

    /// `ESC & l # F`: the text length in lines; answers whether it has effect.
    pub fn set_text_length(&mut self, value: Value) -> bool
        ensures set { self.new ≡ set_text_length value.tenthousandths self.old }
        ensures effect { result ≡ is_some (asked_text_length value.tenthousandths self.old) }
    {
        let length = self.page_setup.logical_length();
        let line = self.settings.vertical_motion;
        match text_length_of(value, line, self.margins.top, length) {
            Some(text_length) => {
                self.margins.text_length = text_length;
                true
            }
            None => false,
        }
    }

    /// `ESC & l # L`: perforation skip, 0 off, 1 on; answers whether the number of the top margin changed. A change sets
    /// top margin and text length to their defaults.
    pub fn set_perforation_skip(&mut self, value: Value) -> bool
        ensures set { self.new ≡ set_perforation_skip value.tenthousandths self.old }
        ensures moved { result ≡ skip_moves_top value.tenthousandths self.old }
    {
        match skip_change_of(value.whole(), self.settings.perforation_skip) {
            Some(skip) => {
                let moves = self.margins.top != DEFAULT_TOP;
                self.settings.perforation_skip = skip;
                self.set_top(DEFAULT_TOP);
                moves
            }
            None => false,
        }
    }

    /// `ESC & a # L`: the left margin in columns; answers whether it has effect.
    pub fn set_left_margin(&mut self, value: Value) -> bool
        ensures set { self.new ≡ set_left_margin value.tenthousandths self.old }
        ensures effect { result ≡ is_some (asked_left value.tenthousandths self.old) }
    {
        match left_margin_of(value, self.settings.horizontal_motion, self.margins.right) {
            Some(left) => {
                self.margins.left = left;
                true
            }
            None => false,
        }
    }

    /// `ESC & a # M`: the right margin behind a column; answers whether it has effect.
    pub fn set_right_margin(&mut self, value: Value) -> bool
        ensures set { self.new ≡ set_right_margin value.tenthousandths self.old }
        ensures effect { result ≡ is_some (asked_right value.tenthousandths self.old) }
    {
        let width = self.page_setup.logical_width();
        let column = self.settings.horizontal_motion;
        match right_margin_of(value, column, self.margins.left, width) {
            Some(right) => {
                self.margins.right = right;
                true
            }
            None => false,
        }
    }

    /// `ESC 9`: the left and the right margin on the edges of the logical page.
    pub fn clear_margins(&mut self)
        ensures { self.new ≡ clear_margins self.old }
    {
        self.margins.left = 0;
        self.margins.right = self.page_setup.logical_width();
    }

    /// Sets margins and text length to their defaults.
    fn set_default_margins(&mut self)
        ensures { self.new ≡ with_default_margins self.old }
    {
        self.margins = Margins::defaults(self.page_setup, self.settings.vertical_motion);
    }

    /// Another page size, with margins and text length by default.
    pub fn change_page_size(&mut self, size: PageSize)
        ensures { self.new ≡ with_page_size size self.old }
    {
        self.page_setup.size = size;
        self.set_default_margins();
    }

    /// Another orientation, with motion indices, margins and text length by default.
    pub fn change_orientation(&mut self, orientation: Orientation)
        ensures { self.new ≡ with_orientation orientation self.old }
    {
        self.page_setup.orientation = orientation;
        self.settings.horizontal_motion = DEFAULT_HORIZONTAL_MOTION;
        self.settings.vertical_motion = DEFAULT_VERTICAL_MOTION;
        self.set_default_margins();
    }

    /// Other sides to print.
    pub fn change_duplex(&mut self, sides: DuplexMode)
        ensures { self.new ≡ with_duplex_mode sides self.old }
    {
        self.page_setup = self.page_setup.with_duplex(sides);
    }

    /// `ESC & l # A`: the page size, with margins and text length by default; answers whether the page closes.
    pub fn set_page_size(&mut self, value: Value) -> bool
        ensures set { self.new ≡ set_page_size value.tenthousandths self.old }
        ensures closes { result ≡ closes_page (asked_page_size value.tenthousandths) }
    {
        match PageSize::of_number(value.whole()) {
            Some(size) => {
                self.change_page_size(size);
                true
            }
            None => false,
        }
    }

    /// `ESC & l # O`: the orientation, with motion indices, margins and text length by default; answers whether the page
    /// closes.
    pub fn set_orientation(&mut self, value: Value) -> bool
        ensures set { self.new ≡ set_orientation value.tenthousandths self.old }
        ensures closes { result ≡ closes_page (asked_orientation value.tenthousandths) }
    {
        match Orientation::of_number(value.whole()) {
            Some(orientation) => {
                self.change_orientation(orientation);
                true
            }
            None => false,
        }
    }

    /// `ESC & l # S`: the sides that are printed; answers whether the page closes.
    pub fn set_duplex(&mut self, value: Value) -> bool
        ensures set { self.new ≡ set_duplex value.tenthousandths self.old }
        ensures closes { result ≡ closes_page (asked_duplex value.tenthousandths) }
    {
        match DuplexMode::of_number(value.whole()) {
            Some(sides) => {
                self.change_duplex(sides);
                true
            }
            None => false,
        }
    }

    /// `ESC & l # X`: copies, at least 1; more than 999 are 999.
    pub fn set_copies(&mut self, value: Value)
        ensures { self.new ≡ set_copies value.tenthousandths self.old }
    {
        if let Some(copies) = copies_of(value.whole()) {
            self.settings.copies = copies;
        }
    }

    /// The end of the text, below the top margin; without perforation skip that of the page.
    fn text_end(&self) -> i64
        ensures { result ≡ text_end self.now }
    {
        if self.settings.perforation_skip {
            i64::from(self.margins.text_length)
        } else {
            i64::from(self.page_setup.logical_length()) - i64::from(self.margins.top)
        }
    }

    /// Whether a line feed by a distance passes the end of the text, from a place `y` below the top margin: then it closes
    /// the page instead.
    pub fn passes_text(&self, y: i64, distance: u16) -> bool
        requires { unsigned_abs y < 2 ^ 33 }
        ensures { result ≡ passes_text y distance self.now }
    {
        passes(self.text_end(), y, distance)
    }
}
