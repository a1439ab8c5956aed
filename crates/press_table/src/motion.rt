//! The rows that move the cursor.

use crate::effect::{Effect, EjectCause, Source};
use crate::state::State;
use press_units::{Pos, Unit, Value, to_pos};

impl Source {
    ghost use Rattle.std.specs.Prelude.{◌≡◌};
    ghost use Rattle.press_table.specs.Motion.{in_overlay};

    /// Whether an overlay runs.
    pub(crate) fn in_overlay(self) -> bool
        ensures { result ≡ in_overlay self }
    {
        matches!(self, Source::Overlay)
    }
}

impl State {
    ghost use Rattle.std.specs.Prelude.{◌≡◌, false, IsTrue};
    ghost use Rattle.press_table.specs.declared.effect.Source.{Source};
    ghost use Rattle.press_table.specs.Outcome.{Changes};
    ghost use Rattle.press_units.specs.Value.{whole_part};
    ghost use Rattle.press_table.specs.Effects.{effect_of};
    ghost use Rattle.press_table.specs.Motion.{move_along, move_down, move_rows, to_left_margin, to_first_line, to_home, feed};
    ghost use Rattle.press_table.specs.Motion.{returned, line_feed, carriage_return, form_feed, half_line_feed, push_or_pop};
    ghost use Rattle.press_table.specs.Motion.{change_top_margin, change_perforation_skip, change_left_margin};
    ghost use Rattle.press_table.specs.Motion.{change_right_margin};

    /// Moves along the line by a value of so many units.
    pub(crate) fn move_along(&mut self, unit: Unit, value: Value)
        ensures { self.new ≡ move_along unit.positions value.tenthousandths value.signed self.old }
    {
        let page = self.bounds();
        self.cursor.move_x(to_pos(value, unit), value.signed, page);
        self.graphics.end();
    }

    /// Moves down or up by a value of so many units.
    pub(crate) fn move_down(&mut self, unit: Unit, value: Value)
        ensures { self.new ≡ move_down unit.positions value.tenthousandths value.signed self.old }
    {
        let page = self.bounds();
        self.cursor.move_y(to_pos(value, unit), value.signed, page);
        self.graphics.end();
    }

    /// `&a#R`: moves down or up by rows.
    pub(crate) fn move_rows(&mut self, value: Value)
        ensures { self.new ≡ move_rows value.tenthousandths value.signed self.old }
    {
        let page = self.bounds();
        let line = self.line();
        let distance = to_pos(value, line);
        self.cursor
            .move_rows(distance, value.signed, line.positions, page);
        self.graphics.end();
    }

    /// Moves to the left margin.
    fn move_to_left_margin(&mut self)
        ensures { self.new ≡ to_left_margin self.old }
    {
        let page = self.bounds();
        let margin = Pos(i64::from(self.environment.margins.left));
        self.cursor.move_x(margin, false, page);
        self.graphics.end();
    }

    /// Moves to the first line.
    pub(crate) fn move_to_first_line(&mut self)
        ensures { self.new ≡ to_first_line self.old }
    {
        let page = self.bounds();
        let line = self.environment.settings.vertical_motion;
        self.cursor.move_to_first_line(line, page);
        self.graphics.end();
    }

    /// Moves home.
    pub(crate) fn move_home(&mut self)
        ensures { self.new ≡ to_home self.old }
    {
        let page = self.bounds();
        let line = self.environment.settings.vertical_motion;
        self.cursor
            .move_home(self.environment.margins.left, line, page);
        self.graphics.end();
    }

    /// Moves down by a distance, or asks for the close of the page where the end of the text would be passed and no overlay runs.
    fn feed(&mut self, source: Source, distance: u16) -> Effect
        ensures { effect_of self.new result ≡ feed source distance self.old }
    {
        let passes = self.environment.passes_text(self.cursor.y(), distance);
        if passes && !source.in_overlay() {
            return Effect::Closes(EjectCause::Feed);
        }
        let page = self.bounds();
        self.cursor.move_down(distance, page);
        self.graphics.end();
        Effect::Changes
    }

    /// The carriage return before a line feed or a form feed, where line termination says so.
    fn return_before_feed(&mut self)
        ensures { self.new ≡ returned self.old }
    {
        if self
            .environment
            .settings
            .line_termination
            .return_before_feed
        {
            self.move_to_left_margin();
        }
    }

    /// LF.
    pub(crate) fn line_feed(&mut self, source: Source) -> Effect
        ensures { effect_of self.new result ≡ line_feed source self.old }
    {
        self.return_before_feed();
        let settings = self.environment.settings;
        self.feed(source, settings.vertical_motion)
    }

    /// CR.
    pub(crate) fn carriage_return(&mut self, source: Source) -> Effect
        ensures { effect_of self.new result ≡ carriage_return source self.old }
    {
        let feeds = self.environment.settings.line_termination.feed_after_return;
        self.move_to_left_margin();
        if feeds {
            self.line_feed(source)
        } else {
            Effect::Changes
        }
    }

    /// CR, where no line feed follows it, and answers whether none does. Where one does, nothing changes.
    pub(crate) fn return_alone(&mut self) -> bool
        ensures changed { IsTrue result → (source : Source)
            → carriage_return source self.old ≡ Changes self.new }
        ensures unchanged { result ≡ false → self.new ≡ self.old }
    {
        if self.environment.settings.line_termination.feed_after_return {
            return false;
        }
        self.move_to_left_margin();
        true
    }

    /// LF, where no carriage return comes before it and the page stays, and answers whether so. Where not, nothing changes.
    pub(crate) fn feed_alone(&mut self) -> bool
        ensures changed { IsTrue result → (source : Source)
            → line_feed source self.old ≡ Changes self.new }
        ensures unchanged { result ≡ false → self.new ≡ self.old }
    {
        let settings = self.environment.settings;
        let distance = settings.vertical_motion;
        if settings.line_termination.return_before_feed
            || self.environment.passes_text(self.cursor.y(), distance)
        {
            return false;
        }
        let page = self.bounds();
        self.cursor.move_down(distance, page);
        self.graphics.end();
        true
    }

    /// FF.
    pub(crate) fn form_feed(&mut self) -> Effect
        ensures { effect_of self.new result ≡ form_feed self.old }
    {
        self.return_before_feed();
        Effect::Closes(EjectCause::Feed)
    }

    /// `ESC =`.
    pub(crate) fn half_line_feed(&mut self, source: Source) -> Effect
        ensures { effect_of self.new result ≡ half_line_feed source self.old }
    {
        let settings = self.environment.settings;
        self.feed(source, settings.half_line())
    }

    /// `&f#S`: pushes the position of the cursor, or pops one.
    pub(crate) fn push_or_pop(&mut self, value: Value)
        ensures { self.new ≡ push_or_pop (whole_part value.tenthousandths) self.old }
    {
        let page = self.bounds();
        let moves = match value.whole() {
            0 => self.cursor.push(),
            1 => self.cursor.pop(page),
            _ => false,
        };
        if moves {
            self.graphics.end();
        }
    }

    /// `&l#E`: the top margin.
    pub(crate) fn change_top_margin(&mut self, value: Value)
        ensures { self.new ≡ change_top_margin value.tenthousandths self.old }
    {
        if self.environment.set_top_margin(value) {
            self.move_to_first_line();
        }
    }

    /// `&l#L`: perforation skip.
    pub(crate) fn change_perforation_skip(&mut self, value: Value)
        ensures { self.new ≡ change_perforation_skip value.tenthousandths self.old }
    {
        let skip = self.environment.settings.perforation_skip;
        let top = self.environment.margins.top;
        self.environment.set_perforation_skip(value);
        if self.environment.settings.perforation_skip == skip {
            return;
        }
        let page = self.bounds();
        self.cursor.clamp(page);
        if self.environment.margins.top != top {
            self.graphics.end();
        }
    }

    /// `&a#L`: the left margin.
    pub(crate) fn change_left_margin(&mut self, value: Value)
        ensures { self.new ≡ change_left_margin value.tenthousandths self.old }
    {
        if self.environment.set_left_margin(value)
            && self.cursor.at_least_x(self.environment.margins.left)
        {
            self.graphics.end();
        }
    }

    /// `&a#M`: the right margin.
    pub(crate) fn change_right_margin(&mut self, value: Value)
        ensures { self.new ≡ change_right_margin value.tenthousandths self.old }
    {
        if self.environment.set_right_margin(value)
            && self.cursor.at_most_x(self.environment.margins.right)
        {
            self.graphics.end();
        }
    }
}
