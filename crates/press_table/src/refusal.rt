//! Why a command is refused (PCL 5 Printer Language Technical Reference Manual, the commands by their sequences).

ghost use Rattle.std.specs.Prelude.{◌≡◌, is_some};
ghost use Rattle.press_units.specs.Value.{whole_part};
ghost use Rattle.press_page.specs.Numbers.{within};
ghost use Rattle.press_table.specs.Drawing.{greatest_pattern_id};
ghost use Rattle.press_table.specs.Refusals.{is_switch, is_size, fills_by};

use crate::drawing::{GREATEST_PATTERN_ID, is_opaque};
use crate::effect::{Selection, Source};
use crate::macro_control::MacroControl;
use crate::operation::{Operation, operation_of};
use crate::pattern_control::PatternControl;
use crate::patterns::kind_of_number;
use crate::raster::{rows_of, start_of};
use crate::state::State;
use press_cmd::{Command, Kind};
use press_page::{
    PageEnv, copies_of, horizontal_motion_of, line_spacing_of, line_termination_of, measure_of,
    vertical_motion_of,
};
use press_raster::{RasterResolution, RowCoding, side_of};
use press_units::Value;

/// Why a command is refused, and so has no effect. One that is not refused may have no effect, too: while raster graphics is on, or without
/// a macro or a pattern.
#[derive(Clone, Copy, Debug, PartialEq, Eq)]
pub enum Refusal {
    /// HP-GL/2 is on, and skips it.
    HpGl,
    /// An overlay runs, in which no page closes, and skips it.
    Overlay,
    /// The command table has no row for it.
    NoRow,
    /// Its row does not name its value, with page, margins and motion indices as they are.
    NoSuchValue,
}

/// Whether the number of a value is 0 or 1.
fn is_switch(value: Value) -> bool
    ensures { result ≡ is_switch (whole_part value.tenthousandths) }
{
    matches!(value.whole(), 0 | 1)
}

/// Whether a value is not negative.
fn is_size(value: Value) -> bool
    ensures { result ≡ is_size value.tenthousandths }
{
    value.tenthousandths >= 0
}

/// Whether the number of a value is from 0 to the greatest ID.
fn is_id(value: Value) -> bool
    ensures { result ≡ is_some (within greatest_pattern_id (whole_part value.tenthousandths)) }
{
    (0..=GREATEST_PATTERN_ID).contains(&value.whole())
}

/// Whether a fill names a pattern by the number of a value.
fn fills(value: Value) -> bool
    ensures { result ≡ fills_by (whole_part value.tenthousandths) }
{
    value.whole() == 5 || kind_of_number(value.whole()).is_some()
}

impl Operation {
    ghost use Rattle.std.specs.Prelude.{◌≡◌};
    ghost use Rattle.press_table.specs.Refusals.{names_value, names_setting, row_refusal};

    /// Whether a row that sets margins, text length, page size, orientation or sides names a value.
    fn names_setting(self, value: Value, environment: &PageEnv) -> bool
        ensures { result ≡ names_setting self value.tenthousandths environment.now }
    {
        let mut next = *environment;
        match self {
            Operation::LeftMargin => next.set_left_margin(value),
            Operation::RightMargin => next.set_right_margin(value),
            Operation::TopMargin => next.set_top_margin(value),
            Operation::TextLength => next.set_text_length(value),
            Operation::SelectPageSize => next.set_page_size(value),
            Operation::SelectOrientation => next.set_orientation(value),
            Operation::SelectDuplex => next.set_duplex(value),
            _ => true,
        }
    }

    /// Whether the row names a value, with page, margins and motion indices as they are.
    fn names_value(self, value: Value, environment: &PageEnv) -> bool
        ensures { result ≡ names_value self value.tenthousandths environment.now }
    {
        let number = value.whole();
        match self {
            Operation::UnitOfMeasure => measure_of(number).is_some(),
            Operation::SelectPageSide => Selection::of_number(number).is_some(),
            Operation::PushOrPop | Operation::PerforationSkip => is_switch(value),
            Operation::LineTermination => line_termination_of(number).is_some(),
            Operation::HorizontalMotion => horizontal_motion_of(value).is_some(),
            Operation::VerticalMotion => vertical_motion_of(value).is_some(),
            Operation::LineSpacing => line_spacing_of(number).is_some(),
            Operation::Copies => copies_of(number).is_some(),
            Operation::RectangleWidth
            | Operation::RectangleHeight
            | Operation::RectangleWidthInDecipoints
            | Operation::RectangleHeightInDecipoints => is_size(value),
            Operation::PatternId | Operation::MacroId => is_id(value),
            Operation::Fill => fills(value),
            Operation::ControlPatterns => PatternControl::of_number(number).is_some(),
            Operation::SourceTransparency | Operation::PatternTransparency => {
                is_opaque(number).is_some()
            }
            Operation::SelectPattern => kind_of_number(number).is_some(),
            Operation::RasterResolution => {
                let page = environment.page_setup.resolution;
                RasterResolution::of_number(page, number).is_some()
            }
            Operation::StartRaster => start_of(number, 0).is_some(),
            Operation::SourceWidth | Operation::SourceHeight => side_of(value).is_some(),
            Operation::SetMethod => RowCoding::of_number(number).is_some(),
            Operation::OffsetRaster => rows_of(value).is_some(),
            Operation::ControlMacro => MacroControl::of_number(number).is_some(),
            Operation::LeftMargin
            | Operation::RightMargin
            | Operation::TopMargin
            | Operation::TextLength
            | Operation::SelectPageSize
            | Operation::SelectOrientation
            | Operation::SelectDuplex => self.names_setting(value, environment),
            _ => true,
        }
    }

    /// Why this row refuses a value, if it does.
    #[inline(always)]
    pub(crate) fn refusal(self, value: Value, environment: &PageEnv) -> Option<Refusal>
        ensures { result ≡ row_refusal self value.tenthousandths environment.now }
    {
        if self == Operation::Nothing {
            return Some(Refusal::NoRow);
        }
        if self.names_value(value, environment) {
            return None;
        }
        Some(Refusal::NoSuchValue)
    }
}

impl State {
    ghost use Rattle.std.specs.Prelude.{◌≡◌};
    ghost use Rattle.press_cmd.specs.Kinds.{kind_of};
    ghost use Rattle.press_cmd.specs.View.{token};
    ghost use Rattle.press_table.specs.Refusals.{refusal_of, skipped_by, NothingIfRefused};

    /// Why a command of this kind that is not recorded, and comes from there, is refused now, if it is. One that is refused changes nothing.
    ///
    /// Source: PCL 5 Printer Language Technical Reference Manual, the commands by their sequences, and Macros.
    pub fn refusal(&self, source: Source, command: &Command<'_>, kind: Kind) -> Option<Refusal>
        requires { kind ≡ kind_of (token command.now) }
        ensures refusal { result ≡ refusal_of source (token command.now) self.now }
        ensures nothing { NothingIfRefused result source (token command.now) self.now }
    {
        let operation = operation_of(kind);
        if self.hp_gl && !operation.works_in_hp_gl() {
            return Some(Refusal::HpGl);
        }
        if source.in_overlay() && !operation.works_in_overlay() {
            return Some(Refusal::Overlay);
        }
        operation.refusal(command.value(), &self.environment)
    }

    /// Why a command is refused that is passed over.
    pub fn skips_by(&self) -> Refusal
        ensures { result ≡ skipped_by self.now }
    {
        if self.hp_gl {
            Refusal::HpGl
        } else {
            Refusal::NoRow
        }
    }
}
