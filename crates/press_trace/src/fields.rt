//! The fields of what can be seen, by one table: their words, and what each tells.

ghost use Rattle.std.specs.Prelude.{◌≡◌};
ghost use Rattle.press_trace.specs.Fields.{key_of, told_by, variable_key, variable_told, group_word, fields_of};
ghost use Rattle.press_trace.specs.Numbers.{binding_number, pattern_number, method_number, raster_left, raster_rows};

use crate::told::{Told, number_in};
use press_engine::View;
use press_page::{Binding, Defaults, Numbered};
use press_pattern::PatternKind;
use press_raster::{RasterPosition, RowCoding};
use press_rows::Method;

/// A variable of the job language.
#[derive(Clone, Copy)]
pub enum Variable {
    Binding,
    Copies,
    Duplex,
    Orientation,
    PageSize,
    Resolution,
}

/// A field of what can be seen.
#[derive(Clone, Copy)]
pub enum Field {
    /// The current value of a variable of the job language.
    Current(Variable),
    /// The default value of one.
    Default(Variable),
    /// The positions that were pushed, the newest last.
    Pushed,
    /// The height of the rectangle, in 1/7200 inch.
    Height,
    /// The ID under which patterns are defined, selected and filled with.
    Id,
    /// The ID of the current pattern.
    Pattern,
    /// The kind of the current pattern, as its command numbers it.
    PatternKind,
    /// Whether white dots of the pattern are opaque.
    PatternOpaque,
    /// Whether white dots of the source are opaque.
    SourceOpaque,
    /// The width of the rectangle, in 1/7200 inch.
    Width,
    /// The ID of the definition that is open.
    Defining,
    /// The ID under which macros are defined and started.
    MacroId,
    /// The ID of the macro that is laid under every page.
    Overlay,
    /// From the left edge of the logical page to the left margin.
    Left,
    /// From the left edge of the logical page to the right margin.
    Right,
    /// From the top margin to the end of the text.
    TextLength,
    /// From the upper edge of the logical page to the top margin.
    Top,
    /// The edge at which sheets are bound: 1 is the long one, 2 the short one.
    Binding,
    /// Whether both sides are printed.
    Duplex,
    /// Whether a mark was made on the page.
    Marked,
    /// The orientation, as its command numbers it.
    Orientation,
    /// Dots per inch.
    Resolution,
    /// The page size, as its command numbers it.
    Size,
    /// The source height.
    RowHeight,
    /// Where rows begin, in 1/7200 inch, while it is on.
    RasterLeft,
    /// The compression method.
    Method,
    /// Dots per inch of rows.
    RasterResolution,
    /// How many rows there were, while it is on.
    Rows,
    /// The source width.
    RowWidth,
    /// How many copies of a sheet go out.
    CopiesOfPage,
    /// Whether a carriage return is followed by a line feed.
    FeedAfterReturn,
    /// The horizontal motion index, in 1/7200 inch.
    HorizontalMotion,
    /// Whether HP-GL/2 is on.
    HpGl,
    /// Whether a reply follows each sheet.
    PageStatus,
    /// Whether line feeds skip from the end of the text to the next page.
    PerforationSkip,
    /// Whether a line feed and a form feed are preceded by a carriage return.
    ReturnBeforeFeed,
    /// How many sheets went out since the job began.
    SheetsOfJob,
    /// A PCL unit, in 1/7200 inch.
    UnitOfMeasure,
    /// The vertical motion index, in 1/7200 inch.
    VerticalMotion,
}

/// Fields that stand in one object.
#[derive(Clone, Copy)]
pub enum Group {
    /// The current values of the job language.
    Current,
    /// The cursor.
    Cursor,
    /// The default values of the job language.
    Default,
    /// How marks are made.
    Drawing,
    /// Macros.
    Macros,
    /// The margins, in 1/7200 inch.
    Margins,
    /// The page and its paper.
    Page,
    /// Raster graphics.
    Raster,
    /// Settings.
    Settings,
}

/// All groups, by their words.
pub const GROUPS: [Group; 9] = [
    Group::Current,
    Group::Cursor,
    Group::Default,
    Group::Drawing,
    Group::Macros,
    Group::Margins,
    Group::Page,
    Group::Raster,
    Group::Settings,
];

impl Group {
    /// The word under which its object stands.
    pub fn word(self) -> &'static str
        ensures { result.now ≡ group_word self }
    {
        match self {
            Group::Current => "current",
            Group::Cursor => "cursor",
            Group::Default => "default",
            Group::Drawing => "drawing",
            Group::Macros => "macros",
            Group::Margins => "margins",
            Group::Page => "page",
            Group::Raster => "raster",
            Group::Settings => "settings",
        }
    }

    /// Its fields, by their words.
    pub fn fields(self) -> &'static [Field]
        ensures { result.now ≡ fields_of self }
    {
        match self {
            Group::Current => &[
                Field::Current(Variable::Binding),
                Field::Current(Variable::Copies),
                Field::Current(Variable::Duplex),
                Field::Current(Variable::Orientation),
                Field::Current(Variable::PageSize),
                Field::Current(Variable::Resolution),
            ],
            Group::Cursor => &[Field::Pushed],
            Group::Default => &[
                Field::Default(Variable::Binding),
                Field::Default(Variable::Copies),
                Field::Default(Variable::Duplex),
                Field::Default(Variable::Orientation),
                Field::Default(Variable::PageSize),
                Field::Default(Variable::Resolution),
            ],
            Group::Drawing => &[
                Field::Height,
                Field::Id,
                Field::Pattern,
                Field::PatternKind,
                Field::PatternOpaque,
                Field::SourceOpaque,
                Field::Width,
            ],
            Group::Macros => &[Field::Defining, Field::MacroId, Field::Overlay],
            Group::Margins => &[Field::Left, Field::Right, Field::TextLength, Field::Top],
            Group::Page => &[
                Field::Binding,
                Field::Duplex,
                Field::Marked,
                Field::Orientation,
                Field::Resolution,
                Field::Size,
            ],
            Group::Raster => &[
                Field::RowHeight,
                Field::RasterLeft,
                Field::Method,
                Field::RasterResolution,
                Field::Rows,
                Field::RowWidth,
            ],
            Group::Settings => &[
                Field::CopiesOfPage,
                Field::FeedAfterReturn,
                Field::HorizontalMotion,
                Field::HpGl,
                Field::PageStatus,
                Field::PerforationSkip,
                Field::ReturnBeforeFeed,
                Field::SheetsOfJob,
                Field::UnitOfMeasure,
                Field::VerticalMotion,
            ],
        }
    }
}

impl Variable {
    /// The word of a variable.
    fn key(self) -> &'static str
        ensures { result.now ≡ variable_key self }
    {
        match self {
            Variable::Binding => "binding",
            Variable::Copies => "copies",
            Variable::Duplex => "duplex",
            Variable::Orientation => "orientation",
            Variable::PageSize => "page_size",
            Variable::Resolution => "resolution",
        }
    }

    /// The value that a variable has, as its command in PCL numbers it.
    fn told(self, values: &Defaults) -> Told<'static>
        ensures { result ≡ variable_told self values.now }
    {
        match self {
            Variable::Binding => Told::Number(binding_number(values.binding)),
            Variable::Copies => Told::Number(u64::from(values.copies)),
            Variable::Duplex => Told::Flag(values.duplex),
            Variable::Orientation => Told::Number(u64::from(values.orientation.number())),
            Variable::PageSize => Told::Number(u64::from(values.size.number())),
            Variable::Resolution => Told::Number(u64::from(values.resolution.dots_per_inch())),
        }
    }
}

impl Field {
    /// The word of a field.
    pub fn key(self) -> &'static str
        ensures { result.now ≡ key_of self }
    {
        match self {
            Field::Current(variable) | Field::Default(variable) => variable.key(),
            Field::Pushed => "pushed",
            Field::Height => "height",
            Field::Id => "id",
            Field::Pattern => "pattern",
            Field::PatternKind => "pattern_kind",
            Field::PatternOpaque => "pattern_opaque",
            Field::SourceOpaque => "source_opaque",
            Field::Width => "width",
            Field::Defining => "defining",
            Field::MacroId => "id",
            Field::Overlay => "overlay",
            Field::Left => "left",
            Field::Right => "right",
            Field::TextLength => "text_length",
            Field::Top => "top",
            Field::Binding => "binding",
            Field::Duplex => "duplex",
            Field::Marked => "marked",
            Field::Orientation => "orientation",
            Field::Resolution => "resolution",
            Field::Size => "size",
            Field::RowHeight => "height",
            Field::RasterLeft => "left",
            Field::Method => "method",
            Field::RasterResolution => "resolution",
            Field::Rows => "rows",
            Field::RowWidth => "width",
            Field::CopiesOfPage => "copies",
            Field::FeedAfterReturn => "feed_after_return",
            Field::HorizontalMotion => "horizontal_motion",
            Field::HpGl => "hp_gl",
            Field::PageStatus => "page_status",
            Field::PerforationSkip => "perforation_skip",
            Field::ReturnBeforeFeed => "return_before_feed",
            Field::SheetsOfJob => "sheets_of_job",
            Field::UnitOfMeasure => "unit",
            Field::VerticalMotion => "vertical_motion",
        }
    }

    /// What a field tells of what can be seen.
    pub fn told<'a>(self, view: &View<'a>) -> Told<'a>
        ensures { result ≡ told_by self view.now }
    {
        match self {
            Field::Current(variable) => variable.told(&view.language.current),
            Field::Default(variable) => variable.told(&view.language.default),
            Field::Pushed => Told::Places(view.stack),
            Field::Height => Told::Number(u64::from(view.drawing.rectangle.height)),
            Field::Id => Told::Number(u64::from(view.drawing.pattern_id)),
            Field::Pattern => Told::Number(u64::from(view.drawing.pattern.id)),
            Field::PatternKind => Told::Number(pattern_number(view.drawing.pattern.kind)),
            Field::PatternOpaque => Told::Flag(view.drawing.mode.pattern_opaque),
            Field::SourceOpaque => Told::Flag(view.drawing.mode.source_opaque),
            Field::Width => Told::Number(u64::from(view.drawing.rectangle.width)),
            Field::Defining => number_in(view.defining),
            Field::MacroId => Told::Number(u64::from(view.macro_id)),
            Field::Overlay => number_in(view.overlay),
            Field::Left => Told::Number(u64::from(view.environment.margins.left)),
            Field::Right => Told::Number(u64::from(view.environment.margins.right)),
            Field::TextLength => Told::Number(u64::from(view.environment.margins.text_length)),
            Field::Top => Told::Number(u64::from(view.environment.margins.top)),
            Field::Binding => Told::Number(binding_number(view.environment.page_setup.binding)),
            Field::Duplex => Told::Flag(view.environment.page_setup.duplex),
            Field::Marked => Told::Flag(view.marked),
            Field::Orientation => Told::Number(u64::from(
                view.environment.page_setup.orientation.number(),
            )),
            Field::Resolution => Told::Number(u64::from(
                view.environment.page_setup.resolution.dots_per_inch(),
            )),
            Field::Size => Told::Number(u64::from(view.environment.page_setup.size.number())),
            Field::RowHeight => number_in(view.drawing.raster.source_height),
            Field::RasterLeft => raster_left(view.raster),
            Field::Method => Told::Number(method_number(view.drawing.raster.coding)),
            Field::RasterResolution => Told::Number(u64::from(
                view.drawing.raster.resolution.dots_per_inch(),
            )),
            Field::Rows => raster_rows(view.raster),
            Field::RowWidth => number_in(view.drawing.raster.source_width),
            Field::CopiesOfPage => Told::Number(u64::from(view.environment.settings.copies)),
            Field::FeedAfterReturn => Told::Flag(
                view.environment.settings.line_termination.feed_after_return,
            ),
            Field::HorizontalMotion => Told::Number(u64::from(
                view.environment.settings.horizontal_motion,
            )),
            Field::HpGl => Told::Flag(view.hp_gl),
            Field::PageStatus => Told::Flag(view.language.page_status),
            Field::PerforationSkip => Told::Flag(view.environment.settings.perforation_skip),
            Field::ReturnBeforeFeed => Told::Flag(
                view.environment
                    .settings
                    .line_termination
                    .return_before_feed,
            ),
            Field::SheetsOfJob => Told::Number(u64::from(view.since_job)),
            Field::UnitOfMeasure => Told::Number(u64::from(
                view.environment.settings.unit_of_measure.unit().positions,
            )),
            Field::VerticalMotion => Told::Number(u64::from(
                view.environment.settings.vertical_motion,
            )),
        }
    }
}

/// The edge at which sheets are bound: 1 is the long one, 2 the short one.
fn binding_number(binding: Binding) -> u64
    ensures { result ≡ binding_number binding }
{
    match binding {
        Binding::LongEdge => 1,
        Binding::ShortEdge => 2,
    }
}

/// The kind of a pattern, as its command numbers it.
fn pattern_number(kind: PatternKind) -> u64
    ensures { result ≡ pattern_number kind }
{
    match kind {
        PatternKind::Black => 0,
        PatternKind::White => 1,
        PatternKind::Shading => 2,
        PatternKind::CrossHatch => 3,
        PatternKind::User => 4,
    }
}

/// The compression method, as its command numbers it.
fn method_number(coding: RowCoding) -> u64
    ensures { result ≡ method_number coding }
{
    match coding {
        RowCoding::By(Method::Unencoded) => 0,
        RowCoding::By(Method::RunLength) => 1,
        RowCoding::By(Method::PackBits) => 2,
        RowCoding::By(Method::DeltaRow) => 3,
        RowCoding::Adaptive => 5,
    }
}

/// Where rows begin, while raster graphics is on.
fn raster_left(position: Option<RasterPosition>) -> Told<'static>
    ensures { result ≡ raster_left position }
{
    match position {
        Some(position) => Told::Number(u64::from(position.left)),
        None => Told::Nothing,
    }
}

/// How many rows there were, while raster graphics is on.
fn raster_rows(position: Option<RasterPosition>) -> Told<'static>
    ensures { result ≡ raster_rows position }
{
    match position {
        Some(position) => Told::Number(u64::from(position.rows)),
        None => Told::Nothing,
    }
}
