//! Which command has which row (PCL 5 Printer Language Technical Reference Manual, the commands by their sequences).

ghost use Rattle.std.specs.Prelude.{◌≡◌};
ghost use Rattle.press_table.specs.Operation.{operation_of, row_at, escape_rows, control_rows, percent_rows, and_a_rows};
ghost use Rattle.press_table.specs.Operation.{and_f_rows, and_k_rows, and_l_rows, and_u_rows, star_b_rows, star_c_rows};
ghost use Rattle.press_table.specs.Operation.{star_p_rows, star_r_rows, star_t_rows, star_v_rows, grouped_operation};
ghost use Rattle.press_table.specs.Operation.{parameter_operation};

use press_cmd::Kind;

/// What the command table says to do for a command.
#[derive(Clone, Copy, PartialEq, Eq)]
pub enum Operation {
    /// The command has no row, and no effect.
    Nothing,
    /// CR.
    CarriageReturn,
    /// LF.
    LineFeed,
    /// FF.
    FormFeed,
    /// `ESC =`.
    HalfLineFeed,
    /// `ESC 9`.
    ClearMargins,
    /// `ESC E` and the universal exit.
    Reset,
    /// `ESC % # B`: HP-GL/2 on.
    EnterHpGl,
    /// `ESC % # A`: HP-GL/2 off.
    LeaveHpGl,
    /// `ESC & u # D`.
    UnitOfMeasure,
    /// `ESC & a # C`.
    MoveColumns,
    /// `ESC & a # R`.
    MoveRows,
    /// `ESC & a # H`, in decipoints.
    MoveHorizontally,
    /// `ESC & a # V`, in decipoints.
    MoveVertically,
    /// `ESC & a # G`.
    SelectPageSide,
    /// `ESC & a # L`.
    LeftMargin,
    /// `ESC & a # M`.
    RightMargin,
    /// `ESC & f # S`.
    PushOrPop,
    /// `ESC & k # G`.
    LineTermination,
    /// `ESC & k # H`.
    HorizontalMotion,
    /// `ESC & l # A`.
    SelectPageSize,
    /// `ESC & l # C`.
    VerticalMotion,
    /// `ESC & l # D`.
    LineSpacing,
    /// `ESC & l # E`.
    TopMargin,
    /// `ESC & l # F`.
    TextLength,
    /// `ESC & l # H`.
    EjectPage,
    /// `ESC & l # L`.
    PerforationSkip,
    /// `ESC & l # O`.
    SelectOrientation,
    /// `ESC & l # S`.
    SelectDuplex,
    /// `ESC & l # X`.
    Copies,
    /// `ESC * c # A`.
    RectangleWidth,
    /// `ESC * c # B`.
    RectangleHeight,
    /// `ESC * c # G`.
    PatternId,
    /// `ESC * c # H`.
    RectangleWidthInDecipoints,
    /// `ESC * c # P`.
    Fill,
    /// `ESC * c # Q`.
    ControlPatterns,
    /// `ESC * c # V`.
    RectangleHeightInDecipoints,
    /// `ESC * c # W`.
    DefinePattern,
    /// `ESC * v # N`.
    SourceTransparency,
    /// `ESC * v # O`.
    PatternTransparency,
    /// `ESC * v # T`.
    SelectPattern,
    /// `ESC * t # R`.
    RasterResolution,
    /// `ESC * r # A`.
    StartRaster,
    /// `ESC * r # B`.
    EndRaster,
    /// `ESC * r # C`.
    EndRasterAndMethod,
    /// `ESC * r # S`.
    SourceWidth,
    /// `ESC * r # T`.
    SourceHeight,
    /// `ESC * b # M`.
    SetMethod,
    /// `ESC * b # W`.
    TransferRow,
    /// `ESC * b # Y`.
    OffsetRaster,
    /// `ESC * p # X`, in PCL units.
    MoveX,
    /// `ESC * p # Y`, in PCL units.
    MoveY,
    /// `ESC & f # Y`.
    MacroId,
    /// `ESC & f # X`.
    ControlMacro,
    /// A line of the job language.
    JobLanguage,
}

/// The row of a command's kind in the command table.
pub(crate) fn operation_of(kind: Kind) -> Operation
    ensures { result ≡ operation_of kind }
{
    match kind {
        Kind::Escape(byte) => escape_operation(byte),
        Kind::Uel => Operation::Reset,
        Kind::PjlLine => Operation::JobLanguage,
        Kind::Control(byte) => control_operation(byte),
        Kind::Param {
            character,
            group,
            end,
        } => parameter_operation(character, group, end),
        _ => Operation::Nothing,
    }
}

/// Two-character escape sequences.
fn escape_operation(byte: u8) -> Operation
    ensures { result ≡ row_at byte escape_rows }
{
    match byte {
        b'=' => Operation::HalfLineFeed,
        b'9' => Operation::ClearMargins,
        b'E' => Operation::Reset,
        _ => Operation::Nothing,
    }
}

/// Control codes.
fn control_operation(byte: u8) -> Operation
    ensures { result ≡ row_at byte control_rows }
{
    match byte {
        b'\n' => Operation::LineFeed,
        0x0C => Operation::FormFeed,
        b'\r' => Operation::CarriageReturn,
        _ => Operation::Nothing,
    }
}

/// Parameterized sequences, with or without a group character.
fn parameter_operation(character: u8, group: Option<u8>, end: u8) -> Operation
    ensures { result ≡ parameter_operation character group end }
{
    match group {
        Some(group) => grouped_operation(character, group, end),
        None if character == b'%' => percent_operation(end),
        None => Operation::Nothing,
    }
}

/// `ESC %`.
fn percent_operation(end: u8) -> Operation
    ensures { result ≡ row_at end percent_rows }
{
    match end {
        b'A' => Operation::LeaveHpGl,
        b'B' => Operation::EnterHpGl,
        _ => Operation::Nothing,
    }
}

/// The sequences of a parameterized character, a group character and a termination character.
fn grouped_operation(character: u8, group: u8, end: u8) -> Operation
    ensures { result ≡ grouped_operation character group end }
{
    match (character, group) {
        (b'&', b'a') => and_a_operation(end),
        (b'&', b'f') => and_f_operation(end),
        (b'&', b'k') => and_k_operation(end),
        (b'&', b'l') => and_l_operation(end),
        (b'&', b'u') => and_u_operation(end),
        (b'*', b'b') => star_b_operation(end),
        (b'*', b'c') => star_c_operation(end),
        (b'*', b'p') => star_p_operation(end),
        (b'*', b'r') => star_r_operation(end),
        (b'*', b't') => star_t_operation(end),
        (b'*', b'v') => star_v_operation(end),
        _ => Operation::Nothing,
    }
}

/// `ESC & a`: cursor and margins.
fn and_a_operation(end: u8) -> Operation
    ensures { result ≡ row_at end and_a_rows }
{
    match end {
        b'C' => Operation::MoveColumns,
        b'G' => Operation::SelectPageSide,
        b'H' => Operation::MoveHorizontally,
        b'L' => Operation::LeftMargin,
        b'M' => Operation::RightMargin,
        b'R' => Operation::MoveRows,
        b'V' => Operation::MoveVertically,
        _ => Operation::Nothing,
    }
}

/// `ESC & f`: the cursor's stack, and macros.
fn and_f_operation(end: u8) -> Operation
    ensures { result ≡ row_at end and_f_rows }
{
    match end {
        b'S' => Operation::PushOrPop,
        b'X' => Operation::ControlMacro,
        b'Y' => Operation::MacroId,
        _ => Operation::Nothing,
    }
}

/// `ESC & k`: line termination and columns.
fn and_k_operation(end: u8) -> Operation
    ensures { result ≡ row_at end and_k_rows }
{
    match end {
        b'G' => Operation::LineTermination,
        b'H' => Operation::HorizontalMotion,
        _ => Operation::Nothing,
    }
}

/// `ESC & l`: page control.
fn and_l_operation(end: u8) -> Operation
    ensures { result ≡ row_at end and_l_rows }
{
    match end {
        b'A' => Operation::SelectPageSize,
        b'C' => Operation::VerticalMotion,
        b'D' => Operation::LineSpacing,
        b'E' => Operation::TopMargin,
        b'F' => Operation::TextLength,
        b'H' => Operation::EjectPage,
        b'L' => Operation::PerforationSkip,
        b'O' => Operation::SelectOrientation,
        b'S' => Operation::SelectDuplex,
        b'X' => Operation::Copies,
        _ => Operation::Nothing,
    }
}

/// `ESC & u`: units.
fn and_u_operation(end: u8) -> Operation
    ensures { result ≡ row_at end and_u_rows }
{
    match end {
        b'D' => Operation::UnitOfMeasure,
        _ => Operation::Nothing,
    }
}

/// `ESC * b`: raster data.
fn star_b_operation(end: u8) -> Operation
    ensures { result ≡ row_at end star_b_rows }
{
    match end {
        b'M' => Operation::SetMethod,
        b'W' => Operation::TransferRow,
        b'Y' => Operation::OffsetRaster,
        _ => Operation::Nothing,
    }
}

/// `ESC * c`: rectangles and patterns.
fn star_c_operation(end: u8) -> Operation
    ensures { result ≡ row_at end star_c_rows }
{
    match end {
        b'A' => Operation::RectangleWidth,
        b'B' => Operation::RectangleHeight,
        b'G' => Operation::PatternId,
        b'H' => Operation::RectangleWidthInDecipoints,
        b'P' => Operation::Fill,
        b'Q' => Operation::ControlPatterns,
        b'V' => Operation::RectangleHeightInDecipoints,
        b'W' => Operation::DefinePattern,
        _ => Operation::Nothing,
    }
}

/// `ESC * p`: the cursor in PCL units.
fn star_p_operation(end: u8) -> Operation
    ensures { result ≡ row_at end star_p_rows }
{
    match end {
        b'X' => Operation::MoveX,
        b'Y' => Operation::MoveY,
        _ => Operation::Nothing,
    }
}

/// `ESC * r`: raster graphics.
fn star_r_operation(end: u8) -> Operation
    ensures { result ≡ row_at end star_r_rows }
{
    match end {
        b'A' => Operation::StartRaster,
        b'B' => Operation::EndRaster,
        b'C' => Operation::EndRasterAndMethod,
        b'S' => Operation::SourceWidth,
        b'T' => Operation::SourceHeight,
        _ => Operation::Nothing,
    }
}

/// `ESC * t`: the resolution of raster graphics.
fn star_t_operation(end: u8) -> Operation
    ensures { result ≡ row_at end star_t_rows }
{
    match end {
        b'R' => Operation::RasterResolution,
        _ => Operation::Nothing,
    }
}

/// `ESC * v`: how patterns are painted.
fn star_v_operation(end: u8) -> Operation
    ensures { result ≡ row_at end star_v_rows }
{
    match end {
        b'N' => Operation::SourceTransparency,
        b'O' => Operation::PatternTransparency,
        b'T' => Operation::SelectPattern,
        _ => Operation::Nothing,
    }
}
