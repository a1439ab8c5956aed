//! Which lines of the open page a step may have touched.

ghost use Rattle.std.specs.Prelude.{◌≡◌, ◌<◌, ◌^◌, IfSome, Some};
ghost use Rattle.press_table.specs.PageKept.{row_line};
ghost use Rattle.press_trace.specs.Tracing.{touched_by};

use press_cmd::Kind;
use press_cursor::CursorPosition;
use press_engine::{View, may_change_page, transfers_rows};
use press_page::Orientation;

/// Which lines of the open page a step may have touched.
#[derive(Clone, Copy)]
pub enum Touched {
    /// None of them, and the page is still open.
    Nothing,
    /// Those from line `first` on and before line `end` of the frame that lies so, of a page that is still open.
    Lines {
        orientation: Orientation,
        first: u32,
        end: u32,
    },
    /// Any of them; or another page is open, or none.
    Whole,
}

/// How many lines of a page a dot of a row is high at most.
const MOST_DOT_LINES: u32 = 8;

/// Places of the cursor, in positions, are nearer to the top margin than this.
const FARTHEST: u64 = 1 << 33;

/// The line of the frame on which a row that is transferred now begins.
pub fn row_line(view: &View<'_>) -> Option<u32>
    ensures line { IfSome result
        (λ line. row_line view.now.environment view.now.y.0 ≡ Some line) }
    ensures small { IfSome result (λ line. line < 2 ^ 31) }
{
    let setup = view.environment.page_setup;
    let y = view.y.0;
    let lower_edge = i64::from(setup.logical_length()) - i64::from(view.environment.margins.top);
    if y > lower_edge || y.unsigned_abs() >= FARTHEST {
        return None;
    }
    let dot = view.environment.cursor_dot(CursorPosition { x: 0, y });
    Some(dot.lines(0).first)
}

/// What a step may have touched that took a command of this kind, outside of bodies or in one, by how the frame lay and the line of a row
/// before it, and that behind it.
pub fn touched_by(
    outside: bool,
    kind: Kind,
    orientation: Orientation,
    before: Option<u32>,
    behind: Option<u32>,
) -> Touched
    requires { IfSome behind (λ line. line < 2 ^ 31) }
    ensures { result ≡ touched_by outside kind orientation before behind }
{
    if outside && !may_change_page(kind) {
        return Touched::Nothing;
    }
    if !outside || !transfers_rows(kind) {
        return Touched::Whole;
    }
    match (before, behind) {
        (Some(first), Some(last)) => Touched::Lines {
            orientation,
            first,
            end: last + MOST_DOT_LINES,
        },
        _ => Touched::Whole,
    }
}
