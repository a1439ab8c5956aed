//! Streams that are carried out without an end of input, with what they leave, by the tables of `stream_tables`.
use crate::rows::{Row, rows_of};
use crate::stream_tables::{Shows, TABLES};
use press_engine::{Engine, View};
use press_page::Binding;
use press_scan::Scanner;
use press_sink::{ListReplies, ListSink};
use std::test::Fail;

/// More commands than any stream of these tests has.
const MOST_COMMANDS: u32 = 100;

/// What the streams of a table come behind where they follow a page with a mark.
const MARK: &[u8] = b"\x1B*p10x20Y\x1B*c1a1b0P";

/// What a stream left: the engine, and how many sheets went out.
#[derive(Drop)]
pub struct CarriedOut {
    pub engine: Engine,
    pub sheets: usize,
}

/// Carries the commands of a stream out, and keeps the sheets that go out.
pub(crate) fn carry_into(
    rt: &HostRuntime,
    engine: &mut Engine,
    stream: &[u8],
    sheets: &mut ListSink,
) -> Result<(), Fail> {
    let mut scanner = Scanner::new(rt.alloc());
    scanner.feed(stream)?;
    let mut replies = ListReplies::new(rt.alloc());
    for _ in 0..MOST_COMMANDS {
        let Some(command) = scanner.next()? else {
            return Ok(());
        };
        if !engine.needs_command() {
            return Err(Fail::from("a body still runs"));
        }
        let Ok(()) = engine.run_command(command, 0, sheets, &mut replies) else {
            return Err(Fail::from("a command was not carried out"));
        };
    }
    Err(Fail::from("too many commands"))
}

/// Carries the commands of a stream out, and counts the sheets that go out.
fn carry_out(rt: &HostRuntime, engine: &mut Engine, stream: &[u8]) -> Result<usize, Fail> {
    let mut sheets = ListSink::new(rt.alloc());
    carry_into(rt, engine, stream, &mut sheets)?;
    Ok(sheets.deliveries().len())
}

/// What a stream leaves of an engine after power on.
pub(crate) fn carried_out(rt: &HostRuntime, stream: &[u8]) -> Result<CarriedOut, Fail> {
    let mut engine = Engine::power_on(rt.alloc())?;
    let sheets = carry_out(rt, &mut engine, stream)?;
    Ok(CarriedOut { engine, sheets })
}

/// An ID, or -1 for none.
fn id_of(id: Option<u16>) -> i64 {
    match id {
        Some(id) => i64::from(id),
        None => -1,
    }
}

/// A count, which is small.
fn small(count: u64) -> i64 {
    i64::try_from(count).ok().unwrap_or(-1)
}

/// The number of a kind of pattern.
fn kind_number(kind: press_pattern::PatternKind) -> i64 {
    match kind {
        press_pattern::PatternKind::Black => 0,
        press_pattern::PatternKind::White => 1,
        press_pattern::PatternKind::Shading => 2,
        press_pattern::PatternKind::CrossHatch => 3,
        press_pattern::PatternKind::User => 4,
    }
}

/// Margins, text length and the cursor.
fn margins_of(view: &View<'_>) -> [i64; 6] {
    let margins = view.environment.margins;
    [
        i64::from(margins.left),
        i64::from(margins.right),
        i64::from(margins.top),
        i64::from(margins.text_length),
        view.x.0,
        view.y.0,
    ]
}

/// Copies and sides.
fn copies_of(view: &View<'_>) -> [i64; 3] {
    let environment = view.environment;
    [
        i64::from(environment.settings.copies),
        i64::from(environment.page_setup.duplex),
        i64::from(environment.page_setup.binding == Binding::LongEdge),
    ]
}

/// Where raster graphics stands, and the cursor.
fn raster_of(view: &View<'_>) -> [i64; 4] {
    let (left, rows) = match view.raster {
        Some(raster) => (i64::from(raster.left), i64::from(raster.rows)),
        None => (-1, -1),
    };
    [left, rows, view.x.0, view.y.0]
}

/// What is set for marks.
fn drawing_of(view: &View<'_>) -> [i64; 5] {
    let drawing = view.drawing;
    [
        i64::from(drawing.pattern_id),
        kind_number(drawing.pattern.kind),
        i64::from(drawing.pattern.id),
        i64::from(drawing.mode.source_opaque),
        i64::from(drawing.mode.pattern_opaque),
    ]
}

/// Macros.
fn macros_of(view: &View<'_>) -> [i64; 4] {
    [
        i64::from(view.macro_id),
        id_of(view.overlay),
        id_of(view.defining),
        small(view.step),
    ]
}

/// Adds what is shown of an engine.
fn push_view(numbers: &mut Vec<i64>, shows: Shows, view: &View<'_>) -> Result<(), Fail> {
    match shows {
        Shows::Margins => numbers.extend_from_slice(&margins_of(view))?,
        Shows::Copies => numbers.extend_from_slice(&copies_of(view))?,
        Shows::Raster => numbers.extend_from_slice(&raster_of(view))?,
        Shows::Drawing => numbers.extend_from_slice(&drawing_of(view))?,
        Shows::Macros => numbers.extend_from_slice(&macros_of(view))?,
        Shows::Stack => {
            let pushed = small(view.stack.len() as u64);
            numbers.extend_from_slice(&[view.x.0, view.y.0, pushed])?;
        }
        Shows::Runs => {
            let depth = i64::from(view.depth);
            numbers.extend_from_slice(&[small(view.step), view.x.0, view.y.0, depth])?;
        }
        _ => numbers.extend_from_slice(&[view.x.0, view.y.0])?,
    }
    Ok(())
}

/// The numbers that a stream gives.
fn numbers_of(rt: &HostRuntime, shows: Shows, stream: &[u8]) -> Result<Vec<i64>, Fail> {
    let mut numbers = Vec::new(rt.alloc());
    let left = carried_out(rt, stream)?;
    push_view(&mut numbers, shows, &left.engine.view())?;
    Ok(numbers)
}

/// How many sheets go out, and the cursor after them.
fn sheets_of(rt: &HostRuntime, stream: &[u8]) -> Result<[i64; 3], Fail> {
    let left = carried_out(rt, stream)?;
    let view = left.engine.view();
    Ok([small(left.sheets as u64), view.x.0, view.y.0])
}

/// How many sheets go out behind a page with a mark, and behind one without; and the cursor after the former.
fn closes_of(rt: &HostRuntime, stream: &[u8]) -> Result<Vec<i64>, Fail> {
    let mut after_mark = Vec::new(rt.alloc());
    after_mark.extend_from_slice(MARK)?;
    after_mark.extend_from_slice(stream)?;
    let [sheets, x, y] = sheets_of(rt, &after_mark)?;
    let [unmarked, _, _] = sheets_of(rt, stream)?;
    let mut numbers = Vec::new(rt.alloc());
    numbers.extend_from_slice(&[sheets, unmarked, x, y])?;
    Ok(numbers)
}

/// Whether a row of a table holds.
fn holds(rt: &HostRuntime, shows: Shows, row: &Row<'_>) -> Result<bool, Fail> {
    let given = match shows {
        Shows::Closes => closes_of(rt, &row.stream)?,
        _ => numbers_of(rt, shows, &row.stream)?,
    };
    Ok(given.as_slice() == row.numbers.as_slice())
}

#[test]
fn streams_leave_what_their_rows_say(rt: HostRuntime) -> Result<(), Fail> {
    for (shows, count, table) in &TABLES {
        let rows = rows_of(rt.alloc(), table)?;
        assert_eq!(rt; rows.len(), *count);
        for row in &rows {
            assert!(rt; holds(&rt, *shows, row)?, "{}", row.line);
        }
    }
    Ok(())
}

/// The macro ID that a copy of an engine shows.
fn id_of_a_copy(engine: &Engine) -> Result<u16, Fail> {
    Ok(engine.copy()?.view().macro_id)
}

#[test]
fn a_copy_shows_the_same(rt: HostRuntime) -> Result<(), Fail> {
    let left = carried_out(&rt, b"\x1B&f3Y")?;
    assert_eq!(rt; id_of_a_copy(&left.engine)?, 3);
    Ok(())
}
