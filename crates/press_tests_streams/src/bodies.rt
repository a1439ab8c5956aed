//! Bodies that run inside of bodies, and copies of an engine there.
use crate::streams::{carried_out, carry_into};
use press_engine::Engine;
use press_scan::Scanner;
use press_sink::{ListReplies, ListSink};
use std::alloc::AllocError;
use std::test::Fail;

/// Four macros: the first executes the second, in which the page closes; the third is the overlay, and executes the fourth. Then a mark
/// stands on the page, and the macro ID is 1.
const DEFINITIONS: &[u8] = b"\x1B&f4y0X\x1B*c7a7b0P\x1B&f1X\
    \x1B&f3y0X\x1B*c9a9b0P\x1B&f4y2X\x1B*p+1X\x1B&f1X\
    \x1B&f2y0X\x1B*p20x20Y\x1B*c4a4b0P\x0C\x1B*p+5X\x1B&f1X\
    \x1B&f1y0X\x1B&f2y2X\x1B*p+3X\x1B&f1X\
    \x1B&f3y4X\x1B*p100x100Y\x1B*c3a2b0P\x1B&f1Y";

/// Macro 1 is executed.
const EXECUTE: &[u8] = b"\x1B&f2X";

/// The black dots of the sheets that go out then and at a form feed: 3 by 2, 4 by 4 and the overlay's 9 by 9; the overlay alone.
const BLACK: [u32; 2] = [3 * 2 + 4 * 4 + 9 * 9, 9 * 9];

const MOST_STEPS: u32 = 100;

/// Takes the first step of the execution.
fn begin(rt: &HostRuntime, engine: &mut Engine, sheets: &mut ListSink) -> Result<(), Fail> {
    let mut scanner = Scanner::new(rt.alloc());
    scanner.feed(EXECUTE)?;
    let mut replies = ListReplies::new(rt.alloc());
    let Some(command) = scanner.next()? else {
        return Err(Fail::from("there is no command"));
    };
    if !engine.needs_command() {
        return Err(Fail::from("a body runs"));
    }
    match engine.step(command, 0, sheets, &mut replies) {
        Ok(_) => Ok(()),
        Err(_) => Err(Fail::from("the step was not taken")),
    }
}

/// Takes a step in the bodies that run.
fn step_on(rt: &HostRuntime, engine: &mut Engine, sheets: &mut ListSink) -> Result<(), Fail> {
    let mut replies = ListReplies::new(rt.alloc());
    if engine.needs_command() {
        return Err(Fail::from("no body runs"));
    }
    match engine.step_inner(0, sheets, &mut replies) {
        Ok(_) => Ok(()),
        Err(_) => Err(Fail::from("the step was not taken")),
    }
}

/// Takes steps until no body runs, and then a form feed.
fn end(rt: &HostRuntime, engine: &mut Engine, sheets: &mut ListSink) -> Result<(), Fail> {
    for _ in 0..MOST_STEPS {
        if engine.needs_command() {
            return carry_into(rt, engine, b"\x0C", sheets);
        }
        step_on(rt, engine, sheets)?;
    }
    Err(Fail::from("too many steps"))
}

/// Appends how many dots of each front are black.
fn push_black(numbers: &mut Vec<u32>, sheets: &ListSink) -> Result<(), AllocError> {
    for delivery in sheets.deliveries() {
        numbers.push(delivery.sheet.front.count_black())?;
    }
    Ok(())
}

/// Whether the sheets so far and those of a copy, which goes on to the end, are the two.
fn goes_on_alike(rt: &HostRuntime, engine: &Engine, so_far: &ListSink) -> Result<bool, Fail> {
    let mut numbers = Vec::new(rt.alloc());
    push_black(&mut numbers, so_far)?;
    let mut copy = engine.copy()?;
    let mut sheets = ListSink::new(rt.alloc());
    end(rt, &mut copy, &mut sheets)?;
    push_black(&mut numbers, &sheets)?;
    Ok(numbers.as_slice() == BLACK.as_slice())
}

/// The greatest number of bodies that run, where a copy goes on alike behind each step.
fn deepest(rt: &HostRuntime, engine: &mut Engine, sheets: &mut ListSink) -> Result<u8, Fail> {
    let mut deepest = 0;
    for _ in 0..MOST_STEPS {
        if !goes_on_alike(rt, engine, sheets)? {
            return Err(Fail::from("a copy goes on otherwise"));
        }
        deepest = engine.view().depth.max(deepest);
        if engine.needs_command() {
            return Ok(deepest);
        }
        step_on(rt, engine, sheets)?;
    }
    Err(Fail::from("too many steps"))
}

#[test]
fn copies_go_on_alike_at_each_depth(rt: HostRuntime) -> Result<(), Fail> {
    let mut left = carried_out(&rt, DEFINITIONS)?;
    let mut sheets = ListSink::new(rt.alloc());
    begin(&rt, &mut left.engine, &mut sheets)?;
    assert_eq!(rt; deepest(&rt, &mut left.engine, &mut sheets)?, 4);
    Ok(())
}
