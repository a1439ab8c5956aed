//! A stream with nested macros under the debugger, which stops at a watch.
use press_debug::{Debugger, Stop, WATCH, Watch};
use press_engine::View;
use press_units::Pos;
use std::test::Fail;

/// A macro of five commands, of which the last calls the macro itself, is defined in ten steps and executed: five in it, five in the
/// one that it starts (a third level does not run); then the page is closed, and the stream ends.
const NESTED: &[u8] = b"\x1B*p0x0Y\x1B&f1y0X\x1B*c1a1b0P\x1B*p+2X\x1B&f3X\x1B&f1X\x1B&f3X\x0C";

/// More steps than the stream has.
const MOST: u64 = 1000;

#[test]
fn a_run_stops_at_the_watch(rt: HostRuntime) -> Result<(), Fail> {
    let watch = Watch::new(|view: &View<'_>| view.x >= Pos(96));
    let mut debugger = Debugger::open(rt.alloc(), NESTED, watch)?;
    assert_eq!(rt; debugger.go(MOST), Stop::AtBreak(WATCH));
    assert_eq!(rt; debugger.state().step, 20);
    Ok(())
}
