//! A debugger whose answers are flushed.
use crate::program_devices::{Held, NoInputs};
use press_main::{Devices, debug_lines};
use press_sink::ListOutputs;
use std::test::Fail;

/// Two commands that move the cursor, and a form feed.
const STREAM: &[u8] = b"\x1B*p0x0Y\x0C";

/// The answers to two lines.
const ANSWERS: &str = "\
stepped step 1 depth 0 x 0 y 900
limit step 2 depth 0 x 0 y 0
";

#[test]
fn each_answer_is_flushed(rt: HostRuntime) -> Result<(), Fail> {
    let mut stream = STREAM;
    let mut lines = b"step\ngo 1\n".as_slice();
    let out = Held {
        bytes: Vec::new(rt.alloc()),
        flushed: 0,
        fails: false,
    };
    let (outputs, err) = (ListOutputs::new(rt.alloc()), Vec::new(rt.alloc()));
    let mut devices = Devices::new(NoInputs, outputs, out, err);
    let status = debug_lines(rt.alloc(), &mut stream, &mut lines, &mut devices);
    assert_eq!(rt; (status, devices.out.flushed), (0, ANSWERS.len()));
    Ok(())
}
