//! A session with a press, whose answers are flushed.
use crate::program_devices::{Held, NoInputs, Reluctant};
use press_main::{Devices, SessionRequest, press_lines};
use press_sink::ListOutputs;
use std::test::Fail;

#[test]
fn each_answer_is_flushed_before_more_is_read(rt: HostRuntime) -> Result<(), Fail> {
    for fails in [false, true] {
        let mut reader = Reluctant {
            bytes: b"pause\nabort",
            interrupted: false,
            fails: true,
        };
        let out = Held {
            bytes: Vec::new(rt.alloc()),
            flushed: 0,
            fails,
        };
        let err = Vec::new(rt.alloc());
        let asked = SessionRequest {
            engines: 1,
            template: None,
            sums: false,
            goes_on: false,
        };
        let outputs = ListOutputs::new(rt.alloc());
        let mut devices = Devices::new(NoInputs, outputs, out, err);
        let status = press_lines(rt.alloc(), asked, &mut reader, &mut devices);
        let wanted: (usize, &[u8]) = if fails {
            (0, b"fault output\n")
        } else {
            (3, b"fault 304\n")
        };
        assert_eq!(rt; status, 1);
        assert_eq!(rt; (devices.out.flushed, devices.err.as_slice()), wanted);
    }
    Ok(())
}
