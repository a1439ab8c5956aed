//! What the program makes and writes of streams, texts and tickets, over outputs and inputs that are kept in lists.
use crate::program_devices::NoInputs;
use press_main::{
    Devices, InputError, NamedInputs, asm_file, asm_text, job_file, print_files, write_files,
};
use press_sink::{ListOutputs, ListedOutput, NamedOutputs};
use std::process::Abort;
use std::test::Fail;

/// A text of two commands, and the stream that it stands for.
const TEXT: &[u8] = b"esc E\nctl 0C\n";

const STREAM: &[u8] = b"\x1BE\x0C";

const TICKET: &[u8] =
    br#"{"Amount":1,"JobID":"J","NPage":1,"Type":"DigitalPrinting","Version":"1.5"}"#;

/// Three black dots from dot 75 on, as they stand in their byte.
const BLACK: u8 = 0b0001_1100;

/// An image of a black dot, and the end of its job.
const IMAGE: &[u8] = b"P4\n1 1\n\x80";

const JOB_END: &[u8] = b"\x1BE\x1B%-12345X";

/// One image, whatever it is called.
#[derive(Drop)]
struct OneImage<'a> {
    file: &'a [u8],
}

impl<'a> NamedInputs for OneImage<'a> {
    ghost use Rattle.std.specs.Prelude.{Some, true, ⊤};

    ghost bytes = { λ image _. Some image.file.now };

    ghost missing = { λ _ _. ⊥ };

    ghost present = { λ _ _. ⊤ };

    ghost failed = { λ _. true };

    type Input = &'a [u8];

    fn open(&self, _name: &str) -> Result<&'a [u8], InputError> {
        Ok(self.file)
    }

    fn close(&mut self, _input: &'a [u8]) {}
}

/// What an output of this name holds.
fn held<'a>(
    rt: &impl Abort,
    outputs: &'a [ListedOutput],
    number: usize,
    name: &str,
) -> Option<&'a [u8]> {
    let output = outputs.get(number)?;
    assert_eq!(rt; output.name.as_str(), name);
    output.holds.as_ref().map(|bytes| bytes.as_slice())
}

#[test]
fn a_side_is_made_as_an_output(rt: HostRuntime) -> Result<(), Fail> {
    let alloc = rt.alloc();
    let mut reader: &[u8] = b"\x1B&l1S\x0C\x1B*p0x0Y\x1B*c3a2b0P\x0C";
    let (outputs, out, err) = (ListOutputs::new(alloc), Vec::new(alloc), Vec::new(alloc));
    let mut devices = Devices::new(NoInputs, outputs, out, err);
    let status = print_files(alloc, b"", "p%d", &mut reader, &mut devices);
    assert_eq!(rt; (status, devices.err.len(), devices.out.len()), (0, 0, 0));
    let outputs = devices.outputs.outputs();
    assert_eq!(rt; outputs.len(), 2);
    for (number, name) in ["p1", "p2"].iter().enumerate() {
        let Some(file) = held(&rt, outputs, number, name) else {
            return Err(Fail::from("it was not closed"));
        };
        assert!(rt; file.starts_with(b"P4\n2550 3300\n"));
        assert_eq!(rt; file.len(), 13 + 319 * 3300);
        let black = file.iter().filter(|byte| **byte == BLACK).count();
        assert_eq!(rt; black, if number == 0 { 0 } else { 2 });
    }
    Ok(())
}

#[test]
fn a_text_is_made_an_output_and_written(rt: HostRuntime) -> Result<(), Fail> {
    let alloc = rt.alloc();
    let (mut reader, mut again) = (TEXT, TEXT);
    let (outputs, out, err) = (ListOutputs::new(alloc), Vec::new(alloc), Vec::new(alloc));
    let mut devices = Devices::new(NoInputs, outputs, out, err);
    devices.outputs.spare("text")?;
    let status = asm_file(alloc, "stream", &mut reader, &mut devices);
    assert_eq!(rt; (status, devices.err.len()), (0, 0));
    let outputs = devices.outputs.outputs();
    assert_eq!(rt; outputs.len(), 1);
    assert_eq!(rt; held(&rt, outputs, 0, "stream"), Some(STREAM));
    let status = asm_text(alloc, &mut again, &mut devices);
    assert_eq!(rt; (status, devices.err.len()), (0, 0));
    assert_eq!(rt; devices.out.as_slice(), STREAM);
    Ok(())
}

#[test]
fn a_ticket_is_made_an_output_and_written(rt: HostRuntime) -> Result<(), Fail> {
    let alloc = rt.alloc();
    let (mut ticket, mut again) = (TICKET, TICKET);
    let names: [&[u8]; 1] = [b"dot"];
    let image = OneImage { file: IMAGE };
    let (outputs, out, err) = (ListOutputs::new(alloc), Vec::new(alloc), Vec::new(alloc));
    let mut devices = Devices::new(image, outputs, out, err);
    let status = job_file(alloc, "job", &names, &mut ticket, &mut devices);
    assert_eq!(rt; (status, devices.err.len()), (0, 0));
    let status = write_files(alloc, &names, &mut again, &mut devices);
    assert_eq!(rt; (status, devices.err.len()), (0, 0));
    assert!(rt; devices.out.ends_with(JOB_END));
    let outputs = devices.outputs.outputs();
    assert_eq!(rt; outputs.len(), 1);
    assert_eq!(rt; held(&rt, outputs, 0, "job"), Some(devices.out.as_slice()));
    Ok(())
}
