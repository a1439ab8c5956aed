//! Devices that fail, and a listing that is flushed.
use press_main::{Devices, InputError, NamedInputs, print_list};
use press_sink::ListOutputs;
use std::io::{self, Empty, ErrorKind, Read, Write};
use std::test::Fail;

/// A reader that is interrupted once, gives its bytes one at a time, and then fails or ends.
#[derive(Drop)]
pub struct Reluctant<'a> {
    pub bytes: &'a [u8],
    pub interrupted: bool,
    pub fails: bool,
}

impl Read for Reluctant<'_> {
    fn read(&mut self, buf: &mut [u8]) -> io::Result<usize> {
        if !self.interrupted {
            self.interrupted = true;
            return Err(io::Error::from(ErrorKind::Interrupted));
        }
        match (self.bytes.split_first(), buf.first_mut()) {
            (Some((first, rest)), Some(place)) => {
                *place = *first;
                self.bytes = rest;
                Ok(1)
            }
            _ if self.fails => Err(io::Error::from(ErrorKind::Other)),
            _ => Ok(0),
        }
    }
}

/// A writer that hands its bytes on only where it is flushed, and may fail there.
#[derive(Drop)]
pub struct Held {
    pub bytes: Vec<u8>,
    pub flushed: usize,
    pub fails: bool,
}

impl Write for Held {
    fn write(&mut self, bytes: &[u8]) -> io::Result<usize> {
        self.bytes.extend_from_slice(bytes)?;
        Ok(bytes.len())
    }

    fn flush(&mut self) -> io::Result<()> {
        if self.fails {
            return Err(io::Error::from(ErrorKind::Other));
        }
        self.flushed = self.bytes.len();
        Ok(())
    }
}

/// Inputs of which none can be opened.
#[derive(Drop)]
pub struct NoInputs;

impl NamedInputs for NoInputs {
    ghost use Rattle.std.specs.Prelude.{None, true, ⊤};

    ghost bytes = { λ _ _. None };

    ghost missing = { λ _ _. ⊤ };

    ghost present = { λ _ _. ⊥ };

    ghost failed = { λ _. true };

    type Input = Empty;

    fn open(&self, _name: &str) -> Result<Empty, InputError> {
        Err(InputError::ReadFault)
    }

    fn close(&mut self, _input: Empty) {}
}

#[test]
fn the_listing_is_flushed(rt: HostRuntime) -> Result<(), Fail> {
    for fails in [false, true] {
        let mut reader: &[u8] = b"\x0C";
        let out = Held {
            bytes: Vec::new(rt.alloc()),
            flushed: 0,
            fails,
        };
        let (outputs, err) = (ListOutputs::new(rt.alloc()), Vec::new(rt.alloc()));
        let mut devices = Devices::new(NoInputs, outputs, out, err);
        let status = print_list(rt.alloc(), b"", &mut reader, &mut devices);
        let wanted: (u8, usize, &[u8]) = if fails {
            (1, 0, b"fault output\n")
        } else {
            (0, 32, b"")
        };
        assert_eq!(rt; status, wanted.0);
        assert_eq!(rt; devices.out.flushed, wanted.1);
        assert_eq!(rt; devices.err.as_slice(), wanted.2);
    }
    Ok(())
}
