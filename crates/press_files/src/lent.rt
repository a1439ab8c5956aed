//! Outputs and writers that are lent to a sink.
ghost use Rattle.std.specs.Prelude.{◌≡◌, ℕ};

use press_devices::WriteDevice;
use press_sink::NamedOutputs;
use std::alloc::AllocError;
use std::io;
use std::marker::{Brand, PhantomData};

/// Which device is lent. It stands in proofs alone; that of a call says which it is.
pub trait Loan {
    ghost name: { ℕ };
}

impl Loan for Brand {
    ghost name = { 0 };
}

/// A device that is lent: what is done to it is done to the lender's.
#[derive(Drop)]
pub struct Lent<'a, T, L: Loan> {
    at: &'a mut T,
    of: PhantomData<L>,
    ghost same: { at.ghost_name ≡ L.name },
}

impl<'a, T, L: Loan> Lent<'a, T, L> {
    /// This device.
    pub fn new(at: &'a mut T) -> Self
        requires { at.ghost_name ≡ L.name }
        ensures { result.at.now ≡ at.old }
    {
        Lent {
            at,
            of: PhantomData,
        }
    }

    /// The device, which goes back.
    pub fn into_inner(self) -> &'a mut T
        ensures device { result.now ≡ self.entry.at.now }
        ensures same { result.ghost_name ≡ L.name }
    {
        let Lent { at, .. } = self;
        at
    }
}

impl<W: WriteDevice, L: Loan> WriteDevice for Lent<'_, W, L> {
    ghost contents = { λ lent. W.contents lent.at.now };

    ghost failed = { λ lent. W.failed lent.at.now };

    ghost waiting = { λ lent. W.waiting lent.at.now };

    fn write_some(&mut self, bytes: &[u8]) -> io::Result<usize> {
        self.at.write_some(bytes)
    }

    fn flush_all(&mut self) -> io::Result<()> {
        self.at.flush_all()
    }
}

impl<O: NamedOutputs, L: Loan> NamedOutputs for Lent<'_, O, L> {
    ghost made = { λ lent. O.made lent.at.now };

    ghost failed = { λ lent. O.failed lent.at.now };

    ghost waiting = { λ lent. O.waiting lent.at.now };

    type Output = O::Output;

    fn spare(&mut self, input: &str) -> Result<(), AllocError> {
        self.at.spare(input)
    }

    fn make(&mut self, name: &str) -> io::Result<O::Output> {
        self.at.make(name)
    }

    fn close(&mut self, output: O::Output) -> io::Result<()> {
        self.at.close(output)
    }

    fn abandon(&mut self, output: O::Output) {
        self.at.abandon(output);
    }
}
