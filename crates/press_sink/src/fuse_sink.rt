//! A sheet sink that has one fault, for tests.
ghost use Rattle.std.specs.Prelude.{◌≡◌, ◌≢◌, ◌<◌, ◌+◌, ◌-◌, Some, None, IsErrOf, min};
ghost use Rattle.press_sink.specs.SinkLog.{Delivers, most_faults, with_own_faults};
ghost use Rattle.press_sink.specs.Kept.{inner, left_of, left_after, own_faults};

use crate::fault::SinkError;
use crate::sink::SheetSink;
use press_bits::Sheet;

/// A sheet sink over another, in which one delivery has a fault of its own: the one after so many others. It is for tests.
#[derive(Drop)]
pub struct FuseSink<S> {
    sink: S,
    /// How many more deliveries are passed on before the one that has a fault; none once that has been.
    left: Option<u64>,
    faults: u64,
}

impl<S: SheetSink + Drop> FuseSink<S> {
    /// A sink over another, in which so many deliveries are passed on before one has a fault.
    pub fn new(sink: S, deliveries: u64) -> Self
        ensures sink { inner result ≡ sink }
        ensures left { left_of result ≡ Some deliveries }
        ensures faults { own_faults result ≡ 0 }
    {
        FuseSink {
            sink,
            left: Some(deliveries),
            faults: 0,
        }
    }

    /// The sink to which deliveries are passed on.
    pub fn sink(&self) -> &S
        ensures { result.now ≡ inner self.now }
    {
        &self.sink
    }
}

impl<S: SheetSink + Drop> SheetSink for FuseSink<S> {
    ghost told = { λ fuse. with_own_faults (S.told fuse.sink) fuse.faults };

    fn faults(&self) -> u64 {
        self.sink.faults().saturating_add(self.faults)
    }

    /// Passes the sheet on to the other sink, or has the one fault.
    fn deliver(&mut self, tag: u64, sheet: &Sheet) -> Result<(), SinkError>
        requires { (with_own_faults (S.told (inner self.old))
            (own_faults self.old)).faults < most_faults }
        ensures delivers { Delivers
            (with_own_faults (S.told (inner self.old)) (own_faults self.old))
            (record { tag = tag; sheet = sheet.now }) result
            (with_own_faults (S.told (inner self.new)) (own_faults self.new)) }
        ensures blows { left_of self.old ≡ Some 0 → IsErrOf result SinkError.SinkFault }
        ensures passes { left_of self.old ≢ Some 0 → Delivers (S.told (inner self.old))
            (record { tag = tag; sheet = sheet.now }) result (S.told (inner self.new)) }
        ensures counts { left_of self.new ≡ left_after (left_of self.old) }
    {
        match self.left {
            Some(0) => {
                self.left = None;
                self.faults = self.faults.saturating_add(1);
                Err(SinkError::SinkFault)
            }
            Some(left) => {
                self.left = Some(left - 1);
                self.sink.deliver(tag, sheet)
            }
            None => self.sink.deliver(tag, sheet),
        }
    }
}
