//! The sheet sink that keeps each sheet.
ghost use Rattle.std.specs.Prelude.{◌≡◌, [], Some};
ghost use Rattle.press_sink.specs.Kept.{deliveries};

use crate::delivery::Delivery;
use crate::fault::SinkError;
use crate::sink::SheetSink;
use press_bits::Sheet;
use std::alloc::Global;

/// A sink that keeps every sheet, in the order of delivery. It has no faults.
#[derive(Drop)]
pub struct ListSink {
    deliveries: Vec<Delivery>,
}

impl ListSink {
    /// A sink that took nothing yet.
    pub fn new(alloc: Global) -> Self
        ensures { deliveries result ≡ [] }
    {
        ListSink {
            deliveries: Vec::new(alloc),
        }
    }

    /// The sheets that it took, in the order of delivery.
    pub fn deliveries(&self) -> &[Delivery]
        ensures { result.now ≡ deliveries self.now }
    {
        &self.deliveries
    }
}

impl SheetSink for ListSink {
    ghost told = { λ sink. record { delivered = Some (deliveries sink); faults = 0 } };

    fn faults(&self) -> u64 {
        0
    }

    fn deliver(&mut self, tag: u64, sheet: &Sheet) -> Result<(), SinkError> {
        let sheet = sheet.copy().map_err(|_| SinkError::NoMemory)?;
        self.deliveries
            .push(Delivery { tag, sheet })
            .map_err(|_| SinkError::NoMemory)
    }
}
