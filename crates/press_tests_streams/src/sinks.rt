//! Sinks of sheets and of replies.
use press_bits::{Bitmap, Sheet};
use press_sink::{Delivery, FuseSink, ListReplies, ListSink, ReplySink, SheetSink, SinkError};
use std::alloc::{AllocError, Global};
use std::process::Abort;
use std::test::Fail;

/// A sheet whose front is 9 dots wide, and whose back is as wide as is wanted.
fn sheet_of(alloc: Global, back: Option<u32>) -> Result<Sheet, Fail> {
    let back = match back {
        Some(width) => Some(Bitmap::blank(alloc, width, 2)?),
        None => None,
    };
    Ok(Sheet {
        front: Bitmap::blank(alloc, 9, 1)?,
        back,
    })
}

/// Hands over such a sheet, and tells whether the sink had a fault.
fn has_fault<S: SheetSink>(
    rt: &(impl Abort + AllocGlobal),
    sink: &mut S,
    tag: u64,
    back: Option<u32>,
) -> Result<bool, Fail> {
    let sheet = sheet_of(rt.alloc(), back)?;
    assert!(rt; sink.faults() < u64::MAX);
    Ok(matches!(sink.deliver(tag, &sheet), Err(SinkError::SinkFault)))
}

/// The tag, the width of the front, and the width of the back, if there is one.
fn size(delivery: &Delivery) -> (u64, u32, Option<u32>) {
    let back = delivery.sheet.back.as_ref().map(|back| back.width());
    (delivery.tag, delivery.sheet.front.width(), back)
}

/// The same of each sheet.
fn sizes(alloc: Global, sink: &ListSink) -> Result<Vec<(u64, u32, Option<u32>)>, AllocError> {
    let mut sizes = Vec::new(alloc);
    for delivery in sink.deliveries() {
        sizes.push(size(delivery))?;
    }
    Ok(sizes)
}

#[test]
fn keeps_copies_in_order(rt: HostRuntime) -> Result<(), Fail> {
    let mut sink = ListSink::new(rt.alloc());
    assert!(rt; sink.deliveries().is_empty());
    for (tag, back) in [(7, Some(3)), (8, None)] {
        assert!(rt; !has_fault(&rt, &mut sink, tag, back)?);
    }
    assert_eq!(rt; sink.faults(), 0);
    let made = sizes(rt.alloc(), &sink)?;
    assert_eq!(rt; made.as_slice(), [(7, 9, Some(3)), (8, 9, None)].as_slice());
    Ok(())
}

#[test]
fn joins_replies(rt: HostRuntime) -> Result<(), Fail> {
    let mut sink = ListReplies::new(rt.alloc());
    sink.reply(b"one")?;
    sink.reply(b"")?;
    sink.reply(b" two")?;
    assert_eq!(rt; sink.faults(), 0);
    assert_eq!(rt; sink.bytes(), b"one two".as_slice());
    Ok(())
}

#[test]
fn one_delivery_alone_has_a_fault(rt: HostRuntime) -> Result<(), Fail> {
    let mut fuse = FuseSink::new(ListSink::new(rt.alloc()), 1);
    for tag in 1..4 {
        assert_eq!(rt; has_fault(&rt, &mut fuse, tag, None)?, tag == 2);
        assert_eq!(rt; fuse.faults(), u64::from(tag > 1));
    }
    let made = sizes(rt.alloc(), fuse.sink())?;
    assert_eq!(rt; made.as_slice(), [(1, 9, None), (3, 9, None)].as_slice());
    Ok(())
}
