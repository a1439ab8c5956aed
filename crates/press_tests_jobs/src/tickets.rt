//! A job ticket that is read, and the order of its pages.
use press_ticket::read_ticket;
use std::test::Fail;

/// Three pages, twice, at 600 dots per inch.
const TICKET: &[u8] =
    br#"{"Amount":2,"JobID":"J","NPage":3,"Resolution":600,"RunList":[[0,-1],[1,0]],
"Sides":"TwoSidedHeadToHead","Type":"DigitalPrinting","Version":"1.5"}"#;

#[test]
fn pages_come_in_the_order_of_the_ranges(rt: HostRuntime) -> Result<(), Fail> {
    let pages = read_ticket(rt.alloc(), TICKET)?.page_order(rt.alloc())?;
    assert_eq!(rt; pages.as_slice(), [0, 1, 2, 1, 0].as_slice());
    Ok(())
}
