//! Jobs of tickets: what is printed of them; and the texts of a job's faults.
use press_bits::{Bitmap, DotRow, Mode, Sheet};
use press_stream::JobError;
use press_theorem::print_ticket;
use std::alloc::Global;
use std::process::Abort;
use std::test::Fail;

/// Two sets of three pages, on both sides of the sheets.
const TICKET: &[u8] = br#"{"Amount":2,"JobID":"J","NPage":3,"Sides":"TwoSidedHeadToHead",
"Type":"DigitalPrinting","Version":"1.5"}"#;

/// Three images of a black dot.
fn dots(alloc: Global) -> Result<[Bitmap; 3], Fail> {
    let mode = Mode {
        source_opaque: false,
        pattern_opaque: false,
    };
    let black = DotRow {
        bits: &[0x80],
        dots: 1,
    };
    let mut images = [
        Bitmap::blank(alloc, 1, 1)?,
        Bitmap::blank(alloc, 1, 1)?,
        Bitmap::blank(alloc, 1, 1)?,
    ];
    for image in &mut images {
        image.paint_row(0, 0, black, DotRow::black(), mode)?;
    }
    Ok(images)
}

#[test]
fn faults_of_streams_are_told_by_their_numbers(rt: HostRuntime) -> Result<(), Fail> {
    let told = format!(in rt.alloc();
        "{}, {}, {}, {}, {}, {}",
        JobError::SinkFault,
        JobError::ReplyFault,
        JobError::Failed,
        JobError::ReadFault,
        JobError::AfterEnd,
        JobError::NoMemory
    )?;
    let wanted = "fault 301, fault 302, fault 303, fault 304, fault 305, fault memory";
    assert_eq!(rt; told.as_str(), wanted);
    Ok(())
}

/// The same at 600 dots per inch.
const FINE_TICKET: &[u8] = br#"{"Amount":2,"JobID":"J","NPage":3,"Resolution":600,
"Sides":"TwoSidedHeadToHead","Type":"DigitalPrinting","Version":"1.5"}"#;

/// A side of Letter: its width and height, and where its logical page begins.
type Side = (u32, u32, u32);

/// Whether a side is that of an image of one dot.
fn has_its_dot(side: &Bitmap, (width, height, offset): Side) -> bool {
    (side.width(), side.height()) == (width, height)
        && side.count_black() == 1
        && side.get(offset, 0)
}

/// A sheet with three pages in two sets has a back where its number, from 0, is even.
fn expect_dots(rt: &impl Abort, number: usize, sheet: &Sheet, side: Side) {
    assert!(rt; has_its_dot(&sheet.front, side));
    let back = sheet.back.as_ref().map(|back| has_its_dot(back, side));
    assert_eq!(rt; back, if number % 2 == 0 { Some(true) } else { None });
}

#[test]
fn dots_lie_at_the_corner_of_the_logical_page(rt: HostRuntime) -> Result<(), Fail> {
    let tickets: [(&[u8], Side); 2] = [
        (TICKET, (2550, 3300, 75)),
        (FINE_TICKET, (5100, 6600, 150)),
    ];
    for (ticket, side) in tickets {
        let printed = print_ticket(rt.alloc(), ticket, &dots(rt.alloc())?, 1)?;
        assert!(rt; printed.replies.bytes().is_empty());
        assert_eq!(rt; printed.sheets.deliveries().len(), 4);
        for (number, delivery) in printed.sheets.deliveries().iter().enumerate() {
            expect_dots(&rt, number, &delivery.sheet, side);
        }
    }
    Ok(())
}
