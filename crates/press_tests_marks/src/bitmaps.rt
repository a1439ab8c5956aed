//! Worked pages: blank ones, lines, columns and bands.
use press_bits::{Bitmap, BlankError, DotRow, MAX_SIDE, Mode, WIDEST_ROW};
use std::alloc::Global;
use std::process::Abort;
use std::test::Fail;

#[test]
fn a_blank_page_has_two_sides_and_no_black_dot(rt: HostRuntime) -> Result<(), Fail> {
    assert!(rt; matches!(Bitmap::blank(rt.alloc(), 0, 5), Err(BlankError::BadSize)));
    assert!(rt;
        matches!(
            Bitmap::blank(rt.alloc(), 5, 16_385),
            Err(BlankError::BadSize)
        )
    );
    let page = Bitmap::blank(rt.alloc(), 3, 2)?;
    expect_white(&rt, &page);
    expect_white(&rt, &page.copy()?);
    Ok(())
}

fn expect_white(rt: &impl Abort, page: &Bitmap) {
    assert_eq!(rt; page.width(), 3);
    assert_eq!(rt; page.height(), 2);
    assert_eq!(rt; page.count_black(), 0);
    for y in 0..4 {
        for x in 0..4 {
            assert!(rt; !page.get(x, y));
        }
    }
}

const TRANSPARENT: Mode = Mode {
    source_opaque: false,
    pattern_opaque: false,
};

#[test]
fn the_widest_row_has_its_bytes(rt: HostRuntime) {
    assert_eq!(rt; (MAX_SIDE, WIDEST_ROW), (16_384, 2048));
}

#[test]
fn faults_tell_their_number(rt: HostRuntime) -> Result<(), Fail> {
    let faults: [(BlankError, &str); 2] = [
        (BlankError::BadSize, "fault 101"),
        (BlankError::NoMemory, "fault memory"),
    ];
    for (fault, text) in faults {
        assert_eq!(rt; format!(in rt.alloc(); "{fault}")?.as_str(), text);
    }
    Ok(())
}

#[test]
fn a_line_is_its_bytes(rt: HostRuntime) -> Result<(), Fail> {
    let mut page = Bitmap::blank(rt.alloc(), 10, 2)?;
    let row = DotRow {
        bits: &[0xFF, 0xFF],
        dots: 16,
    };
    page.paint_row(-1, 1, row, DotRow::black(), TRANSPARENT)?;
    assert!(rt; page.height() > 1);
    assert_eq!(rt; page.line(0), [0, 0].as_slice());
    assert_eq!(rt; page.line(1), [0xFF, 0xC0].as_slice());
    assert_eq!(rt;
        page.column(9, 0),
        [false, true, false, false, false, false, false, false]
    );
    assert_eq!(rt; page.column(10, 0), [false; 8]);
    Ok(())
}

#[test]
fn a_page_has_no_change_from_its_copy(rt: HostRuntime) -> Result<(), Fail> {
    let page = Bitmap::blank(rt.alloc(), 10, 2)?;
    let copy = page.copy()?;
    assert!(rt; page.changed(&copy).is_none());
    assert!(rt; page.changed_between(&copy, 0, 2).is_none());
    assert!(rt; page.changed_between(&copy, 2, 0).is_none());
    Ok(())
}

#[test]
fn bands_are_ready_where_they_were_made(rt: HostRuntime) -> Result<(), Fail> {
    let mut page = Bitmap::blank(rt.alloc(), 10, 144)?;
    page.paint_row(0, 64, DotRow::black(), DotRow::black(), TRANSPARENT)?;
    let bands = page.bands();
    assert!(rt; bands.are_ready(64, 64));
    assert!(rt; !bands.are_ready(63, 2));
    assert!(rt; !bands.are_ready(127, 2));
    assert!(rt; bands.are_ready(-5, 5));
    assert!(rt; bands.are_ready(144, 3));
    bands.ready(-5, 6)?;
    assert!(rt; bands.are_ready(-5, 133));
    assert!(rt; !bands.are_ready(-5, 134));
    Ok(())
}

/// A page of ten dots by as many lines as it is high, all black.
fn black_page(alloc: Global, height: u32) -> Result<Bitmap, Fail> {
    let mut page = Bitmap::blank(alloc, 10, height)?;
    let row = DotRow {
        bits: &[0xFF, 0xFF],
        dots: 16,
    };
    for y in 0..height {
        page.paint_row(0, i64::from(y), row, DotRow::black(), TRANSPARENT)?;
    }
    Ok(page)
}

/// Whether one mark in the memory of a black page leaves eight black dots and the bytes of a line.
fn is_clean(alloc: Global, width: u32, height: u32) -> Result<bool, Fail> {
    let mut page = Bitmap::blank(alloc, width, 130)?;
    page.reuse(black_page(alloc, height)?);
    page.paint_row(1, 129, DotRow::black(), DotRow::black(), TRANSPARENT)?;
    let clean = page.height() > 129 && page.line(129).starts_with(&[0x7F, 0x80]);
    Ok(clean && page.count_black() == 8)
}

#[test]
fn a_page_is_made_in_the_memory_of_another(rt: HostRuntime) -> Result<(), Fail> {
    for (width, height) in [(10, 130), (10, 64), (90, 130), (9, 130)] {
        assert!(rt; is_clean(rt.alloc(), width, height)?, "{width} by {height}");
    }
    Ok(())
}
