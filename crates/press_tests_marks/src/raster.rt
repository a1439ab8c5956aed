//! Rows of raster graphics on small pages: one below the other, in the room that they take, and as many as may be.
use press_bits::{Bitmap, Mode};
use press_canvas::Canvas;
use press_cursor::Cursor;
use press_page::{Defaults, PageEnv};
use press_pattern::Brush;
use press_raster::{Raster, RasterPosition, RasterSettings};
use press_units::{Pos, Resolution, Value, is_field, read_value};
use std::alloc::{AllocError, Global};
use std::process::Abort;
use std::test::Fail;

const TRANSPARENT: Mode = Mode {
    source_opaque: false,
    pattern_opaque: false,
};

/// The cursor so many dots below the upper edge of a page that is Letter.
fn on_line(environment: &PageEnv, line: u16) -> Cursor {
    let page = environment.logical_page();
    let mut cursor = Cursor::at_home(0, environment.settings.vertical_motion, page);
    let y = 24 * i64::from(line) - i64::from(environment.margins.top);
    cursor.move_y(Pos(y), false, page);
    cursor
}

fn value(rt: &impl Abort, field: &[u8]) -> Value {
    assert!(rt; is_field(field));
    read_value(field)
}

/// Settings by the values of the resolution, the source width and the method.
fn settings(rt: &impl Abort, resolution: &[u8], width: &[u8], method: &[u8]) -> RasterSettings {
    let mut settings = RasterSettings::initial();
    settings.set_resolution(Resolution::Dpi300, value(rt, resolution));
    settings.set_source_width(value(rt, width));
    settings.set_method(value(rt, method));
    settings
}

/// Transfers rows from a line on.
fn transfer(
    raster: &mut Raster,
    page: &mut Canvas,
    line: u16,
    settings: RasterSettings,
    brush: &Brush<'_>,
    data: &[u8],
) -> Result<(), Fail> {
    let environment = PageEnv::reset_from(&Defaults::factory());
    let mut cursor = on_line(&environment, line);
    raster.transfer(page, &environment, &mut cursor, settings, brush, data)?;
    Ok(())
}

/// A white page that lies upright.
fn white_page(alloc: Global, width: u32, height: u32) -> Result<Canvas, Fail> {
    Ok(Canvas::of_page(Bitmap::blank(alloc, width, height)?))
}

/// The dots of a page that lies upright.
fn bitmap_of<'a>(rt: &impl Abort, page: &'a Canvas) -> &'a Bitmap {
    page.upright().expect(rt, "it lies upright")
}

/// The sixteen dots of a line from column 75 on.
fn dots_of(page: &Bitmap, line: u32) -> u16 {
    let mut dots = 0;
    for x in 75..91 {
        dots = dots % 0x8000 * 2 + u16::from(page.get(x, line));
    }
    dots
}

/// Where raster graphics stands, in which so many rows were transferred or left out.
fn expect_rows(rt: &impl Abort, raster: &Raster, rows: u32) {
    let expected = if rows == 0 {
        None
    } else {
        Some(RasterPosition { left: 0, rows })
    };
    assert_eq!(rt; raster.position(), expected);
    assert_eq!(rt; raster.is_on(), rows > 0);
}

/// A row, the same twice more, an empty one, and by a delta row of that the first and the last dot of a byte.
const FIVE_ROWS: &[u8] = b"\x00\x00\x01\xff\x05\x00\x02\x04\x00\x01\x03\x00\x02\x00\x81";

/// Transfers blocks to a small page, and looks at its lines.
fn expect_lines(
    rt: &(impl Abort + AllocGlobal),
    raster: &mut Raster,
    settings: RasterSettings,
    data: &[u8],
    lines: &[u16],
) -> Result<(), Fail> {
    let brush = Brush::black(TRANSPARENT);
    let mut page = white_page(rt.alloc(), 91, 8)?;
    transfer(raster, &mut page, 1, settings, &brush, data)?;
    for (line, dots) in (0..8).zip(lines) {
        assert_eq!(rt; dots_of(bitmap_of(rt, &page), line), *dots);
    }
    Ok(())
}

#[test]
fn blocks_print_rows_one_below_the_other(rt: HostRuntime) -> Result<(), Fail> {
    let mut raster = Raster::new(rt.alloc());
    raster.start(0);
    let settings = settings(&rt, b"300", b"16", b"5");
    let lines = [0, 0xff00, 0xff00, 0xff00, 0, 0x8100, 0, 0];
    expect_lines(&rt, &mut raster, settings, FIVE_ROWS, &lines)?;
    expect_rows(&rt, &raster, 5);
    // The seed row goes on, and is white after a count of 0.
    expect_lines(&rt, &mut raster, settings, &[5, 0, 1], &[0, 0x8100, 0])?;
    assert!(rt; !raster.takes_rows(settings, &[4, 0, 0]));
    raster.pass(settings, &[4, 0, 0]);
    expect_lines(&rt, &mut raster, settings, &[5, 0, 1], &[0, 0, 0])?;
    expect_rows(&rt, &raster, 7);
    Ok(())
}

#[test]
fn a_row_that_marks_nothing_makes_no_band(rt: HostRuntime) -> Result<(), Fail> {
    let opaque = Mode {
        source_opaque: true,
        ..TRANSPARENT
    };
    let settings = settings(&rt, b"300", b"16", b"0");
    let mut raster = Raster::new(rt.alloc());
    raster.start(0);
    let mut page = white_page(rt.alloc(), 91, 4)?;
    for (mode, ready) in [(TRANSPARENT, false), (opaque, true)] {
        let brush = Brush::black(mode);
        transfer(&mut raster, &mut page, 1, settings, &brush, &[0; 2])?;
        assert_eq!(rt; page.frame().bitmap.bands().are_ready(1, 1), ready);
    }
    Ok(())
}

/// A row, and then as many like it as so many bytes can ask for.
fn rows_without_end(alloc: Global) -> Result<Vec<u8>, AllocError> {
    let mut data = Vec::new(alloc);
    data.extend_from_slice(&[0x00, 0x00, 0x01, 0xff])?;
    for block in 0..21_843 {
        data.extend_from_slice(&[0x05, 0xff, 0xff])?;
    }
    Ok(data)
}

/// More than 1,400 million rows end at the lower edge of the logical page.
#[test]
fn the_most_rows_of_one_transfer(rt: HostRuntime) -> Result<(), Fail> {
    let mut raster = Raster::new(rt.alloc());
    raster.start(0);
    let mut page = white_page(rt.alloc(), 91, 3300)?;
    let settings = settings(&rt, b"300", b"8", b"5");
    let brush = Brush::black(TRANSPARENT);
    let data = rows_without_end(rt.alloc())?;
    transfer(&mut raster, &mut page, 1, settings, &brush, &data)?;
    expect_rows(&rt, &raster, 65_535);
    assert_eq!(rt; bitmap_of(&rt, &page).count_black(), 8 * 3299);
    Ok(())
}

#[test]
fn a_copy_stands_where_raster_graphics_does(rt: HostRuntime) -> Result<(), Fail> {
    let mut raster = Raster::new(rt.alloc());
    raster.start(7);
    raster.offset(2);
    let copy = raster.copy()?;
    assert_eq!(rt; copy.position(), Some(RasterPosition { left: 7, rows: 2 }));
    Ok(())
}
