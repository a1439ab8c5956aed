//! Fills on pages whose left half is black.
use press_bits::{Bitmap, DotRow, Mode};
use press_fill::{DotEffect, Rect, dot_rule, fill};
use press_page::{Defaults, Orientation, PageEnv};
use press_pattern::{Pattern, PatternKind, Patterns};
use std::alloc::Global;
use std::process::Abort;
use std::test::Fail;

const TRANSPARENT: Mode = Mode {
    source_opaque: false,
    pattern_opaque: false,
};

const PATTERN_OPAQUE: Mode = Mode {
    source_opaque: false,
    pattern_opaque: true,
};

/// A page of so many lines of eight dots, of which the four at the left are black.
fn half_black(alloc: Global, lines: u16) -> Result<Bitmap, Fail> {
    let mut page = Bitmap::blank(alloc, 8, u32::from(lines))?;
    let row = DotRow {
        bits: &[0xf0],
        dots: 8,
    };
    for y in 0..lines {
        page.paint_row(0, i64::from(y), row, DotRow::black(), TRANSPARENT)?;
    }
    Ok(page)
}

fn environment(orientation: Orientation) -> PageEnv {
    let mut environment = PageEnv::reset_from(&Defaults::factory());
    environment.change_orientation(orientation);
    environment
}

fn expect_line(rt: &impl Abort, page: &Bitmap, y: u32, byte: u8) {
    assert!(rt; y < page.height());
    assert_eq!(rt; page.line(y), [byte].as_slice());
}

/// Two lines of eight dots, filled from a column on.
fn expect_filled(
    rt: &impl Abort,
    alloc: Global,
    area: Rect,
    pattern: Pattern,
    mode: Mode,
    lines: [u8; 2],
) -> Result<(), Fail> {
    let patterns = Patterns::new(alloc);
    let mut page = half_black(alloc, 2)?;
    let environment = environment(Orientation::Portrait);
    fill(&mut page, &environment, &patterns, area, pattern, mode)?;
    expect_line(rt, &page, 0, lines[0]);
    expect_line(rt, &page, 1, lines[1]);
    Ok(())
}

const WHOLE_PAGE: Rect = Rect {
    x: 0,
    y: 0,
    width: 8,
    height: 2,
};

#[test]
fn solid_white_whitens(rt: HostRuntime) -> Result<(), Fail> {
    let white = Pattern {
        kind: PatternKind::White,
        id: 0,
    };
    let middle = Rect {
        x: 2,
        y: 0,
        width: 4,
        height: 1,
    };
    expect_filled(&rt, rt.alloc(), middle, white, TRANSPARENT, [0xc0, 0xf0])
}

#[test]
fn a_pattern_that_does_not_exist_changes_nothing(rt: HostRuntime) -> Result<(), Fail> {
    let none = Pattern {
        kind: PatternKind::User,
        id: 9,
    };
    expect_filled(
        &rt,
        rt.alloc(),
        WHOLE_PAGE,
        none,
        PATTERN_OPAQUE,
        [0xf0, 0xf0],
    )
}

#[test]
fn the_dot_rule(rt: HostRuntime) {
    assert_eq!(rt; dot_rule(true, true, false, false), DotEffect::MadeBlack);
    assert_eq!(rt; dot_rule(true, false, false, true), DotEffect::MadeWhite);
    assert_eq!(rt; dot_rule(false, true, false, true), DotEffect::Unchanged);
    assert_eq!(rt; dot_rule(false, true, true, false), DotEffect::MadeWhite);
}

#[test]
fn a_white_fill_makes_no_band(rt: HostRuntime) -> Result<(), Fail> {
    let patterns = Patterns::new(rt.alloc());
    let environment = environment(Orientation::Landscape);
    let mut page = Bitmap::blank(rt.alloc(), 8, 70)?;
    for (kind, ready) in [(PatternKind::White, false), (PatternKind::Black, true)] {
        let pattern = Pattern { kind, id: 0 };
        fill(
            &mut page,
            &environment,
            &patterns,
            WHOLE_PAGE,
            pattern,
            PATTERN_OPAQUE,
        )?;
        assert_eq!(rt; page.bands().are_ready(62, 8), ready);
    }
    assert_eq!(rt; page.count_black(), 16);
    Ok(())
}
