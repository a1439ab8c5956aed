//! The tiles that always exist, and user-defined patterns.
use press_pattern::{DefineError, Pattern, PatternKind, Patterns, Tile};
use std::process::Abort;
use std::test::Fail;

/// A header of so many lines of so many dots.
const EIGHT_BY_EIGHT: [u8; 8] = [0, 0, 1, 0, 0, 8, 0, 8];

fn expect_line(rt: &impl Abort, patterns: &Patterns, pattern: Pattern, y: u32, line: &[u8]) {
    let row = patterns.row_of(pattern.kind, pattern.id, y);
    assert_eq!(rt; row.expect(rt, "the pattern exists"), line);
}

fn expect_shading(rt: &impl Abort, patterns: &Patterns, first: u16, last: u16, lines: [u8; 8]) {
    for id in [first, last] {
        let pattern = Pattern {
            kind: PatternKind::Shading,
            id,
        };
        for y in 0..8 {
            expect_line(rt, patterns, pattern, y, &[lines[y as usize]]);
        }
    }
}

#[test]
fn shadings(rt: HostRuntime) {
    let patterns = Patterns::new(rt.alloc());
    expect_shading(&rt, &patterns, 1, 2, [0x80, 0, 0, 0, 0, 0, 0, 0]);
    expect_shading(&rt, &patterns, 3, 10, [0x88, 0, 0, 0, 0x88, 0, 0, 0]);
    expect_shading(&rt, &patterns, 11, 20, [0x88, 0, 0x22, 0, 0x88, 0, 0x22, 0]);
    expect_shading(&rt, &patterns, 21, 35, [0xaa, 0, 0xaa, 0, 0xaa, 0, 0xaa, 0]);
    expect_shading(
        &rt,
        &patterns,
        36,
        55,
        [0xaa, 0x55, 0xaa, 0x55, 0xaa, 0x55, 0xaa, 0x55],
    );
    expect_shading(
        &rt,
        &patterns,
        56,
        80,
        [0xff, 0x55, 0xff, 0x55, 0xff, 0x55, 0xff, 0x55],
    );
    expect_shading(
        &rt,
        &patterns,
        81,
        99,
        [0x77, 0xff, 0xdd, 0xff, 0x77, 0xff, 0xdd, 0xff],
    );
    expect_shading(&rt, &patterns, 100, 100, [0xff; 8]);
    assert!(rt; patterns.row_of(PatternKind::Shading, 0, 0).is_none());
    assert!(rt; patterns.row_of(PatternKind::Shading, 101, 0).is_none());
}

fn expect_hatch(rt: &impl Abort, patterns: &Patterns, id: u16, lines: [u16; 16]) {
    let pattern = Pattern {
        kind: PatternKind::CrossHatch,
        id,
    };
    for y in 0..16 {
        expect_line(rt, patterns, pattern, y, &lines[y as usize].to_be_bytes());
    }
}

#[test]
fn cross_hatches(rt: HostRuntime) {
    let patterns = Patterns::new(rt.alloc());
    expect_hatch(
        &rt,
        &patterns,
        1,
        [0xffff, 0, 0, 0, 0, 0, 0, 0, 0, 0, 0, 0, 0, 0, 0, 0],
    );
    expect_hatch(&rt, &patterns, 2, [0x8000; 16]);
    expect_hatch(
        &rt,
        &patterns,
        3,
        [
            1, 2, 4, 8, 0x10, 0x20, 0x40, 0x80, 0x100, 0x200, 0x400, 0x800, 0x1000, 0x2000, 0x4000,
            0x8000,
        ],
    );
    expect_hatch(
        &rt,
        &patterns,
        4,
        [
            0x8000, 0x4000, 0x2000, 0x1000, 0x800, 0x400, 0x200, 0x100, 0x80, 0x40, 0x20, 0x10, 8,
            4, 2, 1,
        ],
    );
    expect_hatch(
        &rt,
        &patterns,
        5,
        [
            0xffff, 0x8000, 0x8000, 0x8000, 0x8000, 0x8000, 0x8000, 0x8000, 0x8000, 0x8000, 0x8000,
            0x8000, 0x8000, 0x8000, 0x8000, 0x8000,
        ],
    );
    expect_hatch(
        &rt,
        &patterns,
        6,
        [
            0x8001, 0x4002, 0x2004, 0x1008, 0x0810, 0x0420, 0x0240, 0x0180, 0x0180, 0x0240, 0x0420,
            0x0810, 0x1008, 0x2004, 0x4002, 0x8001,
        ],
    );
    assert!(rt; patterns.row_of(PatternKind::CrossHatch, 0, 0).is_none());
    assert!(rt; patterns.row_of(PatternKind::CrossHatch, 7, 0).is_none());
}

#[test]
fn solid_patterns(rt: HostRuntime) {
    let patterns = Patterns::new(rt.alloc());
    let black = Pattern {
        kind: PatternKind::Black,
        id: 7,
    };
    expect_line(&rt, &patterns, black, 3, &[0xff]);
    let white = Pattern {
        kind: PatternKind::White,
        id: 0,
    };
    expect_line(&rt, &patterns, white, 3, &[0]);
}

/// The bytes of rows of a tile of at most eight dots.
fn expect_rows(rt: &impl Abort, tile: &Tile<'_>, rows: &[(u32, u8)]) {
    for (y, row) in rows {
        assert_eq!(rt; tile.row(*y), [*row].as_slice());
    }
}

#[test]
fn a_pattern_of_three_dots(rt: HostRuntime) -> Result<(), Fail> {
    let mut patterns = Patterns::new(rt.alloc());
    // Two lines, black and white in turn; one byte more than they take.
    patterns.define(9, &[0, 0, 1, 0, 0, 2, 0, 3, 0xa0, 0x40, 0xff])?;
    let pattern = Pattern {
        kind: PatternKind::User,
        id: 9,
    };
    let tile = patterns.tile(pattern).expect(&rt, "it was defined");
    assert_eq!(rt; (tile.width(), tile.height()), (3, 2));
    expect_rows(&rt, &tile, &[(4, 0xa0), (5, 0x40)]);
    Ok(())
}

/// A header, and so many bytes behind it.
fn define_solid(
    rt: &HostRuntime,
    patterns: &mut Patterns,
    id: u16,
    rows: &[u8],
) -> Result<(), DefineError> {
    let mut bytes = EIGHT_BY_EIGHT.to_vec(rt.alloc())?;
    bytes.extend_from_slice(rows)?;
    patterns.define(id, &bytes)
}

#[test]
fn a_short_definition_changes_nothing(rt: HostRuntime) -> Result<(), Fail> {
    let mut patterns = Patterns::new(rt.alloc());
    define_solid(&rt, &mut patterns, 5, &[0xff; 8])?;
    let short = define_solid(&rt, &mut patterns, 5, &[0; 7]);
    assert!(rt; matches!(short, Err(DefineError::ShortData)));
    let pattern = Pattern {
        kind: PatternKind::User,
        id: 5,
    };
    expect_line(&rt, &patterns, pattern, 7, &[0xff]);
    Ok(())
}

fn expect_bad_header(rt: &impl Abort, patterns: &mut Patterns, bytes: &[u8]) {
    assert!(rt; matches!(patterns.define(1, bytes), Err(DefineError::BadHeader)));
}

#[test]
fn bad_headers(rt: HostRuntime) {
    let mut patterns = Patterns::new(rt.alloc());
    expect_bad_header(&rt, &mut patterns, &[0, 0, 1, 0, 0, 1, 0]);
    expect_bad_header(&rt, &mut patterns, &[1, 0, 1, 0, 0, 1, 0, 1, 0]);
    expect_bad_header(&rt, &mut patterns, &[0, 1, 1, 0, 0, 1, 0, 1, 0]);
    expect_bad_header(&rt, &mut patterns, &[0, 0, 0, 0, 0, 1, 0, 1, 0]);
    expect_bad_header(&rt, &mut patterns, &[0, 0, 1, 1, 0, 1, 0, 1, 0]);
    expect_bad_header(&rt, &mut patterns, &[0, 0, 1, 0, 0, 0, 0, 1, 0]);
    expect_bad_header(&rt, &mut patterns, &[0, 0, 1, 0, 0, 1, 0, 0, 0]);
    assert!(rt; patterns.row_of(PatternKind::User, 1, 0).is_none());
}

#[test]
fn faults_tell_their_number(rt: HostRuntime) -> Result<(), Fail> {
    let told = format!(in rt.alloc(); "{}, {}", DefineError::BadHeader, DefineError::ShortData)?;
    assert_eq!(rt; told.as_str(), "fault 201, fault 202");
    Ok(())
}

fn exists(patterns: &Patterns, id: u16) -> bool {
    patterns.row_of(PatternKind::User, id, 0).is_some()
}

#[test]
fn a_copy_has_what_was_defined(rt: HostRuntime) -> Result<(), Fail> {
    let mut patterns = Patterns::new(rt.alloc());
    define_solid(&rt, &mut patterns, 5, &[0xff; 8])?;
    let copy = patterns.copy()?;
    assert!(rt; exists(&copy, 5));
    Ok(())
}
