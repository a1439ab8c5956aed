//! Worked streams: what each prints and replies, worked out by hand from the manuals' rules and the geometry of pages.
use press_bits::Bitmap;

/// A page's width, and a digit for each of three dots: 1 where it is black.
pub(crate) fn note(page: &Bitmap) -> u32 {
    let mut digits: u32 = 0;
    for (x, y) in [(75, 150), (85, 170), (75, 187)] {
        digits = u32::saturating_add(u32::saturating_mul(digits, 10), u32::from(page.get(x, y)));
    }
    page.width().saturating_mul(1000).saturating_add(digits)
}

/// The note of a sheet's front, and that of its back, if it has one.
pub type Notes = (u32, Option<u32>);

/// A stream, the notes of its sheets, and its replies.
pub type Row = (&'static [u8], &'static [Notes], &'static [u8]);

/// A side on Letter on which none of the three dots is black.
const CLEAR: u32 = 2_550_000;

/// A sheet of one such side.
const BLANK: Notes = (CLEAR, None);

/// The first of the three dots is black.
pub const FIRST: Notes = (2_550_100, None);

/// The third of the three dots is black.
const THIRD: Notes = (2_550_001, None);

/// A sheet of pages with 600 dots per inch, on which none of the three dots is black.
const FINE: Notes = (5_100_000, None);

/// Streams of pages, cursors and broken commands.
pub const PAGES: [Row; 15] = [
    (b"", &[], b""),
    (b"\x1BE\x0C\x1BE", &[BLANK], b""),
    (b"\x1BE\x1B*p0x0Y\x1B*c3a2b0P\x1BE", &[FIRST], b""),
    (b"\x1B*p10x20Y\x1B*c3a2b0P\x0C", &[(2_550_010, None)], b""),
    (b"\x1B*p10\x0D\x0C", &[BLANK], b""),
    (b"\x1B*p10x20\x0D", &[], b""),
    (b"\x1B%-12345X\x1B\x01@PJL ECHO x\n", &[], b""),
    (
        b"\x1B%-12345X@PJL ENTER LANGUAGE=X\nab\x1B%-12345X",
        &[],
        b"",
    ),
    (b"\x1B&l3X\x0C", &[BLANK; 3], b""),
    // Marks at x 150, y 3237 of the page, which is turned.
    (b"\x1B&l1O\x1B*p0x0Y\x1B*c3a2b0P\x0C", &[BLANK], b""),
    (b"\x1B&l1S\x0C\x1BE", &[BLANK], b""),
    (b"\x1B&l1S\x0C\x1B&l2X\x0C", &[(CLEAR, Some(CLEAR)); 2], b""),
    (b"\x1B&l1S\x1B&l2X\x0C\x0C", &[(CLEAR, Some(CLEAR)); 2], b""),
    (b"\x1B*p5x100Y\x1B*c70a140b0P\x0C", &[BLANK], b""),
    // The last pop leaves the cursor one dot from the left edge.
    (
        b"\x1B*p1X\x1B&f0S\x1B*p2X\x1B&f0S\x1B*p3X\x1B&f0S\x1B*p4X\x1B&f0S\x1B*p5X\x1B&f0S\
          \x1B*p6X\x1B&f0S\x1B*p7X\x1B&f0S\x1B*p8X\x1B&f0S\x1B*p9X\x1B&f0S\x1B*p10X\x1B&f0S\
          \x1B*p11X\x1B&f0S\x1B*p12X\x1B&f0S\x1B*p13X\x1B&f0S\x1B*p14X\x1B&f0S\x1B*p15X\x1B&f0S\
          \x1B*p16X\x1B&f0S\x1B*p17X\x1B&f0S\x1B*p18X\x1B&f0S\x1B*p19X\x1B&f0S\x1B*p20X\x1B&f0S\
          \x1B*p21X\x1B&f0S\x1B&f1S\x1B&f1S\x1B&f1S\x1B&f1S\x1B&f1S\x1B&f1S\x1B&f1S\x1B&f1S\x1B&f1S\
          \x1B&f1S\x1B&f1S\x1B&f1S\x1B&f1S\x1B&f1S\x1B&f1S\x1B&f1S\x1B&f1S\x1B&f1S\x1B&f1S\x1B&f1S\
          \x1B&f1S\x1B*p-1X\x1B*c1a1b0P\x0C",
        &[THIRD],
        b"",
    ),
];

/// Streams that mark pages by raster rows, patterns, macros and overlays.
pub const MARKS: [Row; 12] = [
    (b"\x1B*t300R\x1B*r0A\x1B*b1m2W\x02\xF0\x0C", &[THIRD], b""),
    (
        b"\x1B*t300R\x1B*r0A\x1B*b3m2W\x00\xFF\x1B*b0W\x1B*b0m0W\x1B*b3m0W\x1B*rC\x0C",
        &[THIRD],
        b"",
    ),
    (
        b"\x1B*t300R\x1B*r0A\x1B*b3m2W\x00\xFF\x1B*b1Y\x1B*b0W\x1B*rC\x0C",
        &[THIRD],
        b"",
    ),
    // Five rows by adaptive compression.
    (
        b"\x1B*t300R\x1B*r0A\x1B*b5m15W\x00\x00\x01\xFF\x05\x00\x02\x04\x00\x01\x03\x00\x02\x00\x81\x0C",
        &[THIRD],
        b"",
    ),
    (b"\x1B*t75R\x1B*r1A\x1B*b1W\x80\x0C", &[THIRD], b""),
    (
        b"\x1B*p0x0Y\x1B*c16a1b0P\x1B*t300R\x1B*r8S\x1B*v1N\x1B*r1A\x1B*b0W\x1B*rC\x0C",
        &[BLANK],
        b"",
    ),
    // The second definition has too few bytes.
    (
        b"\x1B*c5G\x1B*c16W\x00\x00\x01\x00\x00\x08\x00\x08\xFF\xFF\xFF\xFF\xFF\xFF\xFF\xFF\
          \x1B*c15W\x00\x00\x01\x00\x00\x08\x00\x08\x00\x00\x00\x00\x00\x00\x00\x1B*p0x0Y\x1B*c2a1b4P\x0C",
        &[FIRST],
        b"",
    ),
    (b"\x1B*c50G\x1B*p0x0Y\x1B*c4a1b2P\x0C", &[BLANK], b""),
    (
        b"\x1B*p0x0Y\x1B&f1y0X\x1B*c1a1b0P\x1B*p+2X\x1B&f3X\x1B&f1X\x1B&f3X\x0C",
        &[FIRST],
        b"",
    ),
    (
        b"\x1B&f1y0X\x1B*c1a1b0P\x1B*p+2X\x1B&f1x2x2X\x0C",
        &[THIRD],
        b"",
    ),
    (
        b"\x1B&f2y0X\x1B*c4a1b0P\x0C\x1B&f1X\x1B&f4X\x0C\x0C",
        &[THIRD; 2],
        b"",
    ),
    // The exit that is added drops the open definition before the overlay runs.
    (
        b"\x1B&f2y0X\x1B*c4a1b0P\x0C\x1B&f1X\x1B&f4X\x1B*c1a1b0P\x1B&f3y0X",
        &[THIRD],
        b"",
    ),
];

/// Five sheets, each with its reply: a page in three copies, and one in two.
pub const COPIES: Row = (
    b"\x1B%-12345X@PJL USTATUS PAGE=ON\n@PJL SET COPIES=3\n@PJL ENTER LANGUAGE=PCL\n\x0C\x1B&l2X\x0C",
    &[BLANK; 5],
    b"@PJL USTATUS PAGE\r\n1\r\n\x0C@PJL USTATUS PAGE\r\n2\r\n\x0C@PJL USTATUS PAGE\r\n3\r\n\x0C\
      @PJL USTATUS PAGE\r\n4\r\n\x0C@PJL USTATUS PAGE\r\n5\r\n\x0C",
);

/// Three copies of a page, each told when it is delivered.
pub const THREE_TOLD: Row = (
    b"\x1B%-12345X@PJL USTATUS PAGE=ON\n\x1B&l3X\x0C",
    &[BLANK; 3],
    b"@PJL USTATUS PAGE\r\n1\r\n\x0C@PJL USTATUS PAGE\r\n2\r\n\x0C@PJL USTATUS PAGE\r\n3\r\n\x0C",
);

/// Streams with lines of the job language.
pub const JOBS: [Row; 11] = [
    COPIES,
    (
        b"\x1B%-12345X@PJL SET COPIES=3\r\n@PJL INQUIRE COPIES\r\n@PJL DINQUIRE COPIES\r\n",
        &[],
        b"@PJL INQUIRE COPIES\r\n3\r\n\x0C@PJL DINQUIRE COPIES\r\n1\r\n\x0C",
    ),
    (
        b"\x1B%-12345X@PJL USTATUS PAGE=ON\n@PJL ENTER LANGUAGE=PCL\n\x0C",
        &[BLANK],
        b"@PJL USTATUS PAGE\r\n1\r\n\x0C",
    ),
    THREE_TOLD,
    (
        b"\x1B%-12345X@PJL COMMENT x\n@PJL INQUIRE PAPER\n",
        &[],
        b"@PJL INQUIRE PAPER\r\nLETTER\r\n\x0C",
    ),
    (
        b"\x1B%-12345X@PJL INQUIRE FOO\n@PJL ECHO a  b \n@PJL INFO ID\n",
        &[],
        b"@PJL INQUIRE FOO\r\n\"?\"\r\n\x0C@PJL ECHO a  b \r\n\x0C@PJL INFO ID\r\n\"DIGITAL PRESS\"\r\n\x0C",
    ),
    (
        b"\x1B%-12345X@PJL SET PAPER=EXECUTIVE\n@PJL SET DUPLEX=ON\n@PJL ENTER LANGUAGE=PCL\n\x0C\x1B*c2a2b0P",
        &[(2_175_000, Some(2_175_001))],
        b"",
    ),
    (
        b"\x1B%-12345X@PJL USTATUS PAGE=ON\n@PJL ENTER LANGUAGE=PCL\n\x0C\x0C\x1B%-12345X@PJL JOB\n@PJL ENTER LANGUAGE=PCL\n\x0C",
        &[BLANK; 3],
        b"@PJL USTATUS PAGE\r\n1\r\n\x0C@PJL USTATUS PAGE\r\n2\r\n\x0C@PJL USTATUS PAGE\r\n1\r\n\x0C",
    ),
    (
        b"\x1B%-12345X@PJL SET COPIES=2\n@PJL ENTER LANGUAGE=PCL\n\x1B*c1a1b0P\x1B%-12345X@PJL INFO PAGECOUNT\n@PJL EOJ\n@PJL INQUIRE COPIES\n",
        &[THIRD; 2],
        b"@PJL INFO PAGECOUNT\r\n2\r\n\x0C@PJL INQUIRE COPIES\r\n1\r\n\x0C",
    ),
    // Marks at x 150, y 300 of the page.
    (
        b"\x1B%-12345X@PJL SET RESOLUTION=600\n\x1BE\x1B*p0x0Y\x1B*c3a2b0P\x1BE\
          \x1B%-12345X@PJL INQUIRE RESOLUTION\n@PJL DINQUIRE RESOLUTION\n",
        &[FINE],
        b"@PJL INQUIRE RESOLUTION\r\n600\r\n\x0C@PJL DINQUIRE RESOLUTION\r\n300\r\n\x0C",
    ),
    // Marks at x 150, y 375 of the page.
    (
        b"\x1B%-12345X@PJL SET RESOLUTION=600\n\x1B*t200R\x1B*r1A\x1B*b1W\x80\x0C",
        &[FINE],
        b"",
    ),
];
