//! Streams by the rows of the command table, one by one: the values at the ends of their ranges and outside, signs and
//! fractions, with what they leave. All numbers are worked out by hand; positions are in 1/7200 inch.
//!
//! A table has a line for each stream, in which `^` is ESC, `<` CR, `|` LF and `~` FF, and data stands in brackets, two
//! hexadecimal digits a byte; behind it stand the numbers that it gives.

/// What the numbers behind a stream are.
#[derive(Clone, Copy)]
pub enum Shows {
    /// The cursor: x and y. On Letter the logical page is 57,600 wide, and 75,600 long below the top margin; home is at 0, 900.
    Position,
    /// x and y, and how many positions are pushed.
    Stack,
    /// The left, right and top margin, the text length, x and y.
    Margins,
    /// Copies, whether in duplex, and whether the sheets are bound along the long edge.
    Copies,
    /// What follows a page with a mark at 240, 480, and a page without one: how many sheets go out, and x and y after the former.
    Closes,
    /// Where rows of raster graphics begin and how many there were, -1 for both where it is off; and x and y.
    Raster,
    /// The pattern ID; the number of the current pattern's kind and its ID; and whether white dots of source and pattern are
    /// opaque.
    Drawing,
    /// The macro ID, the ID of the overlay and of the open definition (-1 for none), and how many steps were taken.
    Macros,
    /// How many steps were taken, x and y, and how many bodies run.
    Runs,
}

/// The tables, with the number of their lines.
pub const TABLES: [(Shows, usize, &str); 9] = [
    (Shows::Position, 84, MOVES),
    (Shows::Stack, 4, STACK),
    (Shows::Margins, 75, MARGINS),
    (Shows::Copies, 18, COPIES),
    (Shows::Closes, 55, CLOSES),
    (Shows::Raster, 49, RASTER),
    (Shows::Drawing, 30, DRAWING),
    (Shows::Macros, 23, DEFINITIONS),
    (Shows::Runs, 28, RUNS),
];

const MOVES: &str = "\
^*p2400X 57600 900
^*p2401X 57600 900
^*p-1X 0 900
^*p10x+2X 288 900
^*p1.9X 45 900
^*p3150Y 0 75600
^*p3151Y 0 75600
^*p-150Y 0 -2700
^*p-300Y 0 -3600
^*p1.5Y 0 36
^&a80C 57600 900
^&a81C 57600 900
^&a+1.5C 1080 900
^&a-1C 0 900
^&a0R 0 900
^&a62R 0 75300
^&a63R 0 75600
^&a-1R 0 -300
^&a+0.5R 0 1500
^&a5760H 57600 900
^&a5761H 57600 900
^&a+10H 100 900
^&a7560V 0 75600
^&a7561V 0 75600
^&a-10V 0 800
^&u96D^*p1X 75 900
^&u7200D^*p1X 1 900
^&u95D^*p1X 24 900
^&u97D^*p1X 24 900
^&u7201D^*p1X 24 900
^&u600.9D^*p1X 12 900
^&u-600D^*p1X 24 900
^&k840H^&a1C 50400 900
^&k840.0001H^&a1C 720 900
^&k0H^&a5C 0 900
^&k-0.001H^&a1C 720 900
^&k1.5H^&a1C 90 900
^&l336C^&a0R 0 37800
^&l336.0001C^&a0R 0 900
^&l0C^&a0R 0 0
^&l-0.001C^&a0R 0 900
^&l0.5C^&a0R 0 56
^&l1D^&a0R 0 5400
^&l48D^&a0R 0 112
^&l5D^&a0R 0 900
^&l0D^&a0R 0 900
^&l49D^&a0R 0 900
^&l-6D^&a0R 0 900
^&l12.9D^&a0R 0 450
^*p10X< 0 900
^*p10X| 240 2100
^*p10X^= 240 1500
^&k1G^*p10X<| 0 3300
^&k2G^*p10X| 0 2100
^&k3G^*p10X< 0 2100
^&k4G^*p10X< 0 900
^&k3G^&k-1G^&k0G^*p10X| 240 2100
^&k2G^*p10X^= 240 1500
^*p10X^&f0S^*p20x30Y^&f1S 240 900
^*p10X^&f0S^*p20X^&f1.9S^&f1S 240 900
^*p10X^&f0S^*p20X^&f2S^&f-1S 480 900
^*p10x20Y~ 240 900
^&u+150D^*p1X 48 900
^&u95.9999D^*p1X 24 900
^&u-96D^*p1X 24 900
^&k2.9G^*p10X| 0 2100
^&k+3G^*p10X< 0 2100
^&k3G^&k-0.9G^*p10X| 240 2100
^&k336H^&a1C 20160 900
^&k+10.5H^&a1C 630 900
^&k.0066H^&a1C 0 900
^&k-0.0001H^&a1C 720 900
^&l+10.5C^&a0R 0 1181
^&l.0066C^&a0R 0 0
^&l-0.0001C^&a0R 0 900
^&l2D^&a0R 0 2700
^&l3D^&a0R 0 1800
^&l4D^&a0R 0 1350
^&l6D^&a0R 0 900
^&l8D^&a0R 0 675
^&l16D^&a0R 0 337
^&l24D^&a0R 0 225
^&l+8.9D^&a0R 0 675
^&l-8D^&a0R 0 900";

const STACK: &str = "\
^*p1X^&f0S^*p2X^&f0S^*p3X^&f0S^*p4X^&f0S^*p5X^&f0S^*p6X^&f0S^*p7X^&f0S^*p8X^&f0S^*p9X^&f0S^*p10X^&f0S^*p11X^&f0S^*p12X^&f0S^*p13X^&f0S^*p14X^&f0S^*p15X^&f0S^*p16X^&f0S^*p17X^&f0S^*p18X^&f0S^*p19X^&f0S^*p20X^&f0S^*p21X^&f0S 504 900 20
^*p1X^&f0S^*p2X^&f0S^*p3X^&f0S^*p4X^&f0S^*p5X^&f0S^*p6X^&f0S^*p7X^&f0S^*p8X^&f0S^*p9X^&f0S^*p10X^&f0S^*p11X^&f0S^*p12X^&f0S^*p13X^&f0S^*p14X^&f0S^*p15X^&f0S^*p16X^&f0S^*p17X^&f0S^*p18X^&f0S^*p19X^&f0S^*p20X^&f0S^*p21X^&f0S^&f1S 480 900 19
^*p1X^&f0S^*p2X^&f0S^*p3X^&f0S^*p4X^&f0S^*p5X^&f0S^*p6X^&f0S^*p7X^&f0S^*p8X^&f0S^*p9X^&f0S^*p10X^&f0S^*p11X^&f0S^*p12X^&f0S^*p13X^&f0S^*p14X^&f0S^*p15X^&f0S^*p16X^&f0S^*p17X^&f0S^*p18X^&f0S^*p19X^&f0S^*p20X^&f0S^*p21X^&f0S^&f1S^&f1S^&f1S^&f1S^&f1S^&f1S^&f1S^&f1S^&f1S^&f1S^&f1S^&f1S^&f1S^&f1S^&f1S^&f1S^&f1S^&f1S^&f1S^&f1S 24 900 0
^*p1X^&f0S^*p2X^&f0S^*p3X^&f0S^*p4X^&f0S^*p5X^&f0S^*p6X^&f0S^*p7X^&f0S^*p8X^&f0S^*p9X^&f0S^*p10X^&f0S^*p11X^&f0S^*p12X^&f0S^*p13X^&f0S^*p14X^&f0S^*p15X^&f0S^*p16X^&f0S^*p17X^&f0S^*p18X^&f0S^*p19X^&f0S^*p20X^&f0S^*p21X^&f0S^&f1S^&f1S^&f1S^&f1S^&f1S^&f1S^&f1S^&f1S^&f1S^&f1S^&f1S^&f1S^&f1S^&f1S^&f1S^&f1S^&f1S^&f1S^&f1S^&f1S^&f1S 24 900 0";

const MARGINS: &str = "\
^&a10L 7200 57600 3600 72000 7200 900
 0 57600 3600 72000 0 900
^%-12345X@PJL\tSET\tRESOLUTION=600| 0 57600 3600 72000 0 900
^&a79.9L 57528 57600 3600 72000 57528 900
^&a80L 0 57600 3600 72000 0 900
^&a-1L 0 57600 3600 72000 0 900
^*p2400X^&a0M 0 720 3600 72000 720 900
^&a79M 0 57600 3600 72000 0 900
^&a99M 0 57600 3600 72000 0 900
^&a-1M 0 57600 3600 72000 0 900
^&a-0.5M 0 360 3600 72000 0 900
^&a5L^&a5M 3600 4320 3600 72000 3600 900
^&a5L^&a4M 3600 57600 3600 72000 3600 900
^&a5l9M^9 0 57600 3600 72000 3600 900
^&a5L^*p0X< 3600 57600 3600 72000 3600 900
^&l3E 0 57600 3600 72000 0 900
^*p100Y^&l10E 0 57600 12000 63600 0 900
^&l66E 0 57600 79200 0 0 0
^&l66.0008E 0 57600 79200 0 0 0
^&l66.001E 0 57600 3600 72000 0 900
^&l0E 0 57600 0 75600 0 900
^&l-1E 0 57600 3600 72000 0 900
^&l0C^&l1E 0 57600 3600 72000 0 900
^&l63F 0 57600 3600 75600 0 900
^&l64F 0 57600 3600 72000 0 900
^&l1.9F 0 57600 3600 1200 0 900
^&l0F 0 57600 3600 72000 0 900
^&l-1F 0 57600 3600 72000 0 900
^&l0C^&l1F 0 57600 3600 72000 0 900
^&l10E^&l1L 0 57600 12000 63600 0 900
^&l10E^&l0L 0 57600 3600 72000 0 900
^&l0E^*p3300Y^&l0L 0 57600 3600 72000 0 75600
^&l10E^&l2L 0 57600 12000 63600 0 900
^&l1A 0 48600 3600 68400 0 900
^&a5L^&l2A 0 57600 3600 72000 0 900
^&l3A 0 57600 3600 93600 0 900
^&l6A 0 75600 3600 115200 0 900
^&l26A 0 56112 3600 76800 0 900
^&l27A 0 80760 3600 111600 0 900
^&a5L^&l4A 3600 57600 3600 72000 3600 900
^&l12D^&k1H^&l1O 0 76320 3600 54000 0 900
^&a5L^&l2O 0 57600 3600 72000 0 900
^&a5L^&l4O 3600 57600 3600 72000 3600 900
^&a79.9987L 57599 57600 3600 72000 57599 900
^&a-0.0001L 0 57600 3600 72000 0 900
^&a+1.5L 1080 57600 3600 72000 1080 900
^&a1L^&a.0013L 0 57600 3600 72000 720 900
^&a1L^&a0M 720 57600 3600 72000 720 900
^&a1L^&a0.0013M 720 57600 3600 72000 720 900
^&a1L^&a0.0014M 720 721 3600 72000 720 900
^&a1L^&a-0.5M 720 57600 3600 72000 720 900
^&a1L^&a+1.5M 720 1800 3600 72000 720 900
^&a1L^&a78M 720 56880 3600 72000 720 900
^&a1L^&a65535M 720 57600 3600 72000 720 900
^&l66.0009E 0 57600 3600 72000 0 900
^&l-0.0008E 0 57600 0 75600 0 900
^&l-0.0009E 0 57600 3600 72000 0 900
^&l+3.5E 0 57600 4200 70800 0 900
^&l1F 0 57600 3600 1200 0 900
^&l63.9F 0 57600 3600 75600 0 900
^&l0.9F 0 57600 3600 72000 0 900
^&l+2F 0 57600 3600 2400 0 900
^&l0E^&l-0.9L 0 57600 3600 72000 0 900
^&l0E^&l0.9L 0 57600 3600 72000 0 900
^&l0E^&l1L 0 57600 0 75600 0 900
^&l0E^&l+1.9L 0 57600 0 75600 0 900
^&l0E^&l2L 0 57600 0 75600 0 900
^&l0E^&l-1L 0 57600 0 75600 0 900
^&l12C^&a5L^&l26A 0 56112 3600 75600 0 1350
^&l12C^&l26A^&l1O 0 81336 3600 51600 0 900
^&l26A^&l1O^&l0C^&l26A 0 81336 3600 52320 0 0
^&l+26.9A 0 56112 3600 76800 0 900
^&l27.9999A 0 80760 3600 111600 0 900
^&l+1.5O 0 76320 3600 54000 0 900
^&l3O 0 76320 3600 54000 0 900";

const COPIES: &str = "\
^&l1X 1 0 1
 1 0 1
^&l0X 1 0 1
^&l-2X 1 0 1
^&l2.9X 2 0 1
^&l999X 999 0 1
^&l1000X 999 0 1
^&l1S 1 1 1
^&l2S 1 1 0
^&l2S^&l0S 1 0 0
^&l2S^&l3S 1 1 0
^&l2S^&l-1S 1 1 0
^&l7X^&l0.9X 7 0 1
^&l7X^&l-1X 7 0 1
^&l+2.9X 2 0 1
^&l7X^&l65535X 999 0 1
^&l+1.9999S 1 1 1
^&l2S^&l-0.9S 1 0 0";

const CLOSES: &str = "\
~ 1 1 240 900
^E 1 0 0 900
^%-12345X 1 0 0 900
^&l2A 1 0 0 900
^&l27A 1 0 0 900
^&l4A 0 0 240 480
^&l0O 1 0 0 900
^&l3O 1 0 0 900
^&l4O 0 0 240 480
^&l0S 1 0 0 900
^&l1S 1 0 0 900
^&l3S 0 0 240 480
^&l0H 1 0 240 900
^&l-7H 1 0 240 900
^&a0G 1 0 240 900
^&a1G 1 0 240 900
^&a2G 1 0 240 900
^&a3G 0 0 240 480
^&a-1G 0 0 240 480
<| 0 0 0 1680
^*p2950Y| 0 0 240 72000
^*p2951Y| 1 1 240 900
^*p2975Y^= 0 0 240 72000
^*p2976Y^= 1 1 240 900
^*p3100Y| 1 1 240 900
^&l0L^*p3100Y| 0 0 240 75600
^&l0L^*p3101Y| 1 1 240 900
^&k1G^*p2951Y< 1 1 0 900
^&k2G~ 1 1 0 900
^&l3X~ 3 3 240 900
^%0B~|^*p0X 0 0 240 480
^%0B~^%0A~ 1 1 240 900
^%0B^E~ 2 1 0 900
^&l0A 0 0 240 480
^&l1A 1 0 0 900
^&l3A 1 0 0 900
^&l5A 0 0 240 480
^&l6A 1 0 0 900
^&l7A 0 0 240 480
^&l25A 0 0 240 480
^&l26A 1 0 0 900
^&l28A 0 0 240 480
^&l-2A 0 0 240 480
^&l0.9999A 0 0 240 480
^&l+26.9A 1 0 0 900
^&l27.9999A 1 0 0 900
^&l-1O 0 0 240 480
^&l-0.9O 1 0 0 900
^&l1O 1 0 0 900
^&l2O 1 0 0 900
^&l+1.5O 1 0 0 900
^&l-1S 0 0 240 480
^&l-0.9S 1 0 0 900
^&l2S 1 0 0 900
^&l+1.9999S 1 0 0 900";

const RASTER: &str = "\
^*r0A 0 0 0 900
^*p10X^*r1A 240 0 240 900
^*p10X^*r3A 240 0 240 900
^*p10X^*r0A 0 0 0 900
^*p10X^*r2A 0 0 0 900
^*p10X^*r4A -1 -1 240 900
^*p10X^*r-1A -1 -1 240 900
^*p10X^*r1A^*r0A 240 0 240 900
^*r1A^*rB -1 -1 0 900
^*r1A^*r7C -1 -1 0 900
^*r1A^*p+0X -1 -1 0 900
^*r1A^*p+0Y -1 -1 0 900
^*r1A^&a+0R -1 -1 0 900
^*r1A< -1 -1 0 900
^*r1A^&f0S -1 -1 0 900
^*r1A^&f1S 0 0 0 900
^*r1A^9 0 0 0 900
^*r1A^&a1L -1 -1 720 900
^*p100X^*r1A^&a1L 2400 0 2400 900
^*p100X^*r1A^&a1M -1 -1 1440 900
^*r1A^&a1M 0 0 0 900
^*r1A^&l0L 0 0 0 900
^&l10E^*r1A^&l0L -1 -1 0 900
^*r1A^&l3E -1 -1 0 900
^*r1A^&l-3E 0 0 0 900
^*r1A^&a3G 0 0 0 900
^*r1A^&a0G 0 0 0 900
^*r1A^&l1H 0 0 0 900
^*r1A^&l2A -1 -1 0 900
^*r1A^&l0S -1 -1 0 900
^*r1A~ -1 -1 0 900
^*r1A^E -1 -1 0 900
^*r1A^*b3Y 0 3 0 1188
^*r1A^*b0Y 0 0 0 900
^*r1A^*b-1Y 0 0 0 900
^*b3Y -1 -1 0 900
^*r1A^*b65535Y^*b1Y 0 65535 0 75600
^*p10X^*b1W[80] 0 1 0 996
^*t300R^*r1A^*b1W[80] 0 1 0 924
^*r1A^*t300R^*b1W[80] 0 1 0 996
^*t200R^*b1W[80] 0 1 0 996
^*t600R^*b1W[80] 0 1 0 996
^%-12345X@PJL\tSET\tRESOLUTION=600|^*b1W[80] 0 1 0 996
^%-12345X@PJL\tSET\tRESOLUTION=600|^*t200R^*b1W[80] 0 1 0 936
^%-12345X@PJL\tSET\tRESOLUTION=600|^*t600R^*b1W[80] 0 1 0 912
^%-12345X@PJL\tSET\tRESOLUTION=600|^*t600R^%-12345X@PJL\tRESET|^*b1W[80] 0 1 0 996
^*r2T^*r1A^*b1W[80]^*b1W[80]^*b1W[80] 0 2 0 1092
^*r1T^*r1A^*b1W[80]^*b1Y 0 2 0 1092
^*r1A^*c1a1b0P 0 0 0 900";

const DRAWING: &str = "\
^*c5G 5 0 0 0 0
 0 0 0 0 0
^*c32767G 32767 0 0 0 0
^*c32768G 0 0 0 0 0
^*c-1G 0 0 0 0 0
^*c5G^*v1T 5 1 0 0 0
^*c50G^*v2T 50 2 50 0 0
^*c100G^*v2T^*c1G 1 2 100 0 0
^*c101G^*v2T 101 0 0 0 0
^*v2T 0 0 0 0 0
^*c6G^*v3T 6 3 6 0 0
^*c7G^*v3T 7 0 0 0 0
^*c9G^*v4T 9 0 0 0 0
^*c9G^*c9W[000001000001000180]^*v4T 9 4 9 0 0
^*c9G^*c9W[000001000001000180]^*v4T^*c2Q 9 4 9 0 0
^*c9G^*c9W[000001000001000180]^*c0Q^*v4T 9 0 0 0 0
^*c9G^*c9W[000001000001000180]^*c1Q^*v4T 9 0 0 0 0
^*c9G^*c9W[000001000001000180]^*c5Q^*c1Q^*v4T 9 4 9 0 0
^*c9G^*c9W[000001000001000180]^*c5Q^*c4Q^*c1Q^*v4T 9 0 0 0 0
^*c9G^*c9W[000001000001000180]^*c3Q^*v4T 9 4 9 0 0
^*c9G^*c9W[000101000001000180]^*v4T 9 0 0 0 0
^*c9G^*c9W[000001000001000180]^*c5Q^E^*c9G^*v4T 9 4 9 0 0
^*c9G^*c9W[000001000001000180]^E^*c9G^*v4T 9 0 0 0 0
^*v5T 0 0 0 0 0
^*v1N 0 0 0 1 0
^*v1N^*v0N 0 0 0 0 0
^*v2N^*v-1N 0 0 0 0 0
^*v1O 0 0 0 0 1
^*v1o0O 0 0 0 0 0
^*v1n1O^E 0 0 0 0 0";

const DEFINITIONS: &str = "\
^&f5Y 5 -1 -1 1
^&f32767Y 32767 -1 -1 1
^&f32768Y 0 -1 -1 1
^&f-1Y 0 -1 -1 1
^&f0X 0 -1 0 1
^&f3y0X 3 -1 3 2
^&f3y0x1X 3 -1 -1 3
^&f3y0x+1.7X 3 -1 -1 3
^&f3y0X^&f7Y^&f2X 3 -1 3 4
^&f3y0X^&f0x1X 3 -1 -1 4
^&f3y0X^E 0 -1 -1 3
^&f3y0X^%-12345X 0 -1 -1 3
^&f3y4X 3 3 -1 2
^&f3y4x5X 3 -1 -1 3
^&f3y4x9y4X 9 9 -1 4
^&f4X^E 0 -1 -1 2
^&f4X^&l2A 0 -1 -1 2
^&f4X^&l1O 0 -1 -1 2
^&f4X^&l1S 0 0 -1 2
^&f3y4X^%0B^&f5X 3 3 -1 4
^%0B^&f0X 0 -1 -1 2
^&f11X 0 -1 -1 1
^&f-1X 0 -1 -1 1";

const RUNS: &str = "\
^&f1y0X^*p+10X^&f1x2X 6 240 900 0
^&f1y0X^*p+10X^&f1x3X 6 240 900 0
^&f1y0x1x2X 4 0 900 0
^&f1y0x1x3X 4 0 900 0
^&f2X 1 0 900 0
^&f1y0X^*p+10X^&f1x8x2X 6 0 900 0
^&f1y0X^*p+10X^&f1x6x2X 6 0 900 0
^&f1y0X^*p+10X^&f1x7x2X 6 0 900 0
^&f1y0X^*p+10X^&f1x10x7x2X 8 240 900 0
^&f1y0X^*p+10X^&f1x10x9x7x2X 8 0 900 0
^&f1y0X^*p+10X^&f1x10X^E^&f1y2X 9 240 900 0
^&f1y0X^*p+10X^&f1X^E^&f1y2X 7 0 900 0
^&f1y0x1x10x0X^*p+10X^&f1x7x2X 9 0 900 0
^&f1y0X^*p+10X^&f1x10x0X^*p+20X^E^&f1y2X 11 240 900 0
^*p0x0Y^&f1y0X^*c1a1b0P^*p+2X^&f3x1x3X 21 96 0 0
^*p0x0Y^&f1y0X^*p+2X^&f2x1x2X 12 96 0 0
^&f1y0X^&u600D^*p10X^&f1x3X^*p+10X 9 360 900 0
^&f1y0X^&u600D^*p10X^&f1x2X^*p+10X 9 240 900 0
^&f1y0X^&f9Y^&f1x3x2X 8 0 900 0
^&f1y0X^&f8X^*p+10X^&f1x2X 8 240 900 0
^&f1y0X^&f0X^*p+10X^&f1x2X 8 240 900 0
^&f1y0X^&k5H^&a1C^&f1x3X^&a+1C 9 1020 900 0
^&f1y0X^&k5H^&a1C^&f1x2X^&a+1C 9 600 900 0
^&a10L^&f1y0X^&l1o0O^&f1x3X< 10 7200 900 0
^&a10L^&f1y0X^&l1O^&f1x3X< 8 0 900 0
^&a10L^&f1y0X^&l2A^&f1x3X< 8 7200 900 0
^&f1y0X^&l20E^*p0Y^&f1x3X^*p-150Y 9 0 -3600 0
^&f1y0X^&f0S^&f1x3X^*p+9X^&f1S 8 0 900 0";
