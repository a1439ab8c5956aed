//! Pages of dots that stand in bands of sixty-four lines. A band that is not there is white.
#![tactic(auto)]

ghost use Rattle.std.specs.Prelude.{◌≡◌, ℕ, ◌<◌, ◌≤◌, ◌+◌, ◌-◌, ◌*◌, ◌/◌, ◌≢◌, ◌↔◌, ◌⊎◌, length, replicate, take, min, pos, true, false, MatchOption, IfOk, IsTrue, OnOk};
ghost use Rattle.std.specs.List.{range_with_len, sum_by};
ghost use Rattle.press_bits.specs.Page.{HasNoDotOutside, black_at, black_in_line, blank, count_black, is_page_size};
ghost use Rattle.press_bits.specs.Mark.{Row, IsInk, IsSolid, IsWhite, painted, row, row_dot, row_mark};
ghost use Rattle.press_bits.specs.Lines.{ArePageLines, IsPageLine, eight_from};
ghost use Rattle.press_bits.specs.Bands.{AreReady, StaysReady, band_at, band_lines, is_there};

use crate::band::Band;
use crate::dot_bytes;
use crate::dot_bytes::{is_black, line_bytes};
use crate::dot_row::DotRow;
use crate::making::make_bands;
use crate::mode::{Mode, TRANSPARENT};
use crate::painting::run_within;
use crate::repeats::Repeats;
use crate::stroke::Stroke;
use std::alloc::{AllocError, Global};
use std::marker::Model;

/// The most dots on a side of a bitmap.
pub const MAX_SIDE: u32 = 16_384;

/// The bytes of the widest row of dots.
pub const WIDEST_ROW: usize = MAX_SIDE as usize / 8;

/// How many lines a band has.
pub const BAND_LINES: u32 = 64;

/// How many lines a band has.
pub(crate) const BAND: usize = BAND_LINES as usize;

/// A page of black and white dots. Contracts see its dots, and which of its bands are there, and not the bands of another page
/// that it may be made of.
#[derive(Drop)]
pub struct Bands {
    width: u32,
    height: u32,
    bands: Vec<Band>,
    spare: Vec<Band>,
}

impl Model for Bands {
    ghost use Rattle.press_bits.specs.Bands.{BandedPage, banded_code, banded, HasBands};

    ghost Value = { BandedPage };

    ghost coded = { banded_code };

    ghost view = { λ b. banded b.width b.height b.bands.items };

    ghost invariant = { λ b. HasBands b.width b.height b.bands.items };
}

/// The first of the bytes.
fn prefix(bytes: &[u8], count: usize) -> &[u8]
    requires { count ≤ length bytes.now }
    ensures { result.now ≡ take count bytes.now }
{
    &bytes[..count]
}

/// The column or the line of a page, of which there are `side`, at which a place lies, if it lies on the page.
fn place_within(at: i64, side: u32) -> Option<usize>
    ensures { MatchOption result ((n : ℕ) → n < side → pos n ≢ at)
        (λ place. (pos place ≡ at) × (place < side)) }
{
    if at < 0 || at >= i64::from(side) {
        None
    } else {
        Some(at as usize)
    }
}

/// The bytes of a band; none where it is not there.
fn bytes_of(bands: &Vec<Band>, index: usize) -> &[u8]
    ensures { result.now ≡ band_at bands.now.items index }
{
    match bands.get(index) {
        Some(band) => band.bytes(),
        None => &[],
    }
}

/// Whether a band is there.
fn has_band(bands: &Vec<Band>, index: usize) -> bool
    ensures { result ≡ is_there (band_at bands.now.items index) }
{
    match bands.get(index) {
        Some(band) => band.is_there(),
        None => false,
    }
}

/// Whether no dot was painted into the bytes of a band from `first` on and before `end`: they are white.
fn is_unmarked(bands: &Vec<Band>, index: usize, first: usize, end: usize) -> bool
    ensures { IsTrue result → (p : ℕ) → 8 * first ≤ p → p < 8 * end
        → row_dot (band_at bands.now.items index) p ≡ false }
{
    match bands.get(index) {
        Some(band) => band.is_unmarked(first, end),
        None => true,
    }
}

/// Whether the bands from `first` on and before `end` are all there.
fn are_there(bands: &Vec<Band>, first: usize, end: usize) -> bool
    ensures { IsTrue result ↔ ((k : ℕ) → first ≤ k → k < end
        → is_there (band_at bands.now.items k) ≡ true) }
{
    for index in first..end {
        if !has_band(bands, index) {
            return false;
        }
    }
    true
}

/// Eight dots of a column of a band, whose lines have so many bytes, from a line down.
fn column_of(band: &[u8], size: usize, line: usize, x: usize) -> [bool; 8]
    requires line { line ≤ 56 }
    requires size { size ≤ WIDEST_ROW }
    requires x { x < MAX_SIDE }
    ensures { result ≡ eight_from (λ n. row_dot band.now (8 * (n * size) + x)) line }
{
    [
        is_black(band, 8 * (line * size) + x),
        is_black(band, 8 * ((line + 1) * size) + x),
        is_black(band, 8 * ((line + 2) * size) + x),
        is_black(band, 8 * ((line + 3) * size) + x),
        is_black(band, 8 * ((line + 4) * size) + x),
        is_black(band, 8 * ((line + 5) * size) + x),
        is_black(band, 8 * ((line + 6) * size) + x),
        is_black(band, 8 * ((line + 7) * size) + x),
    ]
}

/// Equal bands.
fn copied(alloc: Global, bands: &Vec<Band>) -> Result<Vec<Band>, AllocError>
    ensures { IfOk result (λ copy. copy.items ≡ bands.now.items) }
{
    let mut copy = Vec::with_capacity(alloc, bands.len())?;
    for index in 0..bands.len() {
        copy.push(bands[index].copy()?)?;
    }
    Ok(copy)
}

impl Bands {
    /// A white page, of which no band is there. It takes no memory.
    pub(crate) fn blank(alloc: Global, width: u32, height: u32) -> Self
        requires { is_page_size width height ≡ true }
        ensures { result.page ≡ blank width height }
    {
        Bands {
            width,
            height,
            bands: Vec::new(alloc),
            spare: Vec::new(alloc),
        }
    }

    /// An equal page, of which the same bands are there.
    ///
    /// # Errors
    ///
    /// Where memory ran out.
    pub(crate) fn copy(&self) -> Result<Self, AllocError>
        ensures { IfOk result (λ bands. bands ≡ self.now) }
    {
        let alloc = *self.bands.allocator();
        Ok(Bands {
            width: self.width,
            height: self.height,
            bands: copied(alloc, &self.bands)?,
            spare: Vec::new(alloc),
        })
    }

    /// Bands that are made from now on take the memory of the bands of another page, if its lines are as wide as those of this
    /// page.
    pub(crate) fn reuse(&mut self, other: Bands)
        ensures { self.new ≡ self.old }
    {
        if other.width == self.width {
            self.spare = other.bands;
        }
    }

    /// How many dots a line has.
    pub fn width(&self) -> u32
        ensures width { result ≡ self.now.page.width }
        ensures some { 1 ≤ result }
        ensures most { result ≤ MAX_SIDE }
        ensures inside { HasNoDotOutside self.now.page }
    {
        self.width
    }

    /// How many lines the page has.
    pub fn height(&self) -> u32
        ensures height { result ≡ self.now.page.height }
        ensures some { 1 ≤ result }
        ensures most { result ≤ MAX_SIDE }
        ensures inside { HasNoDotOutside self.now.page }
    {
        self.height
    }

    /// Whether the dot at column `x` of line `y` is black; `false` outside the page.
    pub(crate) fn get(&self, x: u32, y: u32) -> bool
        ensures dot { result ≡ black_at self.now.page x y }
        ensures right { self.now.page.width ≤ x → result ≡ false }
        ensures below { self.now.page.height ≤ y → result ≡ false }
    {
        if x >= self.width || y >= self.height {
            return false;
        }
        is_black(self.line(y), x as usize)
    }

    /// Eight dots of column `x` from line `y` down, asked one by one.
    fn column_asked(&self, x: u32, y: u32) -> [bool; 8]
        requires { y ≤ MAX_SIDE }
        ensures { result ≡ eight_from (black_at self.now.page x) y }
    {
        [
            self.get(x, y),
            self.get(x, y + 1),
            self.get(x, y + 2),
            self.get(x, y + 3),
            self.get(x, y + 4),
            self.get(x, y + 5),
            self.get(x, y + 6),
            self.get(x, y + 7),
        ]
    }

    /// Whether each of the eight dots of column `x` is black that lie in line `8 * index` and the seven lines below it; `false` outside
    /// the page.
    pub(crate) fn column(&self, x: u32, index: u32) -> [bool; 8]
        ensures { result ≡ eight_from (black_at self.now.page x) (8 * index) }
    {
        if x >= self.width || index >= self.height.div_ceil(8) {
            return [false; 8];
        }
        if index == self.height / 8 {
            return self.column_asked(x, 8 * index);
        }
        let band = bytes_of(&self.bands, index as usize / 8);
        let size = line_bytes(self.width as usize);
        column_of(band, size, index as usize % 8 * 8, x as usize)
    }

    /// The bytes of a line: the most significant bit of the first byte is the leftmost dot, and 1 is black. The bits past the
    /// last dot are 0. All bits are 0 in a line whose band is not there.
    ///
    /// Source: PCL 5 Printer Language Technical Reference Manual, Raster Graphics, the bits of a raster row.
    pub(crate) fn line(&self, y: u32) -> &[u8]
        requires { y < self.now.page.height }
        ensures { IsPageLine self.now.page y result.now }
    {
        let count = line_bytes(self.width as usize);
        let start = y as usize % BAND * count;
        &self.band(y / BAND_LINES)[start..start + count]
    }

    /// The bytes of the lines of a band, one after the other: of 64 lines, or of as many as are left; they are 0 where the band
    /// is not there.
    pub(crate) fn band(&self, index: u32) -> &[u8]
        requires { band_lines * index < self.now.page.height }
        ensures { ArePageLines self.now.page (band_lines * index)
            (min band_lines (self.now.page.height - band_lines * index)) result.now }
    {
        let lines = BAND_LINES.min(self.height - BAND_LINES * index);
        let count = lines as usize * line_bytes(self.width as usize);
        if !has_band(&self.bands, index as usize) {
            return prefix(&[0; BAND * WIDEST_ROW], count);
        }
        prefix(bytes_of(&self.bands, index as usize), count)
    }

    /// Whether a band has the bytes of another page's; so has one that is not there on both.
    pub(crate) fn is_same_band(&self, after: &Bands, band: usize) -> bool
        requires width { after.now.page.width ≡ self.now.page.width }
        requires height { after.now.page.height ≡ self.now.page.height }
        requires here { band_lines * band < self.now.page.height }
        ensures { IsTrue result → (x n : ℕ) → x < self.now.page.width → n < self.now.page.height
            → n / band_lines ≡ band → black_at after.now.page x n ≡ black_at self.now.page x n }
    {
        bytes_of(&self.bands, band) == bytes_of(&after.bands, band)
    }

    /// How many dots of a line are black.
    fn black_in(&self, y: u32) -> u32
        requires inside { y < self.now.page.height }
        requires narrow { self.now.page.width ≤ MAX_SIDE }
        ensures { result ≡ black_in_line self.now.page y }
    {
        let count = line_bytes(self.width as usize);
        let first = y as usize % BAND * count;
        if is_unmarked(&self.bands, y as usize / BAND, first, first + count) {
            return 0;
        }
        dot_bytes::count_black(self.line(y))
    }

    /// How many dots of the lines of a band are black: none where it is not there.
    fn black_in_band(&self, index: usize) -> u32
        requires { band_lines * index < self.now.page.height }
        ensures { sum_by (black_in_line self.now.page)
            (range_with_len 0 (min self.now.page.height (band_lines * (index + 1))))
            ≡ sum_by (black_in_line self.now.page) (range_with_len 0 (band_lines * index))
            + result }
    {
        if !has_band(&self.bands, index) {
            return 0;
        }
        let first = (BAND * index) as u32;
        let end = self.height.min(first + BAND as u32);
        let mut black = 0;
        for y in first..end {
            black += self.black_in(y);
        }
        black
    }

    /// How many dots of the page are black.
    pub(crate) fn count_black(&self) -> u32
        ensures { result ≡ count_black self.now.page }
    {
        let mut black = 0;
        for index in 0..self.bands.len() {
            black += self.black_in_band(index);
        }
        black
    }

    /// Whether those of so many lines, from line `y` on, that are lines of the page are ready.
    pub fn are_ready(&self, y: i64, lines: usize) -> bool
        ensures { IsTrue result ↔ AreReady self.now y lines }
    {
        let run = run_within(y, lines, self.height);
        if run.count == 0 {
            return true;
        }
        let past = (run.first + run.count - 1) / BAND + 1;
        are_there(&self.bands, run.first / BAND, past)
    }

    /// Makes the bands of those of so many lines, from line `y` on, that are lines of the page.
    ///
    /// # Errors
    ///
    /// Where memory ran out. No dot changes, and each line that was ready is.
    pub fn ready(&mut self, y: i64, lines: usize) -> Result<(), AllocError>
        ensures dots { self.new.page ≡ self.old.page }
        ensures stays { StaysReady self.old self.new }
        ensures ok { OnOk result (AreReady self.new y lines) }
    {
        let run = run_within(y, lines, self.height);
        if run.count == 0 {
            return Ok(());
        }
        let size = BAND * line_bytes(self.width as usize);
        let alloc = *self.bands.allocator();
        let end = (run.first + run.count - 1) / BAND + 1;
        make_bands(
            &mut self.bands,
            &mut self.spare,
            alloc,
            run.first / BAND,
            end,
            size,
        )
    }

    /// Paints a row of source dots through a row of a pattern: source dot 0 at column `x` of line `y`, and the others to its
    /// right. The pattern's dot 0 lies at column 0 of the page, and the pattern is repeated over the line. Dots outside the
    /// page are dropped. Takes no memory: a line that is not ready is white, and stays so through white.
    ///
    /// Source: PCL 5 Printer Language Technical Reference Manual, The PCL Print Model, and Raster Graphics (the order of the
    /// dots).
    #[inline(never)]
    pub fn paint_row(&mut self, x: i64, y: i64, source: DotRow<'_>, pattern: DotRow<'_>, mode: Mode)
        requires some { 1 ≤ pattern.dots }
        requires ready { IsWhite (row pattern) ⊎ AreReady self.old y 1 }
        ensures painted { self.new.page
            ≡ painted self.old.page (row_mark x y (row source.entry) (row pattern.entry) mode) }
        ensures ready { self.new.ready ≡ self.old.ready }
    {
        self.paint_dots(x, y, source, pattern, mode, false);
    }

    /// Paints so many black dots of a line, from column `x` on, through a row of a pattern, as [`Bands::paint_row`] paints a row of
    /// them.
    ///
    /// Source: PCL 5 Printer Language Technical Reference Manual, The PCL Print Model, and Rectangular Area Fill Graphics.
    #[inline(never)]
    pub fn ink(&mut self, x: u32, y: u32, dots: u32, pattern: DotRow<'_>, mode: Mode)
        requires narrow { dots ≤ MAX_SIDE }
        requires some { 1 ≤ pattern.dots }
        requires ready { IsWhite (row pattern) ⊎ AreReady self.old (pos y) 1 }
        ensures painted { self.new.page ≡ painted self.old.page (row_mark (pos x) (pos y)
            (record { bits = replicate WIDEST_ROW 255; dots = dots }) (row pattern.entry) mode) }
        ensures ready { self.new.ready ≡ self.old.ready }
    {
        let source = DotRow {
            bits: &[0xFF; WIDEST_ROW],
            dots: dots as usize,
        };
        self.paint_dots(i64::from(x), i64::from(y), source, pattern, mode, true);
    }

    /// Paints a row of source dots, which may all be black, through a row of a pattern.
    #[inline(always)]
    fn paint_through(
        &mut self,
        x: i64,
        y: i64,
        source: DotRow<'_>,
        pattern: DotRow<'_>,
        mode: Mode,
        ink: bool,
    )
        requires some { 1 ≤ pattern.dots }
        requires ready { IsWhite (row pattern) ⊎ AreReady self.old y 1 }
        requires black { ink ≡ true → IsInk (row source) }
        ensures painted { self.new.page
            ≡ painted self.old.page (row_mark x y (row source.entry) (row pattern.entry) mode) }
        ensures ready { self.new.ready ≡ self.old.ready }
    {
        let Some(line) = place_within(y, self.height) else {
            return;
        };
        let run = run_within(x, source.dots, self.width);
        if run.count == 0 {
            return;
        }
        if !has_band(&self.bands, line / BAND) {
            return;
        }
        let start = line % BAND * line_bytes(self.width as usize);
        let through = Repeats::of(pattern);
        let stroke = Stroke {
            run,
            source,
            through,
            mode,
            laid: mode.source_opaque && through.is_black(),
            ink,
        };
        self.bands[line / BAND].paint(start, &stroke);
    }

    /// The same, by code of its own where all white dots are transparent: no dot is made white there.
    #[inline(always)]
    fn paint_dots(
        &mut self,
        x: i64,
        y: i64,
        source: DotRow<'_>,
        pattern: DotRow<'_>,
        mode: Mode,
        ink: bool,
    )
        requires some { 1 ≤ pattern.dots }
        requires ready { IsWhite (row pattern) ⊎ AreReady self.old y 1 }
        requires black { ink ≡ true → IsInk (row source) }
        ensures painted { self.new.page
            ≡ painted self.old.page (row_mark x y (row source.entry) (row pattern.entry) mode) }
        ensures ready { self.new.ready ≡ self.old.ready }
    {
        if mode == TRANSPARENT {
            self.paint_through(x, y, source, pattern, TRANSPARENT, ink);
        } else {
            self.paint_through(x, y, source, pattern, mode, ink);
        }
    }

    /// Blackens so many dots of a line, from column `x` on, as a row of black dots does through solid black in any mode. Takes no
    /// memory.
    ///
    /// Source: PCL 5 Printer Language Technical Reference Manual, The PCL Print Model.
    pub fn blacken(&mut self, x: u32, y: u32, dots: u32)
        requires some { 1 ≤ dots }
        requires inside { x + dots ≤ self.old.page.width }
        requires line { y < self.old.page.height }
        requires ready { AreReady self.old (pos y) 1 }
        ensures painted { (source pattern : Row) (mode : Mode) → IsSolid source pattern
            → source.dots ≡ dots
            → self.new.page ≡ painted self.old.page (row_mark (pos x) (pos y) source pattern mode) }
        ensures ready { self.new.ready ≡ self.old.ready }
    {
        let start = y as usize % BAND * line_bytes(self.width as usize);
        self.bands[y as usize / BAND].blacken(8 * start + x as usize, dots as usize);
    }
}
