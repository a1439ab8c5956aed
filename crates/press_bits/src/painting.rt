//! Rows of dots that are mixed into the bytes of a page, sixty-four dots at a time.
ghost use Rattle.std.specs.Prelude.{◌≡◌, ℕ, ◌+◌, ◌-◌, ◌*◌, ◌/◌, ◌^◌, ◌<◌, ◌≤◌, ◌⊎◌, ◌&&◌, nat_le, nat_lt, min, pos, ◌+ℤ◌, length, true, false};
ghost use Rattle.press_bits.specs.Mark.{row, row_dot, repeated};
ghost use Rattle.press_bits.specs.Words.{word_dot};
ghost use Rattle.press_bits.specs.Ranges.{HasInkOf, IsBlackened, IsPaintedAlong, IsPaintedFrom};

use crate::mode::{Mode, TRANSPARENT};
use crate::stroke::{Run, Stroke};
use crate::word::{
    alike, mixed_word, put_word, whole_word_at, whole_word_from, word_at, word_from,
};

/// The dots that lie on a side of a page, of a row whose first dot lies at place `at`.
pub(crate) fn run_within(at: i64, dots: usize, side: u32) -> Run
    ensures place { pos result.first ≡ at +ℤ pos result.skip }
    ensures first { (result.first ≡ 0) ⊎ (result.skip ≡ 0) }
    ensures count { result.count ≡ min (dots - result.skip) (side - result.first) }
{
    let (first, skip) = if at < 0 {
        (0, at.unsigned_abs() as usize)
    } else {
        (at as usize, 0)
    };
    let count = dots
        .saturating_sub(skip)
        .min((side as usize).saturating_sub(first));
    Run { first, skip, count }
}

/// Dots that stand in the eight bytes from byte `index` on: those from dot `from` on and before dot `to`.
#[derive(Clone, Copy)]
struct Part {
    index: usize,
    from: usize,
    to: usize,
    ghost begun: { 8 * index ≤ from },
    ghost some: { from < to },
    ghost within: { to ≤ 8 * index + 64 },
}

/// The dots of a part, among the sixty-four of its bytes.
fn mask_word(part: Part) -> u64
    requires { 8 * part.index + 64 < 2 ^ 64 }
    ensures { (j : ℕ) → j < 64 → word_dot result j
        ≡ (nat_le part.from (8 * part.index + j) && nat_lt (8 * part.index + j) part.to) }
{
    let start = 8 * part.index;
    (u64::MAX >> (part.from - start)) & (u64::MAX << (start + 64 - part.to))
}

/// Sixty-four dots of the source of a stroke, from the one on that lies so many places behind the front of its run, as far as the run goes.
#[inline(always)]
fn source_word(stroke: &Stroke<'_, '_>, place: usize) -> u64
    requires small { stroke.now.run.skip + place < 2 ^ 64 }
    requires enough { stroke.now.run.skip + stroke.now.run.count ≤ stroke.now.source.dots }
    ensures { (j : ℕ) → j < 64 → place + j < stroke.now.run.count → word_dot result j
        ≡ row_dot stroke.now.source.bits.now (stroke.now.run.skip + place + j) }
{
    if stroke.ink {
        alike(true)
    } else {
        word_from(stroke.source.bits, stroke.run.skip + place)
    }
}

/// Paints the dots of a part of a stroke that lies in the line that begins at byte `line`.
#[inline(always)]
fn paint_word(rows: &mut [u8], part: Part, line: usize, stroke: &Stroke<'_, '_>)
    requires room { part.index + 8 ≤ length rows.old }
    requires small { length rows.old < 2 ^ 40 }
    requires begun { 8 * line + stroke.now.run.first ≤ part.from }
    requires left { part.to ≤ 8 * line + stroke.now.run.first + stroke.now.run.count }
    requires enough { stroke.now.run.skip + stroke.now.run.count ≤ stroke.now.source.dots }
    ensures { IsPaintedFrom rows.old rows.new line stroke.now part.from part.to }
{
    let shift = part.from - 8 * part.index;
    let dots = source_word(stroke, part.from - (8 * line + stroke.run.first));
    let through = stroke.through.word(part.from - 8 * line);
    let before = whole_word_at(rows, part.index);
    let mask = mask_word(part);
    let after = mixed_word(before, dots >> shift, through >> shift, mask, stroke.mode);
    put_word(rows, part.index, after);
}

/// Paints these sixty-four dots of a stroke, from a byte on, through these dots of its pattern.
#[inline(always)]
fn mix_word(
    rows: &mut [u8],
    index: usize,
    line: usize,
    stroke: &Stroke<'_, '_>,
    dots: u64,
    through: u64,
    mode: Mode,
)
    requires mode { mode ≡ stroke.now.mode }
    requires room { index + 8 ≤ length rows.old }
    requires small { length rows.old < 2 ^ 40 }
    requires begun { 8 * line + stroke.now.run.first ≤ 8 * index }
    requires dots { (j : ℕ) → j < 64 → word_dot dots j ≡ row_dot stroke.now.source.bits.now
        (stroke.now.run.skip + (8 * index - (8 * line + stroke.now.run.first)) + j) }
    requires through { (j : ℕ) → j < 64 → word_dot through j
        ≡ repeated (row stroke.now.through.pattern) (8 * (index - line) + j) }
    ensures { IsPaintedFrom rows.old rows.new line stroke.now (8 * index) (8 * index + 64) }
{
    let before = whole_word_at(rows, index);
    let mask = mask_word(Part {
        index,
        from: 8 * index,
        to: 8 * index + 64,
    });
    let after = mixed_word(before, dots, through, mask, mode);
    put_word(rows, index, after);
}

/// Paints so many words of sixty-four dots of a stroke, from a byte on, through these dots of its pattern, which come again at each
/// word: words of the source that end before its last byte, so that none of them asks for a bound.
#[inline(always)]
fn mix_inner_words(
    rows: &mut [u8],
    first: usize,
    words: usize,
    line: usize,
    stroke: &Stroke<'_, '_>,
    through: u64,
    mode: Mode,
)
    requires mode { mode ≡ stroke.now.mode }
    requires room { first + 8 * words ≤ length rows.old }
    requires small { length rows.old < 2 ^ 40 }
    requires begun { 8 * line + stroke.now.run.first ≤ 8 * first }
    requires left { 8 * first + 64 * words
        ≤ 8 * line + stroke.now.run.first + stroke.now.run.count }
    requires enough { stroke.now.run.skip + stroke.now.run.count ≤ stroke.now.source.dots }
    requires through { (k j : ℕ) → j < 64 → word_dot through j
        ≡ repeated (row stroke.now.through.pattern) (8 * (first - line) + 64 * k + j) }
    requires inner { 0 < words → (stroke.now.run.skip + (8 * first
        - (8 * line + stroke.now.run.first))) / 8 + 8 * words + 1
        ≤ length stroke.now.source.bits.now }
    ensures { IsPaintedFrom rows.old rows.new line stroke.now (8 * first) (8 * first + 64 * words) }
{
    let dot = stroke.run.skip + (8 * first - (8 * line + stroke.run.first));
    let (start, shift) = (dot / 8, dot % 8);
    for word in 0..words {
        let dots = whole_word_from(stroke.source.bits, start + 8 * word, shift);
        mix_word(rows, first + 8 * word, line, stroke, dots, through, mode);
    }
}

/// Paints so many words of sixty-four dots of a stroke of ink, from a byte on, through these dots of its pattern, which come again at each
/// word: no dot of the source is asked for.
#[inline(always)]
fn ink_words(
    rows: &mut [u8],
    first: usize,
    words: usize,
    line: usize,
    stroke: &Stroke<'_, '_>,
    through: u64,
    mode: Mode,
)
    requires mode { mode ≡ stroke.now.mode }
    requires ink { stroke.now.ink ≡ true }
    requires room { first + 8 * words ≤ length rows.old }
    requires small { length rows.old < 2 ^ 40 }
    requires begun { 8 * line + stroke.now.run.first ≤ 8 * first }
    requires left { 8 * first + 64 * words
        ≤ 8 * line + stroke.now.run.first + stroke.now.run.count }
    requires enough { stroke.now.run.skip + stroke.now.run.count ≤ stroke.now.source.dots }
    requires through { (k j : ℕ) → j < 64 → word_dot through j
        ≡ repeated (row stroke.now.through.pattern) (8 * (first - line) + 64 * k + j) }
    ensures { IsPaintedFrom rows.old rows.new line stroke.now (8 * first) (8 * first + 64 * words) }
{
    for word in 0..words {
        mix_word(
            rows,
            first + 8 * word,
            line,
            stroke,
            alike(true),
            through,
            mode,
        );
    }
}

/// Paints words of sixty-four dots of a stroke whose pattern comes again at each, from a byte on, and says how many: at most `words`, and
/// none where the pattern comes again otherwise. Words that the source may end in are left.
#[inline(always)]
fn mix_words(
    rows: &mut [u8],
    first: usize,
    words: usize,
    line: usize,
    stroke: &Stroke<'_, '_>,
) -> usize
    requires room { first + 8 * words ≤ length rows.old }
    requires small { length rows.old < 2 ^ 40 }
    requires begun { 8 * line + stroke.now.run.first ≤ 8 * first }
    requires left { 8 * first + 64 * words
        ≤ 8 * line + stroke.now.run.first + stroke.now.run.count }
    requires enough { stroke.now.run.skip + stroke.now.run.count ≤ stroke.now.source.dots }
    ensures few { result ≤ words }
    ensures painted { IsPaintedFrom rows.old rows.new line stroke.now
        (8 * first) (8 * first + 64 * result) }
{
    let Some(through) = stroke.through.each_word(8 * (first - line)) else {
        return 0;
    };
    if stroke.ink {
        ink_words(rows, first, words, line, stroke, through, stroke.mode);
        return words;
    }
    let dot = stroke.run.skip + (8 * first - (8 * line + stroke.run.first));
    let behind = stroke.source.bits.len().saturating_sub(dot / 8 + 1);
    let inner = words.min(behind / 8);
    mix_inner_words(rows, first, inner, line, stroke, through, stroke.mode);
    inner
}

/// The same, and where the stroke is laid and its dots stand in whole bytes, all of these words, as bytes.
#[inline(always)]
fn lay_words(
    rows: &mut [u8],
    first: usize,
    words: usize,
    line: usize,
    stroke: &Stroke<'_, '_>,
) -> usize
    requires room { first + 8 * words ≤ length rows.old }
    requires small { length rows.old < 2 ^ 40 }
    requires begun { 8 * line + stroke.now.run.first ≤ 8 * first }
    requires left { 8 * first + 64 * words
        ≤ 8 * line + stroke.now.run.first + stroke.now.run.count }
    requires enough { stroke.now.run.skip + stroke.now.run.count ≤ stroke.now.source.dots }
    ensures few { result ≤ words }
    ensures painted { IsPaintedFrom rows.old rows.new line stroke.now
        (8 * first) (8 * first + 64 * result) }
{
    let run = stroke.run;
    let dot = run.skip + (8 * first - (8 * line + run.first));
    if !stroke.laid || dot % 8 != 0 {
        return mix_words(rows, first, words, line, stroke);
    }
    let bits = &stroke.source.bits[dot / 8..dot / 8 + 8 * words];
    rows[first..first + 8 * words].copy_from_slice(bits);
    words
}

/// Paints dots of a stroke from dot `from` on that lie before dot `end`, and says before which: whole words where it begins with a
/// byte and they can be painted at once, and else those in the same eight bytes.
#[inline(always)]
fn paint_next(
    rows: &mut [u8],
    line: usize,
    stroke: &Stroke<'_, '_>,
    from: usize,
    end: usize,
) -> usize
    requires some { from < end }
    requires within { end ≤ 8 * length rows.old }
    requires long { 8 ≤ length rows.old }
    requires small { length rows.old < 2 ^ 40 }
    requires begun { 8 * line + stroke.now.run.first ≤ from }
    requires left { end ≤ 8 * line + stroke.now.run.first + stroke.now.run.count }
    requires enough { stroke.now.run.skip + stroke.now.run.count ≤ stroke.now.source.dots }
    ensures onward { from < result }
    ensures within { result ≤ end }
    ensures painted { IsPaintedFrom rows.old rows.new line stroke.now from result }
{
    let first = from / 8;
    let words = (end - from) / 64;
    if from % 8 == 0 && words > 0 {
        let painted = lay_words(rows, first, words, line, stroke);
        if painted > 0 {
            return from + 64 * painted;
        }
    }
    let index = first.min(rows.len() - 8);
    let to = (8 * index + 64).min(end);
    paint_word(rows, Part { index, from, to }, line, stroke);
    to
}

/// The first of the bytes from one on and before another that may have a black dot, looked for by eight at a time.
#[inline(always)]
fn begin_of_ink(bits: &[u8], first: usize, end: usize) -> usize
    requires { end ≤ length bits.now }
    ensures begun { first ≤ result }
    ensures white { (p : ℕ) → 8 * first ≤ p → p < 8 * result → row_dot bits.now p ≡ false }
{
    let mut begin = first;
    while end.saturating_sub(begin) >= 8 && whole_word_at(bits, begin) == 0 {
        begin += 8;
    }
    begin
}

/// Behind the last of the bytes before one that may have a black dot, looked for by eight at a time.
#[inline(always)]
fn end_of_ink(bits: &[u8], end: usize) -> usize
    requires { end ≤ length bits.now }
    ensures within { result ≤ end }
    ensures white { (p : ℕ) → 8 * result ≤ p → p < 8 * end → row_dot bits.now p ≡ false }
{
    let mut last = end;
    while last >= 8 && whole_word_at(bits, last - 8) == 0 {
        last -= 8;
    }
    last
}

/// The run of a stroke without the white bytes of its source at the ends, by eight at a time, where white dots of the source are
/// transparent.
fn inked(stroke: &Stroke<'_, '_>) -> Run
    requires small { stroke.now.run.first + stroke.now.run.count < 2 ^ 64 }
    requires enough { stroke.now.run.skip + stroke.now.run.count ≤ stroke.now.source.dots }
    ensures { HasInkOf stroke.now result }
{
    let run = stroke.run;
    if stroke.ink || stroke.mode.source_opaque {
        return run;
    }
    let bits = stroke.source.bits;
    let back = run.skip + run.count;
    let end = end_of_ink(bits, back.div_ceil(8));
    let begin = begin_of_ink(bits, run.skip / 8, end);
    let skip = run.skip.max(begin.saturating_mul(8)).min(back);
    let last = back.min(end.saturating_mul(8)).max(skip);
    Run {
        first: run.first + (skip - run.skip),
        skip,
        count: last - skip,
    }
}

/// Paints dots of a stroke, from dot `first` on and before dot `end`.
#[inline(always)]
fn paint_between(rows: &mut [u8], line: usize, stroke: &Stroke<'_, '_>, first: usize, end: usize)
    requires order { first ≤ end }
    requires within { end ≤ 8 * length rows.old }
    requires long { 8 ≤ length rows.old }
    requires small { length rows.old < 2 ^ 40 }
    requires begun { 8 * line + stroke.now.run.first ≤ first }
    requires left { end ≤ 8 * line + stroke.now.run.first + stroke.now.run.count }
    requires enough { stroke.now.run.skip + stroke.now.run.count ≤ stroke.now.source.dots }
    ensures { IsPaintedFrom rows.old rows.new line stroke.now first end }
{
    let mut from = first;
    while from < end {
        from = paint_next(rows, line, stroke, from, end);
    }
}

/// Paints a run of source dots, through a pattern, into the line that begins at byte `line`.
#[inline(always)]
pub(crate) fn paint_across(rows: &mut [u8], line: usize, stroke: &Stroke<'_, '_>)
    requires within { 8 * line + stroke.now.run.first + stroke.now.run.count ≤ 8 * length rows.old }
    requires long { 8 ≤ length rows.old }
    requires small { length rows.old < 2 ^ 40 }
    requires enough { stroke.now.run.skip + stroke.now.run.count ≤ stroke.now.source.dots }
    ensures { IsPaintedAlong rows.old rows.new line stroke.now }
{
    let run = inked(stroke);
    let first = 8 * line + run.first;
    paint_between(rows, line, stroke, first, first + run.count);
}

/// Blackens dots from dot `from` on that lie before dot `end`, and says before which: whole words where it begins with a byte, and
/// else those in the same eight bytes.
#[inline(always)]
fn blacken_next(rows: &mut [u8], from: usize, end: usize) -> usize
    requires some { from < end }
    requires within { end ≤ 8 * length rows.old }
    requires long { 8 ≤ length rows.old }
    requires small { length rows.old < 2 ^ 40 }
    ensures onward { from < result }
    ensures within { result ≤ end }
    ensures black { IsBlackened rows.old rows.new from result }
{
    let first = from / 8;
    let words = (end - from) / 64;
    if from % 8 != 0 || words == 0 {
        let index = first.min(rows.len() - 8);
        let to = (8 * index + 64).min(end);
        let dots = word_at(rows, index) | mask_word(Part { index, from, to });
        put_word(rows, index, dots);
        return to;
    }
    rows[first..first + 8 * words].fill(0xFF);
    from + 64 * words
}

/// Blackens dots from dot `first` on that lie before dot `end`.
pub(crate) fn blacken(rows: &mut [u8], first: usize, end: usize)
    requires order { first ≤ end }
    requires within { end ≤ 8 * length rows.old }
    requires long { 8 ≤ length rows.old }
    requires small { length rows.old < 2 ^ 40 }
    ensures { IsBlackened rows.old rows.new first end }
{
    let mut from = first;
    while from < end {
        from = blacken_next(rows, from, end);
    }
}
