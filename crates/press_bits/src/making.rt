//! Bands of a page that are made where they are not there.
#![tactic(auto)]

ghost use Rattle.std.specs.Prelude.{◌≡◌, ◌≤◌, ◌<◌, ◌+◌, max, length, replicate, vec_len, IfOk};
ghost use Rattle.press_bits.specs.Bands.{Grows, MakesBands};

use crate::band::Band;
use std::alloc::{AllocError, Global};

/// A white band, in the memory of a spare one, where there is one.
fn white_band(spare: &mut Vec<Band>, alloc: Global, count: usize) -> Result<Band, AllocError>
    ensures { IfOk result (λ band. band ≡ replicate count 0) }
{
    while let Some(band) = spare.pop() {
        if band.is_there() {
            return band.whitened(count);
        }
    }
    Band::white(alloc, count)
}

/// Makes a band that is not there.
fn make_band(
    bands: &mut Vec<Band>,
    spare: &mut Vec<Band>,
    alloc: Global,
    index: usize,
    count: usize,
) -> Result<(), AllocError>
    requires there { index < vec_len bands.old }
    requires some { 0 < count }
    ensures makes { MakesBands bands.old.items bands.new.items index (index + 1) count result }
    ensures most { length bands.new.items ≤ length bands.old.items }
{
    if bands[index].is_there() {
        return Ok(());
    }
    bands[index] = white_band(spare, alloc, count)?;
    Ok(())
}

/// Puts bands that are not there behind the others until there are so many.
fn grow(bands: &mut Vec<Band>, alloc: Global, end: usize) -> Result<(), AllocError>
    ensures { Grows bands.old.items bands.new.items end result }
{
    for made in bands.len()..end {
        bands.push(Band::missing(alloc))?;
    }
    Ok(())
}

/// Makes those of the bands from `first` on and before `end` that are not there, in the memory of spare ones as far as it goes.
pub(crate) fn make_bands(
    bands: &mut Vec<Band>,
    spare: &mut Vec<Band>,
    alloc: Global,
    first: usize,
    end: usize,
    count: usize,
) -> Result<(), AllocError>
    requires some { 0 < count }
    ensures makes { MakesBands bands.old.items bands.new.items first end count result }
    ensures most { length bands.new.items ≤ max (length bands.old.items) end }
{
    grow(bands, alloc, end)?;
    for index in first..end {
        make_band(bands, spare, alloc, index, count)?;
    }
    Ok(())
}
