//! Raster graphics: rows of dots that are transferred one below the other onto a lent canvas.
#![tactic(auto)]

mod drawing;
mod raster;
mod row_strip;
mod settings;
mod widening;

pub use raster::{Raster, RasterPosition, RowPlace};
pub use settings::{RasterResolution, RasterSettings, RowCoding, side_of};
