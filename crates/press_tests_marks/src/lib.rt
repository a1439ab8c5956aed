//! The tests of what makes marks: the page with its bitmaps and files, patterns, fills and raster rows.
#![tactic(auto)]

#[cfg(test)]
mod bitmaps;
#[cfg(test)]
mod canvases;
#[cfg(test)]
mod files;
#[cfg(test)]
mod fills;
#[cfg(test)]
mod patterns;
#[cfg(test)]
mod raster;
#[cfg(test)]
mod rows;
