//! Pages of dots: black-and-white bitmaps, the marks that rows of dots leave on them, and printed sheets.
#![tactic(auto)]

mod band;
mod bands;
mod bitmap;
mod changes;
mod comparing;
mod dot_bytes;
mod dot_row;
mod fault;
mod making;
mod mode;
mod painting;
pub mod patch_law;
mod region;
mod repeats;
mod sheet;
mod stroke;
mod word;

pub use band::white_bytes;
pub use bands::{BAND_LINES, Bands, MAX_SIDE, WIDEST_ROW};
pub use bitmap::Bitmap;
pub use dot_bytes::line_bytes;
pub use dot_row::DotRow;
pub use fault::BlankError;
pub use mode::{Mode, OPAQUE};
pub use region::{Region, cut_length};
pub use sheet::Sheet;
pub use word::{put_word, word_at, word_from};
