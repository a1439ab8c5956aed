//! What a listing tells of a side.
ghost use Rattle.std.specs.Prelude.{◌≡◌};
ghost use Rattle.press_files.specs.Measured.{measures_by};

use crate::digest::digest_of;
use press_bits::Bitmap;

/// What the listing tells of a side: its width and height in dots, how many of its dots are black, and the SHA-256 of its P4 file,
/// where sums are listed.
#[derive(Clone, Copy)]
pub struct Measures {
    pub width: u32,
    pub height: u32,
    pub black: u32,
    pub digest: Option<[u8; 32]>,
}

impl Measures {
    /// The measures of a page, with its digest or without.
    pub fn of(page: &Bitmap, sums: bool) -> Self
        ensures { result ≡ measures_by sums page.now }
    {
        let digest = if sums { Some(digest_of(page)) } else { None };
        Measures {
            width: page.width(),
            height: page.height(),
            black: page.count_black(),
            digest,
        }
    }
}
