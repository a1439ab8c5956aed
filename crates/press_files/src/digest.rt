//! The digest of the P4 file that a page is written as.
ghost use Rattle.std.specs.Prelude.{◌≡◌, ◌<◌, ◌++◌, ℕ, List, slice_index};
ghost use Rattle.std.specs.List.{flat_map, range_with_len};
ghost use Rattle.hex.specs.Hex.{encode_lower};
ghost use Rattle.sha2.specs.Sha256.{sha256};
ghost use Rattle.sha2.specs.Hashers.{Holds256};
ghost use Rattle.press_pbm.specs.Spelling.{header_of, line_bytes, file_of};

use itoa::Buffer;
use press_bits::{BAND_LINES, Bitmap};
use sha2::{Digest, Sha256};

/// The SHA-256 of the P4 file that a page is written as, which is not made.
///
/// Source: FIPS 180-4; Netpbm, the raw form of the PBM format.
pub(crate) fn digest_of(page: &Bitmap) -> [u8; 32]
    ensures { result ≡ sha256 (file_of page.now) }
{
    let mut hasher = Sha256::new();
    absorb_header(page, &mut hasher);
    absorb_lines(page, &mut hasher);
    hasher.finalize()
}

/// The hexadecimal digits of a digest.
pub(crate) fn digits_of(digest: [u8; 32]) -> [u8; 64]
    ensures { result ≡ encode_lower digest }
{
    let mut digits = [0; 64];
    let _ = hex::encode_to_slice(digest, &mut digits);
    digits
}

/// Takes some bytes more into a digest.
fn absorb(hasher: &mut Sha256, bytes: &[u8])
    ensures absorbed { (before : List ℕ) → Holds256 hasher.old before
        → Holds256 hasher.new (before ++ bytes.now) }
    ensures bytes { (i : ℕ) → slice_index bytes.now i < 256 }
{
    hasher.update(bytes);
}

fn absorb_header(page: &Bitmap, hasher: &mut Sha256)
    ensures { (before : List ℕ) → Holds256 hasher.old before
        → Holds256 hasher.new (before ++ header_of page.now) }
{
    let mut number = Buffer::new();
    absorb(hasher, b"P4\n");
    absorb(hasher, number.format(page.width()).as_bytes());
    absorb(hasher, b" ");
    absorb(hasher, number.format(page.height()).as_bytes());
    absorb(hasher, b"\n");
}

/// Takes the lines of a page into a digest, those of a band at once.
fn absorb_lines(page: &Bitmap, hasher: &mut Sha256)
    ensures { (before : List ℕ) → Holds256 hasher.old before
        → Holds256 hasher.new
        (before ++ flat_map (line_bytes page.now) (range_with_len 0 page.now.height)) }
{
    for index in 0..page.height().div_ceil(BAND_LINES) {
        absorb(hasher, page.band(index));
    }
}
