//! The data of the Define Pattern command.

ghost use Rattle.std.specs.Prelude.{◌≡◌, ◌↔◌, ◌≤◌, length, true, false, IfOk, IsErrOf};
ghost use Rattle.press_pattern.specs.UserData.{has_header, has_rows, tile_in};

use crate::fault::DefineError;
use crate::tile::OwnedTile;
use byteorder::{BigEndian, ByteOrder};
use press_bits::line_bytes;
use std::alloc::Global;

/// How many bytes the header has.
const HEADER_LENGTH: usize = 8;

/// Format, continuation, encoding and the reserved byte of a pattern of one bit a dot.
const ONE_BIT_A_DOT: [u8; 4] = [0, 0, 1, 0];

/// Whether the header of a pattern of one bit a dot stands first, with a height and a width above 0.
fn has_header(bytes: &[u8]) -> bool
    ensures header { result ≡ has_header bytes.now }
    ensures length { result ≡ true → 8 ≤ length bytes.now }
{
    HEADER_LENGTH <= bytes.len()
        && bytes.starts_with(&ONE_BIT_A_DOT)
        && BigEndian::read_u16(&bytes[4..]) > 0
        && BigEndian::read_u16(&bytes[6..]) > 0
}

/// The tile that data stands for.
pub(crate) fn read_tile(alloc: Global, bytes: &[u8]) -> Result<OwnedTile, DefineError>
    ensures tile { IfOk result (λ tile. tile ≡ tile_in bytes.now) }
    ensures bad_header { IsErrOf result DefineError.BadHeader ↔ (has_header bytes.now ≡ false) }
    ensures short_data { IsErrOf result DefineError.ShortData
        ↔ ((has_header bytes.now ≡ true) × (has_rows bytes.now ≡ false)) }
{
    if !has_header(bytes) {
        return Err(DefineError::BadHeader);
    }
    let height = BigEndian::read_u16(&bytes[4..]);
    let width = BigEndian::read_u16(&bytes[6..]);
    let count = usize::from(height) * line_bytes(usize::from(width));
    let Some(lines) = bytes[HEADER_LENGTH..].get(..count) else {
        return Err(DefineError::ShortData);
    };
    Ok(OwnedTile::of_rows(width, height, lines.to_vec(alloc)?))
}
