//! Rows that are encoded: those of many widths there and back, and the shortest data.

ghost use Rattle.std.specs.Prelude.{◌≡◌, length, IfOk, vec_len};

use press_rows::{Method, decode, encode};
use std::alloc::{AllocError, Global};
use std::process::Abort;
use std::test::Fail;

/// The row of the data after a seed row, decoded over a row of other bytes.
fn row_of(alloc: Global, method: Method, data: &[u8], seed: &[u8]) -> Result<Vec<u8>, AllocError> {
    let mut out = Vec::new(alloc);
    out.resize(seed.len(), 0xaa)?;
    decode(method, data, seed, &mut out[..]);
    Ok(out)
}

/// What `encode` gives for a row after a seed row, decoded again.
fn there_and_back(
    rt: &impl Abort,
    alloc: Global,
    row: &[u8],
    seed: &[u8],
) -> Result<(Method, Vec<u8>), AllocError>
    requires { length seed.now ≡ length row.now }
{
    let mut data = Vec::new(alloc);
    data.extend_from_slice(b"what was there")?;
    let method = encode(row, seed, &mut data)?;
    let back = row_of(alloc, method, data.as_slice(), seed)?;
    assert_eq!(rt; back.as_slice(), row, "by {method:?}");
    Ok((method, data))
}

/// So many bytes of a kind: white, black, text on white, dots that repeat, or without a pattern.
fn texture(alloc: Global, width: usize, kind: usize) -> Result<Vec<u8>, AllocError>
    ensures { IfOk result (λ row. vec_len row ≡ width) }
{
    let mut row = Vec::new(alloc);
    row.resize(width, 0)?;
    for (place, byte) in row.iter_mut().enumerate() {
        *byte = match kind {
            0 => 0,
            1 => 0xff,
            2 => if place % 40 < 11 {
                (place % 7) as u8
            } else {
                0
            },
            3 => if place % 2 == 0 { 0x55 } else { 0x22 },
            _ => (place % 251 * 7 % 256) as u8,
        };
    }
    Ok(row)
}

#[test]
fn rows_of_many_widths(rt: HostRuntime) -> Result<(), Fail> {
    for width in [0, 1, 2, 300, 2040] {
        for kind in 0..5 {
            for before in 0..5 {
                let row = texture(rt.alloc(), width, kind)?;
                let seed = texture(rt.alloc(), width, before)?;
                there_and_back(&rt, rt.alloc(), row.as_slice(), seed.as_slice())?;
            }
        }
    }
    Ok(())
}

/// Rows for which each method is the shortest, with their data.
#[test]
fn shortest_data(rt: HostRuntime) -> Result<(), Fail> {
    let seed = [0x11; 12];
    let rows = [
        (
            b"\x41\x41\x41\x42\x00\x00\x00\x00\x00\x00\x00\x00",
            Method::Unencoded,
            b"AAAB".as_slice(),
        ),
        (
            b"\x07\x07\x07\x07\x07\x07\x07\x08\x08\x08\x08\x08",
            Method::RunLength,
            b"\x06\x07\x04\x08".as_slice(),
        ),
        (
            b"\x07\x07\x07\x07\x07\x01\x02\x03\x08\x08\x08\x08",
            Method::PackBits,
            b"\xfc\x07\x02\x01\x02\x03\xfd\x08".as_slice(),
        ),
        (
            b"\x11\x11\x11\x07\x08\x11\x11\x11\x11\x11\x11\x09",
            Method::DeltaRow,
            b"\x23\x07\x08\x06\x09".as_slice(),
        ),
        (
            b"\x11\x11\x11\x11\x11\x11\x11\x11\x11\x11\x11\x11",
            Method::DeltaRow,
            b"".as_slice(),
        ),
        (
            b"\x00\x00\x00\x00\x00\x00\x00\x00\x00\x00\x00\x00",
            Method::Unencoded,
            b"".as_slice(),
        ),
    ];
    for (row, method, data) in rows {
        let (found, given) = there_and_back(&rt, rt.alloc(), row, &seed)?;
        assert_eq!(rt; found, method);
        assert_eq!(rt; given.as_slice(), data);
    }
    Ok(())
}
