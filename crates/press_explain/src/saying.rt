//! Numbers, and bytes as they are shown, written to the end of a text.
ghost use Rattle.std.specs.Prelude.{◌≡◌, ◌++◌, OnOk, map};
ghost use Rattle.press_explain.specs.Remarks.{shown, shown_byte};

use std::alloc::AllocError;

/// The most bytes that are shown.
const MOST_SHOWN: usize = 60;

/// A byte as it is shown.
fn shown_byte(byte: u8) -> u8
    ensures { result ≡ shown_byte byte }
{
    if matches!(byte, 32..=126) { byte } else { b'.' }
}

/// Appends each of these bytes as it is shown.
fn append_each(bytes: &[u8], text: &mut Vec<u8>) -> Result<(), AllocError>
    ensures { OnOk result (text.new.items ≡ text.old.items ++ map shown_byte bytes.now) }
{
    for byte in bytes {
        text.push(shown_byte(*byte))?;
    }
    Ok(())
}

/// Appends bytes as they are shown: as ASCII, any other than 32 to 126 as a full stop, and of more than 60 the first 60.
pub(crate) fn append_shown(bytes: &[u8], text: &mut Vec<u8>) -> Result<(), AllocError>
    ensures { OnOk result (text.new.items ≡ text.old.items ++ shown bytes.now) }
{
    let count = bytes.len().min(MOST_SHOWN);
    append_each(&bytes[..count], text)
}
