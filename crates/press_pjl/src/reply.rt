//! Replies (PJL Technical Reference Manual, the status readback commands).

ghost use Rattle.std.specs.Prelude.{◌≡◌, ◌++◌, IfOk, OnOk, OnErr};
ghost use Rattle.press_cmd.specs.Language.{raised};
ghost use Rattle.press_pjl.specs.Replies.{reply_prefix, echo_of, page_reply};

use crate::effect::ReplyBytes;
use itoa::Buffer;
use std::alloc::{AllocError, Global};

/// What ends a reply: a carriage return, a line feed and a form feed.
pub(crate) const REPLY_END: [u8; 3] = *b"\r\n\x0C";

/// Appends bytes in upper case.
fn append_raised(bytes: &[u8], out: &mut Vec<u8>) -> Result<(), AllocError>
    ensures { OnOk result (out.new.items ≡ out.old.items ++ raised bytes.now) }
{
    for byte in bytes {
        out.push(byte.to_ascii_uppercase())?;
    }
    Ok(())
}

/// Appends what stands in a reply before its value.
pub(crate) fn append_prefix(
    command: &[u8],
    name: &[u8],
    out: &mut Vec<u8>,
) -> Result<(), AllocError>
    ensures { OnOk result (out.new.items ≡ out.old.items ++ reply_prefix command.now name.now) }
{
    out.extend_from_slice(b"@PJL ")?;
    out.extend_from_slice(command)?;
    out.extend_from_slice(b" ")?;
    append_raised(name, out)?;
    out.extend_from_slice(b"\r\n")
}

/// The reply to ECHO.
pub(crate) fn echo(alloc: Global, words: &[u8]) -> Result<ReplyBytes, AllocError>
    ensures { IfOk result (λ reply. reply ≡ echo_of words.now) }
{
    let mut bytes = Vec::from_slice(alloc, b"@PJL ECHO ")?;
    bytes.extend_from_slice(words)?;
    bytes.extend_from_slice(&REPLY_END)?;
    Ok(ReplyBytes::of(bytes))
}

/// The reply after a sheet.
fn page(alloc: Global, since_job: u64) -> Result<ReplyBytes, AllocError>
    ensures { IfOk result (λ reply. reply ≡ page_reply since_job) }
{
    let mut digits = Buffer::new();
    let mut bytes = Vec::new(alloc);
    append_prefix(b"USTATUS", b"PAGE", &mut bytes)?;
    bytes.extend_from_slice(digits.format(since_job).as_bytes())?;
    bytes.extend_from_slice(&REPLY_END)?;
    Ok(ReplyBytes::of(bytes))
}

/// Appends the reply that follows a sheet while the status switch is on: the count of sheets since the job began.
///
/// # Errors
///
/// Where memory ran out; then nothing is appended.
///
/// Source: PJL Technical Reference Manual, the USTATUS command.
pub fn write_reply(since_job: u64, out: &mut Vec<u8>) -> Result<(), AllocError>
    ensures ok { OnOk result (out.new.items ≡ out.old.items ++ page_reply since_job) }
    ensures err { OnErr result (out.new.items ≡ out.old.items) }
{
    let reply = page(*out.allocator(), since_job)?;
    out.extend_from_slice(reply.as_slice())
}
