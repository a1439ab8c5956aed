//! The job language: replies with the least and the greatest counts of sheets.
use press_pjl::{Facts, PjlEnv, ReplyBytes, write_reply};
use std::alloc::AllocError;
use std::test::Fail;

/// Appends the replies after three sheets.
fn append_replies(out: &mut Vec<u8>) -> Result<(), AllocError> {
    write_reply(1, out)?;
    write_reply(0, out)?;
    write_reply(u64::MAX, out)
}

#[test]
fn replies_after_sheets_are_appended(rt: HostRuntime) -> Result<(), Fail> {
    let mut out = Vec::new(rt.alloc());
    append_replies(&mut out)?;
    let wanted = b"@PJL USTATUS PAGE\r\n1\r\n\x0C@PJL USTATUS PAGE\r\n0\r\n\x0C\
        @PJL USTATUS PAGE\r\n18446744073709551615\r\n\x0C";
    assert_eq!(rt; out.as_slice(), wanted.as_slice());
    let reply = ReplyBytes::of(out);
    assert_eq!(rt; reply.as_slice().len(), wanted.len());
    assert_eq!(rt; reply.into_vec().as_slice(), wanted.as_slice());
    Ok(())
}

#[test]
fn the_count_of_sheets_may_be_the_greatest(rt: HostRuntime) -> Result<(), Fail> {
    let mut env = PjlEnv::power_on();
    let facts = Facts {
        total: u64::MAX,
        since_job: 0,
    };
    let effect = env.line(rt.alloc(), b"@PJL INFO PAGECOUNT\n", &facts)?;
    let wanted = b"@PJL INFO PAGECOUNT\r\n18446744073709551615\r\n\x0C";
    assert_eq!(rt; effect.reply.as_slice(), wanted.as_slice());
    Ok(())
}
