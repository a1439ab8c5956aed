//! Replies to a writer, and replies of which one fails.
use press_sink::{FuseReplies, ListReplies, ReplyError, ReplySink, WriteReplies};
use std::io::{self, ErrorKind, Write};
use std::process::Abort;
use std::test::Fail;

/// A writer that takes so many bytes at most in one call, and keeps them.
#[derive(Drop)]
struct Slow {
    bytes: Vec<u8>,
    most: usize,
}

impl Write for Slow {
    ghost use Rattle.std.specs.Prelude.{Some};

    ghost contents = { λ slow. Some slow.bytes.items };

    fn write(&mut self, buf: &[u8]) -> io::Result<usize> {
        let count = buf.len().min(self.most);
        self.bytes.extend_from_slice(&buf[..count])?;
        Ok(count)
    }

    fn flush(&mut self) -> io::Result<()> {
        Ok(())
    }
}

/// Hands over a reply, and tells whether the sink had a fault.
fn has_fault<S: ReplySink>(rt: &impl Abort, sink: &mut S, bytes: &[u8]) -> bool {
    assert!(rt; sink.faults() < u64::MAX);
    matches!(sink.reply(bytes), Err(ReplyError::ReplyFault))
}

#[test]
fn replies_are_written_whole(rt: HostRuntime) -> Result<(), Fail> {
    for most in 1..8 {
        let bytes = Vec::with_capacity(rt.alloc(), 16)?;
        let mut sink = WriteReplies::new(Slow { bytes, most });
        sink.reply(b"one")?;
        sink.reply(b"")?;
        sink.reply(b" and two")?;
        assert_eq!(rt; sink.faults(), 0);
        assert_eq!(rt;
            sink.into_inner().bytes.as_slice(),
            b"one and two".as_slice()
        );
    }
    Ok(())
}

/// A writer that notes how many bytes it holds where it is flushed, or fails there.
#[derive(Drop)]
struct Holding {
    bytes: Vec<u8>,
    flushed: Vec<usize>,
    fails: bool,
}

impl Write for Holding {
    fn write(&mut self, buf: &[u8]) -> io::Result<usize> {
        self.bytes.extend_from_slice(buf)?;
        Ok(buf.len())
    }

    fn flush(&mut self) -> io::Result<()> {
        if self.fails {
            return Err(io::Error::from(ErrorKind::Other));
        }
        self.flushed.push(self.bytes.len())?;
        Ok(())
    }
}

#[test]
fn each_reply_is_flushed(rt: HostRuntime) -> Result<(), Fail> {
    for fails in [false, true] {
        let mut sink = WriteReplies::new(Holding {
            bytes: Vec::with_capacity(rt.alloc(), 16)?,
            flushed: Vec::with_capacity(rt.alloc(), 16)?,
            fails,
        });
        for reply in [b"one".as_slice(), b"three".as_slice()] {
            assert!(rt; has_fault(&rt, &mut sink, reply) == fails);
        }
        assert_eq!(rt; sink.faults(), if fails { 2 } else { 0 });
        let writer = sink.into_inner();
        assert_eq!(rt; writer.bytes.as_slice(), b"onethree".as_slice());
        let wanted: &[usize] = if fails { &[] } else { &[3, 8] };
        assert_eq!(rt; writer.flushed.as_slice(), wanted);
    }
    Ok(())
}

#[test]
fn one_reply_alone_has_a_fault(rt: HostRuntime) -> Result<(), Fail> {
    let rows: [(u64, usize, &[u8]); 5] = [
        (0, 0, b"twothree"),
        (0, 2, b"ontwothree"),
        (1, 9, b"onetwothree"),
        (2, 1, b"onetwot"),
        (3, 1, b"onetwothree"),
    ];
    let replies: [&[u8]; 3] = [b"one", b"two", b"three"];
    for (fails_at, front, wanted) in rows {
        let mut fuse = FuseReplies::new(ListReplies::new(rt.alloc()), fails_at, front);
        for (place, reply) in replies.iter().enumerate() {
            let fault = has_fault(&rt, &mut fuse, *reply);
            assert_eq!(rt; fault, place as u64 == fails_at);
        }
        assert_eq!(rt; fuse.faults(), u64::from(fails_at < 3));
        assert_eq!(rt; fuse.sink().bytes(), wanted);
    }
    Ok(())
}
