//! A writer that fails at one call, for tests.
ghost use Rattle.std.specs.Prelude.{◌≡◌, ◌≢◌, Some, IsErr, IfErr};
ghost use Rattle.std.specs.Io.{WritesAtMost};
ghost use Rattle.std.specs.Io.KnownBytes.{WriteAppends};
ghost use Rattle.std.specs.IoError.{error_kind};
ghost use Rattle.press_pbm.specs.Fuse.{writes_left, writer_of, burned};

use std::io::{self, ErrorKind, Write};

/// A writer over another, of which one write fails, and no other. The error is no interruption, after which a caller writes again.
#[derive(Drop)]
pub struct FuseWrite<W: Write + Drop> {
    writer: W,
    calls_left: Option<u64>,
}

impl<W: Write + Drop> FuseWrite<W> {
    /// A writer whose first `calls` writes are those of the other, and the one after them fails.
    pub fn new(writer: W, calls: u64) -> Self
        ensures writer { writer_of result ≡ writer }
        ensures calls { writes_left result ≡ Some calls }
    {
        FuseWrite {
            writer,
            calls_left: Some(calls),
        }
    }

    /// The other writer.
    pub fn into_inner(self) -> W
        ensures { result ≡ writer_of self }
    {
        let FuseWrite {
            writer,
            calls_left: _,
        } = self;
        writer
    }
}

impl<W: Write + Drop> Write for FuseWrite<W> {
    ghost contents = { λ fuse. W.contents (writer_of fuse) };

    fn write(&mut self, buf: &[u8]) -> io::Result<usize>
        ensures bound { WritesAtMost result buf.now }
        ensures bytes { WriteAppends (W.contents (writer_of self.old))
            (W.contents (writer_of self.new)) result buf.now }
        ensures fails { writes_left self.old ≡ Some 0 → IsErr result }
        ensures for_good { writes_left self.old ≡ Some 0 →
            IfErr result (λ error. error_kind error ≢ ErrorKind.Interrupted) }
        ensures calls { writes_left self.new ≡ burned (writes_left self.old) }
    {
        if self.calls_left == Some(0) {
            self.calls_left = None;
            return Err(io::Error::from(ErrorKind::Other));
        }
        self.calls_left = self.calls_left.map(|calls| calls - 1);
        self.writer.write(buf)
    }

    fn flush(&mut self) -> io::Result<()> {
        self.writer.flush()
    }
}
