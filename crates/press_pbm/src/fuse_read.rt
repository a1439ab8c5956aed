//! A reader that fails at one call, for tests.
ghost use Rattle.std.specs.Prelude.{◌≡◌, ◌≢◌, Some, IsErr, IfErr};
ghost use Rattle.std.specs.Io.{ReadsAtMost};
ghost use Rattle.std.specs.Io.KnownBytes.{ReadConsumes};
ghost use Rattle.std.specs.IoError.{error_kind};
ghost use Rattle.press_pbm.specs.Fuse.{reads_left, reader_of, burned};

use std::io::{self, ErrorKind, Read};

/// A reader over another, of which one call fails, and no other. The error is no interruption, after which a caller reads again.
#[derive(Drop)]
pub struct FuseRead<R: Read + Drop> {
    reader: R,
    calls_left: Option<u64>,
}

impl<R: Read + Drop> FuseRead<R> {
    /// A reader whose first `calls` calls are those of the other, and the one after them fails.
    pub fn new(reader: R, calls: u64) -> Self
        ensures reader { reader_of result ≡ reader }
        ensures calls { reads_left result ≡ Some calls }
    {
        FuseRead {
            reader,
            calls_left: Some(calls),
        }
    }
}

impl<R: Read + Drop> Read for FuseRead<R> {
    ghost remaining = { λ fuse. R.remaining (reader_of fuse) };

    fn read(&mut self, buf: &mut [u8]) -> io::Result<usize>
        ensures bound { ReadsAtMost result buf.new }
        ensures bytes { ReadConsumes (R.remaining (reader_of self.old))
            (R.remaining (reader_of self.new)) result buf.new }
        ensures fails { reads_left self.old ≡ Some 0 → IsErr result }
        ensures for_good { reads_left self.old ≡ Some 0 →
            IfErr result (λ error. error_kind error ≢ ErrorKind.Interrupted) }
        ensures calls { reads_left self.new ≡ burned (reads_left self.old) }
    {
        if self.calls_left == Some(0) {
            self.calls_left = None;
            return Err(io::Error::from(ErrorKind::Other));
        }
        self.calls_left = self.calls_left.map(|calls| calls - 1);
        self.reader.read(buf)
    }
}
