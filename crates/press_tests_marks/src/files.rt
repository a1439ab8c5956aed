//! Worked files, and devices that fail.
use press_bits::Bitmap;
use press_devices::write_whole;
use press_pbm::{FuseRead, FuseWrite, ReadPbmError, WritePbmError, read_pbm, write_pbm};
use std::alloc::Global;
use std::io::{self, ErrorKind, Read, Write};
use std::process::Abort;
use std::test::Fail;

/// Three black dots in a line.
const THREE: &[u8; 8] = b"P4\n3 1\n\xe0";

#[test]
fn reads_and_writes_three_dots(rt: HostRuntime) -> Result<(), Fail> {
    let mut input = THREE.as_slice();
    let page = read_pbm(rt.alloc(), &mut input)?;
    assert_eq!(rt; (page.width(), page.height()), (3, 1));
    assert_eq!(rt; page.count_black(), 3);
    let mut output = Vec::new(rt.alloc());
    write_pbm(&page, &mut output)?;
    assert_eq!(rt; output.as_slice(), THREE.as_slice());
    Ok(())
}

/// A reader that gives at most so many bytes at once, and is interrupted before each of them.
#[derive(Drop)]
struct Slow<'a> {
    bytes: &'a [u8],
    most: usize,
    interrupted: bool,
}

impl Read for Slow<'_> {
    fn read(&mut self, buf: &mut [u8]) -> io::Result<usize> {
        self.interrupted = !self.interrupted;
        if self.interrupted {
            return Err(io::Error::from(ErrorKind::Interrupted));
        }
        let most = buf.len().min(self.most);
        self.bytes.read(&mut buf[..most])
    }
}

#[test]
fn pieces_and_interruptions_do_not_matter(rt: HostRuntime) -> Result<(), Fail> {
    for most in 1..4 {
        let mut input = Slow {
            bytes: b"P4 20 2 \xff\x00\xff\x00\xff\x00",
            most,
            interrupted: false,
        };
        let page = read_pbm(rt.alloc(), &mut input)?;
        assert_eq!(rt; page.count_black(), 20, "{most} at once");
    }
    Ok(())
}

#[test]
fn each_read_may_fail(rt: HostRuntime) -> Result<(), Fail> {
    for call in 0..8 {
        let mut input = FuseRead::new(THREE.as_slice(), call);
        let failed = matches!(
            read_pbm(rt.alloc(), &mut input),
            Err(ReadPbmError::ReadFault)
        );
        assert!(rt; failed, "read {call}");
    }
    let mut input = FuseRead::new(THREE.as_slice(), 8);
    let page = read_pbm(rt.alloc(), &mut input)?;
    assert_eq!(rt; page.count_black(), 3);
    Ok(())
}

#[test]
fn a_fuse_fails_one_read_alone(rt: HostRuntime) -> Result<(), Fail> {
    let mut input = FuseRead::new(b"abc".as_slice(), 1);
    let mut byte = [0];
    assert_eq!(rt; input.read(&mut byte)?, 1);
    let Err(error) = input.read(&mut byte) else {
        return Err(Fail::from("the second read went through"));
    };
    assert!(rt; error.kind() == ErrorKind::Other);
    assert_eq!(rt; input.read(&mut byte)?, 1);
    assert_eq!(rt; byte, *b"b");
    Ok(())
}

/// A page of nine dots by two, as a file.
const NINE_BY_TWO: &[u8] = b"P4\n9 2\n\xff\x80\x00\x80";

/// What is written of a page to a writer that fails at a call, and whether the fault is told.
fn written(alloc: Global, page: &Bitmap, call: u64) -> (bool, Vec<u8>) {
    let mut output = FuseWrite::new(Vec::new(alloc), call);
    let failed = matches!(write_pbm(page, &mut output), Err(WritePbmError::WriteFault));
    (failed, output.into_inner())
}

/// Whether the write fails at this call, and that page's front of so many bytes was written.
fn fails_at(alloc: Global, page: &Bitmap, call: u64, front: usize) -> bool {
    let (failed, bytes) = written(alloc, page, call);
    failed && Some(bytes.as_slice()) == NINE_BY_TWO.get(..front)
}

#[test]
fn each_write_may_fail(rt: HostRuntime) -> Result<(), Fail> {
    let mut input = NINE_BY_TWO;
    let page = read_pbm(rt.alloc(), &mut input)?;
    for (call, front) in [0, 3, 4, 5, 6, 7].into_iter().enumerate() {
        assert!(rt;
            fails_at(rt.alloc(), &page, call as u64, front),
            "write {call}"
        );
    }
    Ok(())
}

#[test]
fn a_fuse_that_is_not_reached_passes_all_on(rt: HostRuntime) -> Result<(), Fail> {
    let mut input = NINE_BY_TWO;
    let page = read_pbm(rt.alloc(), &mut input)?;
    let mut output = FuseWrite::new(Vec::new(rt.alloc()), 6);
    write_pbm(&page, &mut output)?;
    output.flush()?;
    assert_eq!(rt; output.into_inner().as_slice(), NINE_BY_TWO);
    Ok(())
}

/// A writer that takes one byte at a time, is interrupted before each, and is full after so many.
#[derive(Drop)]
struct Tight {
    bytes: Vec<u8>,
    most: usize,
    interrupted: bool,
}

impl Write for Tight {
    fn write(&mut self, buf: &[u8]) -> io::Result<usize> {
        self.interrupted = !self.interrupted;
        if self.interrupted {
            return Err(io::Error::from(ErrorKind::Interrupted));
        }
        if self.bytes.len() >= self.most {
            return Ok(0);
        }
        match buf {
            [byte, ..] => {
                self.bytes.push(*byte)?;
                Ok(1)
            }
            [] => Ok(0),
        }
    }

    fn flush(&mut self) -> io::Result<()> {
        Ok(())
    }
}

/// Such a writer that has nothing yet.
fn empty_writer(alloc: Global, most: usize) -> Tight {
    Tight {
        bytes: Vec::new(alloc),
        most,
        interrupted: false,
    }
}

/// Whether such a writer takes this front of the file, and a fault is told exactly where that is not all.
fn takes(output: &Tight, whole: bool) -> bool {
    let wanted = &THREE[..output.most.min(8)];
    whole == (wanted.len() == 8) && output.bytes.as_slice() == wanted
}

fn expect_tight(rt: &impl Abort, page: &Bitmap, alloc: Global, most: usize) {
    let mut output = empty_writer(alloc, most);
    let whole = write_pbm(page, &mut output).is_ok();
    assert!(rt; takes(&output, whole), "{most} bytes of a file");
}

fn expect_tight_bytes(rt: &impl Abort, alloc: Global, most: usize) {
    let mut output = empty_writer(alloc, most);
    let whole = write_whole(&mut output, THREE).is_ok();
    assert!(rt; takes(&output, whole), "{most} bytes");
}

#[test]
fn a_full_writer_is_a_fault(rt: HostRuntime) -> Result<(), Fail> {
    let mut input = THREE.as_slice();
    let page = read_pbm(rt.alloc(), &mut input)?;
    for most in 0..10 {
        expect_tight(&rt, &page, rt.alloc(), most);
        expect_tight_bytes(&rt, rt.alloc(), most);
    }
    Ok(())
}
