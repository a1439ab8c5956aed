//! Bytes that stand before those of a reader, and what is made of both (this profile).
ghost use Rattle.std.specs.Prelude.{◌≡◌, List, ℕ, [], Some, false};
ghost use Rattle.press_files.specs.Change.{change};
ghost use Rattle.press_forms.specs.Ends.{Debugging, Explaining, Paging, TracingBy, read_of};
ghost use Rattle.press_main.specs.Program.{Behind};
ghost use Rattle.press_words.specs.Defaults.{HoldsBehind};

use press_devices::{ReadDevice, Teller, WriteDevice};
use press_files::{Around, Devices, Loan, Platform};
use press_forms::{debug_lines, explain_bytes, page_file, tell_by};
use press_trace::LineOf;
use std::alloc::Global;
use std::io;
use std::marker::{Brand, PhantomData};

/// A reader that is lent, and the bytes in front of it. It stands in proofs alone; that of a call says which they are.
pub(crate) trait Fronted: Loan {
    ghost front: { List ℕ };
}

impl Fronted for Brand {
    ghost front = { [] };
}

/// Bytes, and behind them what a reader that is lent has.
#[derive(Drop)]
pub(crate) struct Stream<'a, 'r, R, D: Fronted> {
    bytes: &'a [u8],
    reader: &'r mut R,
    of: PhantomData<D>,
    ghost same: { reader.ghost_name ≡ D.name },
    ghost given: { D.front ≡ [] → bytes.now ≡ [] },
}

impl<'a, 'r, R, D: Fronted> Stream<'a, 'r, R, D> {
    /// These bytes, and behind them what this reader has.
    fn new(bytes: &'a [u8], reader: &'r mut R) -> Self
        requires name { reader.ghost_name ≡ D.name }
        requires front { bytes.now ≡ D.front }
        ensures bytes { result.bytes.now ≡ bytes.now }
        ensures reader { result.reader.now ≡ reader.old }
    {
        Stream {
            bytes,
            reader,
            of: PhantomData,
        }
    }

    /// The reader, which goes back.
    fn into_reader(self) -> &'r mut R
        ensures reader { result.now ≡ self.entry.reader.now }
        ensures same { result.ghost_name ≡ D.name }
    {
        let Stream { reader, .. } = self;
        reader
    }
}

impl<R: ReadDevice, D: Fronted> ReadDevice for Stream<'_, '_, R, D> {
    ghost use Rattle.std.specs.Prelude.{Some};
    ghost use Rattle.std.specs.Fmt.{option_append};

    ghost remaining = { λ stream.
        option_append (Some stream.bytes.now) (R.remaining stream.reader.now) };

    ghost failed = { λ stream. R.failed stream.reader.now };

    ghost reads = { λ stream. R.reads stream.reader.now };

    /// The bytes in front, and what a read of the reader gives behind them.
    fn read_some(&mut self, buffer: &mut [u8]) -> io::Result<usize> {
        let before = self.bytes.len().min(buffer.len());
        let given = self.reader.read_some(&mut buffer[before..])?;
        buffer[..before].copy_from_slice(&self.bytes[..before]);
        self.bytes = &self.bytes[before..];
        Ok(before + given)
    }
}

/// Explains the stream of these bytes and those that a reader has behind them. The reader goes back, with the status.
pub(crate) fn explain_behind<'r, R: ReadDevice, P: Platform, D: Fronted>(
    alloc: Global,
    prefix: &[u8],
    reader: &'r mut R,
    devices: &mut Devices<P>,
) -> (&'r mut R, u8)
    requires name { reader.ghost_name ≡ D.name }
    requires front { prefix.now ≡ D.front }
    ensures same { result.0.ghost_name ≡ reader.entry.ghost_name }
    ensures flushed { result.1 ≡ 0 → P.Out.waiting devices.new.out ≡ false }
    ensures outputs { devices.new.outputs ≡ devices.old.outputs }
    ensures explains { ⟦<Devices<P> as Around<R>>⟧.holds (Behind prefix.now Explaining)
        result.1 reader.old result.0.now devices.old devices.new }
{
    let mut stream: Stream<'_, 'r, R, D> = Stream::new(prefix, reader);
    let status = explain_bytes(alloc, &mut stream, devices);
    (stream.into_reader(), status)
}

/// Tells the trace of the stream of these bytes and those that a reader has behind them, with a line for each step, or for each run. The reader
/// goes back, with the status.
pub(crate) fn trace_behind<'r, R: ReadDevice, P: Platform, D: Fronted>(
    by: LineOf,
    alloc: Global,
    prefix: &[u8],
    reader: &'r mut R,
    devices: &mut Devices<P>,
) -> (&'r mut R, u8)
    requires name { reader.ghost_name ≡ D.name }
    requires front { prefix.now ≡ D.front }
    ensures same { result.0.ghost_name ≡ reader.entry.ghost_name }
    ensures flushed { result.1 ≡ 0 → P.Out.waiting devices.new.out ≡ false }
    ensures outputs { devices.new.outputs ≡ devices.old.outputs }
    ensures traces { ⟦<Devices<P> as Around<R>>⟧.holds (Behind prefix.now (TracingBy by))
        result.1 reader.old result.0.now devices.old devices.new }
{
    let mut stream: Stream<'_, 'r, R, D> = Stream::new(prefix, reader);
    let status = tell_by(by, alloc, &mut stream, devices);
    (stream.into_reader(), status)
}

/// Makes the output of this name, of the page that is open behind so many steps of the stream of these bytes and those that a reader
/// has behind them. The reader goes back, with the status.
pub(crate) fn page_behind<'r, R: ReadDevice, P: Platform, D: Fronted>(
    alloc: Global,
    prefix: &[u8],
    steps: u64,
    name: &&str,
    reader: &'r mut R,
    devices: &mut Devices<P>,
) -> (&'r mut R, u8)
    requires name { reader.ghost_name ≡ D.name }
    requires front { prefix.now ≡ D.front }
    ensures same { result.0.ghost_name ≡ reader.entry.ghost_name }
    ensures out { devices.new.out ≡ devices.old.out }
    ensures through { result.1 ≡ 0
        → P.Outputs.waiting devices.new.outputs ≡ P.Outputs.waiting devices.old.outputs }
    ensures pages { ⟦<Devices<P> as Around<R>>⟧.holds
        (Behind prefix.now (Paging steps name.now.now))
        result.1 reader.old result.0.now devices.old devices.new }
{
    let mut stream: Stream<'_, 'r, R, D> = Stream::new(prefix, reader);
    let status = page_file(alloc, steps, name, &mut stream, devices);
    (stream.into_reader(), status)
}

/// Has a session with a debugger of the stream of these bytes and those that `file` has behind them, by the lines that a reader has. The file
/// goes back, with the status.
pub(crate) fn debug_behind<S: ReadDevice + Drop, R: ReadDevice, P: Platform>(
    alloc: Global,
    prefix: &[u8],
    mut file: S,
    reader: &mut R,
    devices: &mut Devices<P>,
) -> (S, u8)
    ensures flushed { result.1 ≡ 0 → P.Out.waiting devices.old.out ≡ false
        → P.Out.waiting devices.new.out ≡ false }
    ensures outputs { devices.new.outputs ≡ devices.old.outputs }
    ensures debugs { let stream = read_of S.ReadDevice file result.0 in
        HoldsBehind prefix.now stream.bytes.before stream.bytes.after (λ had left.
        ⟦<Devices<P> as Around<R>>⟧.holds (Debugging (record stream { bytes = change had left }))
        result.1 reader.old reader.new devices.old devices.new) }
{
    let (_, status) = debug_lent::<S, R, P, Brand>(alloc, prefix, &mut file, reader, devices);
    (file, status)
}

/// The same of a file that is lent.
fn debug_lent<'r, S: ReadDevice, R: ReadDevice, P: Platform, D: Fronted>(
    alloc: Global,
    prefix: &[u8],
    file: &'r mut S,
    reader: &mut R,
    devices: &mut Devices<P>,
) -> (&'r mut S, u8)
    requires name { file.ghost_name ≡ D.name }
    requires front { prefix.now ≡ D.front }
    ensures same { result.0.ghost_name ≡ file.entry.ghost_name }
    ensures flushed { result.1 ≡ 0 → P.Out.waiting devices.old.out ≡ false
        → P.Out.waiting devices.new.out ≡ false }
    ensures outputs { devices.new.outputs ≡ devices.old.outputs }
    ensures debugs { let stream = read_of S.ReadDevice file.old result.0.now in
        HoldsBehind prefix.now stream.bytes.before stream.bytes.after (λ had left.
        ⟦<Devices<P> as Around<R>>⟧.holds (Debugging (record stream { bytes = change had left }))
        result.1 reader.old reader.new devices.old devices.new) }
{
    let mut stream: Stream<'_, 'r, S, D> = Stream::new(prefix, file);
    let status = debug_lines(alloc, &mut stream, reader, devices);
    (stream.into_reader(), status)
}
