//! The assembly text of a stream, piece by piece.
ghost use Rattle.std.specs.Prelude.{◌≡◌, IfOk, IfErr, OnErr, OnOk, false, true};
ghost use Rattle.std.specs.Io.KnownBytes.{Keeps};
ghost use Rattle.press_devices.specs.Reading.{ReadFails};
ghost use Rattle.press_forms.specs.Assembly.{DisassembledTo, ListsToEnd, StopsDisassembling, StopsLines, WritesLines};
ghost use Rattle.press_forms.specs.Ends.{Disassembling};
ghost use Rattle.press_forms.specs.Causes.{TextCause};
ghost use Rattle.press_files.specs.Causes.{failures};
ghost use Rattle.press_forms.specs.declared.assembly.TextError.{TextError};

use crate::assembly::TextError;
use press_devices::{
    PIECE, ReadCount, ReadDevice, Teller, WriteDevice, read_next, report, write_whole,
};
use press_disasm::write_lines;
use press_files::{Around, Devices, Platform};
use press_scan::Scanner;
use std::alloc::Global;

/// Writes the assembly text of the stream that a reader has to standard output, and a fault to standard error: the lines of a piece before the
/// next one is read. After a fault the lines of the first commands stand there. The answer is the status: 0, or 1 after a fault.
pub fn disasm_bytes<R: ReadDevice, P: Platform>(
    alloc: Global,
    reader: &mut R,
    devices: &mut Devices<P>,
) -> u8
    ensures flushed { result ≡ 0 → P.Out.waiting devices.new.out ≡ false }
    ensures inputs { devices.new.inputs ≡ devices.old.inputs }
    ensures outputs { devices.new.outputs ≡ devices.old.outputs }
    ensures ended { ⟦<Devices<P> as Around<R>>⟧.holds Disassembling
        result reader.old reader.new devices.old devices.new }
{
    match disassemble_to(alloc, reader, &mut devices.out) {
        Ok(()) => 0,
        Err(error) => report(&error, &mut devices.err),
    }
}

/// Writes the assembly text of the stream that a reader has to `out`.
fn disassemble_to<R: ReadDevice, W: WriteDevice>(
    alloc: Global,
    reader: &mut R,
    out: &mut W,
) -> Result<(), TextError>
    ensures ok { OnOk result (DisassembledTo (R.remaining reader.old) (R.remaining reader.new)
        (W.contents out.old) (W.contents out.new)) }
    ensures err { IfErr result (StopsDisassembling (R.remaining reader.old) (R.remaining reader.new)
        (W.contents out.old) (W.contents out.new)) }
    ensures flushed { OnOk result (W.waiting out.new ≡ false) }
    ensures cause { IfErr result (TextCause
        (failures (ReadFails (R.failed reader.new) (R.reads reader.new))
        ⊥ (W.failed out.new ≡ true) ⊥)) }
{
    let mut scanner = list_pieces(alloc, reader, out)?;
    scanner.end_input();
    list_commands(alloc, &mut scanner, out)?;
    flush_text(out)
}

/// Sees to it that nothing that was written waits in the program.
fn flush_text<W: WriteDevice>(out: &mut W) -> Result<(), TextError>
    ensures text { Keeps (W.contents out.old) (W.contents out.new) }
    ensures err { IfErr result (λ why. why ≡ TextError.NoOutput) }
    ensures flushed { OnOk result (W.waiting out.new ≡ false) }
    ensures cause { OnErr result (W.failed out.new ≡ true) }
{
    out.flush_all().map_err(|_| TextError::NoOutput)
}

/// Reads a stream to its end, and writes the lines of the commands of each piece to `out` before the next one is read. The answer is
/// the scanner that holds the rest.
fn list_pieces<R: ReadDevice, W: WriteDevice>(
    alloc: Global,
    reader: &mut R,
    out: &mut W,
) -> Result<Scanner, TextError>
    ensures ok { IfOk result (ListsToEnd (R.remaining reader.old) (R.remaining reader.new)
        (W.contents out.old) (W.contents out.new)) }
    ensures err { IfErr result (StopsDisassembling (R.remaining reader.old) (R.remaining reader.new)
        (W.contents out.old) (W.contents out.new)) }
    ensures cause { IfErr result (TextCause
        (failures (ReadFails (R.failed reader.new) (R.reads reader.new))
        ⊥ (W.failed out.new ≡ true) ⊥)) }
{
    let mut count = ReadCount::none();
    let mut piece = [0; PIECE];
    let mut scanner = Scanner::new(alloc);
    loop {
        let length = read_next(reader, &mut piece, &mut count)?;
        if length == 0 {
            return Ok(scanner);
        }
        scanner.feed(&piece[..length])?;
        list_commands(alloc, &mut scanner, out)?;
    }
}

/// Writes the lines of the commands that a scanner has to give to `out`.
fn list_commands<W: WriteDevice>(
    alloc: Global,
    scanner: &mut Scanner,
    out: &mut W,
) -> Result<(), TextError>
    ensures ok { OnOk result
        (WritesLines scanner.old scanner.new (W.contents out.old) (W.contents out.new)) }
    ensures err { IfErr result
        (StopsLines scanner.old (W.contents out.old) (W.contents out.new)) }
    ensures cause { IfErr result (TextCause (failures ⊥ ⊥ (W.failed out.new ≡ true) ⊥)) }
{
    let mut lines = Vec::new(alloc);
    write_lines(scanner, &mut lines)?;
    match write_whole(out, &lines) {
        Ok(()) => Ok(()),
        Err(_) => Err(TextError::NoOutput),
    }
}
