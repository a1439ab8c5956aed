//! The disassembler.
ghost use Rattle.std.specs.Prelude.{IfOk, OnOk};
ghost use Rattle.std.specs.String.{string_bytes};
ghost use Rattle.press_disasm.specs.Disassembly.{IsDisassembly, IsListed, ListsNext, ListsAll};

use press_asm::write_line;
use press_scan::Scanner;
use std::alloc::{AllocError, Global};

/// Appends the line of the next command that a scanner has to give, with its line feed, and answers whether it has one.
fn write_next(scanner: &mut Scanner, lines: &mut Vec<u8>) -> Result<bool, AllocError>
    ensures { IfOk result (λ some.
        ListsNext scanner.old lines.old.items some scanner.new lines.new.items) }
{
    match scanner.next()? {
        Some(command) => {
            write_line(&command, lines)?;
            Ok(true)
        }
        None => Ok(false),
    }
}

/// Appends the lines of the commands that a scanner has to give, each with its line feed, up to where it has none: before the end
/// of input of all whole commands so far, and behind it of all that are left.
///
/// # Errors
///
/// Where memory ran out.
pub fn write_lines(scanner: &mut Scanner, lines: &mut Vec<u8>) -> Result<(), AllocError>
    ensures { OnOk result
        (ListsAll scanner.old lines.old.items scanner.new lines.new.items) }
{
    while write_next(scanner, lines)? {}
    Ok(())
}

/// The lines of the commands of a stream, each with its line feed, as bytes.
fn lines_of(alloc: Global, bytes: &[u8]) -> Result<Vec<u8>, AllocError>
    ensures { IfOk result (λ lines. IsListed bytes.now lines.items) }
{
    let mut scanner = Scanner::new(alloc);
    scanner.feed(bytes)?;
    scanner.end_input();
    let mut lines = Vec::new(alloc);
    write_lines(&mut scanner, &mut lines)?;
    Ok(lines)
}

/// The assembly text of a stream: a line for each of its commands, in order, with digits in upper case. A combined
/// sequence becomes a line for each of its parameters, and what the stream ends within is broken, as where it is printed.
///
/// Assembled, the text gives bytes with the same commands, whatever the stream.
///
/// # Errors
///
/// Where memory ran out.
pub fn disassemble(alloc: Global, bytes: &[u8]) -> Result<String, AllocError>
    ensures { IfOk result (λ text. IsDisassembly bytes.now (string_bytes text)) }
{
    let lines = lines_of(alloc, bytes)?;
    match String::from_utf8(lines) {
        Ok(text) => Ok(text),
        Err(_) => unreachable!(),
    }
}
