//! The scanner: a line whose mark comes in pieces, and the longest data in memory that is reserved.

ghost use Rattle.std.specs.Prelude.{◌≡◌, false, OnOk};

use press_cmd::{Command, write_command};
use press_scan::Scanner;
use std::test::Fail;

/// A letter for each kind of command.
fn letter(command: &Command) -> u8 {
    match command {
        Command::Escape(_) => b'E',
        Command::Param(_) => b'P',
        Command::Control(_) => b'C',
        Command::Text(_) => b'T',
        Command::Broken(_) => b'B',
        Command::Uel => b'U',
        Command::PjlLine(_) => b'L',
        Command::Foreign(_) => b'F',
    }
}

/// Appends the letter and the bytes of each command that the scanner gives.
fn drain(scanner: &mut Scanner, log: &mut Vec<u8>) -> Result<(), Fail>
    ensures { OnOk result (scanner.new.ended ≡ scanner.old.ended) }
{
    while let Some(command) = scanner.next()? {
        log.push(letter(&command))?;
        write_command(&command, log)?;
    }
    Ok(())
}

/// Feeds a piece, and appends the commands that the scanner gives then.
fn take(scanner: &mut Scanner, piece: &[u8], log: &mut Vec<u8>) -> Result<(), Fail>
    requires { scanner.old.ended ≡ false }
    ensures { OnOk result (scanner.new.ended ≡ false) }
{
    scanner.feed(piece)?;
    drain(scanner, log)
}

/// Feeds bytes one by one.
fn take_bytes(scanner: &mut Scanner, bytes: &[u8], log: &mut Vec<u8>) -> Result<(), Fail>
    requires { scanner.old.ended ≡ false }
    ensures { OnOk result (scanner.new.ended ≡ false) }
{
    for byte in bytes {
        take(scanner, &[*byte], log)?;
    }
    Ok(())
}

#[test]
fn waits_in_the_mark_of_a_line(rt: HostRuntime) -> Result<(), Fail> {
    let mut scanner = Scanner::new(rt.alloc());
    let mut log = Vec::new(rt.alloc());
    take_bytes(&mut scanner, b"\x1B%-12345X@PJ", &mut log)?;
    assert_eq!(rt; log.as_slice(), b"U\x1B%-12345X".as_slice());
    assert_eq!(rt; scanner.rest_len(), 3);
    assert!(rt; !scanner.ended());
    take(&mut scanner, b"L\n", &mut log)?;
    assert_eq!(rt; log.as_slice(), b"U\x1B%-12345XL@PJL\n".as_slice());
    scanner.end_input();
    assert!(rt; scanner.ended());
    assert!(rt; scanner.next()?.is_none());
    Ok(())
}

/// Takes bytes one by one, and counts the commands that the scanner gives then.
fn count_taken(scanner: &mut Scanner, bytes: &[u8]) -> Result<u32, Fail> {
    let mut count: u32 = 0;
    for byte in bytes {
        if scanner.take(&[*byte]) != 1 {
            return Err(Fail::from("a byte was not taken"));
        }
        if scanner.next()?.is_some() {
            count = count.saturating_add(1);
        }
    }
    Ok(count)
}

/// A parameter with the longest data, whose bytes come one by one.
#[test]
fn takes_the_longest_data_byte_by_byte(rt: HostRuntime) -> Result<(), Fail> {
    let data = vec![in rt.alloc(); 0xA5u8; 65_534]?;
    let mut scanner = Scanner::new(rt.alloc());
    scanner.reserve()?;
    assert_eq!(rt; count_taken(&mut scanner, b"x\x1B*b65535W")?, 1);
    assert_eq!(rt; count_taken(&mut scanner, &data)?, 0);
    assert_eq!(rt; scanner.held(), 65_543);
    assert_eq!(rt; scanner.take(b"\x5A"), 1);
    let Some(command) = scanner.next()? else {
        return Err(Fail::from("no command was given"));
    };
    assert_eq!(rt; command.data().len(), 65_535);
    assert_eq!(rt; command.data().last(), Some(&0x5A));
    Ok(())
}

/// How many commands of one byte the scanner passes over.
fn count_passed(scanner: &mut Scanner, controls: bool) -> usize {
    match scanner.pass(controls) {
        Some(passed) => passed.count,
        None => 0,
    }
}

#[test]
fn passes_over_text_and_not_over_control_bytes(rt: HostRuntime) -> Result<(), Fail> {
    let mut scanner = Scanner::new(rt.alloc());
    scanner.feed(b"abc\ndef\x1BE")?;
    assert_eq!(rt; count_passed(&mut scanner, false), 0);
    assert!(rt; scanner.next()?.is_some());
    assert_eq!(rt; count_passed(&mut scanner, false), 2);
    assert_eq!(rt; count_passed(&mut scanner, false), 0);
    assert_eq!(rt; count_passed(&mut scanner, true), 4);
    assert_eq!(rt; scanner.held(), 2);
    Ok(())
}
