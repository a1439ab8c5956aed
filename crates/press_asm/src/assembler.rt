//! The assembler.
ghost use Rattle.std.specs.Prelude.{◌≡◌, ◌==◌, position, IfOk, IfErr};
ghost use Rattle.std.specs.List.{before_first, after_first};
ghost use Rattle.press_asm.specs.Text.{is_feed, Assembles, Refuses};

use crate::fault::AssembleError;
use crate::judge::add_text_line;
use press_cmd::LINE_FEED;
use std::alloc::Global;

/// Where the first line feed stands.
fn feed_place(text: &[u8]) -> Option<usize>
    ensures { result ≡ position is_feed text.now }
{
    text.iter().position(|byte| *byte == LINE_FEED)
}

/// What stands before the first line feed, and after it; all and nothing where there is none.
fn split_line(text: &[u8]) -> (&[u8], &[u8])
    ensures line { result.0.now ≡ before_first is_feed text.now }
    ensures rest { result.1.now ≡ after_first is_feed text.now }
{
    match feed_place(text) {
        Some(place) => (&text[..place], &text[place + 1..]),
        None => (text, &[]),
    }
}

/// The bytes of the commands that the lines of a text stand for, in order.
///
/// A line ends with a line feed, which the last may lack. HH is two hexadecimal digits, in either case.
///
/// | Line | Stands for |
/// |---|---|
/// | empty, or from `;` on | nothing |
/// | `uel` | the universal exit |
/// | `esc C` | a two-character escape sequence |
/// | `par *p10X`, `par *b2W 02F0` | a parameter: its character, its group if it has one, its field, its end, and its data |
/// | `ctl HH`, `txt HH`, `for HH` | a control byte, a text byte, a byte of another language |
/// | `brk HH..` | bytes that begin a sequence or a line which does not go on |
/// | `pjl HH..` | a PJL line, with its line feed |
///
/// # Errors
///
/// Of the first line that is not so, counted from 1: 401 `BadLine` where it is no UTF-8, has none of these forms, a byte is of
/// another class, or it is `par %-12345X`; 402 `BadValue` where its field is no value field; 403 `BadData` where a digit is missing,
/// its data is not as long as its value says, or its bytes are no PJL line. `NoMemory` where memory ran out.
pub fn assemble(alloc: Global, text: &[u8]) -> Result<Vec<u8>, AssembleError>
    ensures ok { IfOk result (λ bytes. Assembles text.now bytes.items) }
    ensures refused { IfErr result (Refuses text.now) }
{
    let mut out = Vec::new(alloc);
    let mut rest = text;
    let mut number = 0;
    while !rest.is_empty() {
        let (line, after) = split_line(rest);
        number += 1;
        match add_text_line(alloc, line, &mut out) {
            Ok(()) => rest = after,
            Err(fault) => return Err(fault.at(number)),
        }
    }
    Ok(out)
}
