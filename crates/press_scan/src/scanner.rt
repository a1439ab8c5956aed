//! A scanner that is fed a stream in pieces, and gives its commands.

ghost use Rattle.std.specs.Prelude.{◌≡◌, ◌≤◌, ◌-◌, [], ◌++◌, true, false, length, drop, take, vec_len, IsOk, OnOk, OnErr, IfOk, IfSome, IfNone, MatchOption};
ghost use Rattle.std.specs.Borrow.{sem};
ghost use Rattle.press_cmd.specs.ParserState.{Exit};
ghost use Rattle.press_cmd.specs.View.{token};
ghost use Rattle.press_scan.specs.Modes.{mode_of, IsSettled};
ghost use Rattle.press_scan.specs.Lines.{IsKnownPlain, IsPlainPrefix};
ghost use Rattle.press_scan.specs.Peeks.{Peeks, PeeksWhereScanned};
ghost use Rattle.press_scan.specs.Gives.{IsNext, IsDone};
ghost use Rattle.press_scan.specs.Rest.{IsRestLength};
ghost use Rattle.press_scan.specs.Sequences.{longest_rest};
ghost use Rattle.press_scan.specs.ScannerState.{buffer_size, least_free, taken};
ghost use Rattle.press_scan.specs.Passing.{PassesOver};

use crate::awaited::awaited;
use crate::buffer::{drop_consumed, make_room};
use crate::closing::close;
use crate::head::{head, scanned_in};
use crate::line::plain_prefix;
use crate::parser_state::ParserState;
use crate::passing::{Passed, byte_kind, passed_prefix};
use crate::plain::plain_at;
use crate::reading::Found;
use press_cmd::Command;
use std::alloc::{AllocError, Global};
use std::marker::Model;

/// How many bytes a scanner holds in reserved memory.
pub const BUFFER_SIZE: usize = 131_072;

/// A scanner: it is fed the bytes of a stream in pieces, and gives the commands of the stream one after another.
///
/// Source: PCL 5 Printer Language Technical Reference Manual, the syntax of escape sequences; PJL Technical Reference
/// Manual, the universal exit and the syntax of PJL commands. How long a line and a rest may be is this profile's.
///
/// Contracts see the mode, the bytes fed that stand in no command given, and whether the end of input was given.
#[derive(Drop)]
pub struct Scanner {
    buffer: Vec<u8>,
    /// Where the bytes begin that stand in no command given.
    start: usize,
    mode: ParserState,
    ended: bool,
    /// How many bytes behind `@PJL` are known to be part of a line.
    searched: usize,
    /// How many bytes there have to be from `start` on before a command can stand there: one at least.
    awaited: usize,
    /// How many bytes it may hold in reserved memory: 0 where none is.
    room: usize,
}

impl Model for Scanner {
    ghost use Rattle.std.specs.Prelude.{◌≤◌, vec_len, vec_capacity, drop};
    ghost use Rattle.press_scan.specs.ScannerState.{ScannerState};

    ghost Value = { ScannerState };

    ghost use Rattle.press_scan.specs.Modes.{mode_of};
    ghost use Rattle.press_scan.specs.Lines.{IsKnownPlain};
    ghost use Rattle.press_scan.specs.Awaited.{IsAwaited};

    ghost view = { λ s. record {
      mode = mode_of s.mode;
      bytes = drop s.start s.buffer.items;
      ended = s.ended;
      room = s.room;
    } };

    ghost invariant = { λ s. (s.start ≤ vec_len s.buffer)
        × IsKnownPlain (drop s.start s.buffer.items) s.searched
        × IsAwaited (mode_of s.mode) (drop s.start s.buffer.items) s.awaited
        × (s.room ≤ vec_capacity s.buffer) };
}

/// The next command of what is held, if there is one, and how many bytes behind `@PJL` are then known to be part of
/// a line.
fn peek(mode: ParserState, bytes: &[u8], searched: usize, ended: bool) -> (Option<Found<'_>>, usize)
    requires { IsKnownPlain bytes.now searched }
    ensures known { IsKnownPlain bytes.now result.1 }
    ensures found { Peeks (mode_of mode) bytes.now ended result.0 }
{
    let scanned = scanned_in(mode, bytes);
    let plain = plain_prefix(scanned, bytes, searched);
    (first_command(scanned, bytes, plain, ended), plain)
}

/// The first command of bytes that are scanned in the mode, and, where they end, the first that they stand for.
fn first_command(scanned: ParserState, bytes: &[u8], plain: usize, ended: bool) -> Option<Found<'_>>
    requires settled { IsSettled (mode_of scanned) bytes.now }
    requires line { mode_of scanned ≡ Exit → IsPlainPrefix bytes.now plain }
    ensures { PeeksWhereScanned (mode_of scanned) bytes.now ended result }
{
    match head(scanned, bytes, plain) {
        Some(found) => Some(found),
        None if ended => close(scanned, bytes),
        None => None,
    }
}

/// The length of the rest of bytes, where `searched` ones behind `@PJL` are known to be part of a line.
fn rest_length(mut mode: ParserState, bytes: &[u8], mut searched: usize) -> usize
    requires { IsKnownPlain bytes.now searched }
    ensures rest { IsRestLength (mode_of mode) bytes.now result }
    ensures few { result ≤ longest_rest }
{
    let mut rest = bytes;
    while let (Some(found), _) = peek(mode, rest, searched, false) {
        mode = found.mode;
        rest = &rest[found.length..];
        searched = 0;
    }
    rest.len()
}

impl Scanner {
    ghost use Rattle.press_scan.specs.Lending.{EndsAs, EndsPlain};

    /// A scanner at the beginning of a stream, as after a universal exit. It takes no memory.
    pub fn new(alloc: Global) -> Scanner
        ensures mode { result.mode ≡ Exit }
        ensures bytes { result.bytes ≡ [] }
        ensures ended { result.ended ≡ false }
        ensures room { result.room ≡ 0 }
    {
        Scanner {
            buffer: Vec::new(alloc),
            start: 0,
            mode: ParserState::Exit,
            ended: false,
            searched: 0,
            awaited: 1,
            room: 0,
        }
    }

    /// Takes the next piece of the stream.
    ///
    /// # Errors
    ///
    /// Where memory ran out; the scanner is then as it was.
    pub fn feed(&mut self, piece: &[u8]) -> Result<(), AllocError>
        requires { self.old.ended ≡ false }
        ensures mode { self.new.mode ≡ self.old.mode }
        ensures ended { self.new.ended ≡ false }
        ensures room { self.new.room ≡ self.old.room }
        ensures ok { OnOk result (self.new.bytes ≡ self.old.bytes ++ piece.now) }
        ensures err { OnErr result (self.new ≡ self.old) }
    {
        self.start = drop_consumed(&mut self.buffer, self.start);
        self.buffer.extend_from_slice(piece)?;
        Ok(())
    }

    /// Takes memory for 131,072 bytes, once: a scanner that has it keeps it.
    ///
    /// # Errors
    ///
    /// Where memory ran out; the scanner is then as it was.
    pub fn reserve(&mut self) -> Result<(), AllocError>
        ensures ok { OnOk result (self.new ≡ record self.old { room = buffer_size }) }
        ensures err { OnErr result (self.new ≡ self.old) }
    {
        if self.room == BUFFER_SIZE {
            return Ok(());
        }
        self.start = drop_consumed(&mut self.buffer, self.start);
        let missing = BUFFER_SIZE.saturating_sub(self.buffer.len());
        self.buffer.reserve_exact(missing)?;
        self.room = BUFFER_SIZE;
        Ok(())
    }

    /// How many bytes fed stand in no command given.
    pub fn held(&self) -> usize
        ensures { result ≡ length self.now.bytes }
    {
        self.buffer.len() - self.start
    }

    /// How many bytes of a piece it can take.
    fn takes(&self, piece: &[u8]) -> usize
        ensures { result ≡ taken self.now piece.now }
    {
        if self.ended {
            0
        } else {
            piece.len().min(self.room.saturating_sub(self.held()))
        }
    }

    /// Takes the front of a piece of the stream into reserved memory, and answers how many bytes it took: all of the piece, or
    /// as many as there is room for beside those that are held. It takes no memory.
    pub fn take(&mut self, piece: &[u8]) -> usize
        ensures count { result ≡ taken self.old piece.now }
        ensures bytes { self.new
            ≡ record self.old { bytes = self.old.bytes ++ take result piece.now } }
    {
        let count = self.takes(piece);
        if count == 0 {
            return 0;
        }
        self.start = make_room(&mut self.buffer, self.start, count);
        if self.buffer.extend_from_slice(&piece[..count]).is_err() {
            unreachable!();
        }
        count
    }

    /// Gives the next command, with its data lent from the buffer; none where what is held begins no whole command,
    /// and after the end of input where nothing is held: then at least 65,502 bytes of a reserved buffer are free, so that a loop
    /// of `take` and `next` comes to its end.
    ///
    /// # Errors
    ///
    /// None is ever answered: it takes no memory in this representation.
    pub fn next(&mut self) -> Result<Option<Command<'_>>, AllocError>
        ensures ok { IsOk result }
        ensures some { IfOk result (λ answer. IfSome answer
            (λ command. IsNext self.old (token command))) }
        ensures none { IfOk result (λ answer. IfNone answer (IsDone self.old)) }
        ensures free { IfOk result (λ answer. IfNone answer
            (least_free ≤ buffer_size - length self.old.bytes)) }
        ensures* after { sem 𝓛 (EndsAs self.entry result) }
    {
        let held = &self.buffer[self.start..];
        if held.len() < self.awaited && !self.ended {
            return Ok(None);
        }
        let (found, plain) = peek(self.mode, held, self.searched, self.ended);
        match found {
            Some(found) => {
                self.start += found.length;
                self.mode = found.mode;
                self.searched = 0;
                self.awaited = 1;
                Ok(Some(found.command))
            }
            None => {
                self.searched = plain;
                self.awaited = awaited(self.mode, held);
                Ok(None)
            }
        }
    }

    /// Gives the next command where it is a parameter with a group, or a control byte, that has come whole; else none, and nothing
    /// changes. It may give none before such a command, too.
    #[inline(always)]
    pub fn next_plain(&mut self) -> Option<Command<'_>>
        ensures some { IfSome result (λ command. IsNext self.old (token command)) }
        ensures* after { sem 𝓛 (EndsPlain self.entry result) }
    {
        let held = &self.buffer[self.start..];
        let found = plain_at(self.mode, held)?;
        self.start += found.length;
        self.mode = found.mode;
        self.searched = 0;
        self.awaited = 1;
        Some(found.command)
    }

    /// Passes over the next commands at once, as long as each is a text byte or a byte of another language, or, with `controls`,
    /// a control byte, and answers how many; none where the next is another one. It may end before such a command, too.
    pub fn pass(&mut self, controls: bool) -> Option<Passed>
        ensures { MatchOption result (self.new ≡ self.old)
            (λ passed. PassesOver controls self.old passed self.new) }
    {
        let held = &self.buffer[self.start..];
        let count = passed_prefix(self.mode, controls, held);
        if count == 0 {
            return None;
        }
        let kind = byte_kind(self.mode, held[count - 1]);
        self.start += count;
        self.searched = 0;
        self.awaited = 1;
        Some(Passed { count, kind })
    }

    /// Gives the end of input: from now on the rest is closed.
    pub fn end_input(&mut self)
        ensures { self.new ≡ record self.old { ended = true } }
    {
        self.ended = true;
    }

    /// Whether the end of input was given.
    pub fn ended(&self) -> bool
        ensures { result ≡ self.now.ended }
    {
        self.ended
    }

    /// How many bytes fed stand in no whole command, also while whole commands wait to be given: at most 65,570, and 0
    /// after the end of input where nothing is left to give. It reads through what is held.
    pub fn rest_len(&self) -> usize
        ensures rest { IsRestLength self.now.mode self.now.bytes result }
        ensures few { result ≤ longest_rest }
        ensures done { IsDone self.now → self.now.ended ≡ true → result ≡ 0 }
    {
        rest_length(self.mode, &self.buffer[self.start..], self.searched)
    }
}
