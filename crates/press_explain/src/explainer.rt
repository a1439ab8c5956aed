//! A stream that is explained as its pieces come.
ghost use Rattle.std.specs.Prelude.{◌≡◌, ◌≤◌, ◌+◌, [], false, true, IfOk, IsSome, OnOk, length};
ghost use Rattle.press_engine.specs.Engine.{bodies, machine_of};
ghost use Rattle.press_explain.specs.Standing.{ExplainsExit, ExplainsNext, IsShown};

use crate::carrying::carry_out;
use crate::naming::append_named;
use crate::remark::{append_line, append_remark};
use press_asm::write_line;
use press_canvas::Canvas;
use press_cmd::Command;
use press_engine::Engine;
use press_scan::Scanner;
use std::alloc::{AllocError, Global};

/// What stands for the universal exit that is added at the end.
const EXIT_NAME: &[u8] = b"the end, where a universal exit is added";

/// Explains the next command that a scanner holds, which begins there, if it holds one: carries it out, and appends the remark on it and its line.
/// The answer is whether there was one.
fn explain_next(
    alloc: Global,
    at: usize,
    scanner: &mut Scanner,
    engine: &mut Engine,
    page: &mut Option<Canvas>,
    text: &mut Vec<u8>,
) -> Result<bool, AllocError>
    requires running { IsSome (machine_of engine.old) }
    requires idle { bodies engine.old ≡ [] }
    requires shown { IsShown (machine_of engine.old) page.old }
    ensures explains { IfOk result (λ some. ExplainsNext at scanner.old (machine_of engine.old)
        text.old.items some scanner.new (machine_of engine.new) text.new.items) }
    ensures idle { OnOk result (bodies engine.new ≡ []) }
    ensures shown { OnOk result (IsShown (machine_of engine.new) page.new) }
{
    let Some(command) = scanner.next()? else {
        return Ok(false);
    };
    let mut line = Vec::new(alloc);
    write_line(&command, &mut line)?;
    let mut name = Vec::new(alloc);
    append_named(alloc, &command, &mut name)?;
    let done = carry_out(alloc, engine, page, command)?;
    append_remark(
        alloc,
        at,
        &name,
        &done.was.view(),
        &engine.view(),
        done.change,
        done.replies.bytes(),
        text,
    )?;
    text.extend_from_slice(&line)?;
    Ok(true)
}

/// Explains the universal exit that is added behind so many bytes: carries it out, and appends the remark on it.
fn explain_exit(
    alloc: Global,
    at: usize,
    engine: &mut Engine,
    page: &mut Option<Canvas>,
    text: &mut Vec<u8>,
) -> Result<(), AllocError>
    requires running { IsSome (machine_of engine.old) }
    requires idle { bodies engine.old ≡ [] }
    requires shown { IsShown (machine_of engine.old) page.old }
    ensures explains { OnOk result
        (ExplainsExit at (machine_of engine.old) text.old.items text.new.items) }
{
    let done = carry_out(alloc, engine, page, Command::Uel)?;
    append_line(
        alloc,
        at,
        EXIT_NAME,
        &done.was.view(),
        &engine.view(),
        done.change,
        done.replies.bytes(),
        text,
    )
}

/// A stream that is explained as its pieces come.
#[derive(Drop)]
pub(crate) struct Explainer {
    alloc: Global,
    scanner: Scanner,
    engine: Engine,
    /// How many bytes of the stream came so far.
    length: usize,
    /// The page that was open behind the last command.
    page: Option<Canvas>,
}

impl Explainer {
    ghost use Rattle.press_explain.specs.Standing.{Explains, Finishes, GoesOn, IsAtStart, IsSound, with_more};
    ghost use Rattle.press_trace.specs.Tracing.{most_bytes};
    ghost use Rattle.press_scan.specs.Gives.{IsDone};

    /// A stream of which no byte came.
    pub(crate) fn open(alloc: Global) -> Result<Self, AllocError>
        ensures start { IfOk result IsAtStart }
        ensures sound { IfOk result IsSound }
    {
        let mut scanner = Scanner::new(alloc);
        scanner.reserve()?;
        Ok(Explainer {
            alloc,
            scanner,
            engine: Engine::power_on(alloc)?,
            length: 0,
            page: None,
        })
    }

    /// Takes the next piece of the stream.
    pub(crate) fn push(&mut self, piece: &[u8]) -> Result<(), AllocError>
        requires going { self.old.scanner.ended ≡ false }
        requires few { self.old.length + length piece.now ≤ most_bytes }
        ensures pushed { OnOk result (self.new ≡ with_more piece.now self.old) }
    {
        self.scanner.feed(piece)?;
        self.length += piece.len();
        Ok(())
    }

    /// Gives the end of the stream.
    pub(crate) fn end_input(&mut self)
        ensures { self.new ≡ record self.old { scanner = record self.old.scanner { ended = true } } }
    {
        self.scanner.end_input();
    }

    /// Explains the next command of the bytes that came, if one is left, and answers whether there was one.
    fn next(&mut self, text: &mut Vec<u8>) -> Result<bool, AllocError>
        requires { IsSound self.old }
        ensures explains { IfOk result (λ some.
            Explains self.old text.old.items some self.new text.new.items) }
        ensures sound { OnOk result (IsSound self.new) }
    {
        let at = self.length - self.scanner.held();
        explain_next(
            self.alloc,
            at,
            &mut self.scanner,
            &mut self.engine,
            &mut self.page,
            text,
        )
    }

    /// Explains the commands of the bytes that came that are left.
    pub(crate) fn explain_held(&mut self, text: &mut Vec<u8>) -> Result<(), AllocError>
        requires { IsSound self.old }
        ensures goes { OnOk result (GoesOn self.old text.old.items self.new text.new.items) }
        ensures sound { OnOk result (IsSound self.new) }
        ensures done { OnOk result (IsDone self.new.scanner) }
    {
        while self.next(text)? {}
        Ok(())
    }

    /// Explains the universal exit that is added at the end.
    pub(crate) fn finish(&mut self, text: &mut Vec<u8>) -> Result<(), AllocError>
        requires { IsSound self.old }
        ensures { OnOk result (Finishes self.old text.old.items text.new.items) }
    {
        explain_exit(
            self.alloc,
            self.length,
            &mut self.engine,
            &mut self.page,
            text,
        )
    }
}
