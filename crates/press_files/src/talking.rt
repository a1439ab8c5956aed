//! Talks: lines that a reader has, each of which is answered.
ghost use Rattle.std.specs.Prelude.{◌≡◌, ℕ, true, false, List, ⊤, IfErr, OnOk};
ghost use Rattle.press_devices.specs.Reading.{ReadFails};
ghost use Rattle.std.specs.Io.KnownBytes.{Appends};
ghost use Rattle.press_files.specs.Causes.{InputCause};
ghost use Rattle.press_files.specs.Change.{change};
ghost use Rattle.press_files.specs.Talking.{AnswersAll, AnswersSome, StopsAtLine, caused, line_by_line};

use crate::inputs::InputError;
use crate::line_reader::LineReader;
use press_devices::{ReadDevice, WriteDevice, write_flushed};
use std::alloc::Global;
use std::io;

/// What answers lines.
pub trait Talk {
    ghost use Rattle.std.specs.Prelude.{ℕ, List, IfOk, IfErr, OnOk};

    /// Why it ends early: lines cannot be read, an answer cannot be written, or a line has none.
    type Error: From<InputError> + From<io::Error>;

    /// That it may be given lines.
    ghost IsReady: { Self → Type 0 } = { λ _. Unit {0} };

    /// It answers a line so, and is so behind it.
    ghost answers: { Self → List ℕ → List ℕ → Self → Type 0 };

    /// Why it has no answer to a line, and how it is then.
    ghost refuses: { Self → List ℕ → Self.Error → Self → Type 0 };

    /// Does what a line asks: the answer.
    fn answer(&mut self, line: &[u8]) -> Result<Vec<u8>, Self::Error>
        requires { IsReady self.old }
        ensures ready { OnOk result (IsReady self.new) }
        ensures ok { IfOk result (λ answer. answers self.old line.now answer.items self.new) }
        ensures err { IfErr result (λ why. refuses self.old line.now why self.new) };
}

/// Answers the lines that a reader has, and writes the answers. A line is answered before more is read.
///
/// # Errors
///
/// Where lines cannot be read, an answer cannot be written, or a line has none. The lines before are answered then.
pub fn answer_lines<T: Talk, R: ReadDevice, W: WriteDevice>(
    alloc: Global,
    talk: &mut T,
    reader: &mut R,
    out: &mut W,
) -> Result<(), T::Error>
    requires { T.IsReady talk.old }
    ensures ok { OnOk result ((answered : AnswersAll (line_by_line T.answers T.refuses
        T.Error.From-1.from_gives T.Error.From-2.from_gives) talk.old
        (R.remaining reader.old) (R.remaining reader.new)
        (W.contents out.old) (W.contents out.new)) × (answered.last ≡ talk.new)) }
    ensures err { IfErr result (λ why. (some : AnswersSome (caused (line_by_line T.answers T.refuses
        T.Error.From-1.from_gives T.Error.From-2.from_gives)
        (InputCause (ReadFails (R.failed reader.new) (R.reads reader.new)))
        (W.failed out.new ≡ true)) talk.old
        (R.remaining reader.old) (R.remaining reader.new)
        (change (W.contents out.old) (W.contents out.new)) why) × (some.ended ≡ talk.new)) }
    ensures ready { OnOk result (T.IsReady talk.new) }
    ensures flushed { OnOk result (W.waiting out.old ≡ false → W.waiting out.new ≡ false) }
{
    let mut lines = LineReader::new(alloc);
    let mut line = Vec::new(alloc);
    while lines.next(reader, &mut line)? {
        answer_line(talk, &line, out)?;
    }
    if line.is_empty() {
        return Ok(());
    }
    answer_line(talk, &line, out)
}

/// Answers a line, and writes the answer.
fn answer_line<T: Talk, W: WriteDevice>(
    talk: &mut T,
    line: &[u8],
    out: &mut W,
) -> Result<(), T::Error>
    requires { T.IsReady talk.old }
    ensures ready { OnOk result (T.IsReady talk.new) }
    ensures ok { OnOk result ((answer : List ℕ) × T.answers talk.old line.now answer talk.new
        × Appends (W.contents out.old) (W.contents out.new) answer) }
    ensures err { IfErr result (StopsAtLine (caused (line_by_line T.answers T.refuses
        T.Error.From-1.from_gives T.Error.From-2.from_gives)
        (λ _. ⊤) (W.failed out.new ≡ true)) line.now talk.old talk.new
        (W.contents out.old) (W.contents out.new)) }
    ensures flushed { OnOk result (W.waiting out.new ≡ false) }
{
    let answer = talk.answer(line)?;
    write_flushed(out, &answer)?;
    Ok(())
}
