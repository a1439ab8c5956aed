//! What the program tells (this profile).

ghost use Rattle.std.specs.Prelude.{◌≡◌};
ghost use Rattle.press_devices.specs.Telling.{Tells, as_line};

use std::fmt::{self, Display};
use std::io::Write;

/// What is told where an answer, a text, a line or a listing cannot be written: it has no number.
pub const NO_OUTPUT: &str = "fault output";

/// Where faults are told, text behind text. Whether what is told reaches somebody is not asked: a teller has no faults.
pub trait Teller {
    ghost use Rattle.std.specs.Prelude.{Option, List, ℕ};

    /// What was told to it, where that is known.
    ghost said: { Self → Option (List ℕ) };

    /// Tells a text.
    fn tell<D: Display>(&mut self, text: &D)
        ensures { Tells (said self.old) (said self.new) (D.output text.now) };
}

/// Any writer is told to. What it does not take is lost, so what was told to it is not known.
impl<W: Write> Teller for W {
    ghost use Rattle.std.specs.Prelude.{None};

    ghost said = { λ _. None };

    fn tell<D: Display>(&mut self, text: &D) {
        let _ = write!(self, "{text}");
    }
}

/// A text as a line.
#[derive(Drop)]
struct Line<'a, D>(&'a D);

impl<D: Display> fmt::Display for Line<'_, D> {
    ghost output = { λ line. as_line (D.output line.0.now) };

    fn fmt<W: fmt::Write>(&self, f: &mut fmt::Formatter<W>) -> fmt::Result {
        writeln!(f, "{}", self.0)
    }
}

/// Tells a fault in a line. The answer is the status after it.
pub fn report<D: Display, E: Teller>(error: &D, err: &mut E) -> u8
    ensures status { result ≡ 1 }
    ensures told { Tells (E.said err.old) (E.said err.new) (as_line (D.output error.now)) }
{
    err.tell(&Line(error));
    1
}
