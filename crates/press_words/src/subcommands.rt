//! The table of subcommands: what each is called, and its line of help.
ghost use Rattle.std.specs.Prelude.{◌≡◌, false};
ghost use Rattle.clap.specs.Words.{app_of, new_app};
ghost use Rattle.clap.specs.declared.builder.command.Command.TheViews.{out-Command};
ghost use Rattle.press_words.specs.Words.{name_of, subcommand_named, usage_of};

use clap::Command;
use std::alloc::Global;

/// A subcommand.
#[derive(Clone, Copy)]
pub(crate) enum Subcommand {
    Print,
    Asm,
    Disasm,
    Explain,
    Debug,
    Trace,
    Page,
    Write,
    Press,
    Tables,
}

/// All subcommands, in the order of help.
pub(crate) const SUBCOMMANDS: [Subcommand; 10] = [
    Subcommand::Print,
    Subcommand::Asm,
    Subcommand::Disasm,
    Subcommand::Explain,
    Subcommand::Debug,
    Subcommand::Trace,
    Subcommand::Page,
    Subcommand::Write,
    Subcommand::Press,
    Subcommand::Tables,
];

/// The name of a subcommand, and its line of help: a row of the table.
fn row_of<'a>(subcommand: Subcommand) -> (&'a str, &'a str)
    ensures name { result.0.now ≡ name_of subcommand }
    ensures about { result.1.now ≡ (usage_of subcommand).about }
{
    match subcommand {
        Subcommand::Print => (
            "print",
            "Prints a stream to a P4 file (raw PBM) for each side, or lists its sheets",
        ),
        Subcommand::Asm => (
            "asm",
            "Makes a print stream from assembly text, a line for each command",
        ),
        Subcommand::Disasm => (
            "disasm",
            "Writes a stream as assembly text, a line for each command, to standard output",
        ),
        Subcommand::Explain => (
            "explain",
            "Writes a stream as assembly text, and in front of each command what it is and does",
        ),
        Subcommand::Debug => (
            "debug",
            "Steps through a stream, as the lines on standard input ask",
        ),
        Subcommand::Trace => (
            "trace",
            "Tells what a stream does, step by step, in a line of JSON for each",
        ),
        Subcommand::Page => (
            "page",
            "Makes a P4 file (raw PBM) of the page that is open behind so many steps of a stream",
        ),
        Subcommand::Write => (
            "write",
            "Makes a print stream from a job ticket and the images of its pages",
        ),
        Subcommand::Press => (
            "press",
            "Plays a session with a press that has a queue, by the lines on standard input",
        ),
        Subcommand::Tables => (
            "tables",
            "Writes what the program has tables of, as JSON: a row in a line",
        ),
    }
}

/// A subcommand without words.
pub(crate) fn bare_command<'a>(alloc: Global, subcommand: Subcommand) -> Command<'a>
    ensures app { app_of result ≡ new_app (name_of subcommand) }
    ensures local { (out-Command result).has_globals ≡ false }
{
    let (name, about) = row_of(subcommand);
    Command::new(alloc, name).about(about)
}

/// The subcommand of this name.
pub(crate) fn subcommand_named(name: &str) -> Option<Subcommand>
    ensures { result ≡ subcommand_named name.now }
{
    SUBCOMMANDS
        .iter()
        .copied()
        .find(|subcommand| name == row_of(*subcommand).0)
}
