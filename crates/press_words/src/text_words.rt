//! The words of the subcommands between a stream and its assembly text, explained or not.
ghost use Rattle.std.specs.Prelude.{◌≡◌, IfOk, option_map, false};
ghost use Rattle.clap.specs.Words.{app_of, rows_of, found_of};
ghost use Rattle.clap.specs.declared.builder.command.Command.TheViews.{out-Command};
ghost use Rattle.press_words.specs.Words.{asm_app, disasm_app, explain_app, asm_arguments, disasm_arguments, explain_arguments};
ghost use Rattle.press_words.specs.View.{request_seen};

use crate::shared_words::{default_option, input_named, made_in, needed_word, prefix_in};
use crate::subcommands::{Subcommand, bare_command};
use crate::words::{Output, Request};
use clap::{ArgMatches, Command};
use std::alloc::{AllocError, Global};

/// The subcommand `asm`.
pub(crate) fn asm_command<'a>(alloc: Global) -> Result<Command<'a>, AllocError>
    ensures app { IfOk result (λ command. app_of command ≡ asm_app) }
    ensures local { IfOk result (λ command. (out-Command command).has_globals ≡ false) }
{
    bare_command(alloc, Subcommand::Asm)
        .arg(needed_word(
            alloc,
            "IN",
            "The file of the assembly text, or - for standard input",
        ))?
        .arg(needed_word(
            alloc,
            "OUT",
            "The file of the stream, which is made or replaced; - is refused",
        ))
}

/// The subcommand `disasm`.
pub(crate) fn disasm_command<'a>(alloc: Global) -> Result<Command<'a>, AllocError>
    ensures app { IfOk result (λ command. app_of command ≡ disasm_app) }
    ensures local { IfOk result (λ command. (out-Command command).has_globals ≡ false) }
{
    bare_command(alloc, Subcommand::Disasm).arg(needed_word(
        alloc,
        "IN",
        "The file of the stream, or - for standard input",
    ))
}

/// The subcommand `explain`.
pub(crate) fn explain_command<'a>(alloc: Global) -> Result<Command<'a>, AllocError>
    ensures app { IfOk result (λ command. app_of command ≡ explain_app) }
    ensures local { IfOk result (λ command. (out-Command command).has_globals ≡ false) }
{
    bare_command(alloc, Subcommand::Explain)
        .arg(default_option(alloc))?
        .arg(needed_word(
            alloc,
            "IN",
            "The file of the stream, or - for standard input",
        ))
}

/// What the matches of `asm` ask for.
#[tactic(auto, using(crate::proofs::WordsLemmas::value_by_rows))]
pub(crate) fn asm_request<'a>(matches: &ArgMatches<'a>) -> Option<Request<'a>>
    ensures { option_map request_seen result ≡ asm_arguments (rows_of (found_of matches.now)) }
{
    let name = matches.get_str("IN")?;
    let made = made_in(matches)?;
    Some(Request {
        input: input_named(name),
        output: Output::Assembled(made),
    })
}

/// What the matches of `disasm` ask for.
#[tactic(auto, using(crate::proofs::WordsLemmas::value_by_rows))]
pub(crate) fn disasm_request<'a>(matches: &ArgMatches<'a>) -> Option<Request<'a>>
    ensures { option_map request_seen result ≡ disasm_arguments (rows_of (found_of matches.now)) }
{
    let name = matches.get_str("IN")?;
    Some(Request {
        input: input_named(name),
        output: Output::Text,
    })
}

/// What the matches of `explain` ask for.
#[tactic(auto, using(crate::proofs::WordsLemmas::value_by_rows))]
pub(crate) fn explain_request<'a>(
    alloc: Global,
    matches: &ArgMatches<'a>,
) -> Result<Option<Request<'a>>, AllocError>
    ensures { IfOk result (λ found. option_map request_seen found
        ≡ explain_arguments (rows_of (found_of matches.now))) }
{
    let Some(prefix) = prefix_in(alloc, matches)? else {
        return Ok(None);
    };
    let Some(name) = matches.get_str("IN") else {
        return Ok(None);
    };
    Ok(Some(Request {
        input: input_named(name),
        output: Output::Explained(prefix),
    }))
}
