//! The words of the subcommand that writes a job.
ghost use Rattle.std.specs.Prelude.{◌≡◌, IfOk, map, option_map, false};
ghost use Rattle.clap.specs.Words.{app_of, rule_of, rows_of, found_of};
ghost use Rattle.clap.specs.declared.builder.command.Command.TheViews.{out-Command};
ghost use Rattle.press_words.specs.Words.{images_rule, write_app, images_of, job_arguments};
ghost use Rattle.press_words.specs.View.{request_seen};

use crate::shared_words::{made_in, needed_word};
use crate::subcommands::{Subcommand, bare_command};
use crate::words::{Input, Output, Request};
use clap::{Arg, ArgAction, ArgMatches, Command};
use std::alloc::{AllocError, Global};

/// The words for the images.
fn images_word<'a>(alloc: Global) -> Arg<'a>
    ensures rule { rule_of result ≡ images_rule }
    ensures local { result.global ≡ false }
{
    Arg::new(alloc, "IMG").action(ArgAction::Append).help(
        "A P4 file (raw PBM) for each page of the ticket, in order; at least one",
    )
}

/// The subcommand `write`.
pub(crate) fn write_command<'a>(alloc: Global) -> Result<Command<'a>, AllocError>
    ensures app { IfOk result (λ command. app_of command ≡ write_app) }
    ensures local { IfOk result (λ command. (out-Command command).has_globals ≡ false) }
{
    bare_command(alloc, Subcommand::Write)
        .arg(needed_word(alloc, "TICKET", "The file of the job ticket, in JSON"))?
        .arg(needed_word(
            alloc,
            "OUT",
            "The file of the stream, which is made or replaced; - is refused",
        ))?
        .arg(images_word(alloc))
}

/// The images that the matches of `write` name.
#[tactic(auto, using(crate::proofs::WordsLemmas::values_by_rows))]
fn images_of<'a>(alloc: Global, matches: &ArgMatches<'a>) -> Result<Vec<&'a str>, AllocError>
    ensures { IfOk result (λ images.
        map (λ image. image.now) images.items ≡ images_of (rows_of (found_of matches.now))) }
{
    match matches.get_strs("IMG") {
        Some(images) => images.to_vec(alloc),
        None => Ok(Vec::new(alloc)),
    }
}

/// What the matches of `write` ask for.
#[tactic(auto, using(crate::proofs::WordsLemmas::value_by_rows))]
pub(crate) fn job_request<'a>(
    alloc: Global,
    matches: &ArgMatches<'a>,
) -> Result<Option<Request<'a>>, AllocError>
    ensures { IfOk result (λ found. option_map request_seen found
        ≡ job_arguments (rows_of (found_of matches.now))) }
{
    let images = images_of(alloc, matches)?;
    let Some(ticket) = matches.get_str("TICKET") else {
        return Ok(None);
    };
    let Some(name) = made_in(matches) else {
        return Ok(None);
    };
    Ok(Some(Request {
        input: Input::File(ticket),
        output: Output::Job(name, images),
    }))
}
