//! The words of the subcommands that have a stream printed, traced, paged or debugged.
ghost use Rattle.std.specs.Prelude.{◌≡◌, IfOk, option_map, codes, false};
ghost use Rattle.clap.specs.Words.{app_of, rule_of, new_app, new_rule, with_rule, rows_of, found_of};
ghost use Rattle.clap.specs.declared.builder.command.Command.TheViews.{out-Command};
ghost use Rattle.press_words.specs.Words.{list_rule, sums_rule, runs_rule, print_app, debug_app, trace_app, page_app, made_behind, made_of, print_arguments, debug_of, debug_arguments, traced_as, trace_arguments, steps_in, page_to, page_arguments};
ghost use Rattle.press_words.specs.View.{made_seen, request_seen};

use crate::lines::number_word;
use crate::shared_words::{
    default_option, has_flag, input_named, made_in, needed_word, prefix_in, sums_flag,
};
use crate::subcommands::{Subcommand, bare_command};
use crate::words::{Input, Output, Request};
use clap::{Arg, ArgAction, ArgMatches, Command};
use std::alloc::{AllocError, Global};

/// The lines of a debugger, for help.
const DEBUGGER_HELP: &str =
    "Lines: step, over, go N, break KIND, clear N, recent. docs/DEBUGGER.md explains them.";

/// The flag that asks for a listing.
fn list_flag<'a>(alloc: Global) -> Arg<'a>
    ensures rule { rule_of result ≡ list_rule }
    ensures local { result.global ≡ false }
{
    Arg::new(alloc, "list")
        .long("list")
        .action(ArgAction::SetTrue)
        .help("Lists the sheets and writes no file")
}

/// The flag that asks for runs of steps.
fn runs_flag<'a>(alloc: Global) -> Arg<'a>
    ensures rule { rule_of result ≡ runs_rule }
    ensures local { result.global ≡ false }
{
    Arg::new(alloc, "runs")
        .long("runs")
        .action(ArgAction::SetTrue)
        .help(
            "Tells steps that do no more than count, as those of text, in one line with their number",
        )
}

/// The word for the template.
fn template_word<'a>(alloc: Global) -> Arg<'a>
    ensures rule { rule_of result ≡ new_rule (codes "OUT") }
    ensures local { result.global ≡ false }
{
    Arg::new(alloc, "OUT").help(
        "Needed without --list. %d stands for 1, 2, 3 and so on, over the sides of all sheets: \
         page-%d.pbm",
    )
}

/// The subcommand `print`, with its flags.
fn flagged_command<'a>(alloc: Global) -> Result<Command<'a>, AllocError>
    ensures app { IfOk result (λ command. app_of command
        ≡ with_rule (with_rule (new_app (codes "print")) list_rule) sums_rule) }
    ensures local { IfOk result (λ command. (out-Command command).has_globals ≡ false) }
{
    bare_command(alloc, Subcommand::Print)
        .arg(list_flag(alloc))?
        .arg(sums_flag(alloc))
}

/// The subcommand `print`.
pub(crate) fn print_command<'a>(alloc: Global) -> Result<Command<'a>, AllocError>
    ensures app { IfOk result (λ command. app_of command ≡ print_app) }
    ensures local { IfOk result (λ command. (out-Command command).has_globals ≡ false) }
{
    flagged_command(alloc)?
        .arg(default_option(alloc))?
        .arg(needed_word(
            alloc,
            "IN",
            "The file of the stream of PJL and PCL 5, or - for standard input",
        ))?
        .arg(template_word(alloc))
}

/// The subcommand `debug`.
pub(crate) fn debug_command<'a>(alloc: Global) -> Result<Command<'a>, AllocError>
    ensures app { IfOk result (λ command. app_of command ≡ debug_app) }
    ensures local { IfOk result (λ command. (out-Command command).has_globals ≡ false) }
{
    bare_command(alloc, Subcommand::Debug)
        .after_help(DEBUGGER_HELP)
        .arg(default_option(alloc))?
        .arg(needed_word(
            alloc,
            "IN",
            "The file of the stream; - is refused, since standard input has the lines",
        ))
}

/// The subcommand `trace`.
pub(crate) fn trace_command<'a>(alloc: Global) -> Result<Command<'a>, AllocError>
    ensures app { IfOk result (λ command. app_of command ≡ trace_app) }
    ensures local { IfOk result (λ command. (out-Command command).has_globals ≡ false) }
{
    bare_command(alloc, Subcommand::Trace)
        .arg(runs_flag(alloc))?
        .arg(default_option(alloc))?
        .arg(needed_word(
            alloc,
            "IN",
            "The file of the stream, or - for standard input",
        ))
}

/// The subcommand `page`.
pub(crate) fn page_command<'a>(alloc: Global) -> Result<Command<'a>, AllocError>
    ensures app { IfOk result (λ command. app_of command ≡ page_app) }
    ensures local { IfOk result (λ command. (out-Command command).has_globals ≡ false) }
{
    bare_command(alloc, Subcommand::Page)
        .arg(default_option(alloc))?
        .arg(needed_word(
            alloc,
            "IN",
            "The file of the stream, or - for standard input",
        ))?
        .arg(needed_word(
            alloc,
            "K",
            "How many steps, as trace counts them; behind the last where the stream has fewer",
        ))?
        .arg(needed_word(
            alloc,
            "OUT",
            "The file of the page, which is made or replaced; - is refused",
        ))
}

/// What the matches of `print` ask to be made of a stream, with these bytes in front of it.
#[tactic(auto, using(crate::proofs::WordsLemmas::value_by_rows))]
fn output_behind<'a>(prefix: Vec<u8>, matches: &ArgMatches<'a>) -> Option<Output<'a>>
    ensures { option_map made_seen result
        ≡ made_behind (rows_of (found_of matches.now)) prefix.items }
{
    if has_flag(matches, "sums") {
        return Some(Output::Sums(prefix));
    }
    if has_flag(matches, "list") {
        return Some(Output::Listing(prefix));
    }
    let template = matches.get_str("OUT")?;
    Some(Output::Files(prefix, template))
}

/// What the matches of `print` ask to be made.
fn output_of<'a>(alloc: Global, matches: &ArgMatches<'a>) -> Result<Option<Output<'a>>, AllocError>
    ensures { IfOk result (λ output.
        option_map made_seen output ≡ made_of (rows_of (found_of matches.now))) }
{
    match prefix_in(alloc, matches)? {
        Some(prefix) => Ok(output_behind(prefix, matches)),
        None => Ok(None),
    }
}

/// What the matches of `print` ask for.
#[tactic(auto, using(crate::proofs::WordsLemmas::value_by_rows))]
pub(crate) fn print_request<'a>(
    alloc: Global,
    matches: &ArgMatches<'a>,
) -> Result<Option<Request<'a>>, AllocError>
    ensures { IfOk result (λ found. option_map request_seen found
        ≡ print_arguments (rows_of (found_of matches.now))) }
{
    let made = output_of(alloc, matches)?;
    let Some(name) = matches.get_str("IN") else {
        return Ok(None);
    };
    let Some(output) = made else {
        return Ok(None);
    };
    Ok(Some(Request {
        input: input_named(name),
        output,
    }))
}

/// What `debug` asks for of a stream with these bytes in front of it. The lines stand on standard input, so the stream does not.
fn debug_named(prefix: Vec<u8>, name: &str) -> Option<Request<'_>>
    ensures { option_map request_seen result ≡ debug_of prefix.items name.now }
{
    if name == "-" {
        return None;
    }
    Some(Request {
        input: Input::Standard,
        output: Output::Debugged(prefix, name),
    })
}

/// What the matches of `debug` ask for.
#[tactic(auto, using(crate::proofs::WordsLemmas::value_by_rows))]
pub(crate) fn debug_request<'a>(
    alloc: Global,
    matches: &ArgMatches<'a>,
) -> Result<Option<Request<'a>>, AllocError>
    ensures { IfOk result (λ found. option_map request_seen found
        ≡ debug_arguments (rows_of (found_of matches.now))) }
{
    let Some(prefix) = prefix_in(alloc, matches)? else {
        return Ok(None);
    };
    match matches.get_str("IN") {
        Some(name) => Ok(debug_named(prefix, name)),
        None => Ok(None),
    }
}

/// The trace of a stream with these bytes in front of it, by runs or not.
fn traced_as<'a>(runs: bool, prefix: Vec<u8>) -> Output<'a>
    ensures { made_seen result ≡ traced_as runs prefix.items }
{
    if runs {
        return Output::Runs(prefix);
    }
    Output::Traced(prefix)
}

/// What the matches of `trace` ask for.
#[tactic(auto, using(crate::proofs::WordsLemmas::value_by_rows))]
pub(crate) fn trace_request<'a>(
    alloc: Global,
    matches: &ArgMatches<'a>,
) -> Result<Option<Request<'a>>, AllocError>
    ensures { IfOk result (λ found. option_map request_seen found
        ≡ trace_arguments (rows_of (found_of matches.now))) }
{
    let Some(prefix) = prefix_in(alloc, matches)? else {
        return Ok(None);
    };
    let Some(name) = matches.get_str("IN") else {
        return Ok(None);
    };
    Ok(Some(Request {
        input: input_named(name),
        output: traced_as(has_flag(matches, "runs"), prefix),
    }))
}

/// How many steps the matches of `page` ask for.
#[tactic(auto, using(crate::proofs::WordsLemmas::value_by_rows))]
fn steps_in(matches: &ArgMatches<'_>) -> Option<u64>
    ensures { result ≡ steps_in (rows_of (found_of matches.now)) }
{
    let steps = matches.get_str("K")?;
    number_word(steps.as_bytes())
}

/// What the matches of `page` ask for, of so many steps of a stream with these bytes in front of it.
#[tactic(auto, using(crate::proofs::WordsLemmas::value_by_rows))]
fn page_to<'a>(prefix: Vec<u8>, steps: u64, matches: &ArgMatches<'a>) -> Option<Request<'a>>
    ensures { option_map request_seen result
        ≡ page_to prefix.items steps (rows_of (found_of matches.now)) }
{
    let name = matches.get_str("IN")?;
    let made = made_in(matches)?;
    Some(Request {
        input: input_named(name),
        output: Output::Page(prefix, steps, made),
    })
}

/// What the matches of `page` ask for.
pub(crate) fn page_request<'a>(
    alloc: Global,
    matches: &ArgMatches<'a>,
) -> Result<Option<Request<'a>>, AllocError>
    ensures { IfOk result (λ found. option_map request_seen found
        ≡ page_arguments (rows_of (found_of matches.now))) }
{
    let Some(prefix) = prefix_in(alloc, matches)? else {
        return Ok(None);
    };
    match steps_in(matches) {
        Some(steps) => Ok(page_to(prefix, steps, matches)),
        None => Ok(None),
    }
}
