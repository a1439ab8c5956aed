//! The words of the subcommand that plays a session with a press.
ghost use Rattle.std.specs.Prelude.{◌≡◌, IfOk, map, option_map, codes, false};
ghost use Rattle.clap.specs.Words.{app_of, rule_of, found_of, rows_of, new_app, with_rule};
ghost use Rattle.clap.specs.declared.builder.command.Command.TheViews.{out-Command};
ghost use Rattle.press_words.specs.Words.{engines_of, engines_rule, keep_going_rule, playing_app, sums_rule, pages_rule, session_app, session_arguments, session_of};
ghost use Rattle.press_words.specs.View.{request_seen, session_seen};

use crate::lines::number_word;
use crate::shared_words::{has_flag, sums_flag};
use crate::subcommands::{Subcommand, bare_command};
use crate::words::{Input, Output, Request};
use clap::{Arg, ArgAction, ArgMatches, Command};
use std::alloc::{AllocError, Global};

/// The lines of a session, for help.
const SESSION_HELP: &str = "Lines: message FILE [IMG...], turn N [ENGINE], pause, continue, abort. \
    Engines are counted from 0. docs/QUEUE.md explains them.";

/// What a session is asked for, beside its lines.
#[derive(Clone, Copy, Debug, Drop)]
pub struct SessionRequest<'a> {
    /// How many engines the press has.
    pub engines: u64,
    /// The template of the names of files, where each side that is delivered is made a file.
    pub template: Option<&'a str>,
    /// Whether the listing has the SHA-256 of each side.
    pub sums: bool,
    /// Whether the session goes on behind a line that is wrong, which is answered with its fault.
    pub goes_on: bool,
}

/// The option for the number of engines.
fn engines_option<'a>(alloc: Global) -> Arg<'a>
    ensures rule { rule_of result ≡ engines_rule }
    ensures local { result.global ≡ false }
{
    Arg::new(alloc, "engines")
        .long("engines")
        .value_name("N")
        .help("How many engines the press has, 1 to 4; one without it")
}

/// The option for the template of the files of pages.
fn pages_option<'a>(alloc: Global) -> Arg<'a>
    ensures rule { rule_of result ≡ pages_rule }
    ensures local { result.global ≡ false }
{
    Arg::new(alloc, "out")
        .long("out")
        .value_name("TEMPLATE")
        .help(
            "Makes a P4 file (raw PBM) of each side when it is delivered, and tells it in a line. %q stands for Q1, Q2 \
             and so on, the entry, and %d for 1, 2, 3 and so on, over its sides: page-%q-%d.pbm",
        )
}

/// The flag by which a session goes on behind a line that is wrong.
fn keep_going_flag<'a>(alloc: Global) -> Arg<'a>
    ensures rule { rule_of result ≡ keep_going_rule }
    ensures local { result.global ≡ false }
{
    Arg::new(alloc, "keep-going")
        .long("keep-going")
        .action(ArgAction::SetTrue)
        .help("Answers a line that is wrong with its fault, and goes on")
}

/// The subcommand `press`, with what it makes of the sides.
fn playing_command<'a>(alloc: Global) -> Result<Command<'a>, AllocError>
    ensures app { IfOk result (λ command. app_of command ≡ playing_app) }
    ensures local { IfOk result (λ command. (out-Command command).has_globals ≡ false) }
{
    bare_command(alloc, Subcommand::Press)
        .after_help(SESSION_HELP)
        .arg(engines_option(alloc))?
        .arg(pages_option(alloc))
}

/// The subcommand `press`.
pub(crate) fn press_command<'a>(alloc: Global) -> Result<Command<'a>, AllocError>
    ensures app { IfOk result (λ command. app_of command ≡ session_app) }
    ensures local { IfOk result (λ command. (out-Command command).has_globals ≡ false) }
{
    playing_command(alloc)?
        .arg(sums_flag(alloc))?
        .arg(keep_going_flag(alloc))
}

/// How many engines the matches of `press` ask for: one where they say nothing of them.
#[tactic(auto, using(crate::proofs::WordsLemmas::value_by_rows))]
fn engines_of(matches: &ArgMatches<'_>) -> Option<u64>
    ensures { result ≡ engines_of (rows_of (found_of matches.now)) }
{
    match matches.get_str("engines") {
        Some(number) => number_word(number.as_bytes()),
        None => Some(1),
    }
}

/// What the matches of `press` ask a session for.
#[tactic(auto, using(crate::proofs::WordsLemmas::value_by_rows))]
pub(crate) fn session_of<'a>(matches: &ArgMatches<'a>) -> Option<SessionRequest<'a>>
    ensures { option_map session_seen result ≡ session_of (rows_of (found_of matches.now)) }
{
    let engines = engines_of(matches)?;
    Some(SessionRequest {
        engines,
        template: matches.get_str("out"),
        sums: has_flag(matches, "sums"),
        goes_on: has_flag(matches, "keep-going"),
    })
}

/// What the matches of `press` ask for. The events stand on standard input.
pub(crate) fn session_request<'a>(matches: &ArgMatches<'a>) -> Option<Request<'a>>
    ensures { option_map request_seen result ≡ session_arguments (rows_of (found_of matches.now)) }
{
    let session = session_of(matches)?;
    Some(Request {
        input: Input::Standard,
        output: Output::Session(session),
    })
}
