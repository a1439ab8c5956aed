//! Words that several subcommands have, and what stands in matches of them.
ghost use Rattle.std.specs.Prelude.{◌≡◌, IfOk, map, option_map, false};
ghost use Rattle.clap.specs.Words.{rule_of, rows_of, found_of};
ghost use Rattle.press_words.specs.Words.{sums_rule, default_rule, needed_rule, source_of, made_named, made_in, defaults_of, prefix_in, is_set};
ghost use Rattle.press_words.specs.View.{source_seen};

use crate::defaults::{are_assignments, prefix_of};
use crate::words::Input;
use clap::{Arg, ArgAction, ArgMatches};
use std::alloc::{AllocError, Global};

/// The flag that asks for a listing with digests.
pub(crate) fn sums_flag<'a>(alloc: Global) -> Arg<'a>
    ensures rule { rule_of result ≡ sums_rule }
    ensures local { result.global ≡ false }
{
    Arg::new(alloc, "sums")
        .long("sums")
        .action(ArgAction::SetTrue)
        .help("Lists the sheets, with the SHA-256 of the file of each side behind its line")
}

/// The option of a default.
pub(crate) fn default_option<'a>(alloc: Global) -> Arg<'a>
    ensures rule { rule_of result ≡ default_rule }
    ensures local { result.global ≡ false }
{
    Arg::new(alloc, "default")
        .long("default")
        .value_name("NAME=VALUE")
        .action(ArgAction::Append)
        .help("Sets a default of the printer, as PAPER=A4 or RESOLUTION=600; again for more")
}

/// A word that has to be there.
pub(crate) fn needed_word<'a>(alloc: Global, id: &'a str, help: &'a str) -> Arg<'a>
    ensures rule { rule_of result ≡ needed_rule id.entry.now }
    ensures local { result.global ≡ false }
{
    Arg::new(alloc, id).required(true).help(help)
}

/// Whether a flag is set: its value is then `true`.
#[tactic(auto, using(crate::proofs::WordsLemmas::value_by_rows))]
pub(crate) fn has_flag(matches: &ArgMatches<'_>, flag: &str) -> bool
    ensures { result ≡ is_set flag.now (rows_of (found_of matches.now)) }
{
    matches.get_str(flag).is_some_and(|value| value == "true")
}

/// The input of this name.
pub(crate) fn input_named(name: &str) -> Input<'_>
    ensures { source_seen result ≡ source_of name.now }
{
    if name == "-" {
        Input::Standard
    } else {
        Input::File(name)
    }
}

/// The defaults that matches name.
#[tactic(auto, using(crate::proofs::WordsLemmas::values_by_rows))]
fn defaults_of<'a>(alloc: Global, matches: &ArgMatches<'a>) -> Result<Vec<&'a str>, AllocError>
    ensures { IfOk result (λ defaults.
        map (λ text. text.now) defaults.items ≡ defaults_of (rows_of (found_of matches.now))) }
{
    match matches.get_strs("default") {
        Some(defaults) => defaults.to_vec(alloc),
        None => Ok(Vec::new(alloc)),
    }
}

/// What stands in front of the stream, where each default that matches name is one of the job language.
pub(crate) fn prefix_in(
    alloc: Global,
    matches: &ArgMatches<'_>,
) -> Result<Option<Vec<u8>>, AllocError>
    ensures { IfOk result (λ prefix.
        option_map (λ bytes. bytes.items) prefix ≡ prefix_in (rows_of (found_of matches.now))) }
{
    let defaults = defaults_of(alloc, matches)?;
    if !are_assignments(&defaults) {
        return Ok(None);
    }
    let prefix = prefix_of(alloc, &defaults)?;
    Ok(Some(prefix))
}

/// The name of a file that is made, unless it is `-`.
pub(crate) fn made_named(name: &str) -> Option<&str>
    ensures { option_map (λ made. made.now) result ≡ made_named name.now }
{
    if name == "-" {
        return None;
    }
    Some(name)
}

/// The file that the matches of `asm` or `write` ask to be made.
#[tactic(auto, using(crate::proofs::WordsLemmas::value_by_rows))]
pub(crate) fn made_in<'a>(matches: &ArgMatches<'a>) -> Option<&'a str>
    ensures { option_map (λ made. made.now) result ≡ made_in (rows_of (found_of matches.now)) }
{
    made_named(matches.get_str("OUT")?)
}
