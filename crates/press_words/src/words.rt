//! The words of the command line, and what they ask for.
ghost use Rattle.std.specs.Prelude.{◌≡◌, ◌≢◌, ◌⊎◌, IfOk, IfErr, Some, None, map, option_map, option_and_then, false};
ghost use Rattle.clap.specs.Words.{app_of, kind_of, rows_of, found_of, subcommand_of, subcommand_rows_of, fault_of, FailsBy};
ghost use Rattle.clap.specs.declared.builder.command.Command.TheViews.{out-Command};
ghost use Rattle.clap.specs.declared.error.kind.ErrorKind.TheVariants.{OutOfMemory};
ghost use Rattle.press_words.specs.Words.{program_app, press_app, Standard, TablesTold, usage_of, arguments_of, arguments_by, arguments};
ghost use Rattle.press_words.specs.View.{AsksHelp, request_seen, status_of, IsForMemory};

use crate::job_words::{job_request, write_command};
use crate::session_words::{SessionRequest, press_command, session_request};
use crate::stream_words::{
    debug_command, debug_request, page_command, page_request, print_command, print_request,
    trace_command, trace_request,
};
use crate::subcommands::{SUBCOMMANDS, Subcommand, bare_command, subcommand_named};
use crate::text_words::{
    asm_command, asm_request, disasm_command, disasm_request, explain_command, explain_request,
};
use crate::told_words::{has_controls, told_word, told_words};
use clap::error::ErrorKind;
use clap::{ArgMatches, Command, Error};
use press_pjl::is_assignment;
use press_units::NO_MEMORY;
use std::alloc::{AllocError, Global};
use std::fmt;

/// The status after words that are refused.
pub const REFUSED: u8 = 2;

/// The status with which the program ends where memory ran out.
const WANT_OF_MEMORY: u8 = 1;

/// The version of the program, and the kit that proved it.
const VERSION: &str = "1.0.0 (proved by rattle-kit-13f)";

/// An example of each subcommand, and each fault with what to do, for help.
const AFTER_HELP: &str = "Examples:
  press < page.pcl
  press print page.pcl page-%d.pbm
  press print --default RESOLUTION=600 page.pcl page-%d.pbm
  press disasm page.pcl > page.asm
  press explain page.pcl
  press asm page.asm changed.pcl
  press debug page.pcl < lines.txt
  press trace page.pcl > trace.jsonl
  press page page.pcl 100 step.pbm
  press write ticket.json job.prn page-1.pbm page-2.pbm
  press press < events.txt
  press press --engines 2 < events.txt
  press press --out page-%q-%d.pbm --sums < events.txt
  press tables

A fault is told in one line on standard error. What each means, and what to do:
  fault 111, 113        an image is no P4 file (raw PBM), or its end is missing: make it again
  fault 112             an image has a side of 0 or above 16,384 dots: scale or cut it
  fault 114             an image was opened and cannot be read, as a folder: look at the file
  fault 115, 301, 614   a file cannot be made or written, or is an input: look at its name and the disk
  fault 121             %d does not stand exactly once in OUT, as in page-%d.pbm, or not both %q and %d
                        in the TEMPLATE of a session, as in page-%q-%d.pbm: name it so
  fault 302, output     standard output cannot be written: look who reads it
  fault 304             an input, also an image, cannot be opened or read: look at its name
  fault 401, 402, 403   a line of the text has an unknown form, a bad value, or data that does not fit:
                        correct the line that is told, by docs/ASSEMBLY.md
  fault 601 to 605      the ticket is refused (602 names the key): correct it by docs/TICKETS.md
  fault 611, 612, 613   images are too few, too wide or too tall: name one for each page, or scale it
  fault 701             --engines asks for no engine, or for more than 4: ask for 1 to 4
  fault 702             a line turn N ENGINE names an engine that the press does not have:
                        count them from 0, or ask for more by --engines
  fault memory          memory ran out: give the program more, or print a smaller stream
docs/FAULTS.md says more of each. See also docs/ASSEMBLY.md, EXPLAIN.md, DEBUGGER.md, TICKETS.md and QUEUE.md.";

/// Where an input is read.
#[derive(Debug, Drop)]
pub enum Input<'a> {
    /// From standard input.
    Standard,
    /// From the file of this name.
    File(&'a str),
}

/// What is made of the input.
#[derive(Debug, Drop)]
pub enum Output<'a> {
    /// A listing of the sheets and the replies of a stream, with these bytes in front of it.
    Listing(Vec<u8>),
    /// A listing of the sheets and the replies of a stream with these bytes in front of it, with a digest of each side.
    Sums(Vec<u8>),
    /// A file for each side of a stream, with these bytes in front of it, by this template.
    Files(Vec<u8>, &'a str),
    /// The answers to lines of events, of a press that is asked for so, the files of the sides that it delivers, where they are asked for, and
    /// their listing.
    Session(SessionRequest<'a>),
    /// The assembly text of a stream.
    Text,
    /// The assembly text of a stream, explained command by command, with these bytes in front of the stream.
    Explained(Vec<u8>),
    /// The answers to the lines of a debugger of the stream of this file, with these bytes in front of it.
    Debugged(Vec<u8>, &'a str),
    /// The lines of the trace of a stream, with these bytes in front of it.
    Traced(Vec<u8>),
    /// The same, with a line for each run of steps that do no more than count.
    Runs(Vec<u8>),
    /// The file of this name, of the page that is open behind so many steps of a stream, with these bytes in front of it.
    Page(Vec<u8>, u64, &'a str),
    /// The file of this name, of the bytes of assembly text.
    Assembled(&'a str),
    /// The file of this name, of the job of a ticket with the images of these files.
    Job(&'a str, Vec<&'a str>),
    /// The program's own tables.
    Tables,
}

/// What the program is asked to do.
#[derive(Debug, Drop)]
pub struct Request<'a> {
    pub input: Input<'a>,
    pub output: Output<'a>,
}

/// Why the words ask for nothing.
#[derive(Debug, Drop)]
pub enum Refusal {
    /// The command line is refused, or asks for help or the version; or memory ran out.
    Words(Error),
    /// A subcommand lacks what its words have to name: `print` a template, where no listing is asked for, `asm`, `page` and `write` a
    /// file to make, `page` a number of steps, `debug` a file, or `press` a number of engines.
    NoName,
    /// A text is no `NAME=VALUE` of the job language: the text as it is told.
    NoDefault(String),
}

impl From<Error> for Refusal {
    ghost use Rattle.std.specs.Prelude.{◌≡◌};
    ghost use Rattle.press_words.specs.declared.words.Refusal.TheVariants.{Words};

    ghost from_gives = { λ error refusal. refusal ≡ Words error };

    fn from(error: Error) -> Refusal {
        Refusal::Words(error)
    }
}

impl Refusal {
    /// The status with which the program ends: 0 after help or the version, 1 where memory ran out, else 2.
    pub fn status(&self) -> u8
        ensures { result ≡ status_of self.now }
    {
        match self {
            Refusal::Words(error) if error.kind() == ErrorKind::OutOfMemory => WANT_OF_MEMORY,
            Refusal::Words(error) if !error.use_stderr() => 0,
            _ => REFUSED,
        }
    }
}

impl fmt::Display for Refusal {
    fn fmt<W: fmt::Write>(&self, f: &mut fmt::Formatter<W>) -> fmt::Result {
        match self {
            Refusal::Words(error) if error.kind() == ErrorKind::OutOfMemory => {
                writeln!(f, "{NO_MEMORY}")
            }
            Refusal::Words(error) => write!(f, "{error}"),
            Refusal::NoName => writeln!(
                f,
                "usage: press print IN OUT, press print --list IN, press asm IN OUT, press page IN K OUT or \
                press write TICKET OUT [IMG...], where OUT is a file and not - and K is a number, \
                press debug IN, where IN is a file and not -, \
                or press press [--engines N] [--out TEMPLATE] [--sums] [--keep-going], where N is a number"
            ),
            Refusal::NoDefault(text) => writeln!(
                f,
                "error: --default {text} is no NAME=VALUE of the job language, as RESOLUTION=600: COPIES=1 to 999, \
                PAPER=LETTER, LEGAL, A4, EXECUTIVE, LEDGER or A3, ORIENTATION=PORTRAIT or LANDSCAPE, \
                DUPLEX=OFF or ON, BINDING=LONGEDGE or SHORTEDGE, RESOLUTION=300 or 600"
            ),
        }
    }
}

/// A subcommand with its words: a row for each.
fn command_of<'a>(alloc: Global, subcommand: Subcommand) -> Result<Command<'a>, AllocError>
    ensures app { IfOk result (λ command. app_of command ≡ (usage_of subcommand).words) }
    ensures local { IfOk result (λ command. (out-Command command).has_globals ≡ false) }
{
    match subcommand {
        Subcommand::Print => print_command(alloc),
        Subcommand::Asm => asm_command(alloc),
        Subcommand::Disasm => disasm_command(alloc),
        Subcommand::Explain => explain_command(alloc),
        Subcommand::Debug => debug_command(alloc),
        Subcommand::Trace => trace_command(alloc),
        Subcommand::Page => page_command(alloc),
        Subcommand::Write => write_command(alloc),
        Subcommand::Press => press_command(alloc),
        Subcommand::Tables => Ok(bare_command(alloc, subcommand)),
    }
}

/// The program, with its help, its version and no subcommand.
fn program<'a>(alloc: Global) -> Command<'a>
    ensures { app_of result ≡ program_app }
{
    Command::new(alloc, "press")
        .version(VERSION)
        .about(
            "A digital press: it prints PJL and PCL 5 as bitmaps. Without a command it lists the \
             sheets of the stream on standard input",
        )
        .after_help(AFTER_HELP)
}

/// The command line that is taken.
fn command<'a>(alloc: Global) -> Result<Command<'a>, AllocError>
    ensures { IfOk result (λ command. app_of command ≡ press_app) }
{
    let mut command = program(alloc);
    for subcommand in &SUBCOMMANDS {
        command = command.subcommand(command_of(alloc, *subcommand)?)?;
    }
    Ok(command)
}

/// The matches of words, the program's name among them.
fn parse<'a>(alloc: Global, words: &'a [&'a str]) -> Result<ArgMatches<'a>, Error>
    ensures rows { IfOk result (λ matches.
        subcommand_rows_of matches
        ≡ subcommand_of press_app (map (λ word. word.now) words.entry.now)) }
    ensures fault { FailsBy (fault_of press_app (map (λ word. word.now) words.entry.now)) result }
{
    command(alloc)?.try_get_matches_from(words)
}

/// What `tables` asks for. Nothing is read.
fn tables_request<'a>() -> Request<'a>
    ensures { request_seen result ≡ record { source = Standard; made = TablesTold } }
{
    Request {
        input: Input::Standard,
        output: Output::Tables,
    }
}

/// What the matches of a subcommand ask for.
fn subcommand_request<'a>(
    alloc: Global,
    subcommand: Subcommand,
    matches: &ArgMatches<'a>,
) -> Result<Option<Request<'a>>, AllocError>
    ensures { IfOk result (λ found. option_map request_seen found
        ≡ arguments_of subcommand (rows_of (found_of matches.now))) }
{
    match subcommand {
        Subcommand::Print => print_request(alloc, matches),
        Subcommand::Asm => Ok(asm_request(matches)),
        Subcommand::Disasm => Ok(disasm_request(matches)),
        Subcommand::Explain => explain_request(alloc, matches),
        Subcommand::Debug => debug_request(alloc, matches),
        Subcommand::Trace => trace_request(alloc, matches),
        Subcommand::Page => page_request(alloc, matches),
        Subcommand::Write => job_request(alloc, matches),
        Subcommand::Press => Ok(session_request(matches)),
        Subcommand::Tables => Ok(Some(tables_request())),
    }
}

/// What the matches of the subcommand of this name ask for.
fn named_request<'a>(
    alloc: Global,
    name: &str,
    matches: &ArgMatches<'a>,
) -> Result<Option<Request<'a>>, AllocError>
    ensures { IfOk result (λ found. option_map request_seen found
        ≡ arguments_by name.now (rows_of (found_of matches.now))) }
{
    match subcommand_named(name) {
        Some(subcommand) => subcommand_request(alloc, subcommand, matches),
        None => Ok(None),
    }
}

/// What the matches of the command line ask for.
fn request_in<'a>(alloc: Global, matches: &ArgMatches<'a>) -> Result<Option<Request<'a>>, Error>
    ensures ok { IfOk result (λ arguments. option_map request_seen arguments
        ≡ option_and_then (λ found. arguments_by found.0 found.1)
        (subcommand_rows_of matches.now)) }
    ensures memory { IfErr result (λ error. kind_of error ≡ OutOfMemory) }
{
    match matches.subcommand() {
        Some((name, values)) => Ok(named_request(alloc, name, values)?),
        None => Ok(None),
    }
}

/// What the words ask for, the program's name among them. Without words it is the listing of standard input.
///
/// # Errors
///
/// Where the words are refused or ask for help, or memory ran out. No control character of words that are refused is told as it is.
pub fn request_of<'a>(alloc: Global, words: &'a [&'a str]) -> Result<Request<'a>, Refusal>
    ensures ok { IfOk result (λ request.
        arguments (map (λ word. word.now) words.entry.now) ≡ Some (request_seen request)) }
    ensures refused { IfErr result (λ refusal. (IsForMemory refusal)
        ⊎ (arguments (map (λ word. word.now) words.entry.now) ≡ None)) }
    ensures help { IfErr result (λ refusal.
        status_of refusal ≡ 0 → AsksHelp (map (λ word. word.now) words.entry.now)) }
{
    match asked_of(alloc, words) {
        Ok(request) => Ok(request),
        Err(refusal) => Err(as_told(alloc, words, refusal)),
    }
}

/// The refusal of words as it is told: where the command line refuses words that have control characters, or answers help to them, that
/// of the words as they are told. The name by which the program was called is one of them.
fn as_told(alloc: Global, words: &[&str], refusal: Refusal) -> Refusal
    ensures { (result ≡ refusal) ⊎ ((status_of refusal ≢ 1)
        × (status_of result ≡ 0 → status_of refusal ≡ 0)) }
{
    match refusal {
        Refusal::Words(error) => refused_as_told(alloc, words, error),
        other => other,
    }
}

/// The same of an error of the command line.
fn refused_as_told(alloc: Global, words: &[&str], error: Error) -> Refusal
    ensures { (result ≡ Refusal.Words error) ⊎ ((status_of (Refusal.Words error) ≢ 1)
        × (status_of result ≡ 0 → status_of (Refusal.Words error) ≡ 0)) }
{
    let refusal = Refusal::Words(error);
    let status = refusal.status();
    if status == WANT_OF_MEMORY || !has_controls(words) {
        return refusal;
    }
    if let Err(again) = parse_as_told(alloc, words) {
        let told = Refusal::Words(again);
        if status == 0 || told.status() != 0 {
            return told;
        }
    }
    Refusal::NoName
}

/// The command line's error of words as they are told, if it has one.
fn parse_as_told(alloc: Global, words: &[&str]) -> Result<(), Error> {
    let told = told_words(alloc, words)?;
    let mut texts = Vec::new(alloc);
    for word in &told {
        texts.push(word.as_str())?;
    }
    parse(alloc, &texts)?;
    Ok(())
}

/// What the words ask for, as [`request_of`] says, or their refusal as it is.
fn asked_of<'a>(alloc: Global, words: &'a [&'a str]) -> Result<Request<'a>, Refusal>
    ensures ok { IfOk result (λ request.
        arguments (map (λ word. word.now) words.entry.now) ≡ Some (request_seen request)) }
    ensures refused { IfErr result (λ refusal. (IsForMemory refusal)
        ⊎ (arguments (map (λ word. word.now) words.entry.now) ≡ None)) }
    ensures help { IfErr result (λ refusal.
        status_of refusal ≡ 0 → AsksHelp (map (λ word. word.now) words.entry.now)) }
{
    if words.len() <= 1 {
        return Ok(Request {
            input: Input::Standard,
            output: Output::Listing(Vec::new(alloc)),
        });
    }
    let matches = parse(alloc, words)?;
    let request = request_in(alloc, &matches)?;
    let refusal = refusal_of(alloc, &matches)?;
    request.ok_or(refusal)
}

/// Why matches ask for nothing: the first default that is none of the job language, or a name that is missing.
fn refusal_of(alloc: Global, matches: &ArgMatches<'_>) -> Result<Refusal, Error>
    ensures status { IfOk result (λ refusal. status_of refusal ≡ 2) }
    ensures memory { IfErr result (λ error. kind_of error ≡ OutOfMemory) }
{
    if let Some((_, values)) = matches.subcommand()
        && let Some(defaults) = values.get_strs("default")
    {
        for text in defaults {
            if !is_assignment(text.as_bytes()) {
                return Ok(Refusal::NoDefault(told_word(alloc, text)?));
            }
        }
    }
    Ok(Refusal::NoName)
}
