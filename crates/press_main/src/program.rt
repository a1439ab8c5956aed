//! What the words ask for, done.
ghost use Rattle.std.specs.Prelude.{◌≡◌, ◌⊎◌, map, None, IfOk, false};
ghost use Rattle.std.specs.Str.{IsUtf8};
ghost use Rattle.press_files.specs.Files.{DoesNothing};
ghost use Rattle.press_files.specs.Edge.{lent_texts};
ghost use Rattle.press_files.specs.Ends.{Writing};
ghost use Rattle.press_main.specs.Program.{Behind, DebuggingFile, Makes, Performs, PrintsAFile, RefusesBy, Runs, WritesText, texts};
ghost use Rattle.press_forms.specs.Ends.{Explaining, Paging, TracingBy};
ghost use Rattle.press_words.specs.View.{made_seen, request_seen, status_of};
ghost use Rattle.press_words.specs.Words.{Source};

use crate::behind::{debug_behind, explain_behind, page_behind, trace_behind};
use crate::making::{asm_file, job_file};
use crate::sparing::spare_inputs;
use crate::tables::tables_text;
use press_devices::{NO_OUTPUT, ReadDevice, Teller, WriteDevice, report, write_flushed};
use press_files::{
    Alone, Around, Devices, NamedInputs, Platform, print_files, print_list, print_sums,
};
use press_forms::disasm_bytes;
use press_sessions::press_lines;
use press_trace::LineOf;
use press_units::NO_MEMORY;
use press_words::{Input, Output, REFUSED, Refusal, Request, request_of};
use std::alloc::{AllocError, Global};
use std::marker::Brand;

/// Does what the words ask for, the program's name among them. Standard input is the reader, unless the words name a file: inputs are
/// opened by their names, and files are made among the outputs, none of which is an input. The answer is the status. With status 0 nothing
/// waits in standard output, if nothing did before, and no byte of a file that is made.
pub fn run_words<S: ReadDevice, P: Platform>(
    alloc: Global,
    words: &[String],
    input: &mut S,
    devices: &mut Devices<P>,
) -> u8
    ensures flushed { result ≡ 0 → P.Out.waiting devices.old.out ≡ false
        → P.Out.waiting devices.new.out ≡ false }
    ensures through { result ≡ 0
        → P.Outputs.waiting devices.new.outputs ≡ P.Outputs.waiting devices.old.outputs }
    ensures runs { ⟦<Devices<P> as Around<S>>⟧.holds_by_inputs (Runs (texts words.now))
        result input.old input.new devices.old devices.new }
{
    let Ok(texts) = texts_of(alloc, words) else {
        return report(&NO_MEMORY, &mut devices.err);
    };
    match request_of(alloc, &texts) {
        Ok(request) => perform(alloc, &request, input, devices),
        Err(refusal) => refuse(alloc, &refusal, devices),
    }
}

/// The texts of words.
fn texts_of(alloc: Global, words: &[String]) -> Result<Vec<&str>, AllocError>
    ensures { IfOk result (λ seen. map (λ text. text.now) seen.items ≡ texts words.now) }
{
    let mut texts = Vec::new(alloc);
    for word in words {
        texts.push(word.as_str())?;
    }
    Ok(texts)
}

/// Tells why the words ask for nothing: help on standard output, all else on standard error. The answer is the status: 1 where help cannot be
/// written.
fn refuse<P: Platform>(alloc: Global, refusal: &Refusal, devices: &mut Devices<P>) -> u8
    ensures flushed { result ≡ 0 → P.Out.waiting devices.new.out ≡ false }
    ensures outputs { devices.new.outputs ≡ devices.old.outputs }
    ensures refuses { let at = ⟦<Devices<P> as Alone>⟧ in
        at.holds (RefusesBy (status_of refusal.now)) result devices.old devices.new
        ⊎ at.holds (RefusesBy 1) result devices.old devices.new }
{
    match refusal.status() {
        0 => write_help(alloc, refusal, devices),
        1 => report(&NO_MEMORY, &mut devices.err),
        _ => {
            devices.err.tell(refusal);
            REFUSED
        }
    }
}

/// Writes help. The answer is the status.
fn write_help<P: Platform>(alloc: Global, help: &Refusal, devices: &mut Devices<P>) -> u8
    ensures flushed { result ≡ 0 → P.Out.waiting devices.new.out ≡ false }
    ensures outputs { devices.new.outputs ≡ devices.old.outputs }
    ensures refuses { let at = ⟦<Devices<P> as Alone>⟧ in
        at.holds (RefusesBy 0) result devices.old devices.new
        ⊎ at.holds (RefusesBy 1) result devices.old devices.new }
{
    let Ok(text) = format!(in alloc; "{help}") else {
        return report(&NO_MEMORY, &mut devices.err);
    };
    write_text(&text, devices)
}

/// Writes a text whole, and flushes. The answer is the status.
fn write_text<P: Platform>(text: &str, devices: &mut Devices<P>) -> u8
    ensures flushed { result ≡ 0 → P.Out.waiting devices.new.out ≡ false }
    ensures outputs { devices.new.outputs ≡ devices.old.outputs }
    ensures writes { ⟦<Devices<P> as Alone>⟧.holds (WritesText text.now)
        result devices.old devices.new }
{
    match write_flushed(&mut devices.out, text.as_bytes()) {
        Ok(()) => 0,
        Err(_) => report(&NO_OUTPUT, &mut devices.err),
    }
}

/// Makes what is asked for of standard input, or of the file that the request names, which is opened, and then closed.
fn perform<S: ReadDevice, P: Platform>(
    alloc: Global,
    request: &Request<'_>,
    input: &mut S,
    devices: &mut Devices<P>,
) -> u8
    ensures flushed { result ≡ 0 → P.Out.waiting devices.old.out ≡ false
        → P.Out.waiting devices.new.out ≡ false }
    ensures through { result ≡ 0
        → P.Outputs.waiting devices.new.outputs ≡ P.Outputs.waiting devices.old.outputs }
    ensures performs { let at = ⟦<Devices<P> as Around<S>>⟧ in
        let asked = request_seen request.now in
        at.holds_by_inputs (Performs asked) result input.old input.new devices.old devices.new
        ⊎ at.holds (DoesNothing None) result input.old input.new devices.old devices.new }
{
    match request.input {
        Input::Standard => try_making(alloc, request, input, devices),
        Input::File(name) => match devices.inputs.open(name) {
            Ok(mut file) => {
                let status = try_making(alloc, request, &mut file, devices);
                devices.inputs.close(file);
                status
            }
            Err(error) => report(&error, &mut devices.err),
        },
    }
}

/// Makes what is asked for of what a reader has. The inputs of the request are noted before, so that no output replaces one of them.
fn try_making<R: ReadDevice, P: Platform>(
    alloc: Global,
    request: &Request<'_>,
    reader: &mut R,
    devices: &mut Devices<P>,
) -> u8
    ensures flushed { result ≡ 0 → P.Out.waiting devices.old.out ≡ false
        → P.Out.waiting devices.new.out ≡ false }
    ensures through { result ≡ 0
        → P.Outputs.waiting devices.new.outputs ≡ P.Outputs.waiting devices.old.outputs }
    ensures makes { let at = ⟦<Devices<P> as Around<R>>⟧ in
        let asked = request_seen request.now in
        at.holds_by_inputs (Makes asked.source asked.made)
        result reader.old reader.new devices.old devices.new
        ⊎ at.holds (DoesNothing None) result reader.old reader.new devices.old devices.new }
{
    match spare_inputs(&mut devices.outputs, request) {
        Ok(()) => make(alloc, &request.output, reader, devices),
        Err(error) => report(&error, &mut devices.err),
    }
}

/// Makes what is asked for of what a reader has: a row for each subcommand.
fn make<R: ReadDevice, P: Platform>(
    alloc: Global,
    output: &Output<'_>,
    reader: &mut R,
    devices: &mut Devices<P>,
) -> u8
    ensures flushed { result ≡ 0 → P.Out.waiting devices.old.out ≡ false
        → P.Out.waiting devices.new.out ≡ false }
    ensures through { result ≡ 0
        → P.Outputs.waiting devices.new.outputs ≡ P.Outputs.waiting devices.old.outputs }
    ensures makes { let made = made_seen output.now in
        (source : Source) → ¬ (PrintsAFile (record { source = source; made = made }))
        → ⟦<Devices<P> as Around<R>>⟧.holds_by_inputs (Makes source made)
        result reader.old reader.new devices.old devices.new }
{
    match output {
        Output::Listing(prefix) => print_list(alloc, prefix, reader, devices),
        Output::Sums(prefix) => print_sums(alloc, prefix, reader, devices),
        Output::Files(prefix, template) => print_files(alloc, prefix, template, reader, devices),
        Output::Session(asked) => press_lines(alloc, *asked, reader, devices),
        Output::Text => disasm_bytes(alloc, reader, devices),
        Output::Explained(prefix) => explain(alloc, prefix, reader, devices),
        Output::Debugged(prefix, name) => debug_file(alloc, prefix, name, reader, devices),
        Output::Traced(prefix) => trace(LineOf::Step, alloc, prefix, reader, devices),
        Output::Runs(prefix) => trace(LineOf::Run, alloc, prefix, reader, devices),
        Output::Page(prefix, steps, name) => page(alloc, prefix, *steps, name, reader, devices),
        Output::Assembled(name) => asm_file(alloc, name, reader, devices),
        Output::Job(name, images) => write_file(alloc, name, images, reader, devices),
        Output::Tables => write_text(tables_text(), devices),
    }
}

/// Explains the stream of these bytes and those that a reader has behind them.
fn explain<R: ReadDevice, P: Platform>(
    alloc: Global,
    prefix: &[u8],
    reader: &mut R,
    devices: &mut Devices<P>,
) -> u8
    ensures flushed { result ≡ 0 → P.Out.waiting devices.new.out ≡ false }
    ensures outputs { devices.new.outputs ≡ devices.old.outputs }
    ensures explains { ⟦<Devices<P> as Around<R>>⟧.holds (Behind prefix.now Explaining)
        result reader.old reader.new devices.old devices.new }
{
    let (_, status) = explain_behind::<R, P, Brand>(alloc, prefix, reader, devices);
    status
}

/// Tells the trace of the stream of these bytes and those that a reader has behind them.
fn trace<R: ReadDevice, P: Platform>(
    by: LineOf,
    alloc: Global,
    prefix: &[u8],
    reader: &mut R,
    devices: &mut Devices<P>,
) -> u8
    ensures flushed { result ≡ 0 → P.Out.waiting devices.new.out ≡ false }
    ensures outputs { devices.new.outputs ≡ devices.old.outputs }
    ensures traces { ⟦<Devices<P> as Around<R>>⟧.holds (Behind prefix.now (TracingBy by))
        result reader.old reader.new devices.old devices.new }
{
    let (_, status) = trace_behind::<R, P, Brand>(by, alloc, prefix, reader, devices);
    status
}

/// Makes the output of this name, of the page that is open behind so many steps of the stream of these bytes and those that a reader
/// has behind them.
fn page<R: ReadDevice, P: Platform>(
    alloc: Global,
    prefix: &[u8],
    steps: u64,
    name: &str,
    reader: &mut R,
    devices: &mut Devices<P>,
) -> u8
    ensures out { devices.new.out ≡ devices.old.out }
    ensures through { result ≡ 0
        → P.Outputs.waiting devices.new.outputs ≡ P.Outputs.waiting devices.old.outputs }
    ensures pages { ⟦<Devices<P> as Around<R>>⟧.holds (Behind prefix.now (Paging steps name.now))
        result reader.old reader.new devices.old devices.new }
{
    let (_, status) = page_behind::<R, P, Brand>(alloc, prefix, steps, &name, reader, devices);
    status
}

/// Has a session with a debugger of the stream of these bytes and those of the input of this name behind them, by the lines that a
/// reader has.
fn debug_file<R: ReadDevice, P: Platform>(
    alloc: Global,
    prefix: &[u8],
    name: &str,
    reader: &mut R,
    devices: &mut Devices<P>,
) -> u8
    ensures flushed { result ≡ 0 → P.Out.waiting devices.old.out ≡ false
        → P.Out.waiting devices.new.out ≡ false }
    ensures outputs { devices.new.outputs ≡ devices.old.outputs }
    ensures debugs { ⟦<Devices<P> as Around<R>>⟧.holds_by_inputs (DebuggingFile prefix.now name.now)
        result reader.old reader.new devices.old devices.new }
{
    match devices.inputs.open(name) {
        Ok(file) => {
            let (file, status) = debug_behind(alloc, prefix, file, reader, devices);
            devices.inputs.close(file);
            status
        }
        Err(error) => report(&error, &mut devices.err),
    }
}

/// Makes the output of this name of the ticket that a reader has, with the images of the inputs of these names.
fn write_file<R: ReadDevice, P: Platform>(
    alloc: Global,
    name: &str,
    images: &[&str],
    reader: &mut R,
    devices: &mut Devices<P>,
) -> u8
    ensures out { devices.new.out ≡ devices.old.out }
    ensures through { result ≡ 0
        → P.Outputs.waiting devices.new.outputs ≡ P.Outputs.waiting devices.old.outputs }
    ensures writes { ⟦<Devices<P> as Around<R>>⟧.holds_by_inputs
        (Writing name.now (lent_texts images.now)) result
        reader.old reader.new devices.old devices.new }
{
    let Ok(words) = names_of(alloc, images) else {
        return report(&NO_MEMORY, &mut devices.err);
    };
    job_file(alloc, name, &words, reader, devices)
}

/// The bytes of names.
fn names_of<'a>(alloc: Global, texts: &[&'a str]) -> Result<Vec<&'a [u8]>, AllocError>
    ensures { IfOk result (λ names.
        map (λ name. name.now) names.items ≡ map (λ text. text.now) texts.now) }
{
    let mut names = Vec::new(alloc);
    for text in texts {
        names.push(text.as_bytes())?;
    }
    Ok(names)
}
