//! Sessions with a press: lines of events, and what each is answered.
ghost use Rattle.std.specs.Prelude.{◌≡◌, ◌⊎◌, ◌++◌, ◌∷◌, [], true, false, List, ℕ, None, Some, option_map, IfOk, IfErr, OnOk, MatchBool};
ghost use Rattle.press_devices.specs.Reading.{ReadFails, SomeFails};
ghost use Rattle.press_files.specs.Causes.{failures};
ghost use Rattle.press_files.specs.Change.{change};
ghost use Rattle.press_files.specs.EntryPages.{parts_in};
ghost use Rattle.press_files.specs.PagesKept.{faults_of};
ghost use Rattle.press_files.specs.NamedInputs.{named};
ghost use Rattle.press_sessions.specs.Ends.{Playing};
ghost use Rattle.press_sessions.specs.Faults.{told_of_session};
ghost use Rattle.press_core.specs.Engines.{are_engines};
ghost use Rattle.press_core.specs.World.{new_world};
ghost use Rattle.press_sessions.specs.Sessions.{
  AreParts,
  HasNoPress,
  HasNoTemplate,
  Plays,
  PlaysBy,
  PlaysToItsEnd,
  Stops,
  StopsBy,
  StopsPlaying,
  beginning,
  by_rules,
  is_of_line,
  standing,
};
ghost use Rattle.press_sessions.specs.declared.session_error.SessionError.TheVariants.{NoMemory};
ghost use Rattle.press_devices.specs.Telling.{Ended};
ghost use Rattle.press_words.specs.View.{session_seen};

use crate::session::Session;
use crate::session_error::SessionError;
use press_core::Press;
use press_devices::{ReadDevice, Teller, WriteDevice, report};
use press_files::{
    Around, Devices, EntryFolder, EntryTemplate, Lent, Loan, NamedInputs, Platform, Talk,
    answer_lines,
};
use press_history::run_laws;
use press_sink::NamedOutputs;
use press_words::SessionRequest;
use std::alloc::Global;
use std::marker::Brand;

/// Has a session with a press of so many engines that has no entries. Each line of events that a reader has is carried out, and its
/// answer written to standard output; at the end of the lines stands the listing, a line for each side that was delivered, with its SHA-256 where sums
/// are asked for. The files of a message are opened by their names.
///
/// Where a template is asked for, each side is made a file when it is delivered, a P4 file, whose name is the template with the entry, as
/// `Q1`, in place of `%q`, and the number of the side among those of its entry, from 1 on, in place of `%d`. A line in front of the
/// turn's tells each: `sheet Q1 1 front page-Q1-1.pbm`, with the number of the sheet. Where it is asked for, a line that is wrong, as one whose
/// file is missing, is answered with its fault, and the session goes on.
///
/// In whatever order the events come, under the number of an entry in flight the sheets of the steps of its job were delivered. Of a
/// completed one it is all that its ticket wants, of every other one a prefix of those. An entry delivers only in its turns, while it
/// runs on an engine of its own, and never again once it was completed or aborted. After a fault, which stands on standard error, no line
/// is carried out, and nothing is listed. The answer is the status: 0, and nothing waits in standard output, nor of a file that did not before,
/// or 1 after a fault.
pub fn press_lines<R: ReadDevice, P: Platform>(
    alloc: Global,
    asked: SessionRequest<'_>,
    reader: &mut R,
    devices: &mut Devices<P>,
) -> u8
    ensures flushed { result ≡ 0 → P.Out.waiting devices.new.out ≡ false }
    ensures through { result ≡ 0
        → P.Outputs.waiting devices.new.outputs ≡ P.Outputs.waiting devices.old.outputs }
    ensures inputs { devices.new.inputs ≡ devices.old.inputs }
    ensures ended { ⟦<Devices<P> as Around<R>>⟧.holds_by_inputs (Playing (session_seen asked.entry))
        result reader.old reader.new devices.old devices.new }
{
    let Devices {
        inputs,
        outputs,
        out,
        err,
        ..
    } = devices;
    let (_, status) = play_lent::<P::Inputs, P::Outputs, R, P::Out, P::Err, Brand>(
        alloc, inputs, asked, outputs, reader, out, err,
    );
    status
}

/// A press with which a session begins, and what is made of the sheets that it delivers.
#[derive(Drop)]
struct Begun {
    press: Press,
    template: Option<EntryTemplate>,
    sums: bool,
}

/// What a session is played by: where the files of its messages are, and whether it goes on behind a line that is wrong.
#[derive(Clone, Copy)]
struct SessionRules<'a, I> {
    inputs: &'a I,
    goes_on: bool,
}

/// A press that has no entries, and the template of files, as they are asked for.
fn begin(alloc: Global, asked: SessionRequest<'_>) -> Result<Begun, SessionError>
    ensures are { IfOk result (λ begun. are_engines asked.entry.engines ≡ true) }
    ensures press { IfOk result (λ begun. begun.press ≡ new_world asked.entry.engines) }
    ensures parts { IfOk result (λ begun.
        AreParts (session_seen asked.entry).template (parts_in begun.template)) }
    ensures sums { IfOk result (λ begun. begun.sums ≡ asked.entry.sums) }
    ensures err { IfErr result (λ why. MatchBool (are_engines asked.entry.engines)
        (HasNoTemplate (session_seen asked.entry).template why) (HasNoPress why)) }
{
    let press = Press::with_engines(alloc, asked.engines)?;
    let template = template_of(alloc, asked.template)?;
    Ok(Begun {
        press,
        template,
        sums: asked.sums,
    })
}

/// The template of files that a text is, where there is one.
fn template_of(alloc: Global, text: Option<&str>) -> Result<Option<EntryTemplate>, SessionError>
    ensures parts { IfOk result (λ template.
        AreParts (option_map (λ text. text.now) text.entry) (parts_in template)) }
    ensures err { IfErr result (HasNoTemplate (option_map (λ text. text.now) text.entry)) }
{
    let Some(text) = text else {
        return Ok(None);
    };
    let template = EntryTemplate::of(alloc, text)?;
    Ok(Some(template))
}

/// Plays a session that is asked for so, whose outputs are lent, and go back, with the status. The call's proof says which they are.
fn play_lent<
    'r,
    I: NamedInputs,
    O: NamedOutputs,
    R: ReadDevice,
    W: WriteDevice,
    E: Teller,
    L: Loan,
>(
    alloc: Global,
    inputs: &I,
    asked: SessionRequest<'_>,
    outputs: &'r mut O,
    reader: &mut R,
    out: &mut W,
    err: &mut E,
) -> (&'r mut O, u8)
    requires name { outputs.ghost_name ≡ L.name }
    ensures same { result.0.ghost_name ≡ outputs.entry.ghost_name }
    ensures flushed { result.1 ≡ 0 → W.waiting out.new ≡ false }
    ensures through { result.1 ≡ 0 → O.waiting result.0.now ≡ O.waiting outputs.old }
    ensures unmade { (session_seen asked.entry).template ≡ None
        → O.made result.0.now ≡ O.made outputs.old }
    ensures ended { Ended result.1 (E.said err.old) (E.said err.new) told_of_session
        (Plays (session_seen asked.entry)
        (named (SomeFails I.Input.failed I.Input.reads) (I.bytes inputs.now) (I.missing inputs.now))
        (R.remaining reader.old) (R.remaining reader.new)
        (W.contents out.old) (W.contents out.new)
        (O.made outputs.old) (O.made result.0.now))
        (Stops (session_seen asked.entry)
        (named (SomeFails I.Input.failed I.Input.reads) (I.bytes inputs.now) (I.missing inputs.now))
        (failures (ReadFails (R.failed reader.new) (R.reads reader.new))
        ⊥ (W.failed out.new ≡ true) (O.failed result.0.now ≡ true))
        (change (R.remaining reader.old) (R.remaining reader.new))
        (change (W.contents out.old) (W.contents out.new))
        (change (O.made outputs.old) (O.made result.0.now))) }
{
    let lent: Lent<'r, O, L> = Lent::new(outputs);
    let (outputs, status) = play_asked::<I, Lent<'r, O, L>, R, W, E>(
        alloc, inputs, asked, lent, reader, out, err,
    );
    (outputs.into_inner(), status)
}

/// Plays a session that is asked for so: where its outputs were made, and the status.
fn play_asked<I: NamedInputs, O: NamedOutputs + Drop, R: ReadDevice, W: WriteDevice, E: Teller>(
    alloc: Global,
    inputs: &I,
    asked: SessionRequest<'_>,
    outputs: O,
    reader: &mut R,
    out: &mut W,
    err: &mut E,
) -> (O, u8)
    ensures flushed { result.1 ≡ 0 → W.waiting out.new ≡ false }
    ensures through { result.1 ≡ 0 → O.waiting result.0 ≡ O.waiting outputs }
    ensures unmade { (session_seen asked.entry).template ≡ None → O.made result.0 ≡ O.made outputs }
    ensures ended { Ended result.1 (E.said err.old) (E.said err.new) told_of_session
        (Plays (session_seen asked.entry)
        (named (SomeFails I.Input.failed I.Input.reads) (I.bytes inputs.now) (I.missing inputs.now))
        (R.remaining reader.old) (R.remaining reader.new)
        (W.contents out.old) (W.contents out.new)
        (O.made outputs) (O.made result.0))
        (Stops (session_seen asked.entry)
        (named (SomeFails I.Input.failed I.Input.reads) (I.bytes inputs.now) (I.missing inputs.now))
        (failures (ReadFails (R.failed reader.new) (R.reads reader.new))
        ⊥ (W.failed out.new ≡ true) (O.failed result.0 ≡ true))
        (change (R.remaining reader.old) (R.remaining reader.new))
        (change (W.contents out.old) (W.contents out.new))
        (change (O.made outputs) (O.made result.0))) }
{
    run_laws::new_presses_come_so();
    match begin(alloc, asked) {
        Ok(begun) => play_by::<I, O, R, W, E, Brand>(
            alloc,
            SessionRules {
                inputs,
                goes_on: asked.goes_on,
            },
            begun,
            outputs,
            reader,
            out,
            err,
        ),
        Err(error) => (outputs, report(&error, err)),
    }
}

/// Plays a session with a press: where its outputs were made, and the status. The call's proof says where its sheets go.
fn play_by<
    I: NamedInputs,
    O: NamedOutputs + Drop,
    R: ReadDevice,
    W: WriteDevice,
    E: Teller,
    D: EntryFolder,
>(
    alloc: Global,
    rules: SessionRules<'_, I>,
    begun: Begun,
    outputs: O,
    reader: &mut R,
    out: &mut W,
    err: &mut E,
) -> (O, u8)
    requires parts { parts_in begun.template ≡ D.parts }
    requires made { O.made outputs ≡ D.begun }
    requires waits { O.waiting outputs ≡ D.waits }
    requires sums { begun.sums ≡ D.sums }
    ensures flushed { result.1 ≡ 0 → W.waiting out.new ≡ false }
    ensures through { result.1 ≡ 0 → O.waiting result.0 ≡ D.waits }
    ensures unmade { D.parts ≡ None → O.made result.0 ≡ D.begun }
    ensures ended { Ended result.1 (E.said err.old) (E.said err.new) told_of_session
        (PlaysBy (by_rules
        (named (SomeFails I.Input.failed I.Input.reads)
        (I.bytes rules.entry.inputs.now) (I.missing rules.entry.inputs.now))
        rules.entry.goes_on D.parts)
        D.sums (beginning begun.press)
        (R.remaining reader.old) (R.remaining reader.new)
        (W.contents out.old) (W.contents out.new)
        D.begun (O.made result.0))
        (StopsBy (by_rules
        (named (SomeFails I.Input.failed I.Input.reads)
        (I.bytes rules.entry.inputs.now) (I.missing rules.entry.inputs.now))
        rules.entry.goes_on D.parts)
        D.sums (failures (ReadFails (R.failed reader.new) (R.reads reader.new))
        ⊥ (W.failed out.new ≡ true) (O.failed result.0 ≡ true))
        (beginning begun.press)
        (change (R.remaining reader.old) (R.remaining reader.new))
        (change (W.contents out.old) (W.contents out.new))
        (change D.begun (O.made result.0))) }
{
    let session = Session::new(alloc, begun.press, outputs, begun.template, begun.sums);
    let mut talk: SessionTalk<I, O, D> = SessionTalk {
        alloc,
        rules,
        session,
    };
    let status = play_told(alloc, &mut talk, reader, out, err);
    (talk.session.into_outputs(), status)
}

/// Plays a session, and tells why it stopped, where it did: the status.
fn play_told<
    I: NamedInputs,
    O: NamedOutputs + Drop,
    R: ReadDevice,
    W: WriteDevice,
    E: Teller,
    D: EntryFolder,
>(
    alloc: Global,
    talk: &mut SessionTalk<'_, I, O, D>,
    reader: &mut R,
    out: &mut W,
    err: &mut E,
) -> u8
    requires { faults_of talk.old.session.pages ≡ 0 }
    ensures flushed { result ≡ 0 → W.waiting out.new ≡ false }
    ensures sound { result ≡ 0 → faults_of talk.new.session.pages ≡ 0 }
    ensures ended { Ended result (E.said err.old) (E.said err.new) told_of_session
        ((played : PlaysToItsEnd (by_rules
        (named (SomeFails I.Input.failed I.Input.reads)
        (I.bytes talk.old.rules.inputs.now) (I.missing talk.old.rules.inputs.now))
        talk.old.rules.goes_on D.parts) D.sums (standing talk.old.session)
        (R.remaining reader.old) (R.remaining reader.new)
        (W.contents out.old) (W.contents out.new))
        × (played.answered.last ≡ standing talk.new.session))
        (StopsPlaying (by_rules
        (named (SomeFails I.Input.failed I.Input.reads)
        (I.bytes talk.old.rules.inputs.now) (I.missing talk.old.rules.inputs.now))
        talk.old.rules.goes_on D.parts) D.sums
        (failures (ReadFails (R.failed reader.new) (R.reads reader.new))
        ⊥ (W.failed out.new ≡ true) ⊥)
        (standing talk.old.session) (standing talk.new.session)
        (change (R.remaining reader.old) (R.remaining reader.new))
        (change (W.contents out.old) (W.contents out.new))) }
{
    match play(alloc, talk, reader, out) {
        Ok(()) => 0,
        Err(error) => report(&error, err),
    }
}

/// Answers the lines of a session, and lists what it delivered.
fn play<I: NamedInputs, O: NamedOutputs + Drop, R: ReadDevice, W: WriteDevice, D: EntryFolder>(
    alloc: Global,
    talk: &mut SessionTalk<'_, I, O, D>,
    reader: &mut R,
    out: &mut W,
) -> Result<(), SessionError>
    requires { faults_of talk.old.session.pages ≡ 0 }
    ensures ok { OnOk result ((played : PlaysToItsEnd (by_rules
        (named (SomeFails I.Input.failed I.Input.reads)
        (I.bytes talk.old.rules.inputs.now) (I.missing talk.old.rules.inputs.now))
        talk.old.rules.goes_on D.parts) D.sums (standing talk.old.session)
        (R.remaining reader.old) (R.remaining reader.new)
        (W.contents out.old) (W.contents out.new))
        × (played.answered.last ≡ standing talk.new.session)) }
    ensures sound { OnOk result (faults_of talk.new.session.pages ≡ 0) }
    ensures err { IfErr result (λ why. StopsPlaying (by_rules
        (named (SomeFails I.Input.failed I.Input.reads)
        (I.bytes talk.old.rules.inputs.now) (I.missing talk.old.rules.inputs.now))
        talk.old.rules.goes_on D.parts) D.sums
        (failures (ReadFails (R.failed reader.new) (R.reads reader.new))
        ⊥ (W.failed out.new ≡ true) ⊥)
        (standing talk.old.session) (standing talk.new.session)
        (change (R.remaining reader.old) (R.remaining reader.new))
        (change (W.contents out.old) (W.contents out.new)) why) }
    ensures flushed { OnOk result (W.waiting out.new ≡ false) }
{
    answer_lines(alloc, talk, reader, out)?;
    talk.session.list(out)
}

/// A session, and what it is played by.
#[derive(Drop)]
struct SessionTalk<'a, I, O: NamedOutputs, D: EntryFolder> {
    alloc: Global,
    rules: SessionRules<'a, I>,
    session: Session<O, D>,
}

impl<I: NamedInputs, O: NamedOutputs + Drop, D: EntryFolder> Talk for SessionTalk<'_, I, O, D> {
    ghost use Rattle.press_sessions.specs.Sessions.{LineEnds, TakesLines};

    type Error = SessionError;

    ghost IsReady = { λ talk. faults_of talk.session.pages ≡ 0 };

    ghost answers = { λ old line answer new.
        TakesLines (by_rules
        (named (SomeFails I.Input.failed I.Input.reads)
        (I.bytes old.rules.inputs.now) (I.missing old.rules.inputs.now))
        old.rules.goes_on D.parts)
        (line ∷ []) (standing old.session) (standing new.session) answer
        × (new.rules ≡ old.rules) };

    ghost refuses = { λ at line why ended. LineEnds (by_rules
        (named (SomeFails I.Input.failed I.Input.reads)
        (I.bytes at.rules.inputs.now) (I.missing at.rules.inputs.now))
        at.rules.goes_on D.parts)
        line (standing at.session) why (standing ended.session) };

    fn answer(&mut self, line: &[u8]) -> Result<Vec<u8>, SessionError> {
        match self.session.answer(self.rules.inputs, line) {
            Ok(answer) => Ok(answer),
            Err(error) => answer_wrong(self.alloc, self.rules.goes_on, error),
        }
    }
}

/// The answer to a line that has this fault, where the session goes on behind one that is wrong.
fn answer_wrong(alloc: Global, goes_on: bool, error: SessionError) -> Result<Vec<u8>, SessionError>
    ensures asked { OnOk result (goes_on ≡ true) }
    ensures of_line { OnOk result (is_of_line error ≡ true) }
    ensures told { IfOk result (λ answer. (told : List ℕ)
        × (told_of_session error ≡ Some told) × (answer.items ≡ told ++ 10 ∷ [])) }
    ensures err { IfErr result (λ why. ((why ≡ error) ⊎ (why ≡ NoMemory))
        × (goes_on ≡ true → is_of_line why ≡ false)) }
{
    if !goes_on || !error.is_of_line() {
        return Err(error);
    }
    let line = format!(in alloc; "{error}\n")?;
    Ok(line.into_bytes())
}
