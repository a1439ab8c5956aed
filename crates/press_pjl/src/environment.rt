//! The environment of the job language (PJL Technical Reference Manual, the PJL environments).

ghost use Rattle.std.specs.Prelude.{◌≡◌, ◌≢◌, [], false, IfOk, IsErr};
ghost use Rattle.press_pjl.specs.Lines.{effect, asked_name, asked_switch, inquired, informed};

use crate::command::Command;
use crate::effect::{Facts, PjlEffect, ReplyBytes};
use crate::fact::Fact;
use crate::named::{Named, find_named};
use crate::reply::{REPLY_END, append_prefix, echo};
use crate::variable::{SWITCHES, Variable, assigned};
use press_cmd::pjl;
use press_page::Defaults;
use std::alloc::{AllocError, Global};

/// The environment of the job language.
///
/// Source: PJL Technical Reference Manual, the PJL environments.
#[derive(Clone, Copy, Debug, PartialEq, Eq)]
pub struct PjlEnv {
    /// The values to which a job goes back.
    pub default: Defaults,
    /// The values to which a reset of the page environment goes back.
    pub current: Defaults,
    /// Whether a reply follows each sheet.
    pub page_status: bool,
}

/// The value of a name that is not known.
const UNKNOWN: [u8; 3] = *b"\"?\"";

/// An effect that is no reply, and whether the line acts as a universal exit and begins a job.
fn silent(alloc: Global, resets: bool, job: bool) -> PjlEffect
    ensures { result ≡ effect resets job [] }
{
    PjlEffect {
        resets,
        job,
        reply: ReplyBytes::of(Vec::new(alloc)),
    }
}

/// The effect of a reply.
fn replying(reply: ReplyBytes) -> PjlEffect
    ensures { result ≡ effect false false reply }
{
    PjlEffect {
        resets: false,
        job: false,
        reply,
    }
}

/// The name behind the command word.
fn asked_name(line: &[u8]) -> &[u8]
    ensures { result.now ≡ asked_name line.now }
{
    let (_, rest) = pjl::command_of(line);
    pjl::trimmed(rest)
}

/// What USTATUS switches on or off.
fn asked_switch(line: &[u8]) -> Option<bool>
    ensures { result ≡ asked_switch line.now }
{
    let (name, value) = pjl::assignment_of(line);
    if pjl::is_word(name, b"PAGE") {
        find_named(&SWITCHES, value)
    } else {
        None
    }
}

/// The reply to a query of a variable.
fn inquire(
    alloc: Global,
    command: Command,
    line: &[u8],
    values: &Defaults,
) -> Result<ReplyBytes, AllocError>
    ensures reply { IfOk result (λ reply. reply ≡ inquired command line.now values.now) }
    ensures memory { IsErr result → inquired command line.now values.now ≢ [] }
{
    let name = asked_name(line);
    let mut out = Vec::new(alloc);
    if name.is_empty() {
        return Ok(ReplyBytes::of(out));
    }
    append_prefix(command.name(), name, &mut out)?;
    match Variable::of(name) {
        Some(variable) => variable.append_value(values, &mut out)?,
        None => out.extend_from_slice(&UNKNOWN)?,
    }
    out.extend_from_slice(&REPLY_END)?;
    Ok(ReplyBytes::of(out))
}

/// The reply to INFO.
fn inform(alloc: Global, line: &[u8], facts: &Facts) -> Result<ReplyBytes, AllocError>
    ensures reply { IfOk result (λ reply. reply ≡ informed line.now facts.now) }
    ensures memory { IsErr result → informed line.now facts.now ≢ [] }
{
    let name = asked_name(line);
    let mut out = Vec::new(alloc);
    if name.is_empty() {
        return Ok(ReplyBytes::of(out));
    }
    append_prefix(Command::Info.name(), name, &mut out)?;
    match Fact::of(name) {
        Some(fact) => fact.append(facts, &mut out)?,
        None => out.extend_from_slice(&UNKNOWN)?,
    }
    out.extend_from_slice(&REPLY_END)?;
    Ok(ReplyBytes::of(out))
}

impl PjlEnv {
    ghost use Rattle.std.specs.Prelude.{◌≡◌, ◌≢◌, [], false, IfOk, OnErr, IsErr};
    ghost use Rattle.press_cmd.specs.Language.{name_of, assigned_value};
    ghost use Rattle.press_pjl.specs.Variables.{assigned};
    ghost use Rattle.press_pjl.specs.Lines.{power_on_language, asked_switch, sets_current, sets_default, initializes, switches};
    ghost use Rattle.press_pjl.specs.Lines.{where_known, where_alone, language_row, after_line};

    /// The environment after power on: factory values, and no replies after sheets.
    pub fn power_on() -> Self
        ensures { result ≡ power_on_language }
    {
        PjlEnv {
            default: Defaults::factory(),
            current: Defaults::factory(),
            page_status: false,
        }
    }

    /// INITIALIZE: both are the factory values.
    fn initialize(&mut self, alloc: Global, line: &[u8]) -> PjlEffect
        ensures { (self.new, result) ≡ where_alone line.now initializes self.old }
    {
        if !asked_name(line).is_empty() {
            return silent(alloc, false, false);
        }
        self.default = Defaults::factory();
        self.current = Defaults::factory();
        silent(alloc, true, false)
    }

    /// SET: another value of a variable, until the job ends.
    fn set(&mut self, alloc: Global, line: &[u8]) -> PjlEffect
        ensures { (self.new, result) ≡ where_known
            (assigned (name_of line.now) (assigned_value line.now) self.old.current)
            sets_current self.old }
    {
        let (name, value) = pjl::assignment_of(line);
        match assigned(name, value, self.current) {
            Some(values) => {
                self.current = values;
                silent(alloc, true, false)
            }
            None => silent(alloc, false, false),
        }
    }

    /// DEFAULT: another value of a variable from the next job on.
    fn set_default(&mut self, alloc: Global, line: &[u8]) -> PjlEffect
        ensures { (self.new, result) ≡ where_known
            (assigned (name_of line.now) (assigned_value line.now) self.old.default)
            sets_default self.old }
    {
        let (name, value) = pjl::assignment_of(line);
        if let Some(values) = assigned(name, value, self.default) {
            self.default = values;
        }
        silent(alloc, false, false)
    }

    /// USTATUS: replies after each sheet, on or off.
    fn switch_status(&mut self, alloc: Global, line: &[u8]) -> PjlEffect
        ensures { (self.new, result) ≡ where_known (asked_switch line.now) switches self.old }
    {
        if let Some(on) = asked_switch(line) {
            self.page_status = on;
        }
        silent(alloc, false, false)
    }

    /// USTATUSOFF: no replies after sheets.
    fn switch_off(&mut self, alloc: Global, line: &[u8]) -> PjlEffect
        ensures { (self.new, result) ≡ where_alone line.now (switches false) self.old }
    {
        if asked_name(line).is_empty() {
            self.page_status = false;
        }
        silent(alloc, false, false)
    }

    /// Carries out a command of a line.
    fn carry_out(
        &mut self,
        alloc: Global,
        command: Command,
        line: &[u8],
        facts: &Facts,
    ) -> Result<PjlEffect, AllocError>
        ensures ok { IfOk result (λ effect.
            (self.new, effect) ≡ language_row command line.now facts.now self.old) }
        ensures err { OnErr result (self.new ≡ self.old) }
        ensures memory { IsErr result
            → (language_row command line.now facts.now self.old).1.reply ≢ [] }
    {
        match command {
            Command::Job => {
                self.current = self.default;
                Ok(silent(alloc, true, true))
            }
            Command::EndOfJob | Command::Reset => {
                self.current = self.default;
                Ok(silent(alloc, true, false))
            }
            Command::Initialize => Ok(self.initialize(alloc, line)),
            Command::Set => Ok(self.set(alloc, line)),
            Command::Default => Ok(self.set_default(alloc, line)),
            Command::Inquire => inquire(alloc, command, line, &self.current).map(replying),
            Command::InquireDefault => inquire(alloc, command, line, &self.default).map(replying),
            Command::Echo => echo(alloc, pjl::command_of(line).1).map(replying),
            Command::Info => inform(alloc, line, facts).map(replying),
            Command::Status => Ok(self.switch_status(alloc, line)),
            Command::StatusOff => Ok(self.switch_off(alloc, line)),
        }
    }

    /// Carries out a PJL line, as a stream has it: from `@PJL` to its line feed. What is no such line has no effect.
    ///
    /// # Errors
    ///
    /// Where memory ran out for the reply; then nothing changes.
    ///
    /// Source: PJL Technical Reference Manual, the PJL commands.
    pub fn line(
        &mut self,
        alloc: Global,
        line: &[u8],
        facts: &Facts,
    ) -> Result<PjlEffect, AllocError>
        ensures ok { IfOk result (λ effect.
            (self.new, effect) ≡ after_line line.now facts.now self.old) }
        ensures err { OnErr result (self.new ≡ self.old) }
        ensures memory { IsErr result → (after_line line.now facts.now self.old).1.reply ≢ [] }
    {
        match Command::of_line(line) {
            Some(command) => self.carry_out(alloc, command, line, facts),
            None => Ok(silent(alloc, false, false)),
        }
    }
}
