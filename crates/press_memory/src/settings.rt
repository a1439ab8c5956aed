//! The printer's own settings, as words of one text (PJL Technical Reference Manual, DEFAULT and RESET).
ghost use Rattle.std.specs.Prelude.{◌≡◌, ◌++◌, map, IfOk, OnOk, IsErrOf, true, false};
ghost use Rattle.std.specs.List.{list_all};
ghost use Rattle.press_pjl.specs.Variables.{is_assignment};
ghost use Rattle.press_words.specs.Defaults.{default_line, prefix_of};
ghost use Rattle.press_memory.specs.Faults.{no_memory, bad_settings};
ghost use Rattle.press_memory.specs.Settings.{settings_in};

use crate::answer::NO_MEMORY;
use press_cmd::LINE_FEED;
use press_pjl::is_assignment;
use press_words::words_of;
use std::alloc::{AllocError, Global};

const DEFAULT: [u8; 13] = *b"@PJL DEFAULT ";

const RESET: [u8; 11] = *b"@PJL RESET\n";

/// The fault of settings of which one is no `NAME=VALUE` of the job language.
const BAD_SETTINGS: u32 = 2;

/// Why settings put nothing in front of a stream.
#[derive(Debug, Drop)]
pub(crate) enum SettingsError {
    /// One of them is no `NAME=VALUE` of the job language.
    Refused,
    NoMemory,
}

impl SettingsError {
    /// Its number.
    pub(crate) fn number(&self) -> u32
        ensures refused { self.now ≡ SettingsError.Refused → result ≡ bad_settings }
        ensures memory { self.now ≡ SettingsError.NoMemory → result ≡ no_memory }
    {
        match self {
            SettingsError::Refused => BAD_SETTINGS,
            SettingsError::NoMemory => NO_MEMORY,
        }
    }
}

impl From<AllocError> for SettingsError {
    ghost use Rattle.std.specs.Prelude.{◌≡◌};
    ghost use Rattle.press_memory.specs.declared.settings.SettingsError.TheVariants.{NoMemory};

    ghost from_gives = { λ _ error. error ≡ NoMemory };

    fn from(_error: AllocError) -> SettingsError {
        SettingsError::NoMemory
    }
}

/// The bytes that settings put in front of a stream.
pub(crate) fn prefix_in(alloc: Global, settings: &[u8]) -> Result<Vec<u8>, SettingsError>
    ensures set { OnOk result (list_all is_assignment (settings_in settings.now) ≡ true) }
    ensures prefix { IfOk result (λ prefix. prefix.items ≡ prefix_of (settings_in settings.now)) }
    ensures refused { IsErrOf result SettingsError.Refused
        → list_all is_assignment (settings_in settings.now) ≡ false }
{
    let words = words_in(alloc, settings)?;
    if !are_assignments(&words) {
        return Err(SettingsError::Refused);
    }
    Ok(prefix_of(alloc, &words)?)
}

/// The words of settings, between single spaces.
fn words_in<'a>(alloc: Global, settings: &'a [u8]) -> Result<Vec<&'a [u8]>, AllocError>
    ensures { IfOk result (λ words.
        map (λ word. word.now) words.items ≡ settings_in settings.now) }
{
    if settings.is_empty() {
        return Ok(Vec::new(alloc));
    }
    words_of(alloc, settings)
}

/// Whether each of the words is `NAME=VALUE`, of a variable of the job language and a value that it knows.
fn are_assignments(words: &[&[u8]]) -> bool
    ensures { result ≡ list_all is_assignment (map (λ word. word.now) words.now) }
{
    for word in words {
        if !is_assignment(word) {
            return false;
        }
    }
    true
}

/// The lines of settings, and a reset behind them; nothing where there are no settings.
fn prefix_of(alloc: Global, words: &[&[u8]]) -> Result<Vec<u8>, AllocError>
    ensures { IfOk result (λ prefix.
        prefix.items ≡ prefix_of (map (λ word. word.now) words.now)) }
{
    let mut prefix = Vec::new(alloc);
    if words.is_empty() {
        return Ok(prefix);
    }
    for word in words {
        append_default(&mut prefix, word)?;
    }
    prefix.extend_from_slice(&RESET)?;
    Ok(prefix)
}

/// Appends the line of one setting.
fn append_default(prefix: &mut Vec<u8>, word: &[u8]) -> Result<(), AllocError>
    ensures { OnOk result (prefix.new.items ≡ prefix.old.items ++ default_line word.now) }
{
    prefix.extend_from_slice(&DEFAULT)?;
    prefix.extend_from_slice(word)?;
    prefix.push(LINE_FEED)?;
    Ok(())
}
