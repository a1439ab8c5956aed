//! Templates of file names, in which an entry and the number of a side have their places (this profile).
ghost use Rattle.std.specs.Prelude.{◌≡◌, IfOk, IfErr, IsErrOf, MatchBool, MatchOption};
ghost use Rattle.std.specs.String.{string_bytes};
ghost use Rattle.press_sink.specs.Template.{NameParts, side_name};
ghost use Rattle.press_files.specs.EntryTemplate.{EntryParts, IsEntryTemplate, IsNoEntryTemplate, NumberStands, SpellsRound, StandsNowhere, StandsOnce};
ghost use Rattle.press_files.specs.EntryTemplate.{entry_parts, entry_place, names_of, number_place, pieces_seen};

use press_sink::TemplateError;
use std::alloc::{AllocError, Global};

/// Where an entry has its place in a template.
const ENTRY: &str = "%q";

/// Where the number of a side has its place.
const NUMBER: &str = "%d";

/// A template of file names: the ID of an entry takes the place of its one `%q`, and the number of a side that of its one `%d`.
#[derive(Drop)]
pub struct EntryTemplate {
    front: String,
    middle: String,
    back: String,
    /// Whether `%d` stands before `%q`.
    number_first: bool,
}

/// A text that is such a template, cut at its two places.
#[derive(Clone, Copy)]
struct Pieces<'a> {
    front: &'a str,
    middle: &'a str,
    back: &'a str,
    number_first: bool,
}

impl EntryTemplate {
    /// The template that a text is.
    ///
    /// # Errors
    ///
    /// `BadTemplate` (121) exactly where not both `%q` and `%d` stand in it, each once; and else `NoMemory` where memory ran out.
    pub fn of(alloc: Global, text: &str) -> Result<EntryTemplate, TemplateError>
        ensures ok { IfOk result (λ template. IsEntryTemplate text.now (entry_parts template)) }
        ensures bad { IfErr result (λ error.
            error ≡ TemplateError.BadTemplate → IsNoEntryTemplate text.now) }
        ensures exact { IsNoEntryTemplate text.now → IsErrOf result TemplateError.BadTemplate }
    {
        match pieces_of(text) {
            Some(pieces) => EntryTemplate::of_pieces(alloc, pieces),
            None => Err(TemplateError::BadTemplate),
        }
    }

    /// The template of such pieces.
    fn of_pieces(alloc: Global, pieces: Pieces<'_>) -> Result<EntryTemplate, TemplateError>
        ensures ok { IfOk result (λ template. entry_parts template ≡ pieces_seen pieces.entry) }
        ensures memory { IfErr result (λ error. error ≡ TemplateError.NoMemory) }
    {
        Ok(EntryTemplate {
            front: String::from_str(alloc, pieces.front)?,
            middle: String::from_str(alloc, pieces.middle)?,
            back: String::from_str(alloc, pieces.back)?,
            number_first: pieces.number_first,
        })
    }

    /// The name of the side with this number of an entry.
    pub(crate) fn name(&self, alloc: Global, entry: u64, number: u64) -> Result<String, AllocError>
        ensures { IfOk result (λ name. string_bytes name
            ≡ side_name (names_of (entry_parts self.now) entry) number) }
    {
        let front = self.front.as_str();
        let middle = self.middle.as_str();
        let back = self.back.as_str();
        if self.number_first {
            return format!(in alloc; "{front}{number}{middle}Q{entry}{back}");
        }
        format!(in alloc; "{front}Q{entry}{middle}{number}{back}")
    }
}

/// The pieces of a text that is a template.
fn pieces_of(text: &str) -> Option<Pieces<'_>>
    ensures { MatchOption result (IsNoEntryTemplate text.now)
        (λ pieces. IsEntryTemplate text.now (pieces_seen pieces)) }
{
    let (before, behind) = split_entry(text)?;
    number_between(before, behind)
}

/// What stands before and behind the `%q` of a text, if it has exactly one.
fn split_entry(text: &str) -> Option<(&str, &str)>
    ensures { MatchOption result ((round : NameParts) → ¬ (StandsOnce entry_place text.now round))
        (λ round. StandsOnce entry_place text.now
        (record { front = round.0.now; back = round.1.now })) }
{
    let (before, behind) = text.split_once(ENTRY)?;
    if behind.contains(ENTRY) {
        return None;
    }
    Some((before, behind))
}

/// What stands before and behind the `%d` of a text, if it has exactly one.
fn split_number(text: &str) -> Option<(&str, &str)>
    ensures { MatchOption result ((round : NameParts) → ¬ (StandsOnce number_place text.now round))
        (λ round. StandsOnce number_place text.now
        (record { front = round.0.now; back = round.1.now })) }
{
    let (before, behind) = text.split_once(NUMBER)?;
    if behind.contains(NUMBER) {
        return None;
    }
    Some((before, behind))
}

/// Whether `%d` stands in a text.
fn has_number(text: &str) -> bool
    ensures { MatchBool result ((round : NameParts) × SpellsRound number_place text.now round)
        (StandsNowhere number_place text.now) }
{
    text.contains(NUMBER)
}

/// The pieces of what stands before the place of an entry, and behind it.
fn number_between<'a>(before: &'a str, behind: &'a str) -> Option<Pieces<'a>>
    ensures { MatchOption result
        ((parts : EntryParts) → ¬ (NumberStands before.now behind.now parts))
        (λ pieces. NumberStands before.now behind.now (pieces_seen pieces)) }
{
    if !has_number(behind) {
        let (front, middle) = split_number(before)?;
        return Some(Pieces {
            front,
            middle,
            back: behind,
            number_first: true,
        });
    }
    if has_number(before) {
        return None;
    }
    let (middle, back) = split_number(behind)?;
    Some(Pieces {
        front: before,
        middle,
        back,
        number_first: false,
    })
}
