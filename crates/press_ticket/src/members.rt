//! The members of a ticket's object.

ghost use Rattle.std.specs.Prelude.{◌≡◌, ◌≢◌, true, IfSome, IfOk, IfErr, option_map, ok_or, Some, Err};
ghost use Rattle.std.specs.List.{list_all};
ghost use Rattle.serde_json.specs.View.{view, items_view, members_view};
ghost use Rattle.press_units.specs.Ascii.{is_printable};
ghost use Rattle.press_ticket.specs.declared.fault.TicketError.TheVariants.{NoMemory, NotProfile};
ghost use Rattle.press_ticket.specs.Members.{is_ticket_key, least_unknown, as_whole, as_version, is_job_id, as_job_id, as_pair};
ghost use Rattle.press_ticket.specs.Members.{pairs_of, as_run_list, as_media, as_sides, resolution_of, as_resolution};

use crate::fault::TicketError;
use crate::key::Key;
use crate::media::{Media, Sides};
use press_units::{RESOLUTIONS, Resolution};
use serde_json::{Map, Value};
use std::alloc::{AllocError, Global};

/// The most bytes of a job's name.
const MAX_JOB_ID: usize = 63;
/// The most pairs of a run list.
const MAX_PAIRS: usize = 64;

/// The refusal that names a key.
pub fn not_profile(alloc: Global, key: &str) -> TicketError
    ensures { result ≢ NoMemory → result ≡ NotProfile key.now }
{
    match Key::new(alloc, key) {
        Ok(key) => TicketError::NotProfile(key),
        Err(_) => TicketError::NoMemory,
    }
}

/// What a member says; without it the refusal that names its key.
pub fn said<T: Drop>(alloc: Global, key: &str, member: Option<T>) -> Result<T, TicketError>
    ensures ok { IfOk result (λ value. member ≡ Some value) }
    ensures err { IfErr result (λ error. error ≢ NoMemory
        → ok_or member (NotProfile key.now) ≡ Err error) }
{
    match member {
        Some(value) => Ok(value),
        None => Err(not_profile(alloc, key)),
    }
}

fn is_ticket_key(key: &str) -> bool
    ensures { result ≡ is_ticket_key key.now }
{
    matches!(
        key,
        "Version"
            | "Type"
            | "JobID"
            | "NPage"
            | "Amount"
            | "RunList"
            | "Media"
            | "Sides"
            | "Collate"
            | "Resolution"
    )
}

/// The least key that no ticket has. An object's keys ascend, so it is the first.
#[tactic(auto, using(crate::proofs::LeastLemmas::first_is_least))]
pub fn least_unknown(members: &Map<String, Value>) -> Option<&str>
    ensures { option_map (λ key. key.now) result
        ≡ least_unknown (members_view members.now.entries) }
{
    // The length is what says that the keys ascend.
    let _ordered = members.len();
    for (key, _) in members.iter() {
        if !is_ticket_key(key) {
            return Some(key.as_str());
        }
    }
    None
}

/// A whole number.
pub fn whole(value: &Value) -> Option<i128>
    ensures { result ≡ as_whole (view value.now) }
{
    value.as_number()?.as_i128()
}

/// The version that this profile takes.
pub fn version(value: &Value) -> Option<&str>
    ensures { option_map (λ text. text.now) result ≡ as_version (view value.now) }
{
    value.as_str().filter(|text| *text == "1.5")
}

fn is_printable(byte: u8) -> bool
    ensures { result ≡ is_printable byte }
{
    byte >= 32 && byte <= 126
}

fn are_printable(bytes: &[u8]) -> bool
    ensures { result ≡ list_all is_printable bytes.now }
{
    bytes.iter().all(|byte| is_printable(*byte))
}

fn is_job_id(text: &str) -> bool
    ensures { result ≡ is_job_id text.now }
{
    let len = text.len();
    len >= 1 && len <= MAX_JOB_ID && are_printable(text.as_bytes())
}

/// The name of a job.
pub fn job_id(value: &Value) -> Option<&str>
    ensures value { option_map (λ text. text.now) result ≡ as_job_id (view value.now) }
    ensures legal { IfSome result (λ text. is_job_id text.now ≡ true) }
{
    value.as_str().filter(|text| is_job_id(text))
}

pub fn media(value: &Value) -> Option<Media>
    ensures { result ≡ as_media (view value.now) }
{
    Media::named(value.as_str()?)
}

pub fn sides(value: &Value) -> Option<Sides>
    ensures { result ≡ as_sides (view value.now) }
{
    Sides::named(value.as_str()?)
}

/// The resolution of so many dots per inch.
fn resolution_of(number: i128) -> Option<Resolution>
    ensures { result ≡ resolution_of number }
{
    RESOLUTIONS.iter().copied().find(|resolution| i128::from(resolution.dots_per_inch()) == number)
}

/// A resolution, by its dots per inch.
pub fn resolution(value: &Value) -> Option<Resolution>
    ensures { result ≡ as_resolution (view value.now) }
{
    resolution_of(whole(value)?)
}

/// A pair of whole numbers.
#[tactic(auto, using(crate::proofs::ItemLemmas::pair_of_short, crate::proofs::ItemLemmas::pair_of_long))]
fn pair(value: &Value) -> Option<(i128, i128)>
    ensures { result ≡ as_pair (view value.now) }
{
    match value.as_array()?.as_slice() {
        [first, last] => Some((whole(first)?, whole(last)?)),
        _ => None,
    }
}

/// The pairs of a list of pairs of whole numbers.
fn pairs(alloc: Global, items: &Vec<Value>) -> Result<Option<Vec<(i128, i128)>>, AllocError>
    ensures { IfOk result (λ found. option_map (λ pairs. pairs.items) found
        ≡ pairs_of (items_view items.now.items)) }
{
    let mut found = Vec::new(alloc);
    for item in items.iter() {
        let Some(pair) = pair(item) else {
            return Ok(None);
        };
        found.push(pair)?;
    }
    Ok(Some(found))
}

/// The pairs of a run list.
pub fn run_list(alloc: Global, value: &Value) -> Result<Option<Vec<(i128, i128)>>, AllocError>
    ensures { IfOk result (λ found. option_map (λ pairs. pairs.items) found
        ≡ as_run_list (view value.now)) }
{
    let Some(items) = value.as_array() else {
        return Ok(None);
    };
    let found = pairs(alloc, items)?;
    Ok(found.filter(|pairs| (1..=MAX_PAIRS).contains(&pairs.len())))
}
