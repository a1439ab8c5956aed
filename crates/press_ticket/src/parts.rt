//! What a ticket's members say, before any number is held against its range.

ghost use Rattle.std.specs.Prelude.{◌≡◌, ◌≢◌, true, IfOk, IfErr, Ok, Err, Some, option_map};
ghost use Rattle.std.specs.Option.{option_map_or};
ghost use Rattle.serde_json.specs.View.{view};
ghost use Rattle.press_ticket.specs.declared.fault.TicketError.TheVariants.{NoMemory};
ghost use Rattle.press_ticket.specs.Members.{as_run_list, is_job_id};
ghost use Rattle.press_ticket.specs.Parts.{required_parts, optional_parts};
ghost use Rattle.press_ticket.specs.Reading.{required_of, optional_of, run_list_of, whole_set};

use crate::fault::TicketError;
use crate::media::{Media, Sides};
use crate::members;
use crate::members::said;
use press_units::Resolution;
use serde_json::Value;
use std::alloc::{AllocError, Global};

/// What the required members say.
#[derive(Drop)]
pub struct Required<'a> {
    pub process: &'a str,
    pub job_id: &'a str,
    pub page_count: i128,
    pub amount: i128,
}

/// What the optional members say, or what holds without them.
#[derive(Drop)]
pub struct Optional {
    pub run_list: Vec<(i128, i128)>,
    pub media: Media,
    pub sides: Sides,
    pub collate: bool,
    pub resolution: Resolution,
}

pub fn required_of(alloc: Global, value: &Value) -> Result<Required<'_>, TicketError>
    ensures ok { IfOk result (λ required. required_of (view value.now)
        ≡ Ok (required_parts required)) }
    ensures err { IfErr result (λ error. error ≢ NoMemory
        → required_of (view value.now) ≡ Err error) }
    ensures legal { IfOk result (λ required. is_job_id required.job_id.now ≡ true) }
{
    said(
        alloc,
        "Version",
        value.get("Version").and_then(members::version),
    )?;
    let process = said(alloc, "Type", value.get("Type").and_then(Value::as_str))?;
    let job_id = said(alloc, "JobID", value.get("JobID").and_then(members::job_id))?;
    let page_count = said(alloc, "NPage", value.get("NPage").and_then(members::whole))?;
    let amount = said(
        alloc,
        "Amount",
        value.get("Amount").and_then(members::whole),
    )?;
    Ok(Required {
        process,
        job_id,
        page_count,
        amount,
    })
}

pub fn optional_of(alloc: Global, value: &Value) -> Result<Optional, TicketError>
    ensures ok { IfOk result (λ optional. optional_of (view value.now)
        ≡ Ok (optional_parts optional)) }
    ensures err { IfErr result (λ error. error ≢ NoMemory
        → optional_of (view value.now) ≡ Err error) }
{
    let run_list = run_list_of(alloc, value)?;
    let media = value
        .get("Media")
        .map_or(Some(Media::Letter), members::media);
    let media = said(alloc, "Media", media)?;
    let sides = value
        .get("Sides")
        .map_or(Some(Sides::OneSidedFront), members::sides);
    let sides = said(alloc, "Sides", sides)?;
    let collate = value.get("Collate").map_or(Some(true), Value::as_bool);
    let collate = said(alloc, "Collate", collate)?;
    let resolution = value
        .get("Resolution")
        .map_or(Some(Resolution::Dpi300), members::resolution);
    let resolution = said(alloc, "Resolution", resolution)?;
    Ok(Optional {
        run_list,
        media,
        sides,
        collate,
        resolution,
    })
}

/// The pairs of a run list, or all pages in order where there is none.
fn run_list(alloc: Global, member: Option<&Value>) -> Result<Option<Vec<(i128, i128)>>, AllocError>
    ensures { IfOk result (λ found. option_map (λ pairs. pairs.items) found
        ≡ option_map_or as_run_list (option_map (λ value. view value.now) member.entry)
        (Some whole_set)) }
{
    match member {
        Some(value) => members::run_list(alloc, value),
        None => Ok(Some(vec![in alloc; (0, -1)]?)),
    }
}

fn run_list_of(alloc: Global, value: &Value) -> Result<Vec<(i128, i128)>, TicketError>
    ensures ok { IfOk result (λ pairs. run_list_of (view value.now) ≡ Ok pairs.items) }
    ensures err { IfErr result (λ error. error ≢ NoMemory
        → run_list_of (view value.now) ≡ Err error) }
{
    said(alloc, "RunList", run_list(alloc, value.get("RunList"))?)
}
