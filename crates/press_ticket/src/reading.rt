//! Tickets read from JSON.

ghost use Rattle.std.specs.Prelude.{◌≡◌, ◌≢◌, IfOk, IfErr, IsTrue, Ok, Err, Some, None};
ghost use Rattle.serde_json.specs.Find.{as_object};
ghost use Rattle.serde_json.specs.View.{view};
ghost use Rattle.press_ticket.specs.declared.fault.TicketError.TheVariants.{NoMemory, NotJson};
ghost use Rattle.press_ticket.specs.Reading.{json_of, ticket_from, ticket_in};
ghost use Rattle.press_ticket.specs.Ticket.{is_in_range};

use crate::fault::TicketError;
use crate::ticket::Ticket;
use crate::{members, parts};
use serde_json::Value;
use std::alloc::Global;

/// The ticket that a JSON value is.
///
/// # Errors
///
/// The first that holds: `NotJson` (601) where the value is no object; `NotProfile` (602) with the
/// least unknown key, or else with the first key whose member is absent or has a value that it may
/// not have; `WrongProcess` (603); `BadRange` (604); `BadAmount` (605). `NoMemory` may come in place
/// of any of them but the first.
///
/// Source: CIP4 JDF 1.5, the process DigitalPrinting. The keys, the values and the numbers of the
/// refusals are this profile's.
pub fn ticket_of(alloc: Global, value: &Value) -> Result<Ticket, TicketError>
    ensures ok { IfOk result (λ ticket. ticket_from (view value.now) ≡ Ok ticket) }
    ensures limits { IfOk result (λ ticket. IsTrue (is_in_range ticket)) }
    ensures err { IfErr result (λ error. error ≢ NoMemory
        → ticket_from (view value.now) ≡ Err error) }
    ensures no_object { as_object (view value.now) ≡ None → result ≡ Err NotJson }
{
    let Some(members) = value.as_object() else {
        return Err(TicketError::NotJson);
    };
    if let Some(key) = members::least_unknown(members) {
        return Err(members::not_profile(alloc, key));
    }
    let required = parts::required_of(alloc, value)?;
    let optional = parts::optional_of(alloc, value)?;
    Ticket::of(alloc, &required, &optional)
}

/// The ticket that a text is.
///
/// # Errors
///
/// `NotJson` (601) where the bytes are no JSON text, and else those of [`ticket_of`]. `NoMemory` may
/// come in place of any of them.
///
/// Source: as of [`ticket_of`]; JSON is RFC 8259, nested at most 127 deep.
pub fn read_ticket(alloc: Global, bytes: &[u8]) -> Result<Ticket, TicketError>
    ensures ok { IfOk result (λ ticket. ticket_in bytes.now ≡ Ok ticket) }
    ensures limits { IfOk result (λ ticket. IsTrue (is_in_range ticket)) }
    ensures err { IfErr result (λ error. error ≢ NoMemory → ticket_in bytes.now ≡ Err error) }
{
    let value = parse(alloc, bytes)?;
    ticket_of(alloc, &value)
}

/// The value that a text is.
fn parse(alloc: Global, bytes: &[u8]) -> Result<Value, TicketError>
    ensures ok { IfOk result (λ value. json_of bytes.now ≡ Some (view value)) }
    ensures err { IfErr result (λ error. error ≢ NoMemory
        → (error ≡ NotJson) × (json_of bytes.now ≡ None)) }
{
    match Value::from_slice(alloc, bytes) {
        Ok(value) => Ok(value),
        Err(error) => {
            if error.is_memory() {
                Err(TicketError::NoMemory)
            } else {
                Err(TicketError::NotJson)
            }
        }
    }
}
