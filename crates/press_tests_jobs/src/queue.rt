//! The queue: the codes and texts of its refusals.
use press_queue::{Refusal, SubmitError};
use std::alloc::{AllocError, Global};
use std::test::Fail;

/// Each refusal, its return code and its text.
const CODES: [(Refusal, u8, &str); 7] = [
    (Refusal::Unknown, 21, "fault 21"),
    (Refusal::WrongStatus, 22, "fault 22"),
    (Refusal::Closed, 23, "fault 23"),
    (Refusal::Full, 24, "fault 24"),
    (Refusal::BadPriority, 25, "fault 25"),
    (Refusal::BadPosition, 26, "fault 26"),
    (Refusal::InFlightFull, 27, "fault 27"),
];

/// The text of why a submission was not taken.
fn text_of(alloc: Global, error: &SubmitError) -> Result<String, AllocError> {
    format!(in alloc; "{error}")
}

#[test]
fn each_refusal_has_its_code(rt: HostRuntime) -> Result<(), Fail> {
    for (refusal, code, text) in &CODES {
        assert_eq!(rt; refusal.return_code(), *code);
        let told = text_of(rt.alloc(), &SubmitError::Refused(*refusal))?;
        assert_eq!(rt; told.as_str(), *text);
    }
    let told = text_of(rt.alloc(), &SubmitError::NoMemory)?;
    assert_eq!(rt; told.as_str(), "fault memory");
    Ok(())
}
