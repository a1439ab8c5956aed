//! The defaults of a printer's control panel, in front of a stream (PJL Technical Reference Manual, DEFAULT and RESET).
ghost use Rattle.std.specs.Prelude.{◌≡◌, ◌++◌, map, IfOk, OnOk};
ghost use Rattle.std.specs.List.{list_all};
ghost use Rattle.press_pjl.specs.Variables.{is_assignment};
ghost use Rattle.press_words.specs.Defaults.{default_line, prefix_of};

use press_cmd::LINE_FEED;
use press_pjl::is_assignment;
use std::alloc::{AllocError, Global};

const DEFAULT: [u8; 13] = *b"@PJL DEFAULT ";

const RESET: [u8; 11] = *b"@PJL RESET\n";

/// Whether each of the texts is `NAME=VALUE`, of a variable of the job language and a value that it knows.
pub fn are_assignments(defaults: &[&str]) -> bool
    ensures { result ≡ list_all is_assignment (map (λ text. text.now) defaults.now) }
{
    for text in defaults {
        if !is_assignment(text.as_bytes()) {
            return false;
        }
    }
    true
}

/// The bytes in front of a stream that is printed with these defaults, each `NAME=VALUE`: a line `@PJL DEFAULT` for each, and `@PJL RESET`;
/// none where there are no defaults.
///
/// Source: PJL Technical Reference Manual, DEFAULT and RESET.
pub fn prefix_of(alloc: Global, defaults: &[&str]) -> Result<Vec<u8>, AllocError>
    ensures { IfOk result (λ prefix. prefix.items ≡ prefix_of (map (λ text. text.now)
        defaults.now)) }
{
    let mut prefix = Vec::new(alloc);
    if defaults.is_empty() {
        return Ok(prefix);
    }
    for text in defaults {
        append_default(&mut prefix, text)?;
    }
    prefix.extend_from_slice(&RESET)?;
    Ok(prefix)
}

/// Appends the line of one default.
fn append_default(prefix: &mut Vec<u8>, text: &str) -> Result<(), AllocError>
    ensures { OnOk result (prefix.new.items ≡ prefix.old.items ++ default_line text.now) }
{
    prefix.extend_from_slice(&DEFAULT)?;
    prefix.extend_from_slice(text.as_bytes())?;
    prefix.push(LINE_FEED)?;
    Ok(())
}
