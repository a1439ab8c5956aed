//! Templates of file names, in which the number of a side has its place (this profile).
ghost use Rattle.std.specs.Prelude.{◌≡◌, ◌≢◌, ◌↔◌, ◌++◌, ◌≤◌, ◌<◌, ◌^◌, ℕ, List, IsTrue, IfOk, IfErr, IsErrOf, MatchOption};
ghost use Rattle.std.specs.List.{All};
ghost use Rattle.std.specs.Char.{IsAsciiDigit};
ghost use Rattle.press_sink.specs.Template.{NameParts, IsTemplate, IsNoTemplate, IsSideName, IsWritten, side_name};
ghost use Rattle.press_sink.specs.Kept.{template_parts};
ghost use Rattle.std.specs.String.{string_bytes};

use crate::fault::TemplateError;
use std::alloc::{AllocError, Global};

/// A template of file names: the number of a side takes the place of its one `%d`.
#[derive(Drop)]
pub(crate) struct Template {
    front: String,
    back: String,
}

impl Template {
    /// The template of what stands before and behind the place of the number.
    fn of_parts(alloc: Global, front: &str, back: &str) -> Result<Template, TemplateError>
        ensures ok { IfOk result (λ template.
            template_parts template ≡ record { front = front.now; back = back.now }) }
        ensures memory { IfErr result (λ error. error ≡ TemplateError.NoMemory) }
    {
        Ok(Template {
            front: String::from_str(alloc, front)?,
            back: String::from_str(alloc, back)?,
        })
    }

    /// The template that a text is.
    pub(crate) fn of(alloc: Global, text: &str) -> Result<Template, TemplateError>
        ensures ok { IfOk result (λ template. IsTemplate text.now (template_parts template)) }
        ensures bad { IfErr result (λ error.
            error ≡ TemplateError.BadTemplate → IsNoTemplate text.now) }
        ensures exact { IsNoTemplate text.now → IsErrOf result TemplateError.BadTemplate }
    {
        match split(text) {
            Some((front, back)) => Template::of_parts(alloc, front, back),
            None => Err(TemplateError::BadTemplate),
        }
    }

    /// The name of the side with this number.
    pub(crate) fn name(&self, alloc: Global, number: u64) -> Result<String, AllocError>
        ensures { IfOk result (λ name.
            string_bytes name ≡ side_name (template_parts self.now) number) }
    {
        let front = self.front.as_str();
        let back = self.back.as_str();
        format!(in alloc; "{front}{number}{back}")
    }
}

/// What stands before and behind the `%d` of a text, if it has exactly one.
fn split(text: &str) -> Option<(&str, &str)>
    ensures { MatchOption result (IsNoTemplate text.now)
        (λ parts. IsTemplate text.now (record { front = parts.0.now; back = parts.1.now })) }
{
    let (front, back) = text.split_once("%d")?;
    if back.contains("%d") {
        return None;
    }
    Some((front, back))
}

/// Whether this is the name of a side by a template: a number, as it is written from 1 on, in place of its one `%d`.
pub fn is_side_name(template: &str, name: &str) -> bool
    ensures test { IsTrue result ↔ IsSideName template.now name.now }
    ensures sides { (parts : NameParts) (number : ℕ) → IsTemplate template.now parts
        → 1 ≤ number → number < 2 ^ 64 → name.now ≡ side_name parts number → IsTrue result }
{
    let Some((front, back)) = split(template) else {
        return false;
    };
    match between(name, front, back) {
        Some(number) => is_written(number),
        None => false,
    }
}

/// What stands between a front and a back, if a text has both.
fn between<'a>(text: &'a str, front: &str, back: &str) -> Option<&'a str>
    ensures { MatchOption result
        ((middle : List ℕ) → text.now ≢ front.now ++ (middle ++ back.now))
        (λ middle. text.now ≡ front.now ++ (middle.now ++ back.now)) }
{
    text.strip_prefix(front)?.strip_suffix(back)
}

/// Whether a text is a number from 1 on, as it is written.
fn is_written(text: &str) -> bool
    ensures { IsTrue result ↔ IsWritten text.now }
{
    let digits = text.as_bytes();
    match digits.first() {
        Some(first) => *first != b'0' && are_digits(digits),
        None => false,
    }
}

/// Whether all bytes are digits.
fn are_digits(bytes: &[u8]) -> bool
    ensures { IsTrue result ↔ All IsAsciiDigit bytes.now }
{
    bytes.iter().all(|byte| byte.is_ascii_digit())
}
