//! The variables of the job language and their values (PJL Technical Reference Manual, environment variables).

ghost use Rattle.std.specs.Prelude.{◌≡◌, ◌++◌, min, OnOk, IsTrue};
ghost use Rattle.std.specs.List.{All, list_all};
ghost use Rattle.std.specs.Char.{IsAsciiDigit, is_ascii_digit};
ghost use Rattle.press_units.specs.Value.{number_of};
ghost use Rattle.press_pjl.specs.Variables.{is_number, between, number_within, assigned, is_assignment};

use crate::named::{Named, find_named};
use itoa::Buffer;
use press_cmd::pjl;
use press_page::{Binding, Defaults, MOST_COPIES, Orientation, PAGE_SIZES};
use press_units::RESOLUTIONS;
use std::alloc::AllocError;

/// A variable of the job language.
///
/// Source: PJL Technical Reference Manual, environment variables.
#[derive(Clone, Copy)]
pub(crate) enum Variable {
    Copies,
    Paper,
    Orientation,
    Duplex,
    Binding,
    Resolution,
}

const VARIABLES: [Variable; 6] = [
    Variable::Copies,
    Variable::Paper,
    Variable::Orientation,
    Variable::Duplex,
    Variable::Binding,
    Variable::Resolution,
];

const ORIENTATIONS: [Orientation; 2] = [Orientation::Portrait, Orientation::Landscape];

/// Off and on.
pub(crate) const SWITCHES: [bool; 2] = [false, true];

const BINDINGS: [Binding; 2] = [Binding::LongEdge, Binding::ShortEdge];

/// The number that digits spell, or 1,000 where it is not below that.
fn number_to_a_thousand(digits: &[u8]) -> u16
    requires { All IsAsciiDigit digits.now }
    ensures { result ≡ min (number_of digits.now) 1000 }
{
    let mut number = 0;
    for digit in digits {
        number = (10 * number + u16::from(*digit - b'0')).min(1000);
    }
    number
}

/// Whether all bytes are digits.
fn are_digits(text: &[u8]) -> bool
    ensures test { result ≡ list_all is_ascii_digit text.now }
    ensures digits { IsTrue result → All IsAsciiDigit text.now }
{
    text.iter().all(|byte| byte.is_ascii_digit())
}

/// Whether a text is digits, one at least.
fn is_number(text: &[u8]) -> bool
    ensures test { result ≡ is_number text.now }
    ensures digits { IsTrue result → All IsAsciiDigit text.now }
{
    !text.is_empty() && are_digits(text)
}

/// A number of copies, from 1 to 999.
fn copies_of(number: u16) -> Option<u16>
    ensures { result ≡ between 1 MOST_COPIES number }
{
    if 1 <= number && number <= MOST_COPIES {
        Some(number)
    } else {
        None
    }
}

/// The number of copies that a text of digits spells, if it is one from 1 to 999.
#[tactic(auto, using(crate::proofs::NumberLemmas::within_cut))]
fn copies_in(text: &[u8]) -> Option<u16>
    ensures { result ≡ number_within 1 MOST_COPIES text.now }
{
    if is_number(text) {
        copies_of(number_to_a_thousand(text))
    } else {
        None
    }
}

impl Named for Variable {
    ghost use Rattle.press_pjl.specs.Variables.{entry_of};

    ghost spelled = { λ variable. (entry_of variable).name };

    fn name(&self) -> &'static [u8] {
        match self {
            Variable::Copies => b"COPIES",
            Variable::Paper => b"PAPER",
            Variable::Orientation => b"ORIENTATION",
            Variable::Duplex => b"DUPLEX",
            Variable::Binding => b"BINDING",
            Variable::Resolution => b"RESOLUTION",
        }
    }
}

impl Variable {
    ghost use Rattle.press_pjl.specs.Variables.{entry_of, variable_named};

    /// The variable of a name.
    pub(crate) fn of(name: &[u8]) -> Option<Variable>
        ensures { result ≡ variable_named name.now }
    {
        find_named(&VARIABLES, name)
    }

    /// The values of all variables with another one of this, where a text names one.
    fn assign(self, text: &[u8], values: Defaults) -> Option<Defaults>
        ensures { result ≡ (entry_of self).with_text text.now values }
    {
        let mut after = values;
        match self {
            Variable::Copies => after.copies = copies_in(text)?,
            Variable::Paper => after.size = find_named(&PAGE_SIZES, text)?,
            Variable::Orientation => after.orientation = find_named(&ORIENTATIONS, text)?,
            Variable::Duplex => after.duplex = find_named(&SWITCHES, text)?,
            Variable::Binding => after.binding = find_named(&BINDINGS, text)?,
            Variable::Resolution => after.resolution = find_named(&RESOLUTIONS, text)?,
        }
        Some(after)
    }

    /// Appends the text of the value that this variable has.
    pub(crate) fn append_value(self, values: &Defaults, out: &mut Vec<u8>) -> Result<(), AllocError>
        ensures { OnOk result (out.new.items ≡ out.old.items ++ (entry_of self).text values.now) }
    {
        match self {
            Variable::Copies => {
                let mut digits = Buffer::new();
                out.extend_from_slice(digits.format(values.copies).as_bytes())
            }
            Variable::Paper => out.extend_from_slice(values.size.name()),
            Variable::Orientation => out.extend_from_slice(values.orientation.name()),
            Variable::Duplex => out.extend_from_slice(values.duplex.name()),
            Variable::Binding => out.extend_from_slice(values.binding.name()),
            Variable::Resolution => out.extend_from_slice(values.resolution.name()),
        }
    }
}

/// The values of all variables after an assignment to one, if there is a variable of that name, which knows the value.
pub(crate) fn assigned(name: &[u8], text: &[u8], values: Defaults) -> Option<Defaults>
    ensures { result ≡ assigned name.now text.now values }
{
    Variable::of(name)?.assign(text, values)
}

/// Whether a text `NAME=VALUE` names a variable and a value that it knows, without white space round the two: what a line `@PJL SET` or
/// `@PJL DEFAULT` of it has effect by.
///
/// Source: PJL Technical Reference Manual, environment variables.
pub fn is_assignment(text: &[u8]) -> bool
    ensures { result ≡ is_assignment text.now }
{
    let (name, value) = pjl::split_name(text);
    assigned(name, value, Defaults::factory()).is_some()
}
