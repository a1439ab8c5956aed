//! Value fields and their numbers (PCL 5 Printer Language Technical Reference Manual, the syntax of escape sequences).

ghost use Rattle.std.specs.Prelude.{◌≡◌, ◌<◌, ◌+◌, ◌-◌, ◌*◌, ◌≤ℤ◌, ◌↔◌, [], pos, neg_ℤ, min, position, unwrap_or, IsTrue};
ghost use Rattle.std.specs.List.{All, slice_index_or, before_first};
ghost use Rattle.std.specs.Char.{IsAsciiDigit};
ghost use Rattle.press_units.specs.Field.{IsField, is_value_field, is_point};
ghost use Rattle.press_units.specs.Value.{IsNumberOf, is_signed, sign_of, unsigned_part, fraction_of, with_sign};
ghost use Rattle.press_units.specs.Value.{tenthousandths_of, whole_part, number_of, four_digits, lowest, highest};

/// The most bytes that a value field has.
pub const LONGEST_FIELD: usize = 32;

/// The least value, -32767, by its magnitude.
const LEAST: u32 = 32_767;

/// The greatest value.
pub const GREATEST_VALUE: u32 = 65_535;

/// One above the greatest whole number that a value keeps.
const CEILING: u32 = GREATEST_VALUE + 1;

/// The number of a value field, in ten-thousandths, from -32767 to 65535, and whether a sign stood in it.
#[derive(Clone, Copy, Debug)]
pub struct Value {
    pub tenthousandths: i64,
    pub signed: bool,
    ghost at_least: { neg_ℤ (pos lowest) ≤ℤ tenthousandths },
    ghost at_most: { tenthousandths ≤ℤ pos highest },
}

impl Value {
    /// The whole part: the fraction is dropped, towards zero.
    pub fn whole(self) -> i64
        ensures { result ≡ whole_part self.tenthousandths }
    {
        self.tenthousandths / 10_000
    }
}

/// The sign at the front of a field, if one stands there, and what follows it.
fn split_sign(field: &[u8]) -> (Option<u8>, &[u8])
    ensures sign { result.0 ≡ sign_of field.now }
    ensures unsigned { result.1.now ≡ unsigned_part field.now }
{
    match field {
        [sign @ (b'+' | b'-'), unsigned @ ..] => (Some(*sign), unsigned),
        _ => (None, field),
    }
}

/// Where the first point stands.
fn point_of(unsigned: &[u8]) -> Option<usize>
    ensures { result ≡ position is_point unsigned.now }
{
    unsigned.iter().position(|byte| *byte == b'.')
}

/// What stands before the point, and what after it; all and nothing where there is no point.
fn split_point(unsigned: &[u8]) -> (&[u8], &[u8])
    ensures whole { result.0.now ≡ before_first is_point unsigned.now }
    ensures fraction { result.1.now ≡ unwrap_or (fraction_of unsigned.now) [] }
{
    match point_of(unsigned) {
        Some(point) => (&unsigned[..point], &unsigned[point + 1..]),
        None => (unsigned, &[]),
    }
}

/// The number that digits spell, or `CEILING` where it is not below that.
fn number_up_to_ceiling(digits: &[u8]) -> u32
    requires { All IsAsciiDigit digits.now }
    ensures { result ≡ min (number_of digits.now) CEILING }
{
    let mut number = 0;
    for digit in digits {
        number = (10 * number + u32::from(*digit - b'0')).min(CEILING);
    }
    number
}

/// The number of a digit of a fraction, which is 0 where none stands.
fn digit_at(digits: &[u8], place: usize) -> u32
    requires { All IsAsciiDigit digits.now }
    ensures { result ≡ slice_index_or digits.now place 48 - 48 }
{
    match digits.get(place) {
        Some(digit) => u32::from(*digit - b'0'),
        None => 0,
    }
}

/// The first four digits of a fraction as a number, those that are missing taken as 0.
fn first_four(digits: &[u8]) -> u32
    requires { All IsAsciiDigit digits.now }
    ensures value { result ≡ number_of (four_digits digits.now) }
    ensures bound { result < 10000 }
{
    if digits.is_empty() {
        return 0;
    }
    let thousands = digit_at(digits, 0);
    let hundreds = digit_at(digits, 1);
    let tens = digit_at(digits, 2);
    1000 * thousands + 100 * hundreds + 10 * tens + digit_at(digits, 3)
}

/// The number with its sign, cut to the least and the greatest value.
fn with_sign(sign: Option<u8>, magnitude: u32) -> i64
    ensures { result ≡ with_sign sign magnitude }
{
    if sign == Some(b'-') {
        -i64::from(magnitude.min(10_000 * LEAST))
    } else {
        i64::from(magnitude.min(10_000 * GREATEST_VALUE))
    }
}

/// Whether all bytes are digits.
fn are_digits(bytes: &[u8]) -> bool
    ensures { IsTrue result ↔ All IsAsciiDigit bytes.now }
{
    bytes.iter().all(|byte| byte.is_ascii_digit())
}

/// Whether the bytes are a value field: an optional sign, digits, and an optional point with digits, each of
/// which may be empty, in at most 32 bytes.
pub fn is_field(bytes: &[u8]) -> bool
    ensures field { IsTrue result ↔ IsField bytes.now }
    ensures test { result ≡ is_value_field bytes.now }
{
    if LONGEST_FIELD < bytes.len() {
        return false;
    }
    let (_, unsigned) = split_sign(bytes);
    let (whole, fraction) = split_point(unsigned);
    are_digits(whole) && are_digits(fraction)
}

/// Reads a value field: the number it stands for, in ten-thousandths, cut to -32767 and 65535, and whether a
/// sign stood in it. Digits past the fourth of a fraction are dropped, and an empty field is 0.
///
/// Source: PCL 5 Printer Language Technical Reference Manual, the value field of a parameterized command;
/// the kept digits and the limits are this profile's.
pub fn read_value(field: &[u8]) -> Value
    requires { IsField field.now }
    ensures value { result.tenthousandths ≡ tenthousandths_of field.now }
    ensures signed { result.signed ≡ is_signed field.now }
    ensures parts { IsNumberOf field.now result.tenthousandths result.signed }
{
    let (sign, unsigned) = split_sign(field);
    let (whole, fraction) = split_point(unsigned);
    let magnitude = 10_000 * number_up_to_ceiling(whole) + first_four(fraction);
    Value {
        tenthousandths: with_sign(sign, magnitude),
        signed: sign.is_some(),
    }
}
