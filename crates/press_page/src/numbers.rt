//! Numbers that commands are told, cut to a range or refused outside it.

ghost use Rattle.std.specs.Prelude.{◌≡◌, ◌<◌};
ghost use Rattle.press_page.specs.Numbers.{within, cut, below, above};

/// A number from 0 to the most.
pub fn within(most: u32, number: i64) -> Option<u32>
    ensures { result ≡ within most number }
{
    if number < 0 || number > i64::from(most) {
        None
    } else {
        Some(number as u32)
    }
}

/// A number cut to 0 and the most.
pub fn cut(most: u32, number: i64) -> u32
    ensures { result ≡ cut most number }
{
    if number < 0 {
        0
    } else if number > i64::from(most) {
        most
    } else {
        number as u32
    }
}

/// A number that is less than a limit.
pub fn below(limit: u32, number: u32) -> Option<u32>
    ensures { result ≡ below limit number }
{
    if number < limit { Some(number) } else { None }
}

/// A number that is greater than a limit.
pub fn above(limit: u32, number: u32) -> Option<u32>
    ensures { result ≡ above limit number }
{
    if limit < number { Some(number) } else { None }
}
