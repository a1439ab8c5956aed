//! Places in the header of a P4 file.
ghost use Rattle.std.specs.Prelude.{◌≡◌};
ghost use Rattle.press_pbm.specs.Header.{is_white_space, is_line_end};
ghost use Rattle.press_pbm.specs.Reading.{with_digit, place_in_gap, place_after, least_behind_gap, least_behind};

use press_bits::MAX_SIDE;

/// Which size comes next: the width, or the height behind this width.
#[derive(Clone, Copy)]
pub enum Side {
    Width,
    Height(u32),
}

/// How far a header was read. Sizes are cut to one above the greatest.
#[derive(Clone, Copy)]
pub enum Place {
    Start,
    /// Behind the `P`.
    Letter,
    /// Behind the `P4`.
    Magic,
    /// In the gap before a side.
    Gap(Side),
    /// In a comment before a side.
    Comment(Side),
    /// Behind a digit of a side, with the number so far.
    Number(Side, u32),
    /// At its end, with width and height.
    End(u32, u32),
}

fn is_white_space(byte: u8) -> bool
    ensures { result ≡ is_white_space byte }
{
    matches!(byte, 9..=13 | b' ')
}

fn is_line_end(byte: u8) -> bool
    ensures { result ≡ is_line_end byte }
{
    matches!(byte, b'\n' | b'\r')
}

/// The number with one more digit, cut to one above the greatest side.
fn with_digit(number: u32, digit: u8) -> u32
    ensures { result ≡ with_digit number digit }
{
    number
        .saturating_mul(10)
        .saturating_add(u32::from(digit.saturating_sub(b'0')))
        .min(MAX_SIDE + 1)
}

impl Side {
    /// The place behind a byte that begins a piece of the gap before this side.
    fn in_gap(self, byte: u8) -> Option<Place>
        ensures { result ≡ place_in_gap self byte }
    {
        if is_white_space(byte) {
            Some(Place::Gap(self))
        } else if byte == b'#' {
            Some(Place::Comment(self))
        } else {
            None
        }
    }

    /// How many bytes a header has at least behind the gap before this side.
    fn least_behind(self) -> u32
        ensures { result ≡ least_behind_gap self }
    {
        match self {
            Side::Width => 4,
            Side::Height(_) => 2,
        }
    }
}

impl Place {
    /// The place behind one more byte, if a header may have it there.
    pub fn after(self, byte: u8) -> Option<Place>
        ensures { result ≡ place_after self byte }
    {
        match self {
            Place::Start if byte == b'P' => Some(Place::Letter),
            Place::Letter if byte == b'4' => Some(Place::Magic),
            Place::Magic => Side::Width.in_gap(byte),
            Place::Gap(side) if byte.is_ascii_digit() => {
                Some(Place::Number(side, with_digit(0, byte)))
            }
            Place::Gap(side) => side.in_gap(byte),
            Place::Comment(side) if is_line_end(byte) => Some(Place::Gap(side)),
            Place::Comment(side) => Some(Place::Comment(side)),
            Place::Number(side, number) if byte.is_ascii_digit() => {
                Some(Place::Number(side, with_digit(number, byte)))
            }
            Place::Number(Side::Width, width) => Side::Height(width).in_gap(byte),
            Place::Number(Side::Height(width), height) if is_white_space(byte) => {
                Some(Place::End(width, height))
            }
            _ => None,
        }
    }

    /// How many bytes a header has at least behind this place.
    pub fn least_behind(self) -> u32
        ensures { result ≡ least_behind self }
    {
        match self {
            Place::Start => 7,
            Place::Letter => 6,
            Place::Magic => 5,
            Place::Gap(side) => side.least_behind(),
            Place::Comment(side) => side.least_behind() + 1,
            Place::Number(side, _) => side.least_behind() - 1,
            Place::End(..) => 0,
        }
    }
}
