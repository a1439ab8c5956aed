//! The bytes that commands are known by (PCL 5 Printer Language Technical Reference Manual, the syntax of escape
//! sequences; PJL Technical Reference Manual, the universal exit).

ghost use Rattle.std.specs.Prelude.{◌≡◌, ◌↔◌, IsTrue};
ghost use Rattle.press_cmd.specs.Grammar.{IsEscapeEnd, IsControl, IsText, IsCharacter, IsGroup, IsEnd, differs};

/// The escape character.
pub const ESCAPE: u8 = 0x1B;

/// The line feed, which ends a PJL line.
pub const LINE_FEED: u8 = 0x0A;

/// The universal exit.
pub const UEL: [u8; 9] = *b"\x1B%-12345X";

/// The text that a PJL line begins with.
pub const PJL_MARK: [u8; 4] = *b"@PJL";

/// The most bytes that a PJL line has.
pub const LONGEST_LINE: usize = 4096;

/// Whether the byte ends a two-character escape sequence: 48 to 126.
pub fn is_escape_end(byte: u8) -> bool
    ensures { IsTrue result ↔ IsEscapeEnd byte }
{
    matches!(byte, 48..=126)
}

/// Whether the byte is a control byte: 0 to 31 without the escape character.
pub fn is_control(byte: u8) -> bool
    ensures { IsTrue result ↔ IsControl byte }
{
    byte < 32 && byte != ESCAPE
}

/// Whether the byte is a text byte: 32 to 255.
pub fn is_text(byte: u8) -> bool
    ensures { IsTrue result ↔ IsText byte }
{
    32 <= byte
}

/// Whether the byte is a parameterized character, the second byte of a parameterized escape sequence: 33 to 47.
pub fn is_character(byte: u8) -> bool
    ensures { IsTrue result ↔ IsCharacter byte }
{
    matches!(byte, 33..=47)
}

/// Whether the byte is a group character, the third byte of most parameterized escape sequences: 96 to 126.
pub fn is_group(byte: u8) -> bool
    ensures { IsTrue result ↔ IsGroup byte }
{
    matches!(byte, 96..=126)
}

/// Whether the byte is a termination character, which ends a parameterized escape sequence: 64 to 94. A parameter
/// character, which ends a parameter and lets the sequence go on, stands 32 above the termination character.
pub fn is_end(byte: u8) -> bool
    ensures { IsTrue result ↔ IsEnd byte }
{
    matches!(byte, 64..=94)
}

/// Whether the bytes differ from the text at a place that both have.
pub fn differs(text: &[u8], bytes: &[u8]) -> bool
    ensures { result ≡ differs text.now bytes.now }
{
    for (place, byte) in text.iter().enumerate() {
        match bytes.get(place) {
            None => return false,
            Some(other) if byte != other => return true,
            Some(_) => {}
        }
    }
    false
}
