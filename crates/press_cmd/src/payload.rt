//! The bytes of commands, each with the range that it has.

ghost use Rattle.std.specs.Prelude.{◌≡◌, ◌<◌, length, IsTrue};
ghost use Rattle.std.specs.Option.{ForSome};
ghost use Rattle.press_units.specs.Value.{tenthousandths_of, is_signed};
ghost use Rattle.press_cmd.specs.Token.{uel, bytes_of, param_of, broken_of};
ghost use Rattle.press_cmd.specs.Carried.{data_count};
ghost use Rattle.press_units.specs.Field.{is_value_field};
ghost use Rattle.press_cmd.specs.Grammar.{IsEscapeEnd, IsControl, IsText, IsCharacter, IsGroup, IsEnd, IsPjlLine, IsBroken};

use press_units::{Value, read_value};

/// The second byte of a two-character escape sequence, 48 to 126.
#[derive(Clone, Copy, Debug)]
pub struct EscapeByte {
    pub byte: u8,
    ghost class: { IsEscapeEnd byte },
}

/// A control byte, 0 to 31 without the escape character.
#[derive(Clone, Copy, Debug)]
pub struct ControlByte {
    pub byte: u8,
    ghost class: { IsControl byte },
}

/// A text byte, 32 to 255.
#[derive(Clone, Copy, Debug)]
pub struct TextByte {
    pub byte: u8,
    ghost class: { IsText byte },
}

/// A parameter of a parameterized escape sequence: its parameterized character, its group character if it has one, its
/// value field as it stands, its parameter or termination character in upper case (`end`), and its data.
#[derive(Clone, Copy, Debug)]
pub struct Param<'a> {
    pub(crate) character: u8,
    pub(crate) group: Option<u8>,
    pub(crate) end: u8,
    pub(crate) field: &'a [u8],
    pub(crate) payload: &'a [u8],
    ghost character_class: { IsCharacter character },
    ghost group_class: { ForSome group IsGroup },
    ghost value_field: { IsTrue (is_value_field field.now) },
    ghost end_class: { IsEnd end },
    ghost count: { length payload.now ≡ data_count character group field.now end },
    ghost no_exit: { bytes_of (param_of character group field.now end payload.now) ≡ uel → ⊥ },
}

/// Bytes that begin a sequence or a line which does not go on. Where a command of the same sequence stood before
/// them, its parameterized character and its group character stand beside the bytes, which then follow the group
/// character.
#[derive(Clone, Copy, Debug)]
pub struct Broken<'a> {
    pub(crate) sequence: Option<(u8, u8)>,
    pub(crate) bytes: &'a [u8],
    ghost broken: { ∥ IsBroken (bytes_of (broken_of sequence bytes.now)) ∥₁ },
}

/// A PJL line with its line feed, of at most 4,096 bytes.
#[derive(Clone, Copy, Debug)]
pub struct PjlLine<'a> {
    pub bytes: &'a [u8],
    ghost line: { ∥ IsPjlLine bytes.now ∥₁ },
}

impl EscapeByte {
    /// The second byte of a two-character escape sequence. `is_escape_end` is the test.
    pub fn new(byte: u8) -> Self
        requires { IsEscapeEnd byte }
        ensures { result.byte ≡ byte }
    {
        EscapeByte { byte }
    }
}

impl ControlByte {
    /// A control byte. `is_control` is the test.
    pub fn new(byte: u8) -> Self
        requires { IsControl byte }
        ensures { result.byte ≡ byte }
    {
        ControlByte { byte }
    }
}

impl TextByte {
    /// A text byte. `is_text` is the test.
    pub fn new(byte: u8) -> Self
        requires { IsText byte }
        ensures { result.byte ≡ byte }
    {
        TextByte { byte }
    }
}

impl<'a> Param<'a> {
    ghost use Rattle.press_cmd.specs.View.{param_token};
    ghost use Rattle.press_cmd.specs.Token.{field_of, data_of, character_of, group_of, end_of};

    /// A parameter of these parts. `is_character`, `is_group`, `is_end`, `data_count`, `spells_exit` and `is_field` of
    /// press_units are the tests.
    pub fn new(
        character: u8,
        group: Option<u8>,
        field: &'a [u8],
        end: u8,
        payload: &'a [u8],
    ) -> Self
        requires character_class { IsCharacter character }
        requires group_class { ForSome group IsGroup }
        requires value_field { IsTrue (is_value_field field.now) }
        requires end_class { IsEnd end }
        requires count { length payload.now ≡ data_count character group field.now end }
        requires no_exit { bytes_of (param_of character group field.now end payload.now) ≡ uel → ⊥ }
        ensures { param_token result ≡ param_of character group field.now end payload.now }
    {
        Param {
            character,
            group,
            end,
            field,
            payload,
        }
    }

    /// The parameterized character, 33 to 47.
    pub fn character(&self) -> u8
        ensures { result ≡ character_of (param_token self.now) }
    {
        self.character
    }

    /// The group character, 96 to 126, if there is one.
    pub fn group(&self) -> Option<u8>
        ensures { result ≡ group_of (param_token self.now) }
    {
        self.group
    }

    /// The value field as it stands, of at most 32 bytes.
    pub fn field(&self) -> &'a [u8]
        ensures { result.now ≡ field_of (param_token self.now) }
    {
        self.field
    }

    /// The number that the value field stands for.
    pub fn value(&self) -> Value
        ensures value { result.tenthousandths
            ≡ tenthousandths_of (field_of (param_token self.now)) }
        ensures signed { result.signed ≡ is_signed (field_of (param_token self.now)) }
    {
        read_value(self.field)
    }

    /// The parameter or termination character in upper case, 64 to 94.
    pub fn end(&self) -> u8
        ensures { result ≡ end_of (param_token self.now) }
    {
        self.end
    }

    /// The data, of as many bytes as the value says where the parameter carries data, else empty.
    pub fn data(&self) -> &'a [u8]
        ensures { result.now ≡ data_of (param_token self.now) }
    {
        self.payload
    }
}

impl<'a> Broken<'a> {
    ghost use Rattle.press_cmd.specs.View.{broken_token};

    /// Bytes that do not go on, after the parameterized character and the group character of the sequence that they
    /// would go on with.
    pub fn new(sequence: Option<(u8, u8)>, bytes: &'a [u8]) -> Self
        requires { IsBroken (bytes_of (broken_of sequence bytes.now)) }
        ensures { broken_token result ≡ broken_of sequence bytes.now }
    {
        Broken { sequence, bytes }
    }

    /// The parameterized character and the group character of the sequence, where a command of it stood before, and the
    /// bytes that follow them; without a sequence all bytes.
    pub fn parts(&self) -> (Option<(u8, u8)>, &'a [u8])
        ensures { broken_of result.0 result.1.now ≡ broken_token self.now }
    {
        (self.sequence, self.bytes)
    }
}

impl<'a> PjlLine<'a> {
    /// A PJL line with its line feed. `is_line` is the test.
    pub fn new(bytes: &'a [u8]) -> Self
        requires { IsPjlLine bytes.now }
        ensures { result.bytes.now ≡ bytes.now }
    {
        PjlLine { bytes }
    }
}
