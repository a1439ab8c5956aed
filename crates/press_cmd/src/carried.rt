//! Which parameters carry data, and how much (PCL 5 Printer Language Technical Reference Manual, the transfer of raster
//! data, and transparent print data).

ghost use Rattle.std.specs.Prelude.{◌≡◌, ◌≤◌, ◌↔◌, true, IsTrue};
ghost use Rattle.std.specs.Option.{ForSome};
ghost use Rattle.press_units.specs.Field.{is_value_field};
ghost use Rattle.press_cmd.specs.Token.{uel, bytes_of, param_of};
ghost use Rattle.press_cmd.specs.Grammar.{IsGroup, IsEnd};
ghost use Rattle.press_cmd.specs.Carried.{carries_data, data_count, longest_data};

use press_units::read_value;

/// How many bytes of data a parameter carries: the whole part of its value, none where it is negative or where no
/// data is carried. At most 65,535.
///
/// Source: PCL 5 Printer Language Technical Reference Manual, the transfer of raster data, and transparent print data.
pub fn data_count(character: u8, group: Option<u8>, field: &[u8], end: u8) -> usize
    requires { is_value_field field.now ≡ true }
    ensures count { result ≡ data_count character group field.now end }
    ensures bound { result ≤ longest_data }
{
    if carries_data(character, group, end) {
        usize::try_from(read_value(field).whole()).unwrap_or(0)
    } else {
        0
    }
}

/// Whether a parameter of these characters carries data: under each termination or parameter character W, and under
/// those of `ESC*b#V` and `ESC&p#X`.
pub fn carries_data(character: u8, group: Option<u8>, end: u8) -> bool
    ensures { result ≡ carries_data character group end }
{
    match group {
        None => end == b'W',
        Some(group) => {
            end == b'W'
                || (character == b'*' && (group == b'b' && end == b'V'))
                || (character == b'&' && (group == b'p' && end == b'X'))
        }
    }
}

/// Whether a parameter of these parts spells the universal exit, which is no parameter.
pub fn spells_exit(character: u8, group: Option<u8>, field: &[u8], end: u8, payload: &[u8]) -> bool
    requires group_class { ForSome group IsGroup }
    requires end_class { IsEnd end }
    ensures { IsTrue result
        ↔ (bytes_of (param_of character group field.now end payload.now) ≡ uel) }
{
    group.is_none()
        && (character == b'%'
            && (end == b'X' && (field == b"-12345".as_slice() && payload.is_empty())))
}
