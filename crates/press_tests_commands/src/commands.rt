//! Commands, their kinds and bytes.
use press_cmd::{
    Broken, Command, PJL_MARK, Param, bytes_count, carries_data, data_count, differs, is_character,
    is_control, is_end, is_escape_end, is_group, is_text, pjl, write_command,
};
use press_scan::is_broken;
use press_units::is_field;
use std::alloc::{AllocError, Global};
use std::test::Fail;

/// Whether these are the bytes of a command.
fn has_bytes(alloc: Global, command: &Command, bytes: &[u8]) -> Result<bool, AllocError> {
    let mut written = Vec::new(alloc);
    write_command(command, &mut written)?;
    Ok(written.as_slice() == bytes && bytes_count(command) == bytes.len())
}

#[test]
fn commands_are_written(rt: HostRuntime) -> Result<(), Fail> {
    let rows = Param::new(b'*', Some(b'b'), b"2", b'W', &[0x02, 0xF0]);
    let written = has_bytes(rt.alloc(), &Command::Param(rows), b"\x1B*b2W\x02\xF0")?;
    assert!(rt; is_broken(b"\x1B*p10"));
    let broken = Broken::new(None, b"\x1B*p10");
    assert!(rt; written && has_bytes(rt.alloc(), &Command::Broken(broken), b"\x1B*p10")?);
    Ok(())
}

/// Parameters, each with how many bytes of data follow it, if it carries data.
#[test]
fn counts_the_data_of_parameters(rt: HostRuntime) {
    let parameters: [(u8, Option<u8>, &[u8], u8, Option<usize>); 10] = [
        (b'*', Some(b'b'), b"2", b'W', Some(2)),
        (b'*', Some(b'b'), b"3", b'V', Some(3)),
        (b'&', Some(b'p'), b"5", b'X', Some(5)),
        (b'(', Some(b's'), b"4.9", b'W', Some(4)),
        (b'*', Some(b'b'), b"-2", b'W', Some(0)),
        (b'*', Some(b'b'), b"", b'W', Some(0)),
        (b'*', Some(b'b'), b"70000", b'W', Some(65_535)),
        (b'%', None, b"6", b'W', Some(6)),
        (b'*', Some(b'p'), b"10", b'X', None),
        (b'*', Some(b'p'), b"10", b'V', None),
    ];
    for (character, group, field, end, count) in parameters {
        assert!(rt; is_field(field));
        assert_eq!(rt; carries_data(character, group, end), count.is_some());
        assert_eq!(rt;
            data_count(character, group, field, end),
            count.unwrap_or(0)
        );
    }
}

/// Bytes, each with whether it is a parameterized character, a group character, a termination character, the end of
/// a two-character escape sequence, a control byte, and a text byte.
#[test]
fn tells_the_classes_of_bytes(rt: HostRuntime) {
    let bytes: [(u8, [bool; 6]); 14] = [
        (0x00, [false, false, false, false, true, false]),
        (0x1B, [false, false, false, false, false, false]),
        (0x1F, [false, false, false, false, true, false]),
        (b' ', [false, false, false, false, false, true]),
        (b'!', [true, false, false, false, false, true]),
        (b'/', [true, false, false, false, false, true]),
        (b'0', [false, false, false, true, false, true]),
        (b'@', [false, false, true, true, false, true]),
        (b'^', [false, false, true, true, false, true]),
        (b'_', [false, false, false, true, false, true]),
        (b'`', [false, true, false, true, false, true]),
        (b'~', [false, true, false, true, false, true]),
        (0x7F, [false, false, false, false, false, true]),
        (0xFF, [false, false, false, false, false, true]),
    ];
    for (byte, [character, group, end, escape_end, control, text]) in bytes {
        assert_eq!(rt; is_character(byte), character);
        assert_eq!(rt; is_group(byte), group);
        assert_eq!(rt; is_end(byte), end);
        assert_eq!(rt; is_escape_end(byte), escape_end);
        assert_eq!(rt; is_control(byte), control);
        assert_eq!(rt; is_text(byte), text);
    }
}

/// Bytes that may begin a PJL line, each with whether they differ from its mark, begin a line, and are one.
#[test]
fn tells_lines_from_other_bytes(rt: HostRuntime) {
    let cases: [(&[u8], bool, bool, bool); 7] = [
        (b"@PJL X\n", false, false, true),
        (b"@PJL X", false, true, false),
        (b"@PJL", false, true, false),
        (b"@PJ", false, false, false),
        (b"", false, false, false),
        (b"@PCL\n", true, false, false),
        (b"@PJL\x1B\n", false, false, false),
    ];
    for (bytes, other, begins, line) in cases {
        assert_eq!(rt; differs(&PJL_MARK, bytes), other);
        assert_eq!(rt; pjl::begins_line(bytes), begins);
        assert_eq!(rt; pjl::is_line(bytes), line);
    }
}
