//! How the tables spell a stream and its numbers.
use std::alloc::Global;
use std::test::Fail;

/// A line of a table: a stream, and the numbers that it gives.
#[derive(Drop)]
pub struct Row<'a> {
    pub line: &'a str,
    pub stream: Vec<u8>,
    pub numbers: Vec<i64>,
}

/// The number that a hexadecimal digit stands for.
fn digit(byte: u8) -> Result<u8, Fail> {
    let number = char::from(byte).to_digit(16).ok_or("no digit")?;
    Ok(number as u8)
}

/// The bytes of a stream, as the tables spell it.
fn bytes_of(alloc: Global, stream: &str) -> Result<Vec<u8>, Fail> {
    let mut bytes = Vec::new(alloc);
    let mut spelled = stream.bytes();
    let mut in_data = false;
    while let Some(byte) = spelled.next() {
        match byte {
            b'[' => in_data = true,
            b']' => in_data = false,
            first if in_data => {
                let second = spelled.next().ok_or("one digit")?;
                bytes.push(digit(first)? << 4 | digit(second)?)?;
            }
            b'^' => bytes.push(0x1B)?,
            b'<' => bytes.push(b'\r')?,
            b'|' => bytes.push(b'\n')?,
            b'~' => bytes.push(0x0C)?,
            other => bytes.push(other)?,
        }
    }
    Ok(bytes)
}

/// The stream and the numbers of a line.
fn row_of(alloc: Global, line: &str) -> Result<Row<'_>, Fail> {
    let mut words = line.split(' ');
    let stream = bytes_of(alloc, words.next().ok_or("no stream")?)?;
    let mut numbers = Vec::new(alloc);
    for word in words {
        if !word.is_empty() {
            numbers.push(word.parse::<i64>().ok().ok_or("no number")?)?;
        }
    }
    Ok(Row {
        line,
        stream,
        numbers,
    })
}

/// The lines of a table.
///
/// # Errors
///
/// Where a line is none of a table, or memory ran out.
pub(crate) fn rows_of(alloc: Global, table: &str) -> Result<Vec<Row<'_>>, Fail> {
    let mut rows = Vec::new(alloc);
    for line in table.lines() {
        rows.push(row_of(alloc, line)?)?;
    }
    Ok(rows)
}
