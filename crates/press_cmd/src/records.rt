//! Commands that are kept as bytes: records one after another, each the number of the command's variant, how many bytes the
//! command has, in four bytes, the highest first, and these bytes (PCL 5 Printer Language Technical Reference Manual,
//! Macros; the records are this profile's).

ghost use Rattle.std.specs.Prelude.{◌≡◌, ◌++◌, [], length, take, option_map, slice_get, OnOk, OnErr};
ghost use Rattle.press_cmd.specs.View.{token};
ghost use Rattle.press_cmd.specs.Records.{header_of, record_of, encoded, AreRecords};
ghost use Rattle.press_cmd.specs.RecordsOnce.{AreRecords-prop};

use crate::command::{Command, write_command};
use crate::storing::{bytes_count, stored, variant_number};
use byteorder::{BigEndian, ByteOrder};
use std::alloc::{AllocError, Global};
use std::marker::Model;

/// How many bytes stand in front of a command's bytes.
const HEADER: usize = 5;

/// Commands that are kept, in their order. Contracts see the commands.
#[derive(Drop)]
pub struct Records {
    bytes: Vec<u8>,
    /// The commands of the records.
    ghost records: { AreRecords bytes.items } by { AreRecords-prop _ },
}

impl Model for Records {
    ghost use Rattle.std.specs.Prelude.{List};
    ghost use Rattle.press_cmd.specs.Token.{Token};

    ghost Value = { List Token };

    ghost view = { λ r. r.records.commands };
}

impl Records {
    ghost use Rattle.std.specs.Prelude.{◌≤◌, ◌<◌, ◌^◌, ◌∷◌, drop, IfOk};
    ghost use Rattle.std.specs.List.{AllByRecursion};
    ghost use Rattle.press_cmd.specs.Stored.{IsSound};

    /// No command.
    pub fn new(alloc: Global) -> Self
        ensures { result ≡ [] }
    {
        Records {
            bytes: Vec::new(alloc),
        }
    }

    /// The allocator of the bytes.
    pub fn allocator(&self) -> Global {
        *self.bytes.allocator()
    }

    /// The records from this place on.
    pub(crate) fn from(&self, place: usize) -> &[u8]
        requires { place ≤ length (encoded self.now) }
        ensures from { result.now ≡ drop place (encoded self.now) }
        ensures few { length (encoded self.now) < 2 ^ 63 }
    {
        &self.bytes.as_slice()[place..]
    }

    /// Each command is sound.
    pub(crate) fn are_sound(&self)
        ensures { AllByRecursion IsSound self.now }
    {
        let _ = &self.bytes;
    }

    /// Keeps a command behind the others.
    ///
    /// # Errors
    ///
    /// Where memory ran out. Then nothing changed.
    pub fn push(&mut self, command: &Command) -> Result<(), AllocError>
        ensures pushed { OnOk result (self.new ≡ self.old ++ token command.now ∷ []) }
        ensures unchanged { OnErr result (self.new ≡ self.old) }
    {
        append_record(command, &mut self.bytes)
    }

    /// The same commands, in memory of their own.
    ///
    /// # Errors
    ///
    /// Where memory ran out.
    pub fn copy(&self) -> Result<Self, AllocError>
        ensures { IfOk result (λ records. records ≡ self.now) }
    {
        let bytes = Vec::from_slice(*self.bytes.allocator(), self.bytes.as_slice())?;
        Ok(Records { bytes })
    }
}

/// How many bytes the first of these records has, if there is one.
pub(crate) fn first_count(bytes: &[u8]) -> usize
    requires { AreRecords bytes.now }
    ensures { (records : AreRecords bytes.now)
        → result ≡ length (encoded (take 1 records.commands)) }
{
    if bytes.is_empty() {
        return 0;
    }
    HEADER + BigEndian::read_u32(&bytes[1..]) as usize
}

/// The command of the first of these records, if there is one; it has so many bytes.
pub(crate) fn first_command(bytes: &[u8], count: usize) -> Option<Command<'_>>
    requires records { AreRecords bytes.now }
    requires count { (records : AreRecords bytes.now)
        → count ≡ length (encoded (take 1 records.commands)) }
    ensures { (records : AreRecords bytes.now)
        → option_map token result ≡ slice_get records.commands 0 }
{
    if bytes.is_empty() {
        return None;
    }
    Some(stored(bytes[0], &bytes[HEADER..count]))
}

/// Appends the command's record. An error leaves the vector as it was.
fn append_record(command: &Command, out: &mut Vec<u8>) -> Result<(), AllocError>
    ensures ok { OnOk result (out.new.items ≡ out.old.items ++ record_of (token command.now)) }
    ensures err { OnErr result (out.new.items ≡ out.old.items) }
{
    let start = out.len();
    let appended = append(command, out);
    if appended.is_err() {
        out.truncate(start);
    }
    appended
}

/// Appends the command's record. An error leaves the vector longer, with its old front.
fn append(command: &Command, out: &mut Vec<u8>) -> Result<(), AllocError>
    ensures ok { OnOk result (out.new.items ≡ out.old.items ++ record_of (token command.now)) }
    ensures prefix { take (length out.old.items) out.new.items ≡ out.old.items }
{
    out.extend_from_slice(&header(command))?;
    write_command(command, out)
}

/// What stands in front of the command's bytes.
fn header(command: &Command) -> [u8; HEADER]
    ensures { result ≡ header_of (token command.now) }
{
    let mut header = [variant_number(command), 0, 0, 0, 0];
    BigEndian::write_u32(&mut header[1..], bytes_count(command) as u32);
    header
}
