//! What is written of a stream in memory: its listing, the P4 files of its sides, its trace and its text.
ghost use Rattle.press_memory.specs.Settings.{BySettings};
ghost use Rattle.press_memory.specs.Written.{ListingOf, SumsOf, TextOf, TraceOf};

use crate::answer::Written;
use crate::around::in_memory;
use crate::ending::fault_after;
use crate::settings::prefix_in;
use press_devices::Watched;
use press_files::{print_list, print_sums};
use press_forms::{disasm_bytes, tell_trace};
use std::alloc::Global;
use std::io::Read;

/// The listing of a stream, by settings.
pub(crate) fn listing(alloc: Global, settings: &[u8], stream: &[u8]) -> Written
    ensures { BySettings settings.now (λ prefix. ListingOf prefix stream.now)
        result.fault result.bytes.items }
{
    match prefix_in(alloc, settings) {
        Ok(prefix) => listing_behind(alloc, &prefix, stream),
        Err(error) => Written::nothing(alloc, error.number()),
    }
}

/// The listing of a stream behind these bytes.
fn listing_behind(alloc: Global, prefix: &[u8], stream: &[u8]) -> Written
    ensures { ListingOf prefix.now stream.now result.fault result.bytes.items }
{
    let mut reader = Watched::new(stream);
    let mut devices = in_memory(alloc);
    let status = print_list(alloc, prefix, &mut reader, &mut devices);
    Written {
        fault: fault_after(status, &reader),
        bytes: devices.out.into_inner(),
    }
}

/// The listing of a stream with the SHA-256 of each side, by settings.
pub(crate) fn sums(alloc: Global, settings: &[u8], stream: &[u8]) -> Written
    ensures { BySettings settings.now (λ prefix. SumsOf prefix stream.now)
        result.fault result.bytes.items }
{
    match prefix_in(alloc, settings) {
        Ok(prefix) => sums_behind(alloc, &prefix, stream),
        Err(error) => Written::nothing(alloc, error.number()),
    }
}

/// The listing of a stream behind these bytes, with the SHA-256 of each side.
fn sums_behind(alloc: Global, prefix: &[u8], stream: &[u8]) -> Written
    ensures { SumsOf prefix.now stream.now result.fault result.bytes.items }
{
    let mut reader = Watched::new(stream);
    let mut devices = in_memory(alloc);
    let status = print_sums(alloc, prefix, &mut reader, &mut devices);
    Written {
        fault: fault_after(status, &reader),
        bytes: devices.out.into_inner(),
    }
}

/// The trace of a stream, by settings.
pub(crate) fn trace(alloc: Global, settings: &[u8], stream: &[u8]) -> Written
    ensures { BySettings settings.now (λ prefix. TraceOf prefix stream.now)
        result.fault result.bytes.items }
{
    match prefix_in(alloc, settings) {
        Ok(prefix) => trace_behind(alloc, &prefix, stream),
        Err(error) => Written::nothing(alloc, error.number()),
    }
}

/// The trace of a stream behind these bytes.
fn trace_behind(alloc: Global, prefix: &[u8], stream: &[u8]) -> Written
    ensures { TraceOf prefix.now stream.now result.fault result.bytes.items }
{
    let mut reader = Watched::new(prefix.chain(stream));
    let mut devices = in_memory(alloc);
    let status = tell_trace(alloc, &mut reader, &mut devices);
    Written {
        fault: fault_after(status, &reader),
        bytes: devices.out.into_inner(),
    }
}

/// The assembly text of a stream.
pub(crate) fn text(alloc: Global, stream: &[u8]) -> Written
    ensures { TextOf stream.now result.fault result.bytes.items }
{
    let mut reader = Watched::new(stream);
    let mut devices = in_memory(alloc);
    let status = disasm_bytes(alloc, &mut reader, &mut devices);
    Written {
        fault: fault_after(status, &reader),
        bytes: devices.out.into_inner(),
    }
}
