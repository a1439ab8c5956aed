//! The page that is open at a step of a stream, made an output.
ghost use Rattle.std.specs.Prelude.{◌≡◌, true, IfOk, IfErr, IfSome, OnOk};
ghost use Rattle.press_devices.specs.Reading.{ReadFails};
ghost use Rattle.press_files.specs.Causes.{failures};
ghost use Rattle.press_files.specs.Change.{change};
ghost use Rattle.press_forms.specs.Causes.{PageCause};
ghost use Rattle.press_table.specs.Closing.{page_now};
ghost use Rattle.press_table.specs.Place.{blank_page};
ghost use Rattle.press_forms.specs.Ends.{Paging};
ghost use Rattle.press_forms.specs.Paging.{IsUnpaged, MakesPage, PagedBehind, StandsIn, StopsPaging};
ghost use Rattle.press_forms.specs.declared.paging.PagingError.{PagingError};

use press_bits::{Bitmap, BlankError};
use press_debug::place_laws::places;
use press_debug::{OpenError, Stepper, Taken};
use press_devices::{ReadDevice, Teller, WriteDevice, report};
use press_files::{Around, Devices, InputError, Platform};
use press_page::PageSetup;
use press_pbm::{WRITE_FAULT, WritePbmError};
use press_sink::{NamedOutputs, write_page};
use press_units::ToldFault;
use std::alloc::{AllocError, Global};
use std::error::Error;
use std::fmt;

/// Why no page was made an output.
#[derive(Debug, Drop)]
pub enum PagingError {
    /// The stream was not read to its end.
    Input(InputError),
    /// The output cannot be made or written.
    WriteFault,
    NoMemory,
}

impl fmt::Display for PagingError {
    ghost use Rattle.press_forms.specs.Faults.{told_of_page};

    ghost output = { told_of_page };

    fn fmt<W: fmt::Write>(&self, f: &mut fmt::Formatter<W>) -> fmt::Result {
        match self {
            PagingError::Input(error) => write!(f, "{error}"),
            PagingError::WriteFault => write!(f, "{}", ToldFault(Some(WRITE_FAULT))),
            PagingError::NoMemory => write!(f, "{}", ToldFault(None)),
        }
    }
}

impl Error for PagingError {}

impl From<OpenError> for PagingError {
    ghost use Rattle.std.specs.Prelude.{◌≡◌};
    ghost use Rattle.press_forms.specs.Paging.{unopened};

    ghost from_gives = { λ fault error. error ≡ unopened fault };

    fn from(fault: OpenError) -> PagingError {
        match fault {
            OpenError::ReadFault => PagingError::Input(InputError::ReadFault),
            OpenError::NoMemory => PagingError::NoMemory,
        }
    }
}

impl From<AllocError> for PagingError {
    ghost use Rattle.std.specs.Prelude.{◌≡◌};
    ghost use Rattle.press_forms.specs.declared.paging.PagingError.TheVariants.{NoMemory};

    ghost from_gives = { λ _ error. error ≡ NoMemory };

    fn from(_error: AllocError) -> PagingError {
        PagingError::NoMemory
    }
}

impl From<WritePbmError> for PagingError {
    ghost use Rattle.std.specs.Prelude.{◌≡◌};
    ghost use Rattle.press_forms.specs.declared.paging.PagingError.TheVariants.{WriteFault};

    ghost from_gives = { λ _ error. error ≡ WriteFault };

    fn from(_error: WritePbmError) -> PagingError {
        PagingError::WriteFault
    }
}

/// That a stream ends behind so many steps, as it is told.
#[derive(Drop)]
struct EndsBehind(u64);

impl fmt::Display for EndsBehind {
    ghost use Rattle.std.specs.Prelude.{Some};
    ghost use Rattle.press_forms.specs.Paging.{end_text};

    ghost output = { λ end. Some (end_text end.0) };

    fn fmt<W: fmt::Write>(&self, f: &mut fmt::Formatter<W>) -> fmt::Result {
        let taken = self.0;
        writeln!(f, "the stream ends behind step {taken}")
    }
}

/// Makes the output of this name, the P4 file of the page that is open behind so many table steps of the stream that a reader has:
/// blank where no mark was made. Where the stream has fewer steps it is the page behind the last, and standard error is told how many there
/// are. A fault is told there, too. The answer is the status: 0, or 1 after a fault.
///
/// Source: PCL 5 Printer Language Technical Reference Manual, The PCL Print Model; Netpbm, the raw form of the PBM format.
pub fn page_file<R: ReadDevice, P: Platform>(
    alloc: Global,
    steps: u64,
    name: &str,
    reader: &mut R,
    devices: &mut Devices<P>,
) -> u8
    ensures inputs { devices.new.inputs ≡ devices.old.inputs }
    ensures out { devices.new.out ≡ devices.old.out }
    ensures through { result ≡ 0
        → P.Outputs.waiting devices.new.outputs ≡ P.Outputs.waiting devices.old.outputs }
    ensures pages { ⟦<Devices<P> as Around<R>>⟧.holds (Paging steps name.now)
        result reader.old reader.new devices.old devices.new }
{
    match make_page(alloc, reader, steps, &mut devices.outputs, name) {
        Ok(taken) => {
            if taken < steps {
                devices.err.tell(&EndsBehind(taken));
            }
            0
        }
        Err(error) => report(&error, &mut devices.err),
    }
}

/// Makes the output of this name of the stream that a reader has. The answer is how many steps were taken.
fn make_page<R: ReadDevice, O: NamedOutputs>(
    alloc: Global,
    reader: &mut R,
    steps: u64,
    outputs: &mut O,
    name: &str,
) -> Result<u64, PagingError>
    ensures ok { IfOk result (PagedBehind steps name.now (R.remaining reader.old)
        (R.remaining reader.new) (O.made outputs.old) (O.made outputs.new)) }
    ensures through { OnOk result (O.waiting outputs.new ≡ O.waiting outputs.old) }
    ensures err { IfErr result (λ why. StopsPaging steps name.now (R.remaining reader.old)
        (R.remaining reader.new)
        (change (O.made outputs.old) (O.made outputs.new)) why) }
    ensures cause { IfErr result (PageCause
        (failures (ReadFails (R.failed reader.new) (R.reads reader.new))
        ⊥ ⊥ (O.failed outputs.new ≡ true))) }
{
    let stands = behind_steps(alloc, reader, steps)?;
    write_open_page(alloc, &stands.stepper, outputs, name)?;
    Ok(stands.taken)
}

/// A stream behind some of its steps, and how many were taken.
#[derive(Drop)]
struct StandingStream {
    stepper: Stepper,
    taken: u64,
}

/// The stream that a reader has, of which so many steps were taken, or all where it has fewer.
fn behind_steps<R: ReadDevice>(
    alloc: Global,
    reader: &mut R,
    steps: u64,
) -> Result<StandingStream, PagingError>
    ensures stands { IfOk result (λ stands. StandsIn
        (R.remaining reader.old) (R.remaining reader.new) steps stands.taken stands.stepper) }
    ensures err { IfErr result (IsUnpaged (ReadFails (R.failed reader.new) (R.reads reader.new))) }
{
    places();
    let mut stepper = Stepper::read(alloc, reader)?;
    for taken in 0..steps {
        match stepper.take() {
            Taken::Steps => {}
            Taken::Nothing => return Ok(StandingStream { stepper, taken }),
            Taken::Fault => return Err(PagingError::NoMemory),
        }
    }
    Ok(StandingStream {
        stepper,
        taken: steps,
    })
}

/// Makes the output of this name, the P4 file of the page that is open.
fn write_open_page<O: NamedOutputs>(
    alloc: Global,
    stepper: &Stepper,
    outputs: &mut O,
    name: &str,
) -> Result<(), PagingError>
    ensures makes { IfSome stepper.now.job.machine (λ machine.
        MakesPage (page_now machine.state) name.now result
        (O.made outputs.old) (O.made outputs.new)) }
    ensures through { OnOk result (O.waiting outputs.new ≡ O.waiting outputs.old) }
    ensures cause { IfErr result (λ why.
        why ≡ PagingError.WriteFault → O.failed outputs.new ≡ true) }
{
    match stepper.page() {
        Some(canvas) => match canvas.upright() {
            Some(page) => write_page(outputs, name, page)?,
            None => write_page(outputs, name, &canvas.page(alloc)?)?,
        },
        None => {
            let blank = blank_page(alloc, stepper.view().environment.page_setup)?;
            write_page(outputs, name, &blank)?;
        }
    }
    Ok(())
}

/// The blank physical page of the media.
#[tactic(auto, using(press_table::proofs::PlaceLemmas::media_fits))]
fn blank_page(alloc: Global, page_setup: PageSetup) -> Result<Bitmap, AllocError>
    ensures { IfOk result (λ page. page ≡ blank_page page_setup) }
{
    let page = page_setup.physical_page();
    match Bitmap::blank(alloc, page.width, page.height) {
        Ok(bitmap) => Ok(bitmap),
        Err(BlankError::NoMemory) => Err(AllocError),
        Err(BlankError::BadSize) => unreachable!(),
    }
}
