//! The sink that makes an output for each side of the sheets of entries (Netpbm, the raw form of the PBM format).
ghost use Rattle.std.specs.Prelude.{◌≡◌, ◌≢◌, ◌∷◌, ◌++◌, [], true, List, IfErr, IfOk, OnErr, OnOk, length};
ghost use Rattle.std.specs.String.{string_bytes};
ghost use Rattle.press_sink.specs.Outputs.{MakesOutputs, sheet_outputs};
ghost use Rattle.press_sink.specs.Template.{side_name};
ghost use Rattle.press_sink.specs.declared.delivery.Delivery.{Delivery};
ghost use Rattle.press_files.specs.EntryPages.{KeepsPages, MakesPages, outputs_by, page_output, parts_in};
ghost use Rattle.press_files.specs.EntrySheets.{deliveries_in, lists_sums};
ghost use Rattle.press_files.specs.EntryTemplate.{entry_parts, names_of};

use crate::entry_sheets::EntrySheets;
use crate::entry_template::EntryTemplate;
use crate::listed_sheet::ListedSheet;
use crate::page_lines::page_lines;
use press_bits::{Bitmap, Sheet};
use press_sink::{NamedOutputs, SheetSink, SinkError, write_page};
use std::alloc::{AllocError, Global};
use std::marker::{Brand, PhantomData};

/// Where the sides of the sheets of entries go: the parts of the template of their names, what was made before, whether bytes of outputs
/// waited before, and whether sums are listed. It stands in proofs alone; that of a call says which it is.
pub trait EntryFolder {
    ghost use Rattle.std.specs.Prelude.{Bool, List, Option};
    ghost use Rattle.press_sink.specs.Outputs.{MadeOutput};
    ghost use Rattle.press_files.specs.EntryTemplate.{EntryParts};

    ghost parts: { Option EntryParts };

    ghost begun: { Option (List MadeOutput) };

    ghost waits: { Bool };

    ghost sums: { Bool };
}

impl EntryFolder for Brand {
    ghost use Rattle.std.specs.Prelude.{None, false};

    ghost parts = { None };

    ghost begun = { None };

    ghost waits = { false };

    ghost sums = { false };
}

/// A sheet sink that makes an output of its own for each side of the sheets of entries, a P4 file, where it has a template of their names.
/// It keeps of each sheet what the listing tells. After the first output that could not be made or written it takes no sheet more.
///
/// Source: Netpbm, the raw form of the PBM format; the names are this profile's.
#[derive(Drop)]
pub struct EntryPages<O: NamedOutputs, D: EntryFolder> {
    alloc: Global,
    outputs: O,
    template: Option<EntryTemplate>,
    sheets: EntrySheets,
    faults: u64,
    of: PhantomData<D>,
    ghost keeps: { ∥ KeepsPages D.parts D.begun (deliveries_in sheets) faults
        (parts_in template) (O.made outputs) ∥₁ },
    ghost summed: { lists_sums sheets ≡ D.sums },
    ghost cause: { faults ≢ 0 → O.failed outputs ≡ true },
    ghost through: { faults ≡ 0 → O.waiting outputs ≡ D.waits },
}

impl<O: NamedOutputs + Drop, D: EntryFolder> EntryPages<O, D> {
    ghost use Rattle.std.specs.Prelude.{◌<◌, None};
    ghost use Rattle.press_sink.specs.SinkLog.{Delivers, most_faults};
    ghost use Rattle.press_files.specs.EntryPages.{page_lines, pages_told};
    ghost use Rattle.press_files.specs.PagesKept.{deliveries_of, faults_of, kept_sheets};
    ghost use Rattle.press_files.specs.Listed.{delivery_of};

    /// A sink that took nothing yet, which makes its outputs by this template, where there is one.
    pub fn new(alloc: Global, outputs: O, template: Option<EntryTemplate>, sums: bool) -> Self
        requires parts { parts_in template ≡ D.parts }
        requires begun { O.made outputs ≡ D.begun }
        requires waits { O.waiting outputs ≡ D.waits }
        requires sums { sums ≡ D.sums }
        ensures deliveries { deliveries_of result ≡ [] }
        ensures sound { faults_of result ≡ 0 }
    {
        EntryPages {
            alloc,
            outputs,
            template,
            sheets: EntrySheets::new(alloc, sums),
            faults: 0,
            of: PhantomData,
        }
    }

    /// Notes an input by its name, so that no output replaces it.
    ///
    /// # Errors
    ///
    /// Where there is no memory to note it.
    pub fn spare(&mut self, input: &str) -> Result<(), AllocError>
        ensures deliveries { deliveries_of self.new ≡ deliveries_of self.old }
        ensures sound { faults_of self.new ≡ faults_of self.old }
    {
        if self.template.is_none() {
            return Ok(());
        }
        self.outputs.spare(input)
    }

    /// What it keeps of the sheets that it took.
    pub fn sheets(&self) -> &EntrySheets
        ensures sheets { result.now ≡ kept_sheets self.now }
        ensures sums { lists_sums result.now ≡ D.sums }
    {
        &self.sheets
    }

    /// The lines of the sides that were made of the sheets behind the first so many; none without a template.
    ///
    /// # Errors
    ///
    /// Where memory ran out.
    pub fn lines_behind(&self, count: usize) -> Result<Vec<u8>, AllocError>
        ensures { IfOk result (λ lines. (before behind : List Delivery)
            → deliveries_of self.now ≡ before ++ behind → length before ≡ count
            → lines.items ≡ page_lines D.parts before behind) }
    {
        match &self.template {
            Some(template) => page_lines(self.alloc, template, self.sheets.sheets(), count),
            None => Ok(Vec::new(self.alloc)),
        }
    }

    /// Where its outputs were made.
    pub fn into_outputs(self) -> O
        ensures makes { ∥ MakesPages D.parts (deliveries_of self) (faults_of self)
            D.begun (O.made result) ∥₁ }
        ensures cause { faults_of self ≢ 0 → O.failed result ≡ true }
        ensures through { faults_of self ≡ 0 → O.waiting result ≡ D.waits }
        ensures unmade { D.parts ≡ None → O.made result ≡ D.begun }
    {
        let EntryPages { outputs, .. } = self;
        outputs
    }

    /// Makes the outputs of a sheet, and keeps what the listing tells of it. Room for that is made before the first output is.
    fn take(&mut self, tag: u64, listed: ListedSheet, sheet: &Sheet) -> Result<(), SinkError>
        requires faults { faults_of self.old < most_faults }
        requires sums { listed.sums ≡ D.sums }
        requires listed { delivery_of listed ≡ record { tag = tag; sheet = sheet.now } }
        ensures delivers { Delivers (pages_told (deliveries_of self.old) (faults_of self.old))
            (record { tag = tag; sheet = sheet.now }) result
            (pages_told (deliveries_of self.new) (faults_of self.new)) }
    {
        if self.faults > 0 {
            self.faults += 1;
            return Err(SinkError::SinkFault);
        }
        let Ok(()) = self.sheets.reserve() else {
            return Err(SinkError::NoMemory);
        };
        let number = self.sheets.next_side(tag);
        let (outputs, template) = (&mut self.outputs, &self.template);
        match make_by(self.alloc, outputs, template, tag, number, sheet) {
            Ok(()) => {
                self.sheets.put(listed);
                Ok(())
            }
            Err(SinkError::SinkFault) => {
                self.faults += 1;
                Err(SinkError::SinkFault)
            }
            Err(SinkError::NoMemory) => Err(SinkError::NoMemory),
        }
    }
}

/// Makes the outputs of the sides of a sheet of an entry, where there is a template. Its front has this number.
fn make_by<O: NamedOutputs>(
    alloc: Global,
    outputs: &mut O,
    template: &Option<EntryTemplate>,
    entry: u64,
    number: u64,
    sheet: &Sheet,
) -> Result<(), SinkError>
    ensures made { MakesOutputs result (outputs_by (parts_in template.now) entry number sheet.now)
        (O.made outputs.old) (O.made outputs.new) }
    ensures through { OnOk result (O.waiting outputs.new ≡ O.waiting outputs.old) }
    ensures unmade { IfErr result (λ error. error ≡ SinkError.NoMemory
        → O.waiting outputs.new ≡ O.waiting outputs.old) }
    ensures cause { IfErr result (λ error.
        error ≡ SinkError.SinkFault → O.failed outputs.new ≡ true) }
{
    match template {
        Some(template) => make_sides(alloc, outputs, template, entry, number, sheet),
        None => Ok(()),
    }
}

/// Makes the outputs of the sides of a sheet of an entry, the front's before the back's. Room for their names is made before the first is.
fn make_sides<O: NamedOutputs>(
    alloc: Global,
    outputs: &mut O,
    template: &EntryTemplate,
    entry: u64,
    number: u64,
    sheet: &Sheet,
) -> Result<(), SinkError>
    ensures made { MakesOutputs result
        (sheet_outputs (names_of (entry_parts template.now) entry) number sheet.now)
        (O.made outputs.old) (O.made outputs.new) }
    ensures through { OnOk result (O.waiting outputs.new ≡ O.waiting outputs.old) }
    ensures unmade { IfErr result (λ error. error ≡ SinkError.NoMemory
        → O.waiting outputs.new ≡ O.waiting outputs.old) }
    ensures cause { IfErr result (λ error.
        error ≡ SinkError.SinkFault → O.failed outputs.new ≡ true) }
{
    let front = name_in(alloc, template, entry, number)?;
    let Some(page) = &sheet.back else {
        return make_side(outputs, &front, &sheet.front);
    };
    let back = name_in(alloc, template, entry, number.saturating_add(1))?;
    make_side(outputs, &front, &sheet.front)?;
    make_side(outputs, &back, page)
}

/// The name of a side of an entry.
fn name_in(
    alloc: Global,
    template: &EntryTemplate,
    entry: u64,
    number: u64,
) -> Result<String, SinkError>
    ensures name { IfOk result (λ name. string_bytes name
        ≡ side_name (names_of (entry_parts template.now) entry) number) }
    ensures memory { IfErr result (λ error. error ≡ SinkError.NoMemory) }
{
    match template.name(alloc, entry, number) {
        Ok(name) => Ok(name),
        Err(_) => Err(SinkError::NoMemory),
    }
}

/// Makes the output of a side.
fn make_side<O: NamedOutputs>(outputs: &mut O, name: &str, page: &Bitmap) -> Result<(), SinkError>
    ensures made { MakesOutputs result (page_output name.now page.now ∷ [])
        (O.made outputs.old) (O.made outputs.new) }
    ensures fault { IfErr result (λ error. error ≡ SinkError.SinkFault) }
    ensures through { OnOk result (O.waiting outputs.new ≡ O.waiting outputs.old) }
    ensures stays { O.failed outputs.old ≡ true → O.failed outputs.new ≡ true }
    ensures cause { OnErr result (O.failed outputs.new ≡ true) }
{
    match write_page(outputs, name, page) {
        Ok(()) => Ok(()),
        Err(_) => Err(SinkError::SinkFault),
    }
}

impl<O: NamedOutputs + Drop, D: EntryFolder> SheetSink for EntryPages<O, D> {
    ghost use Rattle.press_files.specs.EntryPages.{pages_told};
    ghost use Rattle.press_files.specs.PagesKept.{deliveries_of, faults_of};

    ghost told = { λ sink. pages_told (deliveries_of sink) (faults_of sink) };

    fn faults(&self) -> u64 {
        self.faults
    }

    fn deliver(&mut self, tag: u64, sheet: &Sheet) -> Result<(), SinkError> {
        let pages = &*self;
        let listed = pages.sheets.listed(tag, sheet);
        self.take(tag, listed, sheet)
    }

    fn deliver_again(&mut self, tag: u64, sheet: &Sheet) -> Result<(), SinkError> {
        let pages = &*self;
        let listed = pages.sheets.listed_again(tag, sheet);
        self.take(tag, listed, sheet)
    }
}
