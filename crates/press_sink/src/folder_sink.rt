//! The sink that makes an output for each side of a sheet (Netpbm, the raw form of the PBM format).
ghost use Rattle.std.specs.Prelude.{◌≡◌, ◌≢◌, true};
ghost use Rattle.press_sink.specs.Template.{side_count};

use crate::fault::{SinkError, TemplateError};
use crate::named_outputs::NamedOutputs;
use crate::side::{Side, make_side};
use crate::sink::SheetSink;
use crate::template::Template;
use press_bits::{Bitmap, Sheet};
use std::alloc::Global;

/// A sheet sink that makes an output of its own for each side, a P4 file, whose name is a template with the number of the side,
/// from 1 on, fronts before backs. It tells no list of sheets. It counts the sheets at which an output failed.
///
/// Source: Netpbm, the raw form of the PBM format; the names are this profile's.
#[derive(Drop)]
pub struct FolderSink<O: NamedOutputs> {
    outputs: O,
    alloc: Global,
    template: Template,
    /// The number of the next side.
    number: u64,
    faults: u64,
    pub ghost cause: { faults ≢ 0 → O.failed outputs ≡ true },
}

/// Why no folder sink was opened, and where it would have made its outputs.
#[derive(Debug, Drop)]
pub struct Unopened<O> {
    pub error: TemplateError,
    pub outputs: O,
}

impl<O: NamedOutputs + Drop> FolderSink<O> {
    ghost use Rattle.std.specs.Prelude.{◌≡◌, true, IfOk, IfErr, IsErrAnd, OnOk};
    ghost use Rattle.press_sink.specs.Kept.{name_parts, next_number, file_faults, outputs_of, output_of_side};
    ghost use Rattle.press_sink.specs.Outputs.{side_output, sheet_outputs, MakesOutputs};
    ghost use Rattle.press_sink.specs.Template.{IsTemplate, IsNoTemplate};

    /// A sink that makes its outputs by this template.
    ///
    /// # Errors
    ///
    /// `BadTemplate` (121) exactly where `%d` does not stand in the template once, and else `NoMemory` where memory ran out. The
    /// outputs are handed back.
    pub fn open(alloc: Global, outputs: O, template: &str) -> Result<Self, Unopened<O>>
        ensures template { IfOk result (λ sink. IsTemplate template.now (name_parts sink)) }
        ensures outputs { IfOk result (λ sink. outputs_of sink ≡ outputs) }
        ensures first { IfOk result (λ sink. next_number sink ≡ 1) }
        ensures faults { IfOk result (λ sink. file_faults sink ≡ 0) }
        ensures bad { IfErr result (λ unopened.
            unopened.error ≡ TemplateError.BadTemplate → IsNoTemplate template.now) }
        ensures exact { IsNoTemplate template.now →
            IsErrAnd result (λ unopened. unopened.error ≡ TemplateError.BadTemplate) }
        ensures back { IfErr result (λ unopened. unopened.outputs ≡ outputs) }
    {
        match Template::of(alloc, template) {
            Ok(template) => Ok(FolderSink {
                outputs,
                alloc,
                template,
                number: 1,
                faults: 0,
            }),
            Err(error) => Err(Unopened { error, outputs }),
        }
    }

    /// Where its outputs were made.
    pub fn into_outputs(self) -> O
        ensures { result ≡ outputs_of self }
    {
        let FolderSink { outputs, .. } = self;
        outputs
    }

    /// A page as the side with this number.
    fn side<'a>(&self, number: u64, page: &'a Bitmap) -> Result<Side<'a>, SinkError>
        ensures output { IfOk result (λ side.
            output_of_side side ≡ side_output (name_parts self.now) number page.entry.now) }
        ensures memory { IfErr result (λ error. error ≡ SinkError.NoMemory) }
    {
        match self.template.name(self.alloc, number) {
            Ok(name) => Ok(Side { page, name }),
            Err(_) => Err(SinkError::NoMemory),
        }
    }

    /// Makes the outputs of a sheet, the front's before the back's. Room for their names is made before the first is.
    fn make_sheet(&mut self, sheet: &Sheet) -> Result<(), SinkError>
        ensures made { MakesOutputs result
            (sheet_outputs (name_parts self.old) (next_number self.old) sheet.now)
            (O.made (outputs_of self.old)) (O.made (outputs_of self.new)) }
        ensures template { name_parts self.new ≡ name_parts self.old }
        ensures number { next_number self.new ≡ next_number self.old }
        ensures faults { file_faults self.new ≡ file_faults self.old }
        ensures through { OnOk result
            (O.waiting (outputs_of self.new) ≡ O.waiting (outputs_of self.old)) }
        ensures unmade { IfErr result (λ error. error ≡ SinkError.NoMemory
            → O.waiting (outputs_of self.new) ≡ O.waiting (outputs_of self.old)) }
        ensures failed { O.failed (outputs_of self.old) ≡ true
            → O.failed (outputs_of self.new) ≡ true }
        ensures cause { IfErr result (λ error.
            error ≡ SinkError.SinkFault → O.failed (outputs_of self.new) ≡ true) }
    {
        let front = self.side(self.number, &sheet.front)?;
        let Some(page) = &sheet.back else {
            return make_side(&mut self.outputs, &front);
        };
        let back = self.side(self.number.saturating_add(1), page)?;
        make_side(&mut self.outputs, &front)?;
        make_side(&mut self.outputs, &back)
    }
}

/// How many sides of a sheet are printed.
fn count_sides(sheet: &Sheet) -> u64
    ensures { result ≡ side_count sheet.now }
{
    if sheet.back.is_some() { 2 } else { 1 }
}

impl<O: NamedOutputs + Drop> SheetSink for FolderSink<O> {
    ghost use Rattle.std.specs.Prelude.{◌≡◌, ◌<◌, true, IfErr, OnOk, OnErr};
    ghost use Rattle.press_sink.specs.Kept.{name_parts, next_number, file_faults, outputs_of};
    ghost use Rattle.press_sink.specs.Outputs.{sheet_outputs, MakesOutputs};
    ghost use Rattle.press_sink.specs.Template.{number_after, side_count};
    ghost use Rattle.press_sink.specs.SinkLog.{Delivers, most_faults, unlisted_log};

    ghost told = { λ sink. unlisted_log sink.faults };

    fn faults(&self) -> u64 {
        self.faults
    }

    /// Makes the outputs of the sides of the sheet. `SinkFault` (301): one could not be made or written; a prefix of them was
    /// made. Where the sheet is not delivered, the number of the next side stays.
    fn deliver(&mut self, _tag: u64, sheet: &Sheet) -> Result<(), SinkError>
        requires { file_faults self.old < most_faults }
        ensures delivers { Delivers (unlisted_log (file_faults self.old))
            (record { tag = _tag; sheet = sheet.now }) result
            (unlisted_log (file_faults self.new)) }
        ensures made { MakesOutputs result
            (sheet_outputs (name_parts self.old) (next_number self.old) sheet.now)
            (O.made (outputs_of self.old)) (O.made (outputs_of self.new)) }
        ensures template { name_parts self.new ≡ name_parts self.old }
        ensures numbers { OnOk result
            (next_number self.new ≡ number_after (side_count sheet.now) (next_number self.old)) }
        ensures stays { OnErr result (next_number self.new ≡ next_number self.old) }
        ensures through { OnOk result
            (O.waiting (outputs_of self.new) ≡ O.waiting (outputs_of self.old)) }
        ensures unmade { IfErr result (λ error. error ≡ SinkError.NoMemory
            → O.waiting (outputs_of self.new) ≡ O.waiting (outputs_of self.old)) }
        ensures failed { O.failed (outputs_of self.old) ≡ true
            → O.failed (outputs_of self.new) ≡ true }
        ensures cause { IfErr result (λ error.
            error ≡ SinkError.SinkFault → O.failed (outputs_of self.new) ≡ true) }
    {
        match self.make_sheet(sheet) {
            Ok(()) => self.number = self.number.saturating_add(count_sides(sheet)),
            Err(error) => {
                if matches!(error, SinkError::SinkFault) {
                    self.faults += 1;
                }
                return Err(error);
            }
        }
        Ok(())
    }
}
