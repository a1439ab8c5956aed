//! Printed sheets (PCL 5 Printer Language Technical Reference Manual, Simplex/Duplex Print command).
ghost use Rattle.std.specs.Prelude.{◌≡◌, IfOk};

use crate::bitmap::Bitmap;
use std::alloc::AllocError;
use std::marker::Model;

/// A printed sheet: its front, and its back where it has one. Contracts see its pages alone.
///
/// Source: PCL 5 Printer Language Technical Reference Manual, Simplex/Duplex Print command.
#[derive(Drop)]
pub struct Sheet {
    pub front: Bitmap,
    pub back: Option<Bitmap>,
}

impl Model for Sheet {
    ghost use Rattle.press_bits.specs.PrintedSheet.{PrintedSheet, printed_sheet_code};

    ghost Value = { PrintedSheet };

    ghost coded = { printed_sheet_code };

    ghost view = { λ sheet. record { front = sheet.front; back = sheet.back } };
}

impl Sheet {
    /// An equal sheet, in memory of its own.
    ///
    /// # Errors
    ///
    /// Where memory ran out.
    pub fn copy(&self) -> Result<Sheet, AllocError>
        ensures { IfOk result (λ sheet. sheet ≡ self.now) }
    {
        let back = match &self.back {
            Some(back) => Some(back.copy()?),
            None => None,
        };
        Ok(Sheet {
            front: self.front.copy()?,
            back,
        })
    }
}
