//! The body of a macro that runs (PCL 5 Printer Language Technical Reference Manual, Macros).

ghost use Rattle.std.specs.Prelude.{◌≤◌, length, drop};
ghost use Rattle.press_cmd.specs.Records.{encoded, AreRecords};
ghost use Rattle.press_cmd.specs.RecordsOnce.{AreRecords-prop};

use crate::command::Command;
use crate::records::{Records, first_command, first_count};
use std::alloc::AllocError;
use std::marker::Model;
use std::rc::Rc;

/// The body of a macro that runs. It is what it was when it started, whatever happens to the macro. Contracts see
/// the commands that are left of it.
///
/// Source: PCL 5 Printer Language Technical Reference Manual, Macros.
#[derive(Drop)]
pub struct Body {
    commands: Rc<Records>,
    /// Where the record of the next command begins.
    place: usize,
    ghost within: { place ≤ length (encoded commands.value) },
    /// The commands that are left.
    ghost left: { AreRecords (drop place (encoded commands.value)) } by { AreRecords-prop _ },
}

impl Model for Body {
    ghost use Rattle.std.specs.Prelude.{List};
    ghost use Rattle.press_cmd.specs.Token.{Token};

    ghost Value = { List Token };

    ghost view = { λ body. body.left.commands };
}

impl Body {
    ghost use Rattle.std.specs.Prelude.{◌≡◌, ◌↔◌, [], IsTrue, IfOk, option_map, slice_get};
    ghost use Rattle.std.specs.Borrow.{sem};
    ghost use Rattle.press_cmd.specs.View.{token};
    ghost use Rattle.press_cmd.specs.Lending.{KeepsBehindFirst};

    /// The body of these commands, from the first on.
    pub fn of(commands: Rc<Records>) -> Self
        ensures { result ≡ commands.value }
    {
        commands.are_sound();
        Body { commands, place: 0 }
    }

    /// Gives the first of the commands that are left, if one is left.
    #[inline(always)]
    pub fn next(&mut self) -> Option<Command<'_>>
        ensures given { option_map token result ≡ slice_get self.old 0 }
        ensures* left { sem 𝓛 (KeepsBehindFirst self.entry) }
    {
        let place = self.place;
        let count = first_count(self.commands.from(place));
        self.place = place + count;
        first_command(self.commands.from(place), count)
    }

    /// Whether no command is left.
    pub fn is_used_up(&self) -> bool
        ensures { IsTrue result ↔ (self.now ≡ []) }
    {
        self.commands.from(self.place).is_empty()
    }

    /// An equal body, which shares the commands.
    ///
    /// # Errors
    ///
    /// Where memory ran out.
    pub fn copy(&self) -> Result<Self, AllocError>
        ensures { IfOk result (λ body. body ≡ self.now) }
    {
        Ok(Body {
            commands: self.commands.clone()?,
            place: self.place,
        })
    }
}
