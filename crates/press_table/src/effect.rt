//! What a row of the command table gives, as a value.

ghost use Rattle.std.specs.Prelude.{◌≡◌};
ghost use Rattle.press_table.specs.Closing.{selection_of};

use crate::calls::SavedEnvironment;
use press_bits::Sheet;
use press_cmd::Body;
use press_page::{DuplexMode, Orientation, PageSize};
use press_pjl::{PjlEnv, ReplyBytes};

/// A finished sheet, and how many times it goes out.
#[derive(Drop)]
pub struct FinishedSheet {
    pub sheet: Sheet,
    pub copies: u16,
    /// The count of sheets since the job began, before the first copy, where a reply follows each.
    pub since_job: Option<u64>,
}

/// What goes out when a command is carried out.
#[derive(Drop)]
pub enum Sent {
    /// A finished sheet, in its copies.
    Sheet(FinishedSheet),
    /// The bytes of a reply.
    Reply(ReplyBytes),
}

/// Which side of a sheet the next page is to be on.
#[derive(Clone, Copy, PartialEq, Eq)]
pub enum Selection {
    NextSide,
    Front,
    Back,
}

/// A change of the page, which meets no page with a mark.
#[derive(Clone, Copy, PartialEq, Eq)]
pub enum PageChange {
    Reset,
    /// A reset by new values of the job language, with which a job may begin.
    Language { language: PjlEnv, begins_job: bool },
    Size(PageSize),
    Orientation(Orientation),
    Duplex(DuplexMode),
}

/// Which command closes the page, and so what it does after the close, or in its place where the page has no mark.
#[derive(Clone, Copy, PartialEq, Eq)]
pub enum EjectCause {
    /// A form feed, a line feed past the end of the text, an ejected page.
    Feed,
    /// The selection of a side.
    Side(Selection),
    Change(PageChange),
}

/// Where a command comes from.
#[derive(Clone, Copy, PartialEq, Eq)]
pub enum Source {
    Stream,
    /// The body of a macro, outside an overlay.
    Macro,
    /// The body of the overlay, or of a macro that it started.
    Overlay,
}

/// How the body of a macro starts.
#[derive(Clone, Copy, PartialEq, Eq)]
pub enum BodyStart {
    Execute,
    Call,
}

/// What comes when the body of a macro is used up.
#[derive(Clone, Copy)]
pub enum BodyEnd {
    /// The macro was executed: what it changed stays.
    Execute,
    /// It was called: what was kept at its start is restored.
    Call(SavedEnvironment),
}

/// What a row of the command table gives.
#[derive(Drop)]
pub enum Effect {
    /// The row is carried out, and nothing goes out. No memory was taken.
    Changes,
    /// The same, and memory may have been taken: a mark was made on the page, a pattern defined, or a macro recorded.
    Makes,
    /// The row is carried out, and a reply goes out.
    GivesReply(ReplyBytes),
    /// A page without a mark stays, and the command does what it does after a close.
    Stays(EjectCause),
    /// The page closes.
    Closes(EjectCause),
    /// The body of a macro starts, where one more may run.
    Starts(Body, BodyStart),
}

impl Effect {
    ghost use Rattle.press_table.specs.Effects.{is_done};

    /// Whether all is done: nothing goes out, no page closes, and no body starts.
    pub fn is_done(&self) -> bool
        ensures { result ≡ is_done self.now }
    {
        matches!(self, Effect::Changes | Effect::Makes)
    }
}

impl Selection {
    /// The side that `ESC & a # G` selects by a number.
    pub(crate) fn of_number(number: i64) -> Option<Self>
        ensures { result ≡ selection_of number }
    {
        match number {
            0 => Some(Selection::NextSide),
            1 => Some(Selection::Front),
            2 => Some(Selection::Back),
            _ => None,
        }
    }
}
