//! Which commands may change the open page, and which of its lines.

ghost use Rattle.std.specs.Prelude.{◌≡◌};
ghost use Rattle.press_table.specs.PageKept.{kind_may_change_page, kind_transfers_rows};

use crate::operation::{Operation, operation_of};
use press_cmd::Kind;

/// Whether a command of this kind can mark the page, close it, or start a body. The law `laws::others_keep_the_page` of
/// `press_engine` says that the others leave it as it is.
pub fn may_change_page(kind: Kind) -> bool
    ensures { result ≡ kind_may_change_page kind }
{
    matches!(
        operation_of(kind),
        Operation::CarriageReturn
            | Operation::LineFeed
            | Operation::FormFeed
            | Operation::HalfLineFeed
            | Operation::Reset
            | Operation::SelectPageSide
            | Operation::SelectPageSize
            | Operation::EjectPage
            | Operation::SelectOrientation
            | Operation::SelectDuplex
            | Operation::Fill
            | Operation::TransferRow
            | Operation::ControlMacro
            | Operation::JobLanguage
    )
}

/// Whether a command of this kind transfers rows of raster graphics. The law `laws::rows_keep_other_lines` of `press_engine` says which
/// lines of an upright page they leave as they are.
pub fn transfers_rows(kind: Kind) -> bool
    ensures { result ≡ kind_transfers_rows kind }
{
    matches!(operation_of(kind), Operation::TransferRow)
}
