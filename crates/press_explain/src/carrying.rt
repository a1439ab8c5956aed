//! Commands carried out whole, and what they did.
ghost use Rattle.std.specs.Prelude.{◌≡◌, [], IfOk, IsSome, OnOk, option_map};
ghost use Rattle.press_cmd.specs.View.{token};
ghost use Rattle.press_engine.specs.Engine.{bodies, machine_of};
ghost use Rattle.press_explain.specs.Remarks.{IsBox};
ghost use Rattle.press_explain.specs.Standing.{CarriesOut, IsShown};
ghost use Rattle.press_trace.specs.Pages.{LiesIn, change_data};

use press_canvas::Canvas;
use press_cmd::{Command, kind};
use press_engine::Engine;
use press_sink::ListReplies;
use press_trace::page::{Change, told_page};
use press_trace::seen::Seen;
use press_trace::sent::NoSheets;
use press_trace::touched::{row_line, touched_by};
use std::alloc::{AllocError, Global};

/// What a command did.
#[derive(Drop)]
pub(crate) struct Done {
    /// What could be seen before it.
    pub(crate) was: Seen,
    /// What changed of the open page.
    pub(crate) change: Change,
    /// What was replied.
    pub(crate) replies: ListReplies,
}

/// A change of the open page, whose box is one: where no page is open none is told.
fn boxed(change: Change, page: Option<&Canvas>) -> Change
    requires { LiesIn change (option_map (λ page. page.now) page) }
    ensures same { change_data result (option_map (λ page. page.now) page.entry)
        ≡ change_data change (option_map (λ page. page.now) page.entry) }
    ensures small { IsBox result }
{
    match (change, page) {
        (Change::Patch(_), None) => Change::Nothing,
        (_, Some(page)) => {
            let _extent = page.extent();
            change
        }
        (_, None) => change,
    }
}

/// Carries a command of the stream out whole, and follows the open page. The answer is what it did.
pub(crate) fn carry_out(
    alloc: Global,
    engine: &mut Engine,
    page: &mut Option<Canvas>,
    command: Command<'_>,
) -> Result<Done, AllocError>
    requires running { IsSome (machine_of engine.old) }
    requires idle { bodies engine.old ≡ [] }
    requires shown { IsShown (machine_of engine.old) page.old }
    ensures carries { IfOk result (λ done. CarriesOut (token command.entry)
        (machine_of engine.old) done (machine_of engine.new)) }
    ensures small { IfOk result (λ done. IsBox done.change) }
    ensures idle { bodies engine.new ≡ [] }
    ensures shown { OnOk result (IsShown (machine_of engine.new) page.new) }
{
    let kind = kind(&command);
    let view = engine.view();
    let orientation = view.environment.page_setup.orientation;
    let before = row_line(&view);
    let was = Seen::of(alloc, &view)?;
    let mut replies = ListReplies::new(alloc);
    if engine
        .run_command(command, 0, &mut NoSheets, &mut replies)
        .is_err()
    {
        return Err(AllocError);
    }
    let behind = row_line(&engine.view());
    let touched = touched_by(true, kind, orientation, before, behind);
    let (now, told) = told_page(alloc, page.take(), engine.page(), touched)?;
    *page = now;
    let change = boxed(told.change, engine.page());
    Ok(Done {
        was,
        change,
        replies,
    })
}
