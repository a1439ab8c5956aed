//! What the trace of commands, a table step an item, has to do with carrying them out whole.

ghost use Rattle.press_engine.specs.TraceLaws.{TraceTellsTheRun, TraceGoesOn, OneStepIsTheRun, AtMostFourBodies};
ghost use Rattle.press_engine.specs.PageKept.{OthersKeepThePage, RowsKeepOtherLines};
ghost use Rattle.press_engine.specs.Passing.{PassingIsCounted};
ghost use Rattle.press_engine.specs.Stepping.{InnerStepIsOwed, OuterStepIsOwed};
ghost use Rattle.press_engine.specs.Steps.{EachItemIsOneStep};

/// The last item of the trace has the machine that the commands leave, and the outputs of all items joined are theirs.
pub fn trace_tells_the_run()
    ensures { TraceTellsTheRun }
{}

/// The trace of commands and then others is that of the first, and then that of the others.
pub fn trace_goes_on()
    ensures { TraceGoesOn }
{}

/// A command that starts no body, and closes no page under an overlay, has one item in the trace, and it is the command's run.
pub fn one_step_is_the_run()
    ensures { OneStepIsTheRun }
{}

/// No more than four bodies run at a time, and none after a whole command.
pub fn at_most_four_bodies()
    ensures { AtMostFourBodies }
{}

/// Each table step gives the first of the items that the stack of running bodies owes, and leaves a stack that owes the others.
pub fn each_step_is_owed()
    ensures inner { InnerStepIsOwed }
    ensures outer { OuterStepIsOwed }
{}

/// Each item of the trace is one step more than the one before it: item k of a stream has step k.
pub fn each_item_is_one_step()
    ensures { EachItemIsOneStep }
{}

/// A command of the stream whose row marks and closes no page and starts no body has one item, which leaves the open page as it is.
pub fn others_keep_the_page()
    ensures { OthersKeepThePage }
{}

/// A command of the stream that transfers rows has one item. It leaves the lines of the frame above the cursor before it as they are, and
/// those from eight lines below that of the cursor behind it on, while neither is below the logical page.
pub fn rows_keep_other_lines()
    ensures { RowsKeepOtherLines }
{}

/// Commands of the stream that have no effect, one after another, leave as many steps more and the kind of the last of them, and
/// nothing goes out.
pub fn passing_is_counted()
    ensures { PassingIsCounted }
{}
