//! The laws of a trace, the contracts of functions that do nothing.
ghost use Rattle.press_trace.specs.Rebuilt.{LinesRebuildThePages, RowsAreThePage};

/// What a line tells of the open page rebuilds it: the rows of the region, laid over the page of which they are told, are the page.
pub fn rows_are_the_page()
    ensures { RowsAreThePage }
{}

/// What the lines of a trace say of the open page rebuilds it behind each of them: a white page where one is opened, with the patches
/// laid over it one after another, and none where it closed.
pub fn lines_rebuild_the_pages()
    ensures { LinesRebuildThePages }
{}
