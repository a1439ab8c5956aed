//! The laws of P4 files, each the contract of a function that does nothing.
ghost use Rattle.press_pbm.specs.Answer.{HasOneAnswer, WrittenIsFile};

/// An input begins with at most one file, which is of one page; and where it does, no refusal of its text fits it. At most one
/// refusal fits an input that begins with no file.
pub fn one_answer()
    ensures { HasOneAnswer }
{}

/// What is written of a page is a file of that page. So it is read back, whatever follows it.
pub fn read_back()
    ensures { WrittenIsFile }
{}
