//! The laws of assembly text, each the contract of a function that does nothing.
ghost use Rattle.press_asm.specs.FormLaw.{AtMostOneForm};

/// A line has at most one form, so what it stands for, or how it is refused, is one.
pub fn at_most_one_form()
    ensures { AtMostOneForm }
{}
