//! The laws of disassembly, each the contract of a function that does nothing.
ghost use Rattle.press_disasm.specs.Again.{CommandsReadBack};

/// The bytes of the commands of any stream, each command by itself, are closed by these commands again: broken
/// sequences and lines, universal exits, other languages and the ends of combined sequences among them.
pub fn commands_read_back()
    ensures { CommandsReadBack }
{}
