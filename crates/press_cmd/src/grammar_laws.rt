//! Laws of the grammar, each the contract of a function that does nothing.

ghost use Rattle.press_cmd.specs.GrammarLaws.{NoCommandBeginsAnother, AtMostOneHead, AtMostOneSplit, AtLeastOneSplit, CuttingLaw};
ghost use Rattle.press_cmd.specs.Stored.{IsSound, StoredReadsBack};
ghost use Rattle.press_cmd.specs.Streams.{IsCommand};
ghost use Rattle.press_cmd.specs.View.{token};

use crate::command::Command;

/// Whole commands in one mode whose bytes begin alike are the same.
pub fn no_command_begins_another()
    ensures { NoCommandBeginsAnother }
{}

/// At the front of a list of bytes stands at most one command.
pub fn at_most_one_head()
    ensures { AtMostOneHead }
{}

/// A list of bytes has at most one split.
pub fn at_most_one_split()
    ensures { AtMostOneSplit }
{}

/// Every list of bytes has a split.
pub fn at_least_one_split()
    ensures { AtLeastOneSplit }
{}

/// The split of a list of bytes followed by another is the commands of the first, and then the split, from the mode
/// that these leave, of the first one's rest followed by the other. So it doesn't matter in which pieces a stream comes.
pub fn cutting()
    ensures { CuttingLaw }
{}

/// Every command is one of some stream: of its split, or of those that the rest stands for where the stream ends.
pub fn comes_from_a_stream(command: &Command)
    ensures { ∥ IsCommand (token command.now) ∥₁ }
{
    let _ = command;
}

/// The parts of every command have their ranges. So it can be kept, and lent again ([`crate::Records`], [`crate::Body`]).
pub fn every_command_is_sound(command: &Command)
    ensures { IsSound (token command.now) }
{
    let _ = command;
}

/// The number of a command's variant and its bytes determine it.
pub fn stored_reads_back()
    ensures { StoredReadsBack }
{}
