//! The laws of a scanner, each the contract of a function that does nothing.
ghost use Rattle.press_cmd.specs.GrammarLaws.{CuttingLaw};
ghost use Rattle.press_scan.specs.Reached.{FeedsReach, EndReaches};

/// The split of a list of bytes followed by another is the commands of the first, and then the split, from the mode
/// that these leave, of the first one's rest followed by the other. So it doesn't matter in which pieces a stream comes.
pub fn cutting()
    ensures { CuttingLaw }
{
    press_cmd::grammar_laws::cutting();
}

/// The calls of a scanner, chained from its first byte on: what was given and what is held are those of all bytes fed,
/// also where a piece is fed before all commands of the last one were taken; and after the end of input likewise.
pub fn reached()
    ensures feeds { FeedsReach }
    ensures ends { EndReaches }
{}
