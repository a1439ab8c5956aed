//! The dot rule for single dots (PCL 5 Printer Language Technical Reference Manual, The PCL Print Model).

ghost use Rattle.std.specs.Prelude.{◌≡◌};
ghost use Rattle.press_bits.specs.DotRule as rule;
ghost use Rattle.press_fill.specs.Rule.{dot_effect, mode};

/// What becomes of a dot of the page.
#[derive(Clone, Copy, Debug, PartialEq, Eq)]
pub enum DotEffect {
    MadeBlack,
    MadeWhite,
    Unchanged,
}

/// The dot rule: what becomes of a dot of the page under a source dot and a pattern dot, each black where
/// true, where white dots of the source and of the pattern are opaque or transparent.
///
/// Source: PCL 5 Printer Language Technical Reference Manual, The PCL Print Model.
pub fn dot_rule(source: bool, pattern: bool, source_opaque: bool, pattern_opaque: bool) -> DotEffect
    ensures { dot_effect result ≡ rule.dot_rule (mode source_opaque pattern_opaque) source pattern }
{
    match (source, pattern) {
        (true, true) => DotEffect::MadeBlack,
        (true, false) if pattern_opaque => DotEffect::MadeWhite,
        (false, _) if source_opaque => DotEffect::MadeWhite,
        _ => DotEffect::Unchanged,
    }
}
