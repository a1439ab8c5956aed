//! The law of patches, the contract of a function that does nothing.
ghost use Rattle.press_bits.specs.Patches.{PatchesAreThePage, RowsAreThePatch};

/// A page with all its patches laid over it, one after another, is the page after the last of them; and the bytes of a region in
/// which alone a page changed are a patch.
pub fn patches()
    ensures page { PatchesAreThePage }
    ensures rows { RowsAreThePatch }
{}
