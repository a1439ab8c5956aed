//! Commands of the stream that have no effect.

use crate::state::State;

impl State {
    ghost use Rattle.std.specs.Prelude.{IsTrue};
    ghost use Rattle.press_table.specs.Passing.{SkipsBytes, SkipsControls};

    /// Whether text bytes and bytes of another language have no effect: no macro definition is open.
    pub fn skips_bytes(&self) -> bool
        ensures { IsTrue result → SkipsBytes self.now }
    {
        !self.is_recording()
    }

    /// Whether control bytes have no effect: HP-GL/2 is on, and no macro definition is open.
    pub fn skips_controls(&self) -> bool
        ensures { IsTrue result → SkipsControls self.now }
    {
        self.hp_gl && !self.is_recording()
    }
}
