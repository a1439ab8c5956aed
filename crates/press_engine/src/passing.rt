//! Commands of the stream that have no effect, passed over at once.

use crate::machine::{Last, Machine};
use press_cmd::Kind;

impl Machine {
    ghost use Rattle.std.specs.Prelude.{◌≡◌};
    ghost use Rattle.press_engine.specs.Passing.{passed};

    /// So many steps more, the last of which took a command of this kind.
    pub fn pass(&mut self, count: usize, kind: Kind)
        ensures { self.new ≡ passed count kind self.old }
    {
        self.step = self.step.saturating_add(count as u64);
        self.last = Last::Refused(kind, self.state.skips_by());
    }
}
