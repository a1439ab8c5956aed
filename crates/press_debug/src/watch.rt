//! A caller's test of what can be seen of the engine.
ghost use Rattle.std.specs.Prelude.{◌≡◌};
ghost use Rattle.std.specs.Fn.{FnReturnsAt};

use press_engine::View;

/// A caller's test, which is asked of each state. What it answers is what its calls promise.
#[derive(Drop)]
pub struct Watch<F> {
    test: F,
}

impl<F: Fn(&View<'_>) -> bool> Watch<F> {
    /// Keeps a test.
    pub fn new(test: F) -> Self
        requires { F.IsAlwaysCallable test }
        ensures { result.test ≡ test }
    {
        Watch { test }
    }

    /// What the test says of a view.
    pub fn meets(&self, view: &View<'_>) -> bool
        requires { F.IsAlwaysCallable self.now.test }
        ensures { FnReturnsAt F.Fn self.now.test view.now result }
    {
        (self.test)(view)
    }
}
