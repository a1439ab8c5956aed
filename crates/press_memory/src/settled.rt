//! Outputs of which clauses alone know.
use press_sink::ListedOutput;
use std::marker::Model;
use std::snapshot::Snapshot;

/// The outputs before the one that was added last, and that one.
#[derive(Drop)]
#[cycle(settled)]
struct Latest {
    before: Snapshot<Settled>,
    output: Snapshot<ListedOutput>,
}

/// Outputs in the order in which they were made. Nothing of them is kept: contracts alone see them.
#[derive(Drop)]
#[cycle(settled)]
pub(crate) struct Settled {
    latest: Option<Latest>,
}

impl Model for Settled {
    ghost use Rattle.std.specs.Prelude.{List, [], ◌∷◌, ◌++◌, length};
    ghost use Rattle.std.specs.Option.{option_map_or};
    ghost use Rattle.press_sink.specs.Outputs.{MadeOutput};
    ghost use Rattle.press_sink.specs.Kept.{output_of};
    ghost use Rattle.press_memory.specs.Rooms.{output_code};
    ghost use Rattle.std.specs.Coded.{coded_list};

    ghost Value = { List MadeOutput };

    ghost coded = { coded_list output_code };

    ghost view = { λ settled. option_map_or (λ latest. latest.before.value
        ++ output_of latest.output.value ∷ []) settled.latest [] };

    ghost size = { length };
}

impl Settled {
    ghost use Rattle.std.specs.Prelude.{◌≡◌, ◌++◌, ◌∷◌, []};
    ghost use Rattle.press_sink.specs.Kept.{output_of};

    /// No output.
    pub(crate) fn none() -> Self
        ensures { result ≡ [] }
    {
        Settled { latest: None }
    }

    /// One output more.
    pub(crate) fn add(&mut self, output: &ListedOutput)
        ensures { self.new ≡ self.old ++ output_of output.now ∷ [] }
    {
        self.latest = Some(Latest {
            before: Snapshot::of(self),
            output: Snapshot::of(output),
        });
    }
}
