//! What a table step answers, as a value.

use press_cmd::Kind;
use press_table::Sent;

/// What a step took, and what goes out in it, in order.
#[derive(Drop)]
pub struct StepOutput {
    /// The kind of the command that was taken.
    pub kind: Kind,
    pub sent: Vec<Sent>,
}
