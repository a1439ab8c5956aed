//! What has a line of its own.

/// What has a line of its own in a trace.
#[derive(Clone, Copy, Debug, PartialEq, Eq)]
pub enum LineOf {
    /// Each table step.
    Step,
    /// Each run of steps that do no more than count, and each other step.
    Run,
}
