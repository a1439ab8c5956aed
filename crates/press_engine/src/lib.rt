//! The engine: the command table of PCL 5 at work, step by step, on every page size and orientation.
#![tactic(auto)]

mod activation;
mod bodies;
mod engine;
mod fault;
mod machine;
mod passing;
mod sender;
mod step_output;
mod stepping;
pub mod trace_laws;
mod view;

pub use engine::Engine;
pub use fault::{EngineError, FAILED};
pub use machine::Last;
pub use press_table::{Drawing, FinishedSheet, Rectangle, Sent, may_change_page, transfers_rows};
pub use step_output::StepOutput;
pub use view::View;
