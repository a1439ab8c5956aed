//! The trace of a stream, told line by line: what each table step took, what it changed of what can be seen and of the open page,
//! and what went out in it.
#![tactic(auto)]

pub mod appending;
mod fault;
pub mod fields;
mod line;
mod line_of;
mod members;
pub mod page;
mod place;
pub mod rebuilding;
mod rows;
pub mod seen;
pub mod sent;
mod spelled;
pub mod text;
pub mod told;
pub mod touched;
mod tracer;
mod tracing;

pub use fault::TraceError;
pub use line_of::LineOf;
pub use tracing::{trace_by, trace_stream};
