//! The debugger: a stream that is carried out table step by table step, and stops where it is asked to.
#![tactic(auto)]

mod breakpoints;
mod debugger;
mod fault;
pub mod place_laws;
mod stepper;
mod watch;

pub use breakpoints::{Break, MOST_BREAKS};
pub use debugger::{Debugger, Stop, WATCH};
pub use fault::{BreakError, OpenError};
pub use stepper::{RECENT, Stepper, Taken};
pub use watch::Watch;
