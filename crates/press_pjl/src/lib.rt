//! The job language: the environment of default and current values, what each PJL line does to it, and the replies.
#![tactic(auto)]

mod command;
mod effect;
mod environment;
mod fact;
mod named;
mod reply;
mod variable;

pub use effect::{Facts, PjlEffect, ReplyBytes};
pub use environment::PjlEnv;
pub use reply::write_reply;
pub use variable::is_assignment;
