//! A stream explained: as assembly text, and in front of each command a remark that says what it is called, what its value is, and what it did.
#![tactic(auto)]

mod carrying;
mod deeds;
mod explainer;
mod explaining;
mod naming;
mod remark;
mod saying;
mod titles;

pub use explaining::explain_stream;
