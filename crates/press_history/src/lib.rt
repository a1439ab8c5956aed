//! Every run of events of a press: what was handed out under each number.
#![tactic(auto)]

pub mod run_laws;
