//! The tests of what reads a stream: the scanner and its commands, the job language.
#![tactic(auto)]

#[cfg(test)]
mod commands;
#[cfg(test)]
mod macros;
#[cfg(test)]
mod pjl;
#[cfg(test)]
mod scanner;
