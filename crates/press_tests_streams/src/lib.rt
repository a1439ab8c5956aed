//! The tests of what carries a stream out: the engine, row by row of the command table, and the sinks of sheets and replies.
#![tactic(auto)]

#[cfg(test)]
mod bodies;
#[cfg(test)]
mod replies;
#[cfg(test)]
mod rows;
#[cfg(test)]
mod sinks;
mod stream_tables;
#[cfg(test)]
mod streams;
