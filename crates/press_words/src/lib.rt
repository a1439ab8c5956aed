//! What the words of a command line ask for, what stands in front of a stream by its defaults, and how lines are read as words
//! and numbers.
#![tactic(auto)]

mod defaults;
mod job_words;
mod lines;
mod session_words;
mod shared_words;
mod stream_words;
mod subcommands;
mod text_words;
mod told_words;
mod words;

pub use lines::{WHAT, line_of, number_in, number_word, space_place, words_of};
pub use session_words::SessionRequest;
pub use words::{Input, Output, REFUSED, Refusal, Request, request_of};
