//! The front of the programs: command lines, files and the standard streams.
#![tactic(auto)]

mod frame;
mod input;
mod opening;
mod output;

pub use frame::{exit_code, finished, say_words, texts_of, words_of};
pub use input::Input;
pub use opening::{created, job_of, opened, opened_both};
pub use output::Output;
