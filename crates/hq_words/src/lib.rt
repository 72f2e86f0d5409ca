//! The words of the command line.
#![tactic(auto)]

mod command;
mod words;

pub use words::{Asked, WordsFault, command_of};
