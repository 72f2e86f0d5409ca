//! What standard error says in plain words, beside the answer on standard output.
//!
//! It is made of the status that an engine answers, in which stands what the answer says. Each of its parts is a value
//! that displays itself; what it displays is its definition's text. Where standard error fails, nothing is said.
#![tactic(auto)]

mod changes;
mod faults;
mod jobs;
mod statuses;

pub use changes::{HeadLines, Lowered, Place};
pub use statuses::{Meaning, explain, explain_unopened};
