//! Job texts.
//!
//! A job text has a first line, which names its version, lines that declare agents, buffers, kernarg blocks,
//! signals, kernels, queues and packets, and the line `end`. `read` takes such a text from a reader, and
//! `read_text` takes it as bytes: either gives the job that the text is, or the first fault of the text, by its
//! line and its reason. Which texts are jobs, and which fault is the first, is said line by line: a line is
//! admitted by the tables that the lines before it leave, or refused for the first test that it fails.
//!
//! `rewrite` gives a job's text with other heads on its packets.
#![tactic(auto)]

mod draft;
mod fault;
pub mod laws;
mod progress;
mod reader;
mod reading;
mod rewriting;

pub use fault::JobFault;
pub use hq_text::{TextFault, take_text};
pub use reader::{read, read_text};
pub use rewriting::rewrite;
