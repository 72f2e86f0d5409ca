//! The tables that the lines of a job's text fill.
//!
//! `Tables` take in, one behind another, what the lines say: each is admitted by what the lines before it left, or
//! refused for the first test that it fails. Tables that are complete, with no signal against them, are a job.
#![tactic(auto)]

mod addresses;
mod arguments;
mod buffers;
mod fault;
mod finding;
pub mod laws;
mod limits;
mod packets;
mod rows;
mod tables;

pub use addresses::byte_number;
pub use arguments::Arguments;
pub use buffers::Buffers;
pub use fault::Reason;
pub use limits::{AGENTS, BLOCKS, BUFFERS, ITEMS, KERNELS, QUEUES, SIGNALS};
pub use rows::{Block, Kernel, Placed, Queue};
pub use tables::Tables;
