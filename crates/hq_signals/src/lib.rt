//! Signals that only completions change, and the table that counts, before a job runs, how many packets complete on
//! each.
#![tactic(auto)]

mod fault;
mod signal;
mod table;

pub use fault::{SignalFault, Undershoot};
pub use signal::Signal;
pub use table::SignalTable;
