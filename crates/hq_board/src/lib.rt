//! The signal board: a word for each signal and each queue, and a seat for each queue.
#![tactic(auto)]

mod board;
mod calls;
mod entry;
mod fault;
mod known;
pub mod laws;
mod rule;
mod seat;
mod words;

pub use board::Board;
pub use entry::{Entry, View};
pub use fault::BoardFault;
pub use seat::Seat;
