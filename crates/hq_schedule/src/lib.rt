//! Lists of a job's packets that keep its order.
//!
//! `schedule` gives an order list that takes the least packet each time, or the packets that can never complete.
//! `turn` says when a packet is submitted.
#![tactic(auto)]

mod freeing;
mod scheduling;
mod slots;

pub use scheduling::schedule;
pub use slots::turn;
