//! What must be complete before what, in every run of a job.
//!
//! `Before` is the order relation, worked out round by round as rows of bits. `rules` says by which rule, each for
//! itself, one packet is before another; `sweep` gives rows that have at least the order.
#![tactic(auto)]

mod before;
mod direct;
mod hands;
pub mod laws;
mod rounds;
pub mod rules;
mod sweeping;
mod wide;

pub use before::{Before, Fresh, Rounds};
pub use hands::{Alone, Together};
pub use rounds::has_no_either;
pub use sweeping::sweep;
