//! What can be found of a job: that it is ordered, or of which kind a conflict is that nothing orders, and why.
#![tactic(auto)]

mod found;
mod kind;
mod why;

pub use found::Found;
pub use kind::Kind;
pub use why::Why;
