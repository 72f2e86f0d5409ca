//! Memory, and the copies of its bytes that agents and lanes hold.
#![tactic(auto)]

mod copies;
mod fault;
mod lanes;
mod level;
mod runs;

pub use copies::Copies;
pub use fault::CopiesFault;
