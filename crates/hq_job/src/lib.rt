//! Jobs.
//!
//! A `Job` is what tables are that are complete. It gives these by reference and takes no memory. Contracts see it as a
//! value, and the plan of that value is the job as numbers: `valid` hands on that the plan is one that all laws of the
//! model speak of. `same` tells whether two jobs are one value.
#![tactic(auto)]

mod asking;
mod conflicts;
mod heads;
mod job;
pub mod laws;
mod memory;
mod numbering;
mod places;
mod same;

pub use job::Job;
