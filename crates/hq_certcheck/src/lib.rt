//! Checks certificates of order.
//!
//! `check` says whether a certificate holds of a job. Where it does, every run of the job leaves the same memory,
//! whoever made the certificate. `check_seen` says so of a certificate whose lines and pair lines came block by block.
#![tactic(auto)]

mod accepted;
mod checking;
mod citing;
mod conclusion;
mod fault;
mod flags;
pub mod laws;
mod lines;
mod missing;
mod pairs;
mod possible;
mod seen;
mod steps;
mod wide;
mod wide_missing;
mod wide_pairs;

pub use accepted::Accepted;
pub use checking::{check, check_seen};
pub use conclusion::Conclusion;
pub use fault::CheckNo;
pub use lines::first_bad_line;
pub use pairs::first_bad_pair;
pub use seen::Seen;
pub use wide::{check_seen_wide, check_wide};
