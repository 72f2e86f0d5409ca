//! What a packet reads, writes and computes: ranges of bytes and tasks.
#![tactic(auto)]

mod buffers;
mod conflicts;
mod evaluating;
mod fault;
mod footprint;
pub mod laws;
mod same;
mod task;
mod work;

pub use buffers::inside;
pub use conflicts::{Kinds, conflict, kinds_of};
pub use evaluating::{evaluate, evaluate_ranges};
pub use fault::FootFault;
pub use footprint::{Footprint, Range, Work};
pub use task::{Code, Task};
pub use work::{nothing, of_kernel, of_service};
