//! Why each conflict of a job is ordered or isn't, in plain words, and which single changes of the job would order
//! one that isn't.
//!
//! `explain` tells of the pairs of packets that conflict: the bytes that both touch, why the one is complete before
//! the other becomes active, step by step, and the fences that carry the bytes over. Of two packets that aren't
//! ordered it says what lacks, and each single change of a barrier bit or of a fence's scope that would order them,
//! which `advice_on` finds: each is tried on the job with that change. Of packets that can never complete it says
//! what each waits for.
#![tactic(auto)]

mod advice;
mod bits;
mod change;
mod changes;
mod conflicts;
mod explaining;
mod fault;
mod packets;
mod pairs;
mod paths;
mod scopes;
mod sharing;
mod stuck;
mod telling;
mod which;

pub use advice::{Advice, advice_on};
pub use change::{Change, Fence};
pub use explaining::explain;
pub use fault::ExplainFault;
pub use which::Which;
