//! The least change that orders a job, and what an ordered one can do without.
//!
//! A *setting* of a job gives each packet its barrier bit and the scopes of its two fences. Raising a setting
//! orders more, so a job can be ordered by heads alone exactly where all bits and system fences order it. `fix`
//! answers such a job with no more raised than it needs; `trim` lowers what an ordered job has beyond its needs.
//! Either way nothing of what is answered can be lowered further, not one part of one head, nor several together.
//! The dearest goes first: release fences of system scope, acquire fences of system scope, release fences, acquire
//! fences, barrier bits; of each the last packet's first.
#![tactic(auto)]

mod attempt;
mod bits;
mod changing;
mod foresight;
mod heads;
mod level;
mod settling;
mod trial;
mod watch;

pub use changing::{fix, trim};
pub use hq_audit::AuditNo;
pub use watch::{Unwatched, Watch};
