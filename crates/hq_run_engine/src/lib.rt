//! The command `run`, over any writers: a job is audited, its certificate is checked, and its queues are run, each by
//! a thread of its own.
#![tactic(auto)]

mod accepting;
mod run;

pub use accepting::accept;
pub use run::run_engine;
