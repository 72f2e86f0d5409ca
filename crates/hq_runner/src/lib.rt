//! Runs an accepted job, a thread for each queue.
#![tactic(auto)]

mod asking;
mod engine;
mod fault;
mod finish;
mod gate;
mod host;
mod outcome;
mod owner;
mod places;
mod processor;
mod queue;
mod seated;
mod shared;
mod spread;
mod step;
mod threads;

pub use engine::run;
pub use gate::{Gate, OpenGate};
pub use outcome::{Outcome, RunFault};
