//! The events of a run and its journal, and what stands below the state of the machine: phases, what a packet has read
//! and stored, when its wait is over, the lists in which a run starts, and what a job says of its packets.
#![tactic(auto)]

mod event;
mod fault;
mod journal;
pub mod laws;
pub mod packets;
mod phase;
mod rows;
pub mod starts;
pub mod waiting;

pub use event::Event;
pub use fault::StepFault;
pub use journal::Journal;
pub use phase::Phase;
pub use rows::{Reads, Stores};
