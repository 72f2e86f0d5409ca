//! The machine of the definitions as code: its states, and single steps and events from state to state. What events
//! and journals are stands in `hq_events`.
#![tactic(auto)]

mod applying;
mod coarse;
mod copying;
mod entries;
mod left;
mod queues;
mod state;
mod stepping;
mod storing;
mod waiting;
mod working;

pub use hq_events::{Event, Journal, Phase, StepFault};
pub use state::State;
