//! Timelines: the text of a run's journal, printed and parsed.
//!
//! A timeline begins `hsat 1`, then has an event a line, and ends with `end`. Nothing here knows whether the events
//! can happen: that is for a replay to say.
#![tactic(auto)]

mod draft;
mod fault;
mod kinds;
pub mod laws;
mod one_pass;
mod pen;
mod printing;
mod progress;
mod reader;
mod reading;
mod replaying;
mod words;

pub use fault::{ReplayFault, TimeFault, TimeReason};
pub use hq_text::ReadFault;
pub use printing::{PrintFault, print};
pub use reader::read;
pub use reading::parse;
pub use replaying::replay;
