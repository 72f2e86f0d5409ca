//! The hall in which the events of a run happen, one at a time.
#![tactic(auto)]

mod fault;
mod hall;
mod handing;
mod history;
mod stage;

pub use fault::HallFault;
pub use hall::Hall;
pub use stage::Stage;
