//! What packets wait for: which packets complete on which signal, and on the dependencies of which packet, as rows of
//! bits; and what is said of a job in which some wait in vain.
#![tactic(auto)]

mod depending;
mod fault;
mod signals;

pub use depending::unite_dependencies;
pub use fault::OrderFault;
pub use signals::completing;
