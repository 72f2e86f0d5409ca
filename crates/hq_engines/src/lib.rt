//! The commands beside those that judge and `run`, each over any reader and any writer; `hq_judging` says what an
//! engine is.
#![tactic(auto)]

mod buffers;
mod change;
mod chart;
mod explain;
mod graph;
mod recording;
mod replay;
mod witness;

pub use buffers::buffers_text_of;
pub use change::{Aim, Changed, change_engine};
pub use chart::chart_engine;
pub use explain::explain_engine;
pub use graph::graph_engine;
pub use recording::write_timeline;
pub use replay::replay_engine;
pub use witness::witness_engine;
