//! Pictures of a job's order, as text of graphviz's language DOT.
//!
//! A node for each packet, queue by queue; an edge for each step of the order, which is a pair of packets with none
//! between them; an edge for each two packets that conflict, grey where fences order them and red where they don't;
//! and a red edge from a packet that can never complete to each such packet that it waits for.
#![tactic(auto)]

mod drawing;
mod edges;
mod fault;
mod judging;
mod nodes;
mod pairs;
mod part;
mod rows;
mod rule;
mod ruling;
mod sight;
mod stuck;
mod turns;
mod wait;
mod waiting;
mod words;

pub use drawing::graph;
pub use edges::{awaited_by, named_by};
pub use fault::GraphFault;
pub use judging::found_of;
pub use nodes::{Work, work_of};
pub use rule::Rule;
pub use ruling::rule_in;
pub use stuck::{Stuck, stuck_of};
pub use wait::Wait;
pub use waiting::wait_at;
pub use words::NameWord;
