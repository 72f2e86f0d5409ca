//! Two runs of a refused job in which a byte comes from elsewhere.
//!
//! The *origin* of a byte is the packet whose store it is, or the start; copies carry it as they carry the byte. A
//! *witness* of a job that isn't ordered is two runs of it that complete every packet and to which no work is left,
//! after which an entry that some packet has read, or a byte of memory, has one origin in the one run and another
//! in the other. `witness` looks for one for the conflict that an audit refuses. The runs are made by the machine's
//! own steps, one by one.
#![tactic(auto)]

mod attempt;
mod difference;
mod eager;
mod fault;
mod finding;
mod late;
mod origin;
mod packets;
mod place;
mod recording;
mod table;
mod target;
mod trace;
mod value;

pub use fault::WitnessNo;
pub use finding::witness;
pub use hq_finding::{Kind, Why};
pub use origin::Origin;
pub use place::Place;
pub use value::Witness;
