//! The lines of a certificate: that one packet is before another, each by a rule, and from which lines ahead of it.
//!
//! `Needs` notes which packets a certificate has to say of that one is before the other. `lines_for` then gives a line
//! for each of these, and one for each that such lines rest on, behind those that it cites: by what is known of the
//! order alone, whatever the lines are needed for. `Lines` is the table of them: it answers the number of each line
//! that is there.
#![tactic(auto)]

mod beginning;
mod gathering;
mod grounds;
mod hands;
mod kept;
mod later;
mod lines;
mod lone;
mod making;
mod needs;
mod numbering;
mod ranks;
mod resting;
mod short;
mod shorts;
mod store;
mod there;
mod through;
mod told;

pub use gathering::lines_for;
pub use hands::MakesLines;
pub use lines::Lines;
pub use needs::Needs;
pub use told::Told;
