//! The commands that judge, `audit` and `check`, each over any reader and any writer.
//!
//! An engine reads its input, writes the report of it, and answers the status that the program ends with. The
//! report is of the text that the reader gave, turn by turn and up to its end, whatever reader it is; or of the
//! reader's failure, where it failed.
#![tactic(auto)]

mod audit;
mod bodies;
mod check;
mod check_alone;
mod checking;
mod checking_wide;
mod chunk;
mod chunks;
mod giving;
mod giving_wide;
pub mod laws;
mod piece;
mod place;
mod readers;
mod stuck;

pub use audit::{audit_engine, audit_wide_engine, say_no_certificate};
pub use check::check_engine;
pub use check_alone::check_alone_engine;
