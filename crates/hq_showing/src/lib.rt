//! The commands that show packets and judge nothing, over any reader and any writer: `show` lists a job's packets,
//! and `pack` puts the 64 bytes of one packet together.
#![tactic(auto)]

mod fields;
pub mod laws;
mod pack;
mod show;

pub use pack::pack_engine;
pub use show::show_engine;
