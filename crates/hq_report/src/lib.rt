//! The texts of the program's answers: refusals by their codes, and packets as `show` prints them.
//!
//! Each is a value that displays itself; what it displays is its definition's text.
#![tactic(auto)]

mod refusals;
mod shown;
mod spots;

pub use refusals::{FootCode, JobRefusal, PacketCode, PacketRefusal, ReasonCode};
pub use shown::{KindWord, ScopeWord, ShownPacket};
pub use spots::{OffsetText, Spot, spot_of};
