//! Which packets' ranges are out, and the pieces of memory that packets are handed.
#![tactic(auto)]

mod fault;
mod grants;
mod piece;
mod tray;

pub use fault::GrantFault;
pub use grants::{Grant, Grants};
pub use piece::Piece;
pub use tray::{Home, Tray};
