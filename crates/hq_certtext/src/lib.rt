//! The texts of certificates: their grammar, and how they are printed.
//!
//! The grammar says which lines spell which certificate, and which certificates have a text. `print` writes it by
//! way of a buffer, and a `Printer` line by line.
#![tactic(auto)]

pub mod laws;
mod placing;
mod printer;
mod printing;
mod rows;

pub use printer::Printer;
pub use printing::{PrintFault, WriterFailed, print};
