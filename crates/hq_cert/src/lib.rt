//! Certificates of order, as values.
//!
//! A certificate has an order of the packets, lines that each conclude that one packet comes before another, and
//! pair lines that say of two conflicting packets which fences order them. Nothing here knows whether it holds:
//! that is for a checker to say. Nor has it a text here: what makes a certificate and what checks it stand on its
//! value alone.
#![tactic(auto)]

mod certificate;
mod citation;

pub use certificate::{Branches, Certificate, Fences, Line, Pair, ReadChain, Rule, WriteChain};
pub use citation::Citation;
