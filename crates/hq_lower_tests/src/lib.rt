//! Tests of the lower crates, and of those beside them, by examples from outside: each public call once with ample
//! memory, and what it refuses. A module for each crate.
//!
//! Tests stand in crates of their own, so that the gate proves the crates that they are of only once.
#![tactic(auto)]

#[cfg(test)]
mod copies;
#[cfg(test)]
mod footprints;
#[cfg(test)]
mod jobs;
#[cfg(test)]
mod kernels;
#[cfg(test)]
mod ledgers;
#[cfg(test)]
mod lines;
#[cfg(test)]
mod packets;
#[cfg(test)]
mod reports;
#[cfg(test)]
mod signals;
#[cfg(test)]
mod texts;
#[cfg(test)]
mod words;
