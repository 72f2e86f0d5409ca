//! Tests of the crates that judge, replay and answer, by examples from outside: each public call once with ample
//! memory, and what it refuses. A module for each crate or two.
#![tactic(auto)]

#[cfg(test)]
mod audits;
#[cfg(test)]
mod certificates;
#[cfg(test)]
mod checks;
#[cfg(test)]
mod engines;
#[cfg(test)]
mod fences;
#[cfg(test)]
mod jobs;
#[cfg(test)]
mod machines;
#[cfg(test)]
mod orders;
#[cfg(test)]
mod readers;
#[cfg(test)]
mod timelines;
#[cfg(test)]
mod witnesses;
