//! Tests of runs: with bodies that fail or wait for each other, with gates that hold packets back, event by event
//! in a hall, and call by call at a board.
//!
//! What runs with stock bodies leave is tested by the program's rows and by `tests/soak`.
#![tactic(auto)]

#[cfg(test)]
mod boards;
#[cfg(test)]
mod bodies;
#[cfg(test)]
mod driving;
#[cfg(test)]
mod faults;
#[cfg(test)]
mod gates;
#[cfg(test)]
mod halls;
#[cfg(test)]
mod jobs;
#[cfg(test)]
mod meetings;
#[cfg(test)]
mod rows;
#[cfg(test)]
mod seats;
#[cfg(test)]
mod texts;
