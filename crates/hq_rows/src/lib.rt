//! Tables of rows of bits: the row of a number has those that are before it.
//!
//! A number is a packet's, and tables come round by round, each from the one before it: `last_rows`, `earlier_rows`,
//! `are_same`. `reached` and `through_row` take in what is before the numbers of a set or a row (`Known`), four of them
//! at a time where there are many (`unions_if_many`), and `are_whole` tells whether that brings nothing; `all_turned`
//! turns rows round, so that `between` and `first_turned` answer at once. Nothing here knows of jobs.
#![tactic(auto)]

mod columns;
mod fours;
mod gathering;
mod joining;
mod reaching;
mod skipping;
mod tables;
mod turning;

pub use columns::{all_turned, bare_table, between, row_of, turn_rows};
pub use gathering::{Known, unions_if_many};
pub use joining::{meet_each, note, unite_more};
pub use reaching::{are_whole, reached, through_row, unite_through};
pub use skipping::beyond;
pub use tables::{are_same, earlier_rows, first_turned, last_rows, marks};
