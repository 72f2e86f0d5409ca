//! Which packets may conflict at all, told at once from the parts of memory that they write and touch.
//!
//! `Parts` is made of a job once; `Parts::others` then gives, for a packet, a set that has all those that it conflicts
//! with, and `Others::next` goes from one of these to the next. That a packet is in the set says nothing; what isn't in
//! it never conflicts.
#![tactic(auto)]

mod parts;

pub use parts::{Others, Parts};
