//! Whether the conflicts of two packets are ordered, and by which fences.
//!
//! `judge` answers for two packets, the first before the second. It takes the first release and the first acquire
//! by one packet each that serve. Where there are none, and system scope is needed, chains serve too: then it takes
//! the first packet that releases, in its queue from the first of the two on, and of the packets that end that
//! chain, begin the other and end that, in this order, the ones of the least numbers. `have_conflict` says whether
//! two packets conflict at all. `judge_at_once` answers the same as `judge` or nothing, and costs less.
#![tactic(auto)]

mod circuit;
mod fences;
mod judging;
mod search;
mod shown;

pub use judging::{have_conflict, judge, judge_at_once, judge_kinds};
pub use shown::{Acquire, NotShown, Release, Shown};
