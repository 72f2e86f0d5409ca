//! The commands that both programs have, on files and the standard streams: `audit`, `check`, `show` and `pack`.
#![tactic(auto)]

mod judging;

pub use judging::judged;
