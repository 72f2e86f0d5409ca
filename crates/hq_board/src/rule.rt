//! The rule of the board's words, and what a step on one of them adds and tells.

use crate::entry::View;
use atomic_table::{Play, Split, TableRule};
use hq_job::Job;
use std::marker::{Brand, PhantomData};

/// The rule, for the job that the table was made for.
pub struct ByJob;

impl TableRule<u64, View, Job> for ByJob {
    ghost use Rattle.hq_job.specs.Plan.{plan};
    ghost use Rattle.hq_board.specs.Rule.{HasHistory, dealer};

    ghost holds = { λ job s. HasHistory (plan job) s.words s.views };

    ghost first = { λ job. dealer 0 };
}

/// Names the entry that a step adds, by the number that it finds, and what is known of that number. Each call picks
/// both.
pub trait Asked {
    ghost use Rattle.std.specs.Prelude.{ℕ};
    ghost use Rattle.hq_board.specs.declared.entry.Entry.{Entry};

    ghost entry: { ℕ → Entry };

    ghost told: { ℕ → Type 0 };
}

impl Asked for Brand {
    ghost use Rattle.hq_board.specs.declared.entry.Entry.TheVariants.{DidLaunch};

    ghost entry = { λ n. DidLaunch 0 };

    ghost told = { λ n. Unit {0} };
}

/// A step that adds the entry to the seat's list.
pub struct Adds<J> {
    of: PhantomData<J>,
}

impl<J: Asked> Play<u64, View> for Adds<J> {
    ghost use Rattle.std.specs.Prelude.{◌≡◌};
    ghost use Rattle.hq_board.specs.Rule.{added};

    ghost then = { λ s me n w. (w ≡ (added me.0 (J.entry n), me.1)) × J.told n };
}

/// The next queue's seat is handed out.
pub struct NextQueue;

impl Split<View> for NextQueue {
    ghost use Rattle.std.specs.Prelude.{◌+◌};
    ghost use Rattle.hq_board.specs.Rule.{dealer, newcomer};

    ghost left = { λ v. dealer (v.queue + 1) };

    ghost right = { λ v. newcomer v.queue };
}
