//! Who makes lines and looks whether they follow: the caller's thread alone, or several. What is found is the same.

ghost use Rattle.std.specs.Prelude.{IsTrue, OnOk, length};
ghost use Rattle.hq_derive.specs.Gathered.{AreSound, Begins};
ghost use Rattle.hq_derive.specs.Through.{AreThrough};

use crate::beginning::begin_wide;
use crate::gathering::add_initial;
use crate::later::Later;
use crate::lines::Lines;
use crate::needs::Needs;
use crate::numbering::PARTS;
use crate::ranks::Ranks;
use crate::short::Short;
use crate::store::Store;
use crate::through::{are_through, are_through_wide};
use hq_order::{Alone, Before, Together, has_no_either};
use std::alloc::{AllocError, Global};
use std::thread::Threads;

/// How many lines of later rounds are worth more threads than one.
const MANY: usize = 16_384;

/// What makes lines, and looks at them.
pub trait MakesLines {
    /// Adds the needed lines of round 0, and makes those of later rounds, or leaves them to be added one by one.
    ///
    /// # Errors
    ///
    /// `AllocError` where there is no memory, or a line of round 0 isn't so.
    fn begin(
        &self,
        lines: &mut Lines,
        alloc: Global,
        before: &Before,
        ranks: &Ranks,
        needs: &Needs,
    ) -> Result<Later, AllocError>
        requires { AreSound before.now lines.old }
        ensures { OnOk result (Begins before.now ranks.now lines.old lines.new) };

    /// Whether each follows through two lines ahead of it.
    fn are_through(&self, ahead: &Store, lines: &[Short]) -> bool
        ensures { IsTrue result → AreThrough ahead.now lines.now 0 (length lines.now) };
}

impl MakesLines for Alone {
    /// Lines are made where it was kept through which packets they go.
    fn begin(
        &self,
        lines: &mut Lines,
        alloc: Global,
        before: &Before,
        ranks: &Ranks,
        needs: &Needs,
    ) -> Result<Later, AllocError> {
        add_initial(lines, alloc, before, ranks)?;
        match needs.middles() {
            Some(middles) => Later::through(alloc, ranks, middles),
            None => Later::unmade(alloc, ranks),
        }
    }

    fn are_through(&self, ahead: &Store, lines: &[Short]) -> bool {
        are_through(ahead, lines)
    }
}

impl<'a, R: Threads> MakesLines for Together<'a, R> {
    /// Lines are made where no packet is a barrier-OR.
    fn begin(
        &self,
        lines: &mut Lines,
        alloc: Global,
        before: &Before,
        ranks: &Ranks,
        _needs: &Needs,
    ) -> Result<Later, AllocError> {
        let can_be_made = has_no_either(before.job());
        if can_be_made && ranks.later() >= MANY {
            return begin_wide(self.rt, lines, alloc, before, ranks);
        }
        add_initial(lines, alloc, before, ranks)?;
        if can_be_made {
            return Later::sought(alloc, before, ranks);
        }
        Later::unmade(alloc, ranks)
    }

    fn are_through(&self, ahead: &Store, lines: &[Short]) -> bool {
        if lines.len() < MANY {
            return Alone.are_through(ahead, lines);
        }
        are_through_wide(self.rt, ahead, lines, PARTS)
    }
}
