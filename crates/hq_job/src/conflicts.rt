//! Which packets conflict.

ghost use Rattle.std.specs.Prelude.{◌<◌, length};
ghost use Rattle.hq_job.specs.Conflicts.{HasConflicts};
ghost use Rattle.hq_job.specs.Plan.{plan};

use crate::job::Job;
use hq_footprint::{Kinds, kinds_of};

impl Job {
    /// How two packets conflict, in this order: by a write that the second reads, by two writes, by a read that the
    /// second writes.
    #[inline(always)]
    pub fn kinds(&self, first: usize, second: usize) -> Kinds
        requires first { first < length self.now.packets }
        requires second { second < length self.now.packets }
        ensures { HasConflicts (plan self.now) first second result }
    {
        let first = self.packet(first);
        let second = self.packet(second);
        kinds_of(&first.bytes, &second.bytes)
    }
}
