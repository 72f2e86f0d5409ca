//! A journal as far as its lines were taken in.

ghost use Rattle.std.specs.Prelude.{List, ℕ, []};
ghost use Rattle.hq_timeline.specs.Gives.{HasFault, ReadOf};
ghost use Rattle.hq_timeline.specs.SoFar.{HasTaken};

use crate::draft::Draft;
use crate::fault::TimeFault;
use crate::reading::{NO_MEMORY, finished, take_lines};
use hq_machine::Journal;
use hq_text::TakesLines;
use std::alloc::Global;

/// What the lines of a timeline left so far, and how many they are.
#[derive(Drop)]
pub struct Progress {
    draft: Draft,
    count: usize,
}

impl Progress {
    /// Before the first line.
    pub fn new(alloc: Global) -> Progress
        ensures { HasTaken [] result }
    {
        Progress {
            draft: Draft::new(alloc),
            count: 0,
        }
    }

    /// The journal of the lines, or that they have no end.
    pub fn finish(self) -> Result<Journal, TimeFault>
        ensures { (lines : List (List ℕ)) → HasTaken lines self → ReadOf result lines }
    {
        finished(self.draft, self.count)
    }
}

impl TakesLines for Progress {
    type Fault = TimeFault;

    ghost Took = { λ _ lines progress. HasTaken lines progress };

    ghost Refuses = { HasFault };

    fn take_lines(&mut self, _alloc: Global, text: &[u8]) -> Result<(), TimeFault> {
        self.count = take_lines(&mut self.draft, self.count, text)?;
        Ok(())
    }

    fn no_memory() -> TimeFault {
        NO_MEMORY
    }
}
