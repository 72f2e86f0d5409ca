//! A job's text as far as its lines were taken in.

ghost use Rattle.std.specs.Prelude.{List, ℕ, []};
ghost use Rattle.hq_jobtext.specs.SoFar.{HasFault, HasTaken, ReadOf};

use crate::draft::Draft;
use crate::fault::JobFault;
use crate::reading::NO_MEMORY;
use hq_job::Job;
use hq_text::TakesLines;
use std::alloc::Global;
use std::marker::Model;

/// What the lines of a job's text left so far.
#[derive(Drop)]
pub struct Progress {
    draft: Draft,
}

impl Model for Progress {
    ghost use Rattle.hq_jobtext.specs.SoFar.{SoFar};
    ghost use Rattle.hq_jobtext.specs.DraftView.{so_far};
    ghost use Rattle.hq_tables.specs.Fits.{TablesFit};
    ghost use Rattle.hq_tables.specs.TablesView.{tables_of};

    ghost Value = { SoFar };

    ghost view = { λ p. so_far p.draft };

    ghost invariant = { λ p. TablesFit (tables_of p.draft.tables) };
}

impl Progress {
    /// Before the first line.
    pub fn new(alloc: Global) -> Progress
        ensures { HasTaken [] result }
    {
        Progress {
            draft: Draft::new(alloc),
        }
    }

    /// The job of the lines, or what is wrong with a text of them.
    pub fn finish(self, alloc: Global) -> Result<Job, JobFault>
        ensures { (lines : List (List ℕ)) → HasTaken lines self → ReadOf (λ j. j) result lines }
    {
        self.draft.finish(alloc)
    }
}

impl TakesLines for Progress {
    type Fault = JobFault;

    ghost Took = { λ _ lines progress. HasTaken lines progress };

    ghost Refuses = { HasFault };

    fn take_lines(&mut self, alloc: Global, text: &[u8]) -> Result<(), JobFault> {
        self.draft.take_lines(alloc, text)
    }

    fn no_memory() -> JobFault {
        NO_MEMORY
    }
}
