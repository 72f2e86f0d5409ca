//! Who works out the rounds of an order: the caller's thread alone, or several. What is found is the same.

ghost use Rattle.std.specs.Prelude.{◌≡◌, ◌*◌, ◌<◌, ◌≤◌, ◌↔◌, ℕ, IfOk, length};
ghost use Rattle.hq_job.specs.Plan.{plan};
ghost use Rattle.hq_bits.specs.Bits.{Grown};
ghost use Rattle.hq_rows.specs.Lists.{AllAre};
ghost use Rattle.hq_rows.specs.Matrix.{row, words_for, Marks, IsSquare, AreTurned};
ghost use Rattle.hq_rows.specs.Uniting.{CanUnite, Stepped};
ghost use Rattle.hq_waits.specs.Waits.{Completing};
ghost use Rattle.hq_order.specs.Rounds.{Next};

use crate::rounds::{has_no_either, next_rows};
use crate::wide::{next_rows_wide, turned_wide};
use hq_job::Job;
use hq_rows::{Known, all_turned};
use std::alloc::{AllocError, Global};
use std::thread::Threads;

/// The caller's thread.
#[derive(Clone, Copy)]
pub struct Alone;

/// Several threads, started by this runtime.
#[derive(Clone, Copy)]
pub struct Together<'a, R> {
    pub rt: &'a R,
}

/// What works out rounds.
pub trait Hands {
    /// The rows after one more round. Notes the packets before which an either puts more than the rows give.
    fn next_rows(
        &self,
        alloc: Global,
        job: &Job,
        completing: &[Vec<u64>],
        known: &Known,
        renewed: &mut [u64],
    ) -> Result<Vec<Vec<u64>>, AllocError>
        requires square { IsSquare (length job.now.packets) known.now.rows.now }
        requires unions { CanUnite known.now.rows.now (words_for (length job.now.packets)) known.now.unions.now }
        requires stepped { Stepped known.now.earlier.now known.now.rows.now known.now.renewed.now }
        requires completing { AllAre
            (λ s set. Completing (plan job.now) s set.items
            × (length set.items ≡ words_for (length job.now.packets))) completing.now }
        requires signals { length completing.now ≡ length job.now.signals }
        requires room { length known.now.rows.now ≤ length renewed.old * 64 }
        ensures square { IfOk result (λ new. IsSquare (length job.now.packets) new.items) }
        ensures grown { IfOk result
            (λ new. (r : ℕ) → Grown (row known.now.rows.now r) (row new.items r)) }
        ensures exact { IfOk result
            (λ new. (p r : ℕ) → Marks new.items p r ↔ Next (plan job.now) (Marks known.now.rows.now) p r) }
        ensures stepped { IfOk result (λ new. Stepped known.now.rows.now new.items renewed.new) };

    /// The rows of each round but the last turned round.
    fn all_turned(
        &self,
        alloc: Global,
        rounds: &[Vec<Vec<u64>>],
    ) -> Result<Vec<Vec<u64>>, AllocError>
        requires { 0 < length rounds.now }
        ensures { IfOk result (λ tables. AreTurned rounds.now tables.items) };
}

impl Hands for Alone {
    fn next_rows(
        &self,
        alloc: Global,
        job: &Job,
        completing: &[Vec<u64>],
        known: &Known,
        renewed: &mut [u64],
    ) -> Result<Vec<Vec<u64>>, AllocError> {
        next_rows(alloc, job, completing, known, renewed)
    }

    fn all_turned(
        &self,
        alloc: Global,
        rounds: &[Vec<Vec<u64>>],
    ) -> Result<Vec<Vec<u64>>, AllocError> {
        all_turned(alloc, rounds)
    }
}

impl<'a, R: Threads> Hands for Together<'a, R> {
    /// Where the unions of many packets are there, much is to be gone through.
    fn next_rows(
        &self,
        alloc: Global,
        job: &Job,
        completing: &[Vec<u64>],
        known: &Known,
        renewed: &mut [u64],
    ) -> Result<Vec<Vec<u64>>, AllocError> {
        if !known.unions.is_empty() && has_no_either(job) {
            return next_rows_wide(self.rt, alloc, job, known);
        }
        next_rows(alloc, job, completing, known, renewed)
    }

    fn all_turned(
        &self,
        alloc: Global,
        rounds: &[Vec<Vec<u64>>],
    ) -> Result<Vec<Vec<u64>>, AllocError> {
        turned_wide(self.rt, alloc, rounds)
    }
}
