//! Whether a job isn't ordered, foreseen by the order alone: two packets conflict, and neither is before the other.

ghost use Rattle.std.specs.Prelude.{◌≡◌, ◌≤◌, ◌<◌, ℕ, IfOk, IsTrue, length};
ghost use Rattle.hq_job.specs.Plan.{plan};
ghost use Rattle.hq_model.specs.Fence.{Ordered};
ghost use Rattle.hq_model.specs.Job.{IsPacket};
ghost use Rattle.hq_bits.specs.Bits.{has};
ghost use Rattle.hq_rows.specs.Matrix.{Marks, row, words_for};
ghost use Rattle.hq_order.specs.View.{AreOf};
ghost use Rattle.hq_parts.specs.Parts.{AreParts};
ghost use Rattle.hq_fence.specs.Judgement.{HaveConflict};
ghost use Rattle.hq_change.specs.Foresight.{AreConflicts, HaveConflicts};

use hq_bits::{WIDTH, WORDS, covers, empty, first_from, insert, take_out};
use hq_fence::have_conflict;
use hq_job::Job;
use hq_order::{Before, Rounds, sweep};
use hq_parts::Parts;
use hq_rows::marks;
use std::alloc::{AllocError, Global};

/// What foresight rests on, whatever heads the packets have.
#[derive(Clone, Copy)]
pub struct Foresight<'a> {
    /// For each packet those with lesser numbers that conflict with it, as bits.
    pub conflicts: &'a [Vec<u64>],
    /// An order list.
    pub order: &'a [u16],
}

/// The packets with lesser numbers that conflict with a packet.
fn conflict_row(
    alloc: Global,
    before: &Before,
    parts: &Parts,
    a: usize,
) -> Result<Vec<u64>, AllocError>
    requires parts { AreParts before.now parts.now }
    requires a_is { IsPacket before.now a }
    ensures len { IfOk result (λ row. length row.items ≡ words_for (length before.now.packets)) }
    ensures conflict { IfOk result (λ row. (b : ℕ) → IsTrue (has row.items b) → (b < a) × HaveConflict before.now b a) }
    ensures all { IfOk result (λ row. (b : ℕ) → b < a → HaveConflict before.now b a → IsTrue (has row.items b)) }
{
    let job = before.job();
    job.valid();
    let others = parts.others(job, a);
    let mut row = empty(alloc, before.ahead(a).len())?;
    let mut b = others.next(job, 0);
    'others: while b < a {
        if have_conflict(job, b, a) {
            insert(&mut row, b);
        }
        b = others.next(job, b + 1);
    }
    Ok(row)
}

/// For each packet those with lesser numbers that conflict with it.
fn conflict_rows(alloc: Global, before: &Before, parts: &Parts) -> Result<Vec<Vec<u64>>, AllocError>
    requires parts { AreParts before.now parts.now }
    ensures conflicts { IfOk result (λ rows. AreConflicts before.now rows.items) }
    ensures all { IfOk result (λ rows. HaveConflicts before.now rows.items) }
{
    let mut rows = Vec::with_capacity(alloc, before.len())?;
    for a in 0..before.len() {
        rows.push(conflict_row(alloc, before, parts, a)?)?;
    }
    Ok(rows)
}

/// For each packet those with lesser numbers that conflict with it; and the rounds, which are handed back.
pub fn conflicts_of(
    alloc: Global,
    job: &Job,
    rounds: Rounds,
    parts: &Parts,
) -> Result<(Vec<Vec<u64>>, Rounds), AllocError>
    requires rounds { AreOf (plan job.now) rounds }
    requires parts { AreParts (plan job.now) parts.now }
    ensures conflicts { IfOk result (λ it. AreConflicts (plan job.now) it.0.items) }
    ensures all { IfOk result (λ it. HaveConflicts (plan job.now) it.0.items) }
    ensures rounds { IfOk result (λ it. AreOf (plan job.now) it.1) }
{
    let before = rounds.over(job);
    let rows = conflict_rows(alloc, &before, parts)?;
    Ok((rows, before.into_rounds()))
}

/// Whether of the packets of a row one isn't before a by the rows, nor a before it.
fn has_apart(
    alloc: Global,
    rows: &[Vec<u64>],
    conflicts: &[u64],
    a: usize,
) -> Result<bool, AllocError>
    requires few { length conflicts.now ≤ WORDS }
    requires width { length (row rows.now a) ≡ length conflicts.now }
    requires a_is { a < length rows.now }
    ensures { IfOk result
        (λ apart. IsTrue apart
        → ((b : ℕ) × IsTrue (has conflicts.now b) × ¬ Marks rows.now b a × ¬ Marks rows.now a b)) }
{
    if covers(&rows[a], conflicts) {
        return Ok(false);
    }
    let mut left = conflicts.to_vec(alloc)?;
    take_out(&mut left, &rows[a]);
    let mut from = 0;
    'each: while from < WIDTH {
        match first_from(&left, from) {
            Some(b) if !marks(rows, a, b) => return Ok(true),
            Some(b) => from = b + 1,
            None => return Ok(false),
        }
    }
    Ok(false)
}

/// Whether two packets conflict of which neither is before the other, as far as that is found quickly: then the job
/// isn't ordered.
pub fn is_apart(alloc: Global, job: &Job, foresight: &Foresight) -> Result<bool, AllocError>
    requires { AreConflicts (plan job.now) foresight.now.conflicts.now }
    ensures { IfOk result (λ apart. IsTrue apart → ¬ Ordered (plan job.now)) }
{
    job.valid();
    let Some(rows) = sweep(alloc, job, foresight.order)? else {
        return Ok(false);
    };
    for a in 0..rows.len() {
        if has_apart(alloc, &rows, &foresight.conflicts[a], a)? {
            return Ok(true);
        }
    }
    Ok(false)
}
