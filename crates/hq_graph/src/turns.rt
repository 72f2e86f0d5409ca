//! When packets are submitted, and which never are: a queue that is a ring has a slot for a packet only where
//! earlier ones are complete.

ghost use Rattle.std.specs.Prelude.{◌≡◌, ◌↔◌, ℕ, ◌<◌, ◌≤◌, IsTrue, IfOk, length, slice_index};
ghost use Rattle.hq_job.specs.Plan.{plan};
ghost use Rattle.hq_model.specs.Job.{Frees, IsPacket};
ghost use Rattle.hq_model.specs.Order.{place};
ghost use Rattle.hq_rows.specs.Lists.{AllAre};
ghost use Rattle.hq_graph.specs.Known.{HasNoSlot};

use hq_bits::has;
use hq_job::Job;
use hq_schedule::turn;
use std::alloc::{AllocError, Global};

/// Whether p has the slot of r.
pub fn has_slot(job: &Job, p: usize, r: usize) -> bool
    requires p_is { IsPacket (plan job.now) p }
    requires r_is { IsPacket (plan job.now) r }
    ensures { IsTrue result ↔ Frees (plan job.now) p r }
{
    let freeing = job.freeing(r);
    freeing.start <= p && p < freeing.end
}

/// When each packet is submitted.
pub fn turns_of(alloc: Global, job: &Job) -> Result<Vec<usize>, AllocError>
    ensures count { IfOk result (λ turns. length turns.items ≡ length job.now.packets) }
    ensures are { IfOk result (λ turns. AllAre (λ p turn. turn ≡ place job.now.submissions p) turns.items) }
{
    let count = job.packets().len();
    let mut turns = Vec::with_capacity(alloc, count)?;
    for number in 0..count {
        turns.push(turn(job, number))?;
    }
    Ok(turns)
}

/// Whether a packet of the set has the slot of r.
fn has_no_slot(job: &Job, set: &[u64], r: usize) -> bool
    requires { IsPacket (plan job.now) r }
    ensures { IsTrue result ↔ HasNoSlot (plan job.now) set.now r }
{
    let freeing = job.freeing(r);
    for q in freeing.start..freeing.end {
        if has(set, q) {
            return true;
        }
    }
    false
}

/// The first turn of a packet whose slot one of the set has, or the number of turns where there is none.
pub fn first_barred(job: &Job, set: &[u64]) -> usize
    ensures upto { result ≤ length job.now.submissions }
    ensures there { result < length job.now.submissions
        → HasNoSlot (plan job.now) set.now (slice_index job.now.submissions result) }
    ensures first { (k : ℕ) → k < result → ¬ HasNoSlot (plan job.now) set.now (slice_index job.now.submissions k) }
{
    job.valid();
    let submissions = job.submissions();
    for (turn, number) in submissions.iter().enumerate() {
        if has_no_slot(job, set, *number as usize) {
            return turn;
        }
    }
    submissions.len()
}
