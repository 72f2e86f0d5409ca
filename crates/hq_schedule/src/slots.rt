//! Which packets a packet's slot waits for.

ghost use Rattle.std.specs.Prelude.{◌≡◌, ◌↔◌, IsTrue, ◌<◌, ℕ, length, IfOk};
ghost use Rattle.hq_job.specs.Plan.{plan};
ghost use Rattle.hq_model.specs.Order.{FreesFor, place};
ghost use Rattle.hq_bits.specs.Bits.{has};
ghost use Rattle.hq_schedule.specs.Placing.{AreSlots, CanFree};

use hq_job::Job;
use std::alloc::{AllocError, Global};

/// When a packet is submitted.
pub fn turn(job: &Job, number: usize) -> usize
    requires { number < length job.now.packets }
    ensures turn { result ≡ place job.now.submissions number }
    ensures below { result < length job.now.submissions }
{
    job.valid();
    for (turn, submitted) in job.submissions().iter().enumerate() {
        if *submitted as usize == number {
            return turn;
        }
    }
    0
}

/// The packets that free the slot of a packet, or that of one submitted before it.
fn slot_row(
    alloc: Global,
    job: &Job,
    freeing: &[Vec<u64>],
    words: usize,
    number: usize,
) -> Result<Vec<u64>, AllocError>
    requires number { number < length job.now.packets }
    requires freeing { CanFree (plan job.now) words freeing.now }
    requires rings { IsTrue (plan job.now).rings }
    ensures row { IfOk result (λ row. (e : ℕ) → IsTrue (has row.items e) ↔ FreesFor (plan job.now) e number) }
    ensures len { IfOk result (λ row. length row.items ≡ words) }
{
    let row = freeing[turn(job, number)].to_vec(alloc)?;
    Ok(row)
}

/// The same for each packet where queues are rings, and nothing where they aren't.
pub fn slots(
    alloc: Global,
    job: &Job,
    freeing: &[Vec<u64>],
    words: usize,
) -> Result<Vec<Vec<u64>>, AllocError>
    requires { CanFree (plan job.now) words freeing.now }
    ensures { IfOk result (λ rows. AreSlots (plan job.now) words rows.items) }
{
    let mut rows = Vec::new(alloc);
    if !job.rings() {
        return Ok(rows);
    }
    for number in 0..job.packets().len() {
        rows.push(slot_row(alloc, job, freeing, words, number)?)?;
    }
    Ok(rows)
}
