//! Which packets free the slots of which, where queues are rings.

ghost use Rattle.std.specs.Prelude.{◌≡◌, ◌↔◌, ◌⊎◌, IsTrue, ◌*◌, ◌<◌, ◌≤◌, ℕ, length, IfOk, OnOk};
ghost use Rattle.hq_job.specs.Plan.{plan};
ghost use Rattle.hq_model.specs.Job.{Frees};
ghost use Rattle.hq_bits.specs.Bits.{has};
ghost use Rattle.hq_rows.specs.Lists.{AllAre};
ghost use Rattle.hq_schedule.specs.Placing.{CanFree, Freeing};

use hq_bits::insert_all;
use hq_job::Job;
use std::alloc::{AllocError, Global};

/// Takes in the packets that free a packet's slot.
fn insert_freeing(job: &Job, number: usize, row: &mut [u64])
    requires number { number < length job.now.packets }
    requires room { length job.now.packets ≤ length row.old * 64 }
    ensures taken { (e : ℕ) → IsTrue (has row.new e) ↔ (IsTrue (has row.old e) ⊎ Frees (plan job.now) e number) }
    ensures len { length row.new ≡ length row.old }
{
    let freeing = job.freeing(number);
    insert_all(row, freeing.start, freeing.end);
}

/// Pushes, for each submission in order, the set of the packets that free its slot or that of one before it.
fn push_freeing(
    alloc: Global,
    job: &Job,
    row: &mut [u64],
    rows: &mut Vec<Vec<u64>>,
) -> Result<(), AllocError>
    requires room { length job.now.packets ≤ length row.old * 64 }
    requires empty { (e : ℕ) → IsTrue (has row.old e) → ⊥ }
    requires no_rows { length rows.old.items ≡ 0 }
    ensures { OnOk result
        (AllAre (λ k set. Freeing (plan job.now) k set.items × (length set.items ≡ length row.old)) rows.new.items
        × (length rows.new.items ≡ length job.now.submissions)) }
{
    job.valid();
    for number in job.submissions() {
        insert_freeing(job, *number as usize, row);
        rows.push(row.to_vec(alloc)?)?;
    }
    Ok(())
}

/// For each submission, in order, the set of the packets that free its slot or that of one before it.
fn all_freeing(alloc: Global, job: &Job, words: usize) -> Result<Vec<Vec<u64>>, AllocError>
    requires room { length job.now.packets ≤ words * 64 }
    ensures rows { IfOk result
        (λ rows. AllAre (λ k row. Freeing (plan job.now) k row.items × (length row.items ≡ words)) rows.items) }
    ensures count { IfOk result (λ rows. length rows.items ≡ length job.now.submissions) }
{
    let mut rows = Vec::with_capacity(alloc, job.submissions().len())?;
    let mut row = vec![in alloc; 0; words]?;
    push_freeing(alloc, job, &mut row, &mut rows)?;
    Ok(rows)
}

/// The same where queues are rings, and nothing where they aren't.
pub fn freeing(alloc: Global, job: &Job, words: usize) -> Result<Vec<Vec<u64>>, AllocError>
    requires { length job.now.packets ≤ words * 64 }
    ensures { IfOk result (λ rows. CanFree (plan job.now) words rows.items) }
{
    if !job.rings() {
        return Ok(Vec::new(alloc));
    }
    all_freeing(alloc, job, words)
}
