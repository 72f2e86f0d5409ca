//! What comes before a packet by a rule that rests on no other pair.

ghost use Rattle.std.specs.Prelude.{◌≡◌, ℕ, ◌-◌, ◌<◌, ◌↔◌, ◌⊎◌, ◌*◌, ◌≤◌, IsTrue, IfOk, OnOk, length};
ghost use Rattle.hq_job.specs.Plan.{plan};
ghost use Rattle.hq_model.specs.Job.{IsPacket};
ghost use Rattle.hq_bits.specs.Bits.{has};
ghost use Rattle.hq_rows.specs.Matrix.{row};
ghost use Rattle.hq_rows.specs.Lists.{AllAre};
ghost use Rattle.hq_waits.specs.Waits.{Completing};
ghost use Rattle.hq_order.specs.Rounds.{Precedes, Awaits, Direct};

use hq_bits::{clear, full, insert, insert_all, unite};
use hq_job::Job;
use hq_packet::Packet;
use hq_rows::meet_each;
use hq_waits::unite_dependencies;
use std::alloc::{AllocError, Global};

/// Goes on from the packets that r - 1 stays behind as it is launched to those that r does.
pub fn go_on(ahead: &mut [u64], job: &Job, r: usize)
    requires r_is { IsPacket (plan job.now) r }
    requires room { length job.now.packets ≤ length ahead.old * 64 }
    requires ahead { (p : ℕ) → IsTrue (has ahead.old p) ↔ ((0 < r) × Precedes (plan job.now) p (r - 1)) }
    ensures { (p : ℕ) → IsTrue (has ahead.new p) ↔ Precedes (plan job.now) p r }
{
    job.valid();
    let start = job.queue_of(r).start;
    if r <= start {
        clear(ahead);
    } else if job.has_bit(r) {
        insert_all(ahead, start, r);
    } else if job.is_barrier(r - 1) {
        insert(ahead, r - 1);
    }
}

/// Takes in the packets that r, a barrier packet, waits for itself, whichever of its dependencies is over.
fn unite_awaited(
    alloc: Global,
    row: &mut [u64],
    job: &Job,
    completing: &[Vec<u64>],
    r: usize,
) -> Result<(), AllocError>
    requires r_is { IsPacket (plan job.now) r }
    requires room { length job.now.packets ≤ length row.old * 64 }
    requires completing { AllAre
        (λ s set. Completing (plan job.now) s set.items × (length set.items ≡ length row.old)) completing.now }
    requires signals { length completing.now ≡ length job.now.signals }
    ensures { OnOk result ((p : ℕ) → IsTrue (has row.new p) ↔ (IsTrue (has row.old p) ⊎ Awaits (plan job.now) p r)) }
{
    job.valid();
    let placed = job.packet(r);
    match placed.packet {
        Packet::And(_) => unite_dependencies(job, completing, r, row),
        Packet::Or(_) => {
            let mut shared = full(alloc, row.len())?;
            meet_each(&mut shared, completing, &placed.slots);
            unite(row, &shared);
        }
        _ => {}
    }
    Ok(())
}

/// The packets that are before r by these rules; `ahead` has those that r stays behind as it is launched.
pub fn direct_row(
    alloc: Global,
    job: &Job,
    completing: &[Vec<u64>],
    ahead: &[u64],
    r: usize,
) -> Result<Vec<u64>, AllocError>
    requires r_is { IsPacket (plan job.now) r }
    requires room { length job.now.packets ≤ length ahead.now * 64 }
    requires completing { AllAre
        (λ s set. Completing (plan job.now) s set.items × (length set.items ≡ length ahead.now)) completing.now }
    requires signals { length completing.now ≡ length job.now.signals }
    requires ahead { (p : ℕ) → IsTrue (has ahead.now p) ↔ Precedes (plan job.now) p r }
    ensures len { IfOk result (λ row. length row.items ≡ length ahead.now) }
    ensures exact { IfOk result (λ row. (p : ℕ) → IsTrue (has row.items p) ↔ Direct (plan job.now) p r) }
{
    let mut row = ahead.to_vec(alloc)?;
    unite_awaited(alloc, &mut row, job, completing, r)?;
    Ok(row)
}
