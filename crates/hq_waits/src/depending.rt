//! Which packets complete on the dependencies of which.

ghost use Rattle.std.specs.Prelude.{◌≡◌, ◌↔◌, ◌⊎◌, IsTrue, ◌<◌, ℕ, length};
ghost use Rattle.hq_job.specs.Plan.{plan};
ghost use Rattle.hq_bits.specs.Bits.{has};
ghost use Rattle.hq_rows.specs.Lists.{AllAre};
ghost use Rattle.hq_waits.specs.Waits.{Completing, OfDependencies};

use hq_bits::unite;
use hq_job::Job;

/// Takes in the packets that complete on a dependency of a packet.
pub fn unite_dependencies(job: &Job, completing: &[Vec<u64>], number: usize, row: &mut [u64])
    requires number { number < length job.now.packets }
    requires completing { AllAre
        (λ s set. Completing (plan job.now) s set.items × (length set.items ≡ length row.old)) completing.now }
    requires count { length completing.now ≡ length job.now.signals }
    ensures taken { (e : ℕ) → IsTrue (has row.new e)
        ↔ (IsTrue (has row.old e) ⊎ OfDependencies (plan job.now) number e) }
    ensures len { length row.new ≡ length row.old }
{
    job.valid();
    for slot in job.slots(number) {
        if let Some(signal) = slot {
            unite(row, &completing[*signal as usize]);
        }
    }
}
