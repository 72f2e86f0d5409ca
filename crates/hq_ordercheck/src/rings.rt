//! Whether what frees a packet's slot stands ahead of it, where queues are rings.

ghost use Rattle.std.specs.Prelude.{◌≡◌, ℕ, ◌<◌, ◌≤◌, ◌↔◌, IsTrue, length, slice_index};
ghost use Rattle.hq_job.specs.Plan.{plan};
ghost use Rattle.hq_model.specs.Job.{IsPacket, Frees};
ghost use Rattle.hq_ordercheck.specs.Placed.{HasSlot};

use hq_job::Job;

/// The least place of m and the packets that are submitted after it.
fn least_from(turns: &[usize], places: &[usize], m: usize) -> usize
    requires count { length turns.now ≡ length places.now }
    requires m_is { m < length places.now }
    ensures { (b : ℕ) → b < result
        ↔ ((r : ℕ) → r < length places.now → slice_index turns.now m ≤ slice_index turns.now r
        → b < slice_index places.now r) }
{
    let mut least = places[m];
    for r in 0..places.len() {
        if turns[m] <= turns[r] && places[r] < least {
            least = places[r];
        }
    }
    least
}

/// Whether all that free m's slot have places below the limit.
fn free_below(job: &Job, places: &[usize], m: usize, limit: usize) -> bool
    requires count { length places.now ≡ length job.now.packets }
    requires m_is { m < length job.now.packets }
    ensures { IsTrue result ↔ ((p : ℕ) → Frees (plan job.now) p m → slice_index places.now p < limit) }
{
    let freeing = job.freeing(m);
    for p in freeing.start..freeing.end {
        if places[p] >= limit {
            return false;
        }
    }
    true
}

/// Whether all that free m's slot stand ahead of m and of what is submitted after it.
fn has_slot(job: &Job, turns: &[usize], places: &[usize], m: usize) -> bool
    requires turns { length turns.now ≡ length job.now.packets }
    requires count { length places.now ≡ length job.now.packets }
    requires m_is { m < length job.now.packets }
    ensures { IsTrue result ↔ HasSlot (plan job.now) turns.now places.now m }
{
    free_below(job, places, m, least_from(turns, places, m))
}

/// Whether each packet stands behind what frees its slot, or that of a packet submitted before it.
pub fn all_have_slots(job: &Job, turns: &[usize], places: &[usize]) -> bool
    requires turns { length turns.now ≡ length job.now.packets }
    requires count { length places.now ≡ length job.now.packets }
    ensures { IsTrue result ↔ ((m : ℕ) → IsPacket (plan job.now) m → HasSlot (plan job.now) turns.now places.now m) }
{
    if !job.rings() {
        return true;
    }
    for m in 0..job.packets().len() {
        if !has_slot(job, turns, places, m) {
            return false;
        }
    }
    true
}
