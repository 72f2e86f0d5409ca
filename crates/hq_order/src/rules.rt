//! By which rules of the order, each for itself, one packet is before another.

ghost use Rattle.std.specs.Prelude.{◌≡◌, ◌↔◌, ℕ, ◌<◌, ◌≤◌, IfSome, IsTrue, MatchOption, Some, length, slice_get};
ghost use Rattle.hq_job.specs.Plan.{plan};
ghost use Rattle.hq_model.specs.Order.{ByAnd, ByBit, ByQueue};

use hq_job::Job;
use hq_packet::Packet;

/// Whether a packet of p's and r's queue, behind p and no later than r, has the barrier bit.
fn is_bit(job: &Job, p: usize, r: usize, j: usize) -> bool
    requires r_is { r < length (plan job.now).packets }
    requires behind { p < j }
    requires upto { j ≤ r }
    ensures { IsTrue result ↔ ByBit (plan job.now) p r j }
{
    let queue = job.packet(r).queue;
    let placed = job.packet(j);
    job.packet(p).queue == queue && placed.queue == queue && placed.packet.head().barrier
}

/// The least packet by whose barrier bit `p` is before `r`, where there is one. Where the two stand in one queue,
/// so do all between them.
pub fn bit_between(job: &Job, p: usize, r: usize) -> Option<usize>
    requires p_is { p < length (plan job.now).packets }
    requires r_is { r < length (plan job.now).packets }
    ensures few { IfSome result (λ j. j < length job.now.packets) }
    ensures first { MatchOption result ((j : ℕ) → ByBit (plan job.now) p r j → ⊥) (λ j. ByBit (plan job.now) p r j) }
{
    job.valid();
    if job.packet(p).queue != job.packet(r).queue {
        return None;
    }
    for j in p + 1..r + 1 {
        if is_bit(job, p, r, j) {
            return Some(j);
        }
    }
    None
}

/// Whether `p` is a barrier packet that stands ahead of `r` in its queue.
pub fn is_held(job: &Job, p: usize, r: usize) -> bool
    requires p_is { p < length (plan job.now).packets }
    requires r_is { r < length (plan job.now).packets }
    ensures { IsTrue result ↔ ByQueue (plan job.now) p r }
{
    p < r && job.same_queue(p, r) && job.is_barrier(p)
}

/// The first slot that names the signal.
fn slot_naming(slots: &[Option<u16>], signal: u16) -> Option<usize>
    ensures few { IfSome result (λ slot. slot < length slots.now) }
    ensures first { MatchOption result ((slot : ℕ) → slice_get slots.now slot ≡ Some (Some signal) → ⊥)
        (λ slot. slice_get slots.now slot ≡ Some (Some signal)) }
{
    for (slot, named) in slots.iter().enumerate() {
        if *named == Some(signal) {
            return Some(slot);
        }
    }
    None
}

/// The first slot of the barrier-AND `r` whose signal `p` completes on, where there is one.
pub fn slot_of(job: &Job, p: usize, r: usize) -> Option<usize>
    requires p_is { p < length (plan job.now).packets }
    requires r_is { r < length (plan job.now).packets }
    ensures few { IfSome result (λ slot. slot < 5) }
    ensures first { MatchOption result ((slot s : ℕ) → ByAnd (plan job.now) p r slot s → ⊥)
        (λ slot. (s : ℕ) × ByAnd (plan job.now) p r slot s) }
{
    let waiting = job.packet(r);
    match (job.packet(p).done, &waiting.packet) {
        (Some(signal), Packet::And(_)) => slot_naming(&waiting.slots, signal),
        _ => None,
    }
}
