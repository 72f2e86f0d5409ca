//! Whether a job is ordered whose order is worked out.

ghost use Rattle.std.specs.Prelude.{◌≡◌, ◌≤◌, IsTrue, false, length};
ghost use Rattle.hq_job.specs.Plan.{plan};
ghost use Rattle.hq_model.specs.Fence.{Ordered};
ghost use Rattle.hq_model.specs.Job.{IsPacket};
ghost use Rattle.hq_order.specs.View.{AreOf};
ghost use Rattle.hq_parts.specs.Parts.{AreParts};
ghost use Rattle.hq_audit.specs.Refused.{AllShown};

use hq_audit::{all_shown, direct};
use hq_job::Job;
use hq_order::{Before, Rounds};
use hq_parts::Parts;

/// Of how few packets the conflicts are looked at first.
const FEW: usize = 8;

/// Whether two packets are ordered, or are one.
fn is_shown(before: &Before, a: usize, b: usize) -> bool
    requires a_is { IsPacket before.now a }
    requires b_is { IsPacket before.now b }
    ensures { result ≡ false → ¬ Ordered before.now }
{
    if a < b {
        direct(before, a, b).is_ok()
    } else {
        a == b || direct(before, b, a).is_ok()
    }
}

/// Whether a packet is ordered with each other.
fn is_shown_around(before: &Before, parts: &Parts, a: usize) -> bool
    requires parts { AreParts before.now parts.now }
    requires a_is { IsPacket before.now a }
    ensures { result ≡ false → ¬ Ordered before.now }
{
    let job = before.job();
    let row = parts.others(job, a);
    let mut b = row.next(job, 0);
    'others: while b < before.len() {
        if !is_shown(before, a, b) {
            return false;
        }
        b = row.next(job, b + 1);
    }
    true
}

/// Whether the packets from one number up to another are ordered with each other one.
fn is_shown_near(before: &Before, parts: &Parts, from: usize, to: usize) -> bool
    requires parts { AreParts before.now parts.now }
    requires from { from ≤ to }
    requires to { to ≤ length before.now.packets }
    ensures { result ≡ false → ¬ Ordered before.now }
{
    for p in from..to {
        if !is_shown_around(before, parts, p) {
            return false;
        }
    }
    true
}

/// Whether all conflicts are ordered. Those of the packets from one number up to another come first where they are few.
fn is_ordered(before: &Before, parts: &Parts, from: usize, to: usize) -> bool
    requires parts { AreParts before.now parts.now }
    requires from { from ≤ to }
    requires to { to ≤ length before.now.packets }
    ensures shown { IsTrue result → AllShown before.now }
    ensures refused { result ≡ false → ¬ Ordered before.now }
{
    if to - from <= FEW && !is_shown_near(before, parts, from, to) {
        return false;
    }
    all_shown(before, parts).is_ok()
}

/// Whether the job with these rounds is ordered, and the rounds. The conflicts of the packets from one number up to
/// another come first where they are few.
pub fn judged(job: &Job, rounds: Rounds, parts: &Parts, from: usize, to: usize) -> (bool, Rounds)
    requires rounds { AreOf (plan job.now) rounds }
    requires parts { AreParts (plan job.now) parts.now }
    requires from { from ≤ to }
    requires to { to ≤ length job.now.packets }
    ensures shown { IsTrue result.0 → AllShown (plan job.now) }
    ensures refused { result.0 ≡ false → ¬ Ordered (plan job.now) }
    ensures rounds { AreOf (plan job.now) result.1 }
{
    job.valid();
    let before = rounds.over(job);
    let ordered = is_ordered(&before, parts, from, to);
    (ordered, before.into_rounds())
}
