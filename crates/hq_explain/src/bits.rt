//! Which barrier bits order two packets.

ghost use Rattle.std.specs.Prelude.{◌≡◌, ◌↔◌, ◌&&◌, ◌||◌, ◌==◌, not, ℕ, ◌+◌, ◌-◌, ◌/◌, ◌<◌, ◌≤◌, IsTrue, IfOk};
ghost use Rattle.std.specs.Prelude.{IfErr, OnOk, length};
ghost use Rattle.hq_job.specs.Plan.{plan};
ghost use Rattle.hq_model.specs.Job.{Job as Plan, IsPacket};
ghost use Rattle.hq_model.specs.Settings.{head_at};
ghost use Rattle.hq_bits.specs.Bits.{has};
ghost use Rattle.hq_audit.specs.Refused.{ShownOneWay};
ghost use Rattle.hq_explain.specs.Trials.{HasBits, Noted};
ghost use Rattle.hq_explain.specs.declared.fault.ExplainFault.TheVariants.{Memory};

use crate::change::{Change, changed};
use crate::fault::ExplainFault;
use crate::scopes::is_ordered;
use hq_bits::{WORDS, insert};
use hq_job::Job;
use hq_order::Before;
use std::alloc::Global;

/// Sets the barrier bits of the packets from `lo` up to `hi`.
fn set_bits(job: &mut Job, lo: usize, hi: usize)
    requires rising { lo ≤ hi }
    requires few { hi ≤ length job.old.packets }
    ensures { HasBits (plan job.old) (plan job.new) lo hi }
{
    for p in lo..hi {
        let head = changed(job.head(p), Change::Bit);
        job.set_head(p, head);
    }
}

/// Whether a job orders a and b.
fn orders(alloc: Global, job: &Job, a: usize, b: usize) -> Result<bool, ExplainFault>
    requires a_is { IsPacket (plan job.now) a }
    requires b_is { IsPacket (plan job.now) b }
    ensures memory { IfErr result (λ e. e ≡ Memory) }
    ensures ordered { IfOk result (λ yes. IsTrue yes ↔ ShownOneWay (plan job.now) a b) }
{
    let before = Before::build(alloc, job)?;
    Ok(is_ordered(&before, a, b))
}

/// Whether the barrier bits of the packets from `lo` up to `hi`, all of them together, order a and b.
fn bits_order(
    alloc: Global,
    job: &Job,
    a: usize,
    b: usize,
    lo: usize,
    hi: usize,
) -> Result<bool, ExplainFault>
    requires a_is { IsPacket (plan job.now) a }
    requires b_is { IsPacket (plan job.now) b }
    requires rising { lo ≤ hi }
    requires few { hi ≤ length job.now.packets }
    ensures memory { IfErr result (λ e. e ≡ Memory) }
    ensures ordered { IfOk result
        (λ yes. (k : Plan) × HasBits (plan job.now) k lo hi × (IsTrue yes ↔ ShownOneWay k a b)) }
{
    let mut copy = job.copy(alloc)?;
    set_bits(&mut copy, lo, hi);
    let ordered = orders(alloc, &copy, a, b);
    copy.let_go();
    ordered
}

/// Notes the packet where its bit isn't set: with it, a and b are ordered.
fn note(job: &Job, p: usize, set: &mut [u64])
    requires p_is { IsPacket (plan job.now) p }
    requires room { p / 64 < length set.old }
    ensures { (x : ℕ) → has set.new x ≡ (has set.old x || (not (head_at (plan job.now) p).barrier && x == p)) }
{
    if !job.head(p).barrier {
        insert(set, p);
    }
}

/// Notes the packets from `lo` up to `hi` whose barrier bit alone, once it is set, orders a and b. Where all these
/// bits together don't, none does.
pub fn note_bits(
    alloc: Global,
    job: &Job,
    a: usize,
    b: usize,
    lo: usize,
    hi: usize,
    set: &mut [u64],
) -> Result<(), ExplainFault>
    requires a_is { IsPacket (plan job.now) a }
    requires b_is { IsPacket (plan job.now) b }
    requires few { hi ≤ length job.now.packets }
    requires room { length set.old ≡ WORDS }
    ensures memory { IfErr result (λ e. e ≡ Memory) }
    ensures noted { OnOk result (Noted (plan job.now) a b lo hi set.old set.new) }
{
    job.valid();
    if lo >= hi || !bits_order(alloc, job, a, b, lo, hi)? {
        return Ok(());
    }
    if hi - lo == 1 {
        note(job, lo, set);
        return Ok(());
    }
    let middle = lo + (hi - lo) / 2;
    note_bits(alloc, job, a, b, lo, middle, set)?;
    note_bits(alloc, job, a, b, middle, hi, set)
}
