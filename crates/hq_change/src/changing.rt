//! The two changes.

ghost use Rattle.std.specs.Prelude.{◌≡◌, IfErr, IfOk, length};
ghost use Rattle.hq_job.specs.Heads.{SameButHeads};
ghost use Rattle.hq_job.specs.Plan.{plan};
ghost use Rattle.hq_job.specs.Heads.{heads_of, job_with_heads};
ghost use Rattle.hq_model.specs.Fence.{Ordered};
ghost use Rattle.hq_model.specs.Settings.{highest, Raises};
ghost use Rattle.hq_order.specs.View.{AreOf};
ghost use Rattle.hq_parts.specs.Parts.{AreParts};
ghost use Rattle.hq_audit.specs.Refused.{IsRefused};
ghost use Rattle.hq_audit.specs.declared.fault.AuditNo.TheVariants.{Memory};
ghost use Rattle.hq_change.specs.Minimal.{AtOrAbove, IsFixed, IsMinimal, IsOn, IsTrimmed};

use crate::attempt::Search;
use crate::bits::settle_bits;
use crate::foresight::{Foresight, conflicts_of};
use crate::level::Level;
use crate::settling::settle;
use crate::watch::Watch;
use hq_audit::{AuditNo, all_shown};
use hq_job::Job;
use hq_order::{Before, Rounds};
use hq_packet::{Head, Scope};
use hq_parts::Parts;
use hq_schedule::schedule;
use std::alloc::{AllocError, Global};

/// No bit and no fence.
const NO_HEAD: Head = Head {
    barrier: false,
    acquire: Scope::None,
    release: Scope::None,
};

/// The bit, and fences of system scope.
const FULL_HEAD: Head = Head {
    barrier: true,
    acquire: Scope::System,
    release: Scope::System,
};

/// The rounds of an ordered job, which of its packets may conflict, and an order list; else why it isn't ordered.
fn begun(alloc: Global, job: &Job) -> Result<(Rounds, Parts, Vec<u16>), AuditNo>
    ensures ordered { IfOk result (λ _. Ordered (plan job.now)) }
    ensures rounds { IfOk result (λ it. AreOf (plan job.now) it.0) }
    ensures parts { IfOk result (λ it. AreParts (plan job.now) it.1) }
    ensures refused { IfErr result (λ no. IsRefused (plan job.now) no) }
{
    job.valid();
    let order = schedule(alloc, job)?;
    let before = Before::build(alloc, job)?;
    let parts = Parts::build(alloc, job)?;
    all_shown(&before, &parts)?;
    Ok((before.into_rounds(), parts, order))
}

/// Lowers all parts of the heads of an ordered job, which has these, one level behind another.
fn lower_all(
    alloc: Global,
    job: &mut Job,
    heads: &mut Vec<Head>,
    rounds: Rounds,
    parts: &Parts,
    order: &[u16],
    floor: &[Head],
    watch: &dyn Watch,
) -> Result<(), AllocError>
    requires on { IsOn floor.now (plan job.old) heads.old.items }
    requires rounds { AreOf (plan job.old) rounds }
    requires parts { AreParts (plan job.old) parts.now }
    ensures minimal { IfOk result (λ _. IsMinimal floor.now (plan job.new)) }
    ensures below { IfOk result (λ _. Raises (plan job.new) (plan job.old)) }
    ensures same { IfOk result (λ _. SameButHeads job.old job.new) }
{
    let mut search = Search {
        parts,
        floor,
        level: Level::ReleaseSystem,
    };
    let rounds = settle(alloc, job, heads, rounds, &search, watch)?;
    search.level = Level::AcquireSystem;
    let rounds = settle(alloc, job, heads, rounds, &search, watch)?;
    search.level = Level::ReleaseAgent;
    let rounds = settle(alloc, job, heads, rounds, &search, watch)?;
    search.level = Level::AcquireAgent;
    let rounds = settle(alloc, job, heads, rounds, &search, watch)?;
    search.level = Level::Bit;
    let (conflicts, rounds) = conflicts_of(alloc, job, rounds, parts)?;
    let foresight = Foresight {
        conflicts: &conflicts,
        order,
    };
    settle_bits(alloc, job, heads, rounds, &search, &foresight, watch)
}

/// Lowers the heads of an ordered job as far as it is ordered with them, and no lower than the floor.
fn lower_ordered(
    alloc: Global,
    job: &mut Job,
    rounds: Rounds,
    parts: &Parts,
    order: &[u16],
    floor: &[Head],
    watch: &dyn Watch,
) -> Result<(), AuditNo>
    requires floored { length floor.now ≡ length job.old.packets }
    requires above { AtOrAbove floor.now (plan job.old) }
    requires ordered { Ordered (plan job.old) }
    requires rounds { AreOf (plan job.old) rounds }
    requires parts { AreParts (plan job.old) parts.now }
    ensures minimal { IfOk result (λ _. IsMinimal floor.now (plan job.new)) }
    ensures below { IfOk result (λ _. Raises (plan job.new) (plan job.old)) }
    ensures same { IfOk result (λ _. SameButHeads job.old job.new) }
    ensures memory { IfErr result (λ no. no ≡ Memory) }
{
    let mut heads = job.heads(alloc)?;
    Ok(lower_all(alloc, job, &mut heads, rounds, parts, order, floor, watch)?)
}

/// Lowers the heads of a job as far as it is ordered with them, and no lower than the floor.
fn lower(alloc: Global, job: &mut Job, floor: &[Head], watch: &dyn Watch) -> Result<(), AuditNo>
    requires floored { length floor.now ≡ length job.old.packets }
    requires above { AtOrAbove floor.now (plan job.old) }
    ensures minimal { IfOk result (λ _. IsMinimal floor.now (plan job.new)) }
    ensures below { IfOk result (λ _. Raises (plan job.new) (plan job.old)) }
    ensures same { IfOk result (λ _. SameButHeads job.old job.new) }
    ensures refused { IfErr result (λ no. IsRefused (plan job.old) no) }
{
    let (rounds, parts, order) = begun(alloc, job)?;
    lower_ordered(alloc, job, rounds, &parts, &order, floor, watch)
}

/// Takes from a job what it doesn't need.
fn take_needless(alloc: Global, job: &mut Job, watch: &dyn Watch) -> Result<(), AuditNo>
    ensures trimmed { IfOk result (λ _. IsTrimmed (plan job.old) (plan job.new)) }
    ensures same { IfOk result (λ _. SameButHeads job.old job.new) }
    ensures refused { IfErr result (λ no. IsRefused (plan job.old) no) }
{
    let floor = vec![in alloc; NO_HEAD; job.packets().len()]?;
    lower(alloc, job, &floor, watch)
}

/// Gives a job what it lacks.
fn give_lacking(alloc: Global, job: &mut Job, watch: &dyn Watch) -> Result<(), AuditNo>
    ensures fixed { IfOk result (λ _. IsFixed (plan job.old) (plan job.new)) }
    ensures same { IfOk result (λ _. SameButHeads job.old job.new) }
    ensures refused { IfErr result (λ no. IsRefused (highest (plan job.old)) no) }
{
    let floor = job.heads(alloc)?;
    job.set_each_head(FULL_HEAD);
    lower(alloc, job, &floor, watch)
}

/// The job without what it doesn't need: its bits and scopes are at or below those that it had, it is ordered, and
/// in no other setting at or below this one. Nothing but heads is other. The watch hears how far it is.
///
/// # Errors
///
/// As those of an audit of the job: `Stuck`, `Conflict`, `Memory`.
pub fn trim(alloc: Global, mut job: Job, watch: &dyn Watch) -> Result<Job, AuditNo>
    ensures trimmed { IfOk result (λ k. IsTrimmed (plan job) (plan k)) }
    ensures heads { IfOk result (λ k. job_with_heads job (heads_of k) ≡ k) }
    ensures refused { IfErr result (λ no. IsRefused (plan job) no) }
{
    match take_needless(alloc, &mut job, watch) {
        Ok(()) => Ok(job),
        Err(no) => {
            job.let_go();
            Err(no)
        }
    }
}

/// The job with what it lacks: its bits and scopes are at or above those that it had, it is ordered, and in no
/// other setting between the two; a job that is ordered is answered as it is. Nothing but heads is other. The watch
/// hears how far it is.
///
/// # Errors
///
/// `Stuck` and `Conflict` as an audit says them of the job with all bits and all fences of system scope: then no
/// setting at or above the job's own is ordered. `Memory`.
pub fn fix(alloc: Global, mut job: Job, watch: &dyn Watch) -> Result<Job, AuditNo>
    ensures fixed { IfOk result (λ k. IsFixed (plan job) (plan k)) }
    ensures heads { IfOk result (λ k. job_with_heads job (heads_of k) ≡ k) }
    ensures refused { IfErr result (λ no. IsRefused (highest (plan job)) no) }
{
    match give_lacking(alloc, &mut job, watch) {
        Ok(()) => Ok(job),
        Err(no) => {
            job.let_go();
            Err(no)
        }
    }
}
