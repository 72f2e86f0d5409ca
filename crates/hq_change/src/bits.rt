//! All bits lowered, as far as the job stays ordered: each by foresight, and the whole judged once.

ghost use Rattle.std.specs.Prelude.{◌≡◌, ◌<◌, IfOk, IfSome, IsTrue, OnOk, length};
ghost use Rattle.hq_job.specs.Heads.{SameButHeads};
ghost use Rattle.hq_job.specs.Plan.{plan};
ghost use Rattle.hq_model.specs.Fence.{Ordered};
ghost use Rattle.hq_parts.specs.Parts.{AreParts};
ghost use Rattle.hq_audit.specs.Refused.{AllShown};
ghost use Rattle.hq_change.specs.Foresight.{AllForeseen, AreConflicts, BitsSettled, Foreseen};
ghost use Rattle.hq_change.specs.Minimal.{AtOrAbove, IsOn};
ghost use Rattle.hq_change.specs.declared.level.Level.TheVariants as levels;

use crate::attempt::Search;
use crate::foresight::{Foresight, is_apart};
use crate::level::Level;
use crate::settling::{settle, tell};
use crate::trial::judged;
use crate::watch::Watch;
use hq_job::Job;
use hq_order::{Before, Rounds};
use hq_packet::Head;
use hq_parts::Parts;
use std::alloc::{AllocError, Global};

/// Lowers a packet's bit, unless that is foreseen to leave two packets apart.
fn foresee_one(
    alloc: Global,
    job: &mut Job,
    floor: &[Head],
    foresight: &Foresight,
    p: usize,
) -> Result<(), AllocError>
    requires p_is { p < length job.old.packets }
    requires floored { length floor.now ≡ length job.old.packets }
    requires above { AtOrAbove floor.now (plan job.old) }
    requires conflicts { AreConflicts (plan job.old) foresight.now.conflicts.now }
    ensures foreseen { OnOk result (Foreseen floor.now p (plan job.old) (plan job.new)) }
    ensures same { OnOk result (SameButHeads job.old job.new) }
{
    let head = job.head(p);
    let Some(lowered) = Level::Bit.lower(head, floor[p]) else {
        return Ok(());
    };
    job.set_head(p, lowered);
    if is_apart(alloc, job, foresight)? {
        job.set_head(p, head);
    }
    Ok(())
}

/// Lowers each bit, the last packet's first, unless that is foreseen to leave two packets apart.
fn foresee(
    alloc: Global,
    job: &mut Job,
    floor: &[Head],
    foresight: &Foresight,
    watch: &dyn Watch,
) -> Result<(), AllocError>
    requires floored { length floor.now ≡ length job.old.packets }
    requires above { AtOrAbove floor.now (plan job.old) }
    requires conflicts { AreConflicts (plan job.old) foresight.now.conflicts.now }
    ensures foreseen { OnOk result (AllForeseen floor.now 0 (plan job.old) (plan job.new)) }
    ensures same { OnOk result (SameButHeads job.old job.new) }
{
    let mut to = job.packets().len();
    'down: while to > 0 {
        tell(watch, Level::Bit, job.packets().len(), to);
        to -= 1;
        foresee_one(alloc, job, floor, foresight, to)?;
    }
    Ok(())
}

/// Puts another job in the place of one.
fn put(job: &mut Job, other: Job)
    ensures { job.new ≡ other }
{
    *job = other;
}

/// Whether all conflicts of a job are ordered, whose order is worked out anew.
fn is_ordered(alloc: Global, job: &Job, parts: &Parts) -> Result<bool, AllocError>
    requires { AreParts (plan job.now) parts.now }
    ensures { IfOk result (λ ordered. IsTrue ordered → AllShown (plan job.now)) }
{
    let Ok(before) = Before::build(alloc, job) else {
        return Err(AllocError);
    };
    let (ordered, _rounds) = judged(job, before.into_rounds(), parts, 0, job.packets().len());
    Ok(ordered)
}

/// Lowers each bit that by foresight can go, and answers whether the job is ordered then.
fn foresee_all(
    alloc: Global,
    job: &mut Job,
    search: &Search,
    foresight: &Foresight,
    watch: &dyn Watch,
) -> Result<bool, AllocError>
    requires floored { length search.now.floor.now ≡ length job.old.packets }
    requires above { AtOrAbove search.now.floor.now (plan job.old) }
    requires ordered { Ordered (plan job.old) }
    requires parts { AreParts (plan job.old) search.now.parts.now }
    requires conflicts { AreConflicts (plan job.old) foresight.now.conflicts.now }
    ensures settled { IfOk result (λ yes. IsTrue yes → BitsSettled search.now.floor.now (plan job.old) (plan job.new)) }
    ensures same { OnOk result (SameButHeads job.old job.new) }
{
    foresee(alloc, job, search.floor, foresight, watch)?;
    is_ordered(alloc, job, search.parts)
}

/// The job with each bit lowered that by foresight can go, where it is ordered then.
fn foreseen(
    alloc: Global,
    job: &Job,
    search: &Search,
    foresight: &Foresight,
    watch: &dyn Watch,
) -> Result<Option<Job>, AllocError>
    requires floored { length search.now.floor.now ≡ length job.now.packets }
    requires above { AtOrAbove search.now.floor.now (plan job.now) }
    requires ordered { Ordered (plan job.now) }
    requires parts { AreParts (plan job.now) search.now.parts.now }
    requires conflicts { AreConflicts (plan job.now) foresight.now.conflicts.now }
    ensures settled { IfOk result (λ it. IfSome it (λ k. BitsSettled search.now.floor.now (plan job.now) (plan k))) }
    ensures same { IfOk result (λ it. IfSome it (λ k. SameButHeads job.now k)) }
{
    let mut low = job.copy(alloc)?;
    match foresee_all(alloc, &mut low, search, foresight, watch) {
        Ok(true) => Ok(Some(low)),
        Ok(false) => {
            low.let_go();
            Ok(None)
        }
        Err(error) => {
            low.let_go();
            Err(error)
        }
    }
}

/// Lowers each bit, if the job is still ordered then: by foresight where that does, else by attempts. An error
/// leaves a job of which nothing is known.
pub fn settle_bits(
    alloc: Global,
    job: &mut Job,
    heads: &mut Vec<Head>,
    rounds: Rounds,
    search: &Search,
    foresight: &Foresight,
    watch: &dyn Watch,
) -> Result<(), AllocError>
    requires level { search.now.level ≡ levels.Bit }
    requires on { IsOn search.now.floor.now (plan job.old) heads.old.items }
    requires parts { AreParts (plan job.old) search.now.parts.now }
    requires conflicts { AreConflicts (plan job.old) foresight.now.conflicts.now }
    ensures settled { OnOk result (BitsSettled search.now.floor.now (plan job.old) (plan job.new)) }
    ensures same { OnOk result (SameButHeads job.old job.new) }
{
    job.valid();
    match foreseen(alloc, job, search, foresight, watch)? {
        Some(low) => put(job, low),
        None => {
            let _rounds = settle(alloc, job, heads, rounds, search, watch)?;
        }
    }
    Ok(())
}
