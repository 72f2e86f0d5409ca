//! One attempt to show a conflict.

ghost use Rattle.std.specs.Prelude.{IfNone, IfOk, IfSome};
ghost use Rattle.hq_job.specs.Plan.{plan};
ghost use Rattle.hq_model.specs.Machine.{IsByte};
ghost use Rattle.hq_machine.specs.View.{state_of};
ghost use Rattle.hq_witness.specs.Differences.{Agree, TellApart};
ghost use Rattle.hq_witness.specs.Traces.{IsRecording};
ghost use Rattle.hq_witness.specs.Witness.{AreFound, IsFinished};

use crate::difference::{Difference, apart};
use crate::eager::{in_order, with_first};
use crate::late::late;
use crate::recording::{Recording, let_go};
use crate::target::Target;
use hq_finding::Why;
use hq_job::Job;
use hq_machine::Journal;
use hq_order::Before;
use std::alloc::{AllocError, Global};

/// Two runs, and where they differ.
#[derive(Drop)]
pub struct Found {
    pub difference: Difference,
    pub good: Journal,
    pub bad: Journal,
}

/// Where two runs differ, if both are over and they do.
fn difference_of(job: &Job, good: &Recording, bad: &Recording) -> Option<Difference>
    requires good { IsRecording (plan job.now) good.now }
    requires bad { IsRecording (plan job.now) bad.now }
    ensures good { IfSome result (λ _. IsFinished (plan job.now) (state_of (plan job.now) good.now.state)) }
    ensures bad { IfSome result (λ _. IsFinished (plan job.now) (state_of (plan job.now) bad.now.state)) }
    ensures apart { IfSome result (TellApart good.now.trace bad.now.trace) }
    ensures none { IfNone result
        (IsFinished (plan job.now) (state_of (plan job.now) good.now.state)
        → IsFinished (plan job.now) (state_of (plan job.now) bad.now.state) → Agree good.now.trace bad.now.trace) }
{
    if !good.is_over(job) || !bad.is_over(job) {
        return None;
    }
    apart(&good.trace, &bad.trace)
}

/// The two runs, where both are over and they differ.
fn compare(job: &Job, good: Recording, bad: Recording) -> Option<Found>
    requires good { IsRecording (plan job.now) good }
    requires bad { IsRecording (plan job.now) bad }
    ensures found { IfSome result (AreFound (plan job.now)) }
    ensures none { IfNone result
        (IsFinished (plan job.now) (state_of (plan job.now) good.state)
        → IsFinished (plan job.now) (state_of (plan job.now) bad.state) → Agree good.trace bad.trace) }
{
    match difference_of(job, &good, &bad) {
        Some(difference) => Some(Found {
            difference,
            good: good.into_journal(),
            bad: bad.into_journal(),
        }),
        None => {
            let_go(good);
            let_go(bad);
            None
        }
    }
}

/// Two runs of a conflict whose packets nothing orders: with the one first, and with the other first.
fn exchanged(
    alloc: Global,
    job: &Job,
    before: &Before,
    order: &[u16],
    target: &Target,
) -> Result<Option<Found>, AllocError>
    requires { IsByte (plan job.now) target.now.byte }
    ensures { IfOk result (λ found. IfSome found (AreFound (plan job.now))) }
{
    let good = with_first(alloc, job, before, order, target.p, target.r, target.byte)?;
    match with_first(alloc, job, before, order, target.r, target.p, target.byte) {
        Ok(bad) => Ok(compare(job, good, bad)),
        Err(error) => {
            let_go(good);
            Err(error)
        }
    }
}

/// Two runs of a conflict whose packets are ordered, but not by fences: one by one, and with the byte written back
/// late.
fn delayed(
    alloc: Global,
    job: &Job,
    before: &Before,
    order: &[u16],
    target: &Target,
) -> Result<Option<Found>, AllocError>
    requires { IsByte (plan job.now) target.now.byte }
    ensures { IfOk result (λ found. IfSome found (AreFound (plan job.now))) }
{
    let good = in_order(alloc, job, order, target.byte)?;
    match late(alloc, job, before, order, target) {
        Ok(bad) => Ok(compare(job, good, bad)),
        Err(error) => {
            let_go(good);
            Err(error)
        }
    }
}

/// Two runs that differ in the target's byte, if those that are built for it do. Where packets aren't ordered, but
/// can't be exchanged since they need each other's slot, they may be shown as if they were.
pub fn attempt(
    alloc: Global,
    job: &Job,
    before: &Before,
    order: &[u16],
    target: &Target,
) -> Result<Option<Found>, AllocError>
    requires { IsByte (plan job.now) target.now.byte }
    ensures { IfOk result (λ found. IfSome found (AreFound (plan job.now))) }
{
    if target.why == Why::Unordered {
        let found = exchanged(alloc, job, before, order, target)?;
        if found.is_some() || !job.rings() {
            return Ok(found);
        }
    }
    delayed(alloc, job, before, order, target)
}
