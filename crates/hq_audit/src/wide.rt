//! The audit of a job in many threads.

ghost use Rattle.std.specs.Prelude.{◌≡◌, IfOk, IfErr, IfSome, IsOk};
ghost use Rattle.hq_job.specs.Plan.{plan};
ghost use Rattle.hq_model.specs.Certificate.{CertHolds};
ghost use Rattle.hq_model.specs.Fence.{Ordered};
ghost use Rattle.hq_model.specs.Order.{OrderList};
ghost use Rattle.hq_parts.specs.Parts.{AreParts};
ghost use Rattle.hq_audit.specs.Audited.{IsAudited};
ghost use Rattle.hq_audit.specs.Refused.{IsRefused, AllRefused, AllShown};
ghost use Rattle.hq_audit.specs.Rowed.{DraftsAll};
ghost use Rattle.hq_audit.specs.declared.fault.AuditNo.TheVariants.{Memory};

use crate::audited::{Audited, audited_alone, audited_free, audited_from};
use crate::drafting::Drafts;
use crate::fault::AuditNo;
use crate::spreading::draft_wide;
use hq_cert::Certificate;
use hq_derive::lines_for;
use hq_job::Job;
use hq_order::{Before, Together};
use hq_parts::Parts;
use hq_schedule::schedule;
use hq_waits::OrderFault;
use std::alloc::{AllocError, Global};
use std::thread;
use std::thread::Threads;

/// Of how many packets one is looked at to tell how much there is to be judged. What packets do mostly comes again
/// after an even number of them, so it is an odd one.
const STEP: usize = 13;

/// How many pairs of packets that may conflict are worth judging by more threads than one.
const MANY: usize = 32_768;

/// Whether there are processors for more than one thread.
fn has_processors(rt: &impl Threads) -> bool {
    match thread::available_parallelism(rt) {
        Ok(count) => count.get() > 1,
        Err(_) => false,
    }
}

/// Whether there is much to be judged, by the packets that are looked at.
fn is_much(job: &Job, parts: &Parts) -> bool
    requires { AreParts (plan job.now) parts.now }
{
    job.valid();
    let mut others = 0usize;
    for k in 0..job.packets().len() / STEP {
        others = others.saturating_add(parts.others(job, k * STEP).count() as usize);
    }
    // each pair is one of both packets'
    others >= 2 * MANY / STEP
}

/// What an audit finds of a job that has this order list, whose drafts these are, with lines made in many threads where
/// these are many.
fn audited_by<R: Threads>(
    rt: &R,
    alloc: Global,
    before: &Before,
    drafts: Drafts,
    order: &[u16],
) -> Result<Audited, AllocError>
    requires order { OrderList before.now order.now }
    requires all { DraftsAll before.now drafts }
    ensures { IfOk result (IsAudited before.now) }
{
    let lines = lines_for(&Together { rt }, alloc, before, &drafts.needs)?;
    let audited = audited_from(alloc, lines, drafts, order)?;
    Ok(audited)
}

/// What an audit finds of a job that has this order list, unless a pair isn't ordered or there is no memory.
fn audited_wide<R: Threads + Sync>(
    rt: &R,
    alloc: Global,
    before: &Before,
    parts: &Parts,
    order: &[u16],
) -> Option<Audited>
    requires order { OrderList before.now order.now }
    requires parts { AreParts before.now parts.now }
    ensures is { IfSome result (IsAudited before.now) }
    ensures shown { IfSome result (λ _. AllShown before.now) }
{
    let drafts = draft_wide(rt, alloc, before, parts)?;
    match audited_by(rt, alloc, before, drafts, order) {
        Ok(audited) => Some(audited),
        Err(_) => None,
    }
}

/// The order of a job's packets, worked out by several threads where that is said to be worth it.
fn ordered_by<'a, R: Threads>(
    rt: &R,
    alloc: Global,
    job: &'a Job,
    by_many: bool,
) -> Result<Before<'a>, OrderFault>
    ensures plan { IfOk result (λ b. b ≡ plan job.now) }
    ensures memory { IfErr result (λ e. e ≡ OrderFault.Memory) }
{
    if by_many {
        return Before::build_wide(rt, alloc, job);
    }
    Before::build(alloc, job)
}

/// What an audit finds of a job that has this order list, or the first two packets that aren't ordered, in many threads
/// where that is said to be worth it. What isn't ordered is told of by one thread.
fn audited_by_all<R: Threads + Sync>(
    rt: &R,
    alloc: Global,
    before: &Before,
    parts: &Parts,
    order: &[u16],
    by_many: bool,
) -> Result<Audited, AuditNo>
    requires order { OrderList before.now order.now }
    requires parts { AreParts before.now parts.now }
    ensures is { IfOk result (IsAudited before.now) }
    ensures shown { IfOk result (λ _. AllShown before.now) }
    ensures refused { IfErr result (AllRefused before.now) }
{
    if by_many {
        if let Some(audited) = audited_wide(rt, alloc, before, parts, order) {
            return Ok(audited);
        }
    }
    audited_alone(alloc, before, parts, order)
}

/// What `find` answers, with the order worked out, the pairs judged and the lines made in many threads.
///
/// # Errors
///
/// Those of `audit`: with `Conflict` the first two packets, whichever thread met them first.
pub fn find_wide<R: Threads + Sync>(rt: &R, alloc: Global, job: &Job) -> Result<Audited, AuditNo>
    ensures is { IfOk result (IsAudited (plan job.now)) }
    ensures refused { IfErr result (λ no. IsRefused (plan job.now) no) }
    ensures ordered { Ordered (plan job.now) → IfErr result (λ no. no ≡ Memory) }
    ensures exact { IsOk result → Ordered (plan job.now) }
{
    job.valid();
    let order = schedule(alloc, job)?;
    let parts = Parts::build(alloc, job)?;
    if let Some(found) = audited_free(alloc, job, &parts, &order)? {
        return Ok(found);
    }
    let by_many = is_much(job, &parts) && has_processors(rt);
    let before = ordered_by(rt, alloc, job, by_many)?;
    let audited = audited_by_all(rt, alloc, &before, &parts, &order, by_many)?;
    Ok(audited)
}

/// What `audit` answers, with the order worked out, the pairs judged and the lines made in many threads.
///
/// # Errors
///
/// Those of `audit`: with `Conflict` the first two packets, whichever thread met them first.
pub fn audit_wide<R: Threads + Sync>(
    rt: &R,
    alloc: Global,
    job: &Job,
) -> Result<Certificate, AuditNo>
    ensures holds { IfOk result (λ c. CertHolds (plan job.now) c) }
    ensures refused { IfErr result (λ no. IsRefused (plan job.now) no) }
    ensures ordered { Ordered (plan job.now) → IfErr result (λ no. no ≡ Memory) }
    ensures exact { IsOk result → Ordered (plan job.now) }
{
    let audited = find_wide(rt, alloc, job)?;
    let certificate = audited.certificate(alloc, job)?;
    Ok(certificate)
}
