//! The audit of a job.

ghost use Rattle.std.specs.Prelude.{◌≡◌, IfOk, IfErr, IsOk};
ghost use Rattle.hq_job.specs.Plan.{plan};
ghost use Rattle.hq_model.specs.Certificate.{CertHolds};
ghost use Rattle.hq_model.specs.Fence.{Ordered};
ghost use Rattle.hq_audit.specs.Audited.{IsAudited};
ghost use Rattle.hq_audit.specs.Refused.{IsRefused};
ghost use Rattle.hq_audit.specs.declared.fault.AuditNo.TheVariants.{Memory};

use crate::audited::{Audited, audited_alone, audited_free};
use crate::fault::AuditNo;
use hq_cert::Certificate;
use hq_job::Job;
use hq_order::Before;
use hq_parts::Parts;
use hq_schedule::schedule;
use std::alloc::Global;

/// What the certificate of a job's order says, in less memory than a certificate takes.
///
/// # Errors
///
/// Those of `audit`.
pub fn find(alloc: Global, job: &Job) -> Result<Audited, AuditNo>
    ensures is { IfOk result (IsAudited (plan job.now)) }
    ensures refused { IfErr result (λ no. IsRefused (plan job.now) no) }
    ensures ordered { Ordered (plan job.now) → IfErr result (λ no. no ≡ Memory) }
    ensures exact { IsOk result → Ordered (plan job.now) }
{
    job.valid();
    let order = schedule(alloc, job)?;
    let parts = Parts::build(alloc, job)?;
    if let Some(found) = audited_free(alloc, job, &parts, &order)? {
        return Ok(found);
    }
    let before = Before::build(alloc, job)?;
    let audited = audited_alone(alloc, &before, &parts, &order)?;
    Ok(audited)
}

/// The certificate of a job's order.
///
/// # Errors
///
/// `Stuck` with the packets that can never complete, rising, where there are such; else `Conflict` with the first
/// two packets, by number, that conflict and that no fences order in either direction; `Memory`.
pub fn audit(alloc: Global, job: &Job) -> Result<Certificate, AuditNo>
    ensures holds { IfOk result (λ c. CertHolds (plan job.now) c) }
    ensures refused { IfErr result (λ no. IsRefused (plan job.now) no) }
    ensures ordered { Ordered (plan job.now) → IfErr result (λ no. no ≡ Memory) }
    ensures exact { IsOk result → Ordered (plan job.now) }
{
    let audited = find(alloc, job)?;
    let certificate = audited.certificate(alloc, job)?;
    Ok(certificate)
}
