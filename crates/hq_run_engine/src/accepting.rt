//! Jobs that are audited and checked.

ghost use Rattle.std.specs.Prelude.{◌≡◌, IfOk, IfErr, IsOk};
ghost use Rattle.hq_audit.specs.Refused.{IsRefused};
ghost use Rattle.hq_audit.specs.declared.fault.AuditNo.TheVariants.{Memory};
ghost use Rattle.hq_certcheck.specs.declared.fault.CheckNo.TheVariants as check;
ghost use Rattle.hq_job.specs.Plan.{plan};
ghost use Rattle.hq_model.specs.Fence.{Ordered};

use hq_audit::{AuditNo, audit};
use hq_certcheck::{Accepted, CheckNo, check_wide};
use hq_job::Job;
use std::alloc::Global;
use std::thread::Threads;

/// What a refusal is for an audit, where the checker refused a certificate that holds: it had no memory.
fn no_memory(no: CheckNo) -> AuditNo
    requires { no ≡ check.Memory }
    ensures { result ≡ Memory }
{
    match no {
        CheckNo::Memory => AuditNo::Memory,
        _ => unreachable!(),
    }
}

/// The job, accepted by the certificate that its audit gives, as `check_wide` checks it: the checker accepts each
/// one that an audit gives, want of memory aside.
///
/// # Errors
///
/// Why the audit gives no certificate, or that there is no memory.
pub fn accept(rt: &(impl Threads + Sync), alloc: Global, job: Job) -> Result<Accepted, AuditNo>
    ensures accepted { IfOk result (λ a. a.job ≡ job) }
    ensures refused { IfErr result (λ no. IsRefused (plan job) no) }
    ensures ordered { Ordered (plan job) → IfErr result (λ no. no ≡ Memory) }
    ensures exact { IsOk result → Ordered (plan job) }
{
    let certificate = audit(alloc, &job)?;
    match check_wide(rt, alloc, job, &certificate) {
        Ok(accepted) => Ok(accepted),
        Err((no, _job)) => Err(no_memory(no)),
    }
}
