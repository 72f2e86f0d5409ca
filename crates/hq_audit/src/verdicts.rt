//! Whether a job is ordered, without a certificate that says so.

ghost use Rattle.std.specs.Prelude.{IfErr, OnOk, length};
ghost use Rattle.hq_job.specs.Plan.{plan};
ghost use Rattle.hq_model.specs.Fence.{Ordered};
ghost use Rattle.hq_model.specs.Job.{IsPacket};
ghost use Rattle.hq_parts.specs.Parts.{AreParts};
ghost use Rattle.hq_audit.specs.Refused.{AllShown, IsFirstOfRow, IsFirstUnshown, IsRefused, IsUnshown, RowShown};
ghost use Rattle.hq_audit.specs.Refused.{ShownOneWay};

use crate::directed::{Unshown, direct};
use crate::fault::AuditNo;
use hq_job::Job;
use hq_order::Before;
use hq_parts::Parts;
use hq_schedule::schedule;
use std::alloc::Global;

/// Whether a and b are ordered, in one direction.
fn pair_shown(before: &Before, a: usize, b: usize) -> Result<(), Unshown>
    requires a_is { IsPacket before.now a }
    requires b_is { IsPacket before.now b }
    ensures shown { OnOk result (ShownOneWay before.now a b) }
    ensures unshown { IfErr result (λ u. IsUnshown before.now a b u) }
{
    direct(before, a, b)?;
    Ok(())
}

/// Whether a is ordered with each packet above it.
fn row_shown(before: &Before, parts: &Parts, a: usize) -> Result<(), Unshown>
    requires parts { AreParts before.now parts.now }
    requires a_is { IsPacket before.now a }
    ensures shown { OnOk result (RowShown before.now a (length before.now.packets)) }
    ensures unshown { IfErr result (λ u. IsFirstOfRow before.now a u) }
{
    let job = before.job();
    job.valid();
    let row = parts.others(job, a);
    let mut b = row.next(job, a + 1);
    'others: while b < before.len() {
        pair_shown(before, a, b)?;
        b = row.next(job, b + 1);
    }
    Ok(())
}

/// Whether all conflicts are ordered, each two packets in one direction; else the first two that aren't. Takes no
/// memory.
///
/// # Errors
///
/// `Unshown` with the first two packets, by number, that aren't ordered in either direction.
pub fn all_shown(before: &Before, parts: &Parts) -> Result<(), Unshown>
    requires parts { AreParts before.now parts.now }
    ensures shown { OnOk result (AllShown before.now) }
    ensures unshown { IfErr result (λ u. IsFirstUnshown before.now u) }
{
    for a in 0..before.len() {
        row_shown(before, parts, a)?;
    }
    Ok(())
}

/// Whether a job is ordered: what `audit` finds, without the certificate.
///
/// # Errors
///
/// As those of `audit`.
pub fn verdict(alloc: Global, job: &Job) -> Result<(), AuditNo>
    ensures ordered { OnOk result (Ordered (plan job.now)) }
    ensures refused { IfErr result (λ no. IsRefused (plan job.now) no) }
{
    job.valid();
    let _order = schedule(alloc, job)?;
    let before = Before::build(alloc, job)?;
    let parts = Parts::build(alloc, job)?;
    all_shown(&before, &parts)?;
    Ok(())
}
