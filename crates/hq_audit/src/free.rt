//! Whether any two packets conflict at all.

ghost use Rattle.std.specs.Prelude.{◌↔◌, IsTrue, length};
ghost use Rattle.hq_job.specs.Plan.{plan};
ghost use Rattle.hq_model.specs.Job.{IsPacket};
ghost use Rattle.hq_parts.specs.Parts.{AreParts};
ghost use Rattle.hq_audit.specs.Free.{RowFree, NoneConflict};

use hq_fence::have_conflict;
use hq_job::Job;
use hq_parts::Parts;

/// Whether a packet conflicts with none above it.
fn is_row_free(job: &Job, parts: &Parts, a: usize) -> bool
    requires parts { AreParts (plan job.now) parts.now }
    requires a_is { IsPacket (plan job.now) a }
    ensures { IsTrue result ↔ RowFree (plan job.now) a (length (plan job.now).packets) }
{
    job.valid();
    let row = parts.others(job, a);
    let mut b = row.next(job, a + 1);
    'others: while b < job.packets().len() {
        if have_conflict(job, a, b) {
            return false;
        }
        b = row.next(job, b + 1);
    }
    true
}

/// Whether no two packets conflict.
pub fn none_conflict(job: &Job, parts: &Parts) -> bool
    requires { AreParts (plan job.now) parts.now }
    ensures { IsTrue result ↔ NoneConflict (plan job.now) }
{
    job.valid();
    for a in 0..job.packets().len() {
        if !is_row_free(job, parts, a) {
            return false;
        }
    }
    true
}
