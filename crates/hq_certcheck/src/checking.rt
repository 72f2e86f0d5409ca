//! Checks whole certificates.

ghost use Rattle.std.specs.Prelude.{◌≡◌, IfOk, IfErr, OnOk};
ghost use Rattle.hq_job.specs.Plan.{plan};
ghost use Rattle.hq_model.specs.Job.{Job as JobOf};
ghost use Rattle.hq_model.specs.Order.{OrderList};
ghost use Rattle.hq_model.specs.Certificate as model;
ghost use Rattle.hq_model.specs.Certificate.{LinesHold, CertHolds};
ghost use Rattle.hq_certcheck.specs.Covering.{MissingIs};
ghost use Rattle.hq_certcheck.specs.Listed.{BadPairIs};
ghost use Rattle.hq_certcheck.specs.Refusals.{IsRefused};
ghost use Rattle.hq_certcheck.specs.Seen.{IsChecked, IsSeen};

use crate::accepted::Accepted;
use crate::fault::CheckNo;
use crate::missing::first_missing;
use crate::seen::Seen;
use hq_cert::Certificate;
use hq_job::Job;
use hq_model::certificate::certificates_order;
use hq_model::order::order_lists_extend;
use hq_model::runs::headline_law;
use hq_ordercheck::{is_order_list, numbers};
use std::alloc::{AllocError, Global};

/// A certificate's order, if it is an order list of the job.
fn order_of(alloc: Global, job: &Job, order: &[u32]) -> Result<Vec<u16>, CheckNo>
    ensures ok { IfOk result (λ list. OrderList (plan job.now) order.now × (list.items ≡ order.now)) }
    ensures refused { IfErr result
        (λ no. (c : model.Certificate) → c.order ≡ order.now → IsRefused (plan job.now) c no) }
{
    let Some(list) = numbers(alloc, job, order)? else {
        return Err(CheckNo::BadOrder);
    };
    if !is_order_list(alloc, job, &list)? {
        return Err(CheckNo::BadOrder);
    }
    Ok(list)
}

/// The first of the packets that lack pair lines, and then of the pair lines that don't hold, of a certificate whose
/// order and lines hold.
fn check_pairs(missing: Option<(u16, u16)>, bad_pair: Option<(u32, u32)>) -> Result<(), CheckNo>
    ensures ok { OnOk result
        ((job : JobOf) (c : model.Certificate) → MissingIs job c.pairs missing → BadPairIs job c.lines c.pairs bad_pair
        → OrderList job c.order → LinesHold job c.lines → CertHolds job c) }
    ensures refused { IfErr result
        (λ no. (job : JobOf) (c : model.Certificate) → MissingIs job c.pairs missing → BadPairIs job c.lines c.pairs bad_pair
        → OrderList job c.order → LinesHold job c.lines → IsRefused job c no) }
{
    if let Some((p, r)) = missing {
        return Err(CheckNo::PairMissing(p, r));
    }
    if let Some((p, r)) = bad_pair {
        return Err(CheckNo::BadPair(p, r));
    }
    Ok(())
}

/// The order of a certificate of this order whose lines and pair lines were seen, if it holds: the first packets that
/// lack pair lines are these.
fn examine(
    alloc: Global,
    job: &Job,
    order: &[u32],
    seen: &Seen,
    missing: Result<Option<(u16, u16)>, AllocError>,
) -> Result<Vec<u16>, CheckNo>
    requires { IfOk missing
        (λ found. (c : model.Certificate) → IsSeen (plan job.now) c seen.now → MissingIs (plan job.now) c.pairs found) }
    ensures ok { IfOk result
        (λ list. (c : model.Certificate) → c.order ≡ order.now → IsSeen (plan job.now) c seen.now
        → CertHolds (plan job.now) c × (list.items ≡ c.order)) }
    ensures refused { IfErr result
        (λ no. (c : model.Certificate) → c.order ≡ order.now → IsSeen (plan job.now) c seen.now
        → IsRefused (plan job.now) c no) }
{
    let list = order_of(alloc, job, order)?;
    if let Some(k) = seen.bad_line() {
        return Err(CheckNo::BadLine(k));
    }
    check_pairs(missing?, seen.bad_pair())?;
    Ok(list)
}

/// What a check answers of a certificate of this order whose lines and pair lines were seen, where the first packets
/// that lack pair lines are these.
pub fn answer(
    alloc: Global,
    job: Job,
    order: &[u32],
    seen: &Seen,
    missing: Result<Option<(u16, u16)>, AllocError>,
) -> Result<Accepted, (CheckNo, Job)>
    requires seen { (c : model.Certificate) × (c.order ≡ order.now) × IsSeen (plan job) c seen.now }
    requires missing { IfOk missing
        (λ found. (c : model.Certificate) → IsSeen (plan job) c seen.now → MissingIs (plan job) c.pairs found) }
    ensures { (c : model.Certificate) → c.order ≡ order.now → IsSeen (plan job) c seen.now → IsChecked job c result }
{
    job.valid();
    certificates_order();
    order_lists_extend();
    headline_law();
    match examine(alloc, &job, order, seen, missing) {
        Ok(list) => Ok(Accepted::of(job, list)),
        Err(no) => Err((no, job)),
    }
}

/// What `check` answers of a certificate of this order, whose lines and pair lines were seen one block behind another
/// and needn't be there.
///
/// # Errors
///
/// Those of `check`.
pub fn check_seen(
    alloc: Global,
    job: Job,
    order: &[u32],
    seen: &Seen,
) -> Result<Accepted, (CheckNo, Job)>
    requires seen { (c : model.Certificate) × (c.order ≡ order.now) × IsSeen (plan job) c seen.now }
    ensures { (c : model.Certificate) → c.order ≡ order.now → IsSeen (plan job) c seen.now → IsChecked job c result }
{
    let missing = first_missing(alloc, &job, seen);
    answer(alloc, job, order, seen, missing)
}

/// Accepts the job where the certificate holds. Then every run of the machine, however launches, reads, stores,
/// write-backs, stale fills and completions interleave, gives each packet the bytes that each order of one packet
/// at a time that extends the job's gives it, makes at most the job's bound of work steps, and, where no work step
/// is left, has every packet complete, nothing dirty, and memory as that order leaves it.
///
/// # Errors
///
/// The first reason why it isn't accepted, and the job as it was. A certificate that holds is refused only with
/// `Memory`.
pub fn check(alloc: Global, job: Job, certificate: &Certificate) -> Result<Accepted, (CheckNo, Job)>
    ensures { IsChecked job certificate.now result }
{
    match Seen::of(alloc, &job, certificate) {
        Ok(seen) => check_seen(alloc, job, certificate.order(), &seen),
        Err(_) => Err((CheckNo::Memory, job)),
    }
}
