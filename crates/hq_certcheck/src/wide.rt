//! Checks whole certificates in many threads.

ghost use Rattle.std.specs.Prelude.{◌≡◌, ◌<◌, IfOk, IsTrue, false, map, length};
ghost use Rattle.hq_cert.specs.View.{line_of};
ghost use Rattle.hq_job.specs.Plan.{plan};
ghost use Rattle.hq_model.specs.Certificate as model;
ghost use Rattle.hq_model.specs.Certificate.{LineHolds};
ghost use Rattle.hq_certcheck.specs.Concluded.{conclusion_of};
ghost use Rattle.hq_certcheck.specs.Listed.{BadLineIs};
ghost use Rattle.hq_certcheck.specs.Seen.{IsChecked, IsSeen};

use crate::accepted::Accepted;
use crate::checking::answer;
use crate::conclusion::Conclusion;
use crate::fault::CheckNo;
use crate::lines::line_holds;
use crate::seen::Seen;
use crate::wide_missing::first_missing;
use crate::wide_pairs::first_bad_pair;
use hq_cert::{Certificate, Line};
use hq_job::Job;
use rayon::prelude::*;
use std::alloc::{AllocError, Global};
use std::thread::Threads;

/// How many lines are worth a thread of their own.
const LEAST_LINES: usize = 8192;

/// Whether line k of these, which are all, doesn't hold.
fn is_bad(job: &Job, lines: &[Conclusion], found: &[Line], k: usize) -> bool
    requires low { k < length found.now }
    requires all { map conclusion_of (map line_of found.now) ≡ lines.now }
    ensures { (result ≡ false → LineHolds (plan job.now) (map line_of found.now) k)
        × (IsTrue result → ¬ LineHolds (plan job.now) (map line_of found.now) k) }
{
    !line_holds(job, lines, k, &found[k])
}

/// The least line of these, which are all, that doesn't hold.
fn first_bad_line(
    rt: &(impl Threads + Sync),
    job: &Job,
    lines: &[Conclusion],
    found: &[Line],
) -> Option<usize>
    requires { map conclusion_of (map line_of found.now) ≡ lines.now }
    ensures { BadLineIs (plan job.now) (map line_of found.now) result }
{
    let places = (0..found.len()).into_par_iter().with_min_len(LEAST_LINES);
    places.position_first(
        rt,
        |k: usize| -> bool
            requires { (k < length found.now) × (map conclusion_of (map line_of found.now) ≡ lines.now) }
            ensures { (result ≡ false → LineHolds (plan job.entry.now) (map line_of found.entry.now) k)
                × (IsTrue result → ¬ LineHolds (plan job.entry.now) (map line_of found.entry.now) k) }
        { is_bad(job, lines, found, k) },
    )
}

/// All lines and pair lines of a certificate, checked by many threads.
fn seen_wide(
    rt: &(impl Threads + Sync),
    alloc: Global,
    job: &Job,
    certificate: &Certificate,
) -> Result<Seen, AllocError>
    ensures { IfOk result (IsSeen (plan job.now) certificate.now) }
{
    let mut seen = Seen::new(alloc, job);
    let lines = certificate.lines();
    seen.conclude(lines)?;
    let bad_line = first_bad_line(rt, job, seen.lines(), lines);
    seen.note(bad_line);
    let pairs = certificate.pairs();
    let bad_pair = first_bad_pair(rt, job, seen.lines(), pairs);
    seen.put(alloc, pairs, bad_pair)?;
    Ok(seen)
}

/// What `check` answers of a certificate of this order, whose lines and pair lines were seen one block behind another
/// and needn't be there; pair lines that are missing are sought by as many threads as there are processors.
///
/// # Errors
///
/// Those of `check`.
pub fn check_seen_wide(
    rt: &(impl Threads + Sync),
    alloc: Global,
    job: Job,
    order: &[u32],
    seen: &Seen,
) -> Result<Accepted, (CheckNo, Job)>
    requires seen { (c : model.Certificate) × (c.order ≡ order.now) × IsSeen (plan job) c seen.now }
    ensures { (c : model.Certificate) → c.order ≡ order.now → IsSeen (plan job) c seen.now → IsChecked job c result }
{
    let missing = first_missing(rt, alloc, &job, seen);
    answer(alloc, job, order, seen, missing)
}

/// What `check` answers, with the lines and the pair lines checked, and those that are missing sought, by as many
/// threads as there are processors.
///
/// # Errors
///
/// Those of `check`: with `BadLine` the least line that doesn't hold, and so with the others, whichever thread met
/// it first.
pub fn check_wide(
    rt: &(impl Threads + Sync),
    alloc: Global,
    job: Job,
    certificate: &Certificate,
) -> Result<Accepted, (CheckNo, Job)>
    ensures { IsChecked job certificate.now result }
{
    match seen_wide(rt, alloc, &job, certificate) {
        Ok(seen) => check_seen_wide(rt, alloc, job, certificate.order(), &seen),
        Err(_) => Err((CheckNo::Memory, job)),
    }
}
