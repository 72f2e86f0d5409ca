//! Conflicts that have no pair lines, sought in many threads.

ghost use Rattle.std.specs.Prelude.{◌≡◌, ℕ, ◌<◌, IsTrue, IfOk, MatchOption, false, length};
ghost use Rattle.hq_job.specs.Plan.{plan};
ghost use Rattle.hq_certcheck.specs.Covering.{MissingIs, AreListed, IsPossible, RowFlagged, FirstUnflaggedRow};
ghost use Rattle.hq_certcheck.specs.Covering.{FirstUnflagged, HasRows};
ghost use Rattle.hq_certcheck.specs.Seen.{IsSeen};
ghost use Rattle.hq_model.specs.Certificate as model;

use crate::missing;
use crate::missing::first_unflagged_after;
use crate::possible::Possible;
use crate::seen::Seen;
use hq_job::Job;
use rayon::prelude::*;
use std::alloc::{AllocError, Global};
use std::thread::Threads;

/// How many packets are worth a thread of their own.
const LEAST_ROWS: usize = 128;

/// Whether a conflict of p with a packet after it lacks flags.
fn lacks_some(job: &Job, possible: &Possible, flags: &[u64], p: usize) -> bool
    requires possible { IsPossible (plan job.now) possible.now }
    requires rows { HasRows (length job.now.packets) flags.now }
    requires p_is { p < length job.now.packets }
    ensures { (result ≡ false → RowFlagged (plan job.now) flags.now p)
        × (IsTrue result → ¬ RowFlagged (plan job.now) flags.now p) }
{
    first_unflagged_after(job, possible, flags, p).is_some()
}

/// The least packet that has conflicts with packets after it that lack flags.
fn first_row(
    rt: &(impl Threads + Sync),
    job: &Job,
    possible: &Possible,
    flags: &[u64],
) -> Option<usize>
    requires possible { IsPossible (plan job.now) possible.now }
    requires rows { HasRows (length job.now.packets) flags.now }
    ensures { MatchOption result
        ((p : ℕ) → p < length job.now.packets → RowFlagged (plan job.now) flags.now p)
        (FirstUnflaggedRow (plan job.now) flags.now) }
{
    let rows = (0..job.packets().len())
        .into_par_iter()
        .with_min_len(LEAST_ROWS);
    rows.position_first(
        rt,
        |p: usize| -> bool
            requires { IsPossible (plan job.now) possible.now
                × HasRows (length job.now.packets) flags.now × (p < length job.now.packets) }
            ensures { (result ≡ false → RowFlagged (plan job.entry.now) flags.entry.now p)
                × (IsTrue result → ¬ RowFlagged (plan job.entry.now) flags.entry.now p) }
        { lacks_some(job, possible, flags, p) },
    )
}

/// The first packets in number order whose conflicts lack flags.
fn first_unflagged(
    rt: &(impl Threads + Sync),
    job: &Job,
    possible: &Possible,
    flags: &[u64],
) -> Option<(u16, u16)>
    requires possible { IsPossible (plan job.now) possible.now }
    requires rows { HasRows (length job.now.packets) flags.now }
    ensures { MatchOption result
        ((p : ℕ) → p < length job.now.packets → RowFlagged (plan job.now) flags.now p)
        (λ found. FirstUnflagged (plan job.now) flags.now found.0 found.1) }
{
    job.valid();
    match first_row(rt, job, possible, flags) {
        Some(p) => match first_unflagged_after(job, possible, flags, p) {
            Some(r) => Some((p as u16, r as u16)),
            None => None,
        },
        None => None,
    }
}

/// The first packets in number order whose conflicts lack pair lines, by the flags.
fn missing_by(
    rt: &(impl Threads + Sync),
    job: &Job,
    possible: &Possible,
    flags: &[u64],
) -> Option<(u16, u16)>
    requires possible { IsPossible (plan job.now) possible.now }
    requires rows { HasRows (length job.now.packets) flags.now }
    ensures { (c : model.Certificate) → AreListed c.pairs (length job.now.packets) flags.now
        → MissingIs (plan job.now) c.pairs result }
{
    first_unflagged(rt, job, possible, flags)
}

/// The first packets in number order whose conflicts lack pair lines, in both directions, among those that were seen.
pub fn first_missing(
    rt: &(impl Threads + Sync),
    alloc: Global,
    job: &Job,
    seen: &Seen,
) -> Result<Option<(u16, u16)>, AllocError>
    requires count { seen.now.count ≡ length job.now.packets }
    ensures { IfOk result
        (λ found. (c : model.Certificate) → IsSeen (plan job.now) c seen.now → MissingIs (plan job.now) c.pairs found) }
{
    let flags = seen.flags();
    if flags.is_empty() {
        // no pair line came, so that there is nothing to look up
        return missing::first_missing(alloc, job, seen);
    }
    job.valid();
    let possible = Possible::of(alloc, job)?;
    Ok(missing_by(rt, job, &possible, flags))
}
