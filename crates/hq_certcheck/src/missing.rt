//! Conflicts that have no pair lines.

ghost use Rattle.std.specs.Prelude.{◌≡◌, ℕ, ◌<◌, ◌↔◌, IsTrue, IfOk, MatchOption, false, length};
ghost use Rattle.hq_job.specs.Plan.{plan};
ghost use Rattle.hq_bits.specs.Bits.{has};
ghost use Rattle.hq_model.specs.Fence.{Conflict, Conflicts};
ghost use Rattle.hq_model.specs.Certificate as model;
ghost use Rattle.hq_certcheck.specs.Covering.{MissingIs, has_kind, AreListed, HasRows, IsPossible};
ghost use Rattle.hq_certcheck.specs.Covering.{AreFlagged, IsFlagged, RowFlagged};
ghost use Rattle.hq_certcheck.specs.Covering.{FirstUnflaggedAfter, FirstUnflagged};
ghost use Rattle.hq_certcheck.specs.Seen.{IsSeen};

use crate::flags::flags_of;
use crate::possible::Possible;
use crate::seen::Seen;
use hq_bits::next_in;
use hq_footprint::Kinds;
use hq_job::Job;
use std::alloc::{AllocError, Global};

/// Whether a kind that is found is listed.
fn keeps(found: bool, listed: bool) -> bool
    ensures keeps { IsTrue result ↔ (IsTrue found → IsTrue listed) }
    ensures some { result ≡ false → IsTrue found }
{
    !found || listed
}

/// Whether all kinds that are found are listed.
fn covers(found: Kinds, listed: Kinds) -> bool
    ensures all { IsTrue result ↔ ((kind : Conflict) → IsTrue (has_kind kind found) → IsTrue (has_kind kind listed)) }
    ensures some { result ≡ false → ((kind : Conflict) × IsTrue (has_kind kind found)) }
{
    if !keeps(found.wr, listed.wr) {
        return false;
    }
    if !keeps(found.ww, listed.ww) {
        return false;
    }
    keeps(found.rw, listed.rw)
}

/// Whether each kind of conflict of p with r has its flag.
fn are_flagged(job: &Job, flags: &[u64], p: usize, r: usize) -> bool
    requires p_is { p < length job.now.packets }
    requires r_is { r < length job.now.packets }
    ensures all { IsTrue result ↔ AreFlagged (plan job.now) flags.now p r }
    ensures some { result ≡ false → ((kind : Conflict) × Conflicts (plan job.now) kind p r) }
{
    job.valid();
    covers(job.kinds(p, r), flags_of(flags, p, r))
}

/// Whether each conflict of p with r has its flags, all in one direction.
fn is_flagged(job: &Job, flags: &[u64], p: usize, r: usize) -> bool
    requires p_is { p < length job.now.packets }
    requires r_is { r < length job.now.packets }
    ensures { IsTrue result ↔ IsFlagged (plan job.now) flags.now p r }
{
    are_flagged(job, flags, p, r) || are_flagged(job, flags, r, p)
}

/// The least packet after p whose conflicts with p lack flags.
pub fn first_unflagged_after(
    job: &Job,
    possible: &Possible,
    flags: &[u64],
    p: usize,
) -> Option<usize>
    requires possible { IsPossible (plan job.now) possible.now }
    requires rows { HasRows (length job.now.packets) flags.now }
    requires p_is { p < length job.now.packets }
    ensures { MatchOption result (RowFlagged (plan job.now) flags.now p)
        (λ r. FirstUnflaggedAfter (plan job.now) flags.now p r) }
{
    job.valid();
    let count = job.packets().len();
    let suspects = possible.suspects(job, flags, p);
    let mut r = next_in(&suspects, p + 1, count);
    'suspects: while r < count {
        if !is_flagged(job, flags, p, r) {
            return Some(r);
        }
        r = next_in(&suspects, r + 1, count);
    }
    None
}

/// The first packets in number order whose conflicts lack flags.
fn first_unflagged(job: &Job, possible: &Possible, flags: &[u64]) -> Option<(u16, u16)>
    requires possible { IsPossible (plan job.now) possible.now }
    requires rows { HasRows (length job.now.packets) flags.now }
    ensures { MatchOption result
        ((p : ℕ) → p < length job.now.packets → RowFlagged (plan job.now) flags.now p)
        (λ found. FirstUnflagged (plan job.now) flags.now found.0 found.1) }
{
    job.valid();
    for p in 0..job.packets().len() {
        if let Some(r) = first_unflagged_after(job, possible, flags, p) {
            return Some((p as u16, r as u16));
        }
    }
    None
}

/// The first packets in number order whose conflicts lack pair lines, by the flags.
fn missing_by(job: &Job, possible: &Possible, flags: &[u64]) -> Option<(u16, u16)>
    requires possible { IsPossible (plan job.now) possible.now }
    requires rows { HasRows (length job.now.packets) flags.now }
    ensures { (c : model.Certificate) → AreListed c.pairs (length job.now.packets) flags.now
        → MissingIs (plan job.now) c.pairs result }
{
    first_unflagged(job, possible, flags)
}

/// The first packets in number order whose conflicts lack pair lines, in both directions, among those that were seen.
pub fn first_missing(
    alloc: Global,
    job: &Job,
    seen: &Seen,
) -> Result<Option<(u16, u16)>, AllocError>
    requires count { seen.now.count ≡ length job.now.packets }
    ensures { IfOk result
        (λ found. (c : model.Certificate) → IsSeen (plan job.now) c seen.now → MissingIs (plan job.now) c.pairs found) }
{
    job.valid();
    let possible = Possible::of(alloc, job)?;
    Ok(missing_by(job, &possible, seen.flags()))
}
