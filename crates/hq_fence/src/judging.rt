//! The judgement of two packets.

ghost use Rattle.std.specs.Prelude.{◌≡◌, false, ◌<◌, ◌↔◌, IsTrue, IsOk, IsSome, IfOk, IfErr, IfSome, MatchOption};
ghost use Rattle.std.specs.Prelude.{length};
ghost use Rattle.hq_job.specs.Conflicts.{HasConflicts};
ghost use Rattle.hq_job.specs.Plan.{plan};
ghost use Rattle.hq_model.specs.Job.{IsPacket};
ghost use Rattle.hq_model.specs.Order as order;
ghost use Rattle.hq_model.specs.Fence as model;
ghost use Rattle.hq_fence.specs.Judgement.{HaveConflict, ReleasesBefore, ReleasesToAcquire, Shows, IsNotShown};
ghost use Rattle.hq_fence.specs.Judgement.{flag_of, IsFirstKind};
ghost use Rattle.hq_finding.specs.declared.kind.Kind as shown;

use crate::fences::{need, releases};
use crate::search::{Ending, Goal, Search};
use crate::shown::{Acquire, NotShown, Release, Shown};
use hq_finding::{Kind, Why};
use hq_footprint::Kinds;
use hq_job::Job;
use hq_order::Before;

/// What is answered where there is no conflict.
const NOTHING: Shown = Shown {
    wr: None,
    ww: None,
    rw: false,
};

/// Whether two packets of a job conflict in some way, `a` first.
pub fn have_conflict(job: &Job, a: usize, b: usize) -> bool
    requires a_is { a < length job.now.packets }
    requires b_is { b < length job.now.packets }
    ensures { IsTrue result ↔ HaveConflict (plan job.now) a b }
{
    job.kinds(a, b).is_some()
}

/// How p, which is before r, is released before r. Mostly its own fence does that.
#[inline(always)]
fn released(before: &Before, p: usize, r: usize) -> Option<Release>
    requires p_is { IsPacket before.now p }
    requires r_is { IsPacket before.now r }
    requires ordered { order.Before before.now p r }
    ensures { MatchOption result (¬ model.ReleasedBefore before.now p r) (ReleasesBefore before.now p r) }
{
    before.job().valid();
    if releases(before, p, p, need(before, p, r)) {
        return Some(Release::Alone(p as u16));
    }
    match Search::new(before, p, r, Goal::Second).find() {
        Some((release, _)) => Some(release),
        None => None,
    }
}

/// How p is released, and r acquires after that.
#[inline(always)]
fn acquired(before: &Before, p: usize, r: usize) -> Option<(Release, Acquire)>
    requires p_is { IsPacket before.now p }
    requires r_is { IsPacket before.now r }
    ensures { MatchOption result (¬ model.ReleasedToAcquire before.now p r) (ReleasesToAcquire before.now p r) }
{
    match Search::new(before, p, r, Goal::Acquire).find() {
        Some((release, Ending::Acquired(acquire))) => Some((release, acquire)),
        Some((_, Ending::Second)) => None,
        None => None,
    }
}

/// The first kind of conflict that there is.
fn first_kind(kinds: Kinds) -> Option<Kind>
    ensures { MatchOption result ((kind : shown.Kind) → flag_of kinds kind ≡ false) (IsFirstKind kinds) }
{
    if kinds.wr {
        Some(Kind::WriteRead)
    } else if kinds.ww {
        Some(Kind::WriteWrite)
    } else if kinds.rw {
        Some(Kind::ReadWrite)
    } else {
        None
    }
}

/// Whether the conflict by a write that r reads is shown, where p is before r and there is such a conflict.
#[inline(always)]
fn judge_wr(
    before: &Before,
    p: usize,
    r: usize,
    there: bool,
) -> Result<Option<(Release, Acquire)>, NotShown>
    requires p_is { IsPacket before.now p }
    requires r_is { IsPacket before.now r }
    requires ordered { order.Before before.now p r }
    requires there { IsTrue there ↔ model.Conflicts before.now model.Conflict.WriteRead p r }
    ensures some { IfOk result (λ wr. IsSome wr ↔ model.Conflicts before.now model.Conflict.WriteRead p r) }
    ensures shown { IfOk result (λ wr. IfSome wr (ReleasesToAcquire before.now p r)) }
    ensures not_shown { IfErr result (IsNotShown before.now p r) }
{
    if !there {
        return Ok(None);
    }
    if let Some(fences) = acquired(before, p, r) {
        return Ok(Some(fences));
    }
    let why = match released(before, p, r) {
        Some(_) => Why::NotAcquired,
        None => Why::NotReleased,
    };
    Err(NotShown {
        kind: Kind::WriteRead,
        why,
    })
}

/// Whether the conflict by two writes is shown, where p is before r, there is such a conflict, and that ahead of it
/// is shown.
#[inline(always)]
fn judge_ww(before: &Before, p: usize, r: usize, there: bool) -> Result<Option<Release>, NotShown>
    requires p_is { IsPacket before.now p }
    requires r_is { IsPacket before.now r }
    requires ordered { order.Before before.now p r }
    requires there { IsTrue there ↔ model.Conflicts before.now model.Conflict.WriteWrite p r }
    requires ahead { model.Conflicts before.now model.Conflict.WriteRead p r → model.ReleasedToAcquire before.now p r }
    ensures some { IfOk result (λ ww. IsSome ww ↔ model.Conflicts before.now model.Conflict.WriteWrite p r) }
    ensures shown { IfOk result (λ ww. IfSome ww (ReleasesBefore before.now p r)) }
    ensures not_shown { IfErr result (IsNotShown before.now p r) }
{
    if !there {
        return Ok(None);
    }
    match released(before, p, r) {
        Some(release) => Ok(Some(release)),
        None => Err(NotShown {
            kind: Kind::WriteWrite,
            why: Why::NotReleased,
        }),
    }
}

/// The release by p's own fence, where there is such a conflict.
#[inline(always)]
fn own_release(before: &Before, p: usize, r: usize, there: bool) -> Option<Release>
    requires p_is { IsPacket before.now p }
    requires releases { model.Releases before.now p p (model.need before.now p r) }
    requires ordered { order.Before before.now p r }
    ensures some { IsSome result ↔ IsTrue there }
    ensures shown { IfSome result (ReleasesBefore before.now p r) }
{
    before.job().valid();
    if there {
        Some(Release::Alone(p as u16))
    } else {
        None
    }
}

/// What `judge` answers, where there is no conflict, or r reads nothing that p writes and p's own fence is enough; else
/// None, and it is not said whether their conflicts are ordered.
#[inline(always)]
pub fn judge_at_once(before: &Before, p: usize, r: usize, kinds: Kinds) -> Option<Shown>
    requires p_is { p < length before.now.packets }
    requires r_is { r < length before.now.packets }
    requires kinds { HasConflicts before.now p r kinds }
    ensures shown { IfSome result (Shows before.now p r) }
    ensures exact { IsSome result → model.Shown before.now p r }
{
    if kinds.wr {
        return None;
    }
    if !kinds.ww && !kinds.rw {
        return Some(NOTHING);
    }
    if !before.holds(p, r) {
        return None;
    }
    if !releases(before, p, p, need(before, p, r)) {
        return None;
    }
    Some(Shown {
        wr: None,
        ww: own_release(before, p, r, kinds.ww),
        rw: kinds.rw,
    })
}

/// Judges the conflicts of packet `p` with packet `r`, `p` first: answers the fences that order each kind of
/// conflict that there is, or the first kind that isn't ordered, in the order of `Kind`, and why. Takes no memory.
///
/// # Errors
///
/// `NotShown` with the first kind that isn't ordered, in the order of `Kind`, and why.
pub fn judge(before: &Before, p: usize, r: usize) -> Result<Shown, NotShown>
    requires p_is { p < length before.now.packets }
    requires r_is { r < length before.now.packets }
    ensures shown { IfOk result (Shows before.now p r) }
    ensures not_shown { IfErr result (IsNotShown before.now p r) }
    ensures exact { IsOk result ↔ model.Shown before.now p r }
{
    judge_kinds(before, p, r, before.job().kinds(p, r))
}

/// The same, where it is known how they conflict.
///
/// # Errors
///
/// Those of `judge`.
pub fn judge_kinds(before: &Before, p: usize, r: usize, kinds: Kinds) -> Result<Shown, NotShown>
    requires p_is { p < length before.now.packets }
    requires r_is { r < length before.now.packets }
    requires kinds { HasConflicts before.now p r kinds }
    ensures shown { IfOk result (Shows before.now p r) }
    ensures not_shown { IfErr result (IsNotShown before.now p r) }
    ensures exact { IsOk result ↔ model.Shown before.now p r }
{
    if !before.holds(p, r) {
        return match first_kind(kinds) {
            Some(kind) => Err(NotShown {
                kind,
                why: Why::Unordered,
            }),
            None => Ok(NOTHING),
        };
    }
    let wr = judge_wr(before, p, r, kinds.wr)?;
    let ww = judge_ww(before, p, r, kinds.ww)?;
    Ok(Shown {
        wr,
        ww,
        rw: kinds.rw,
    })
}
