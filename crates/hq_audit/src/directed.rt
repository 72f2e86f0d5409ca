//! Two packets in the direction in which they are ordered.

ghost use Rattle.std.specs.Prelude.{◌<◌, IfSome, MatchResult, length};
ghost use Rattle.hq_job.specs.Conflicts.{HasConflicts};
ghost use Rattle.hq_audit.specs.Refused.{IsDirected, IsUnshown, IsUntold};

use hq_fence::{NotShown, Shown, judge, judge_at_once, judge_kinds};
use hq_footprint::Kinds;
use hq_order::Before;

/// Two packets all of whose conflicts are ordered, and how.
#[derive(Clone, Copy, Debug)]
pub struct Directed {
    pub first: usize,
    pub second: usize,
    pub shown: Shown,
}

/// A conflict of `p` with `r`, `p` first, that isn't ordered.
#[derive(Clone, Copy, Debug)]
pub struct Unshown {
    pub p: u16,
    pub r: u16,
    pub fault: NotShown,
}

/// Judges p with r, p first, and where that isn't ordered r with p. What isn't ordered is told of p with r. `kinds`
/// says how p conflicts with r.
fn direct_from(before: &Before, p: usize, r: usize, kinds: Kinds) -> Result<Directed, Unshown>
    requires p_is { p < length before.now.packets }
    requires r_is { r < length before.now.packets }
    requires kinds { HasConflicts before.now p r kinds }
    ensures { MatchResult result (λ d. IsDirected before.now p r d) (λ u. IsUntold before.now p r u) }
{
    before.job().valid();
    let fault = match judge_kinds(before, p, r, kinds) {
        Ok(shown) => {
            return Ok(Directed {
                first: p,
                second: r,
                shown,
            });
        }
        Err(fault) => fault,
    };
    match judge(before, r, p) {
        Ok(shown) => Ok(Directed {
            first: r,
            second: p,
            shown,
        }),
        Err(_) => Err(Unshown {
            p: p as u16,
            r: r as u16,
            fault,
        }),
    }
}

/// The direction in which a and b are ordered, or what isn't in the direction that is told of.
///
/// # Errors
///
/// `Unshown` where neither direction is ordered: the first kind of conflict that isn't, in the direction that is
/// told of, and why.
pub fn direct(before: &Before, a: usize, b: usize) -> Result<Directed, Unshown>
    requires a_is { a < length before.now.packets }
    requires b_is { b < length before.now.packets }
    ensures { MatchResult result (λ d. IsDirected before.now a b d) (λ u. IsUnshown before.now a b u) }
{
    direct_kinds(before, a, b, before.job().kinds(a, b))
}

/// The same, where it is known how a conflicts with b.
pub fn direct_kinds(before: &Before, a: usize, b: usize, kinds: Kinds) -> Result<Directed, Unshown>
    requires a_is { a < length before.now.packets }
    requires b_is { b < length before.now.packets }
    requires kinds { HasConflicts before.now a b kinds }
    ensures { MatchResult result (λ d. IsDirected before.now a b d) (λ u. IsUnshown before.now a b u) }
{
    if before.holds(b, a) {
        direct_from(before, b, a, kinds.turned())
    } else {
        direct_from(before, a, b, kinds)
    }
}

/// What `direct` answers of a and b with b first, where that costs little to find out; else None.
#[inline(never)]
fn turned_at_once(before: &Before, a: usize, b: usize, kinds: Kinds) -> Option<Directed>
    requires a_is { a < length before.now.packets }
    requires b_is { b < length before.now.packets }
    requires kinds { HasConflicts before.now a b kinds }
    ensures { IfSome result (IsDirected before.now a b) }
{
    let shown = judge_at_once(before, b, a, kinds.turned())?;
    Some(Directed {
        first: b,
        second: a,
        shown,
    })
}

/// What `direct` answers, where that costs little to find out; else None, and it is not said whether there is such a
/// direction.
#[inline(always)]
pub fn direct_at_once(before: &Before, a: usize, b: usize, kinds: Kinds) -> Option<Directed>
    requires a_is { a < length before.now.packets }
    requires b_is { b < length before.now.packets }
    requires kinds { HasConflicts before.now a b kinds }
    ensures { IfSome result (IsDirected before.now a b) }
{
    match judge_at_once(before, a, b, kinds) {
        Some(shown) => Some(Directed {
            first: a,
            second: b,
            shown,
        }),
        None => turned_at_once(before, a, b, kinds),
    }
}
