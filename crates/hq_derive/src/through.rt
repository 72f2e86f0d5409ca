//! Whether lines follow that were made at once: each through two lines ahead of it.

ghost use Rattle.std.specs.Prelude.{◌+◌, ◌<◌, ◌≤◌, ◌++◌, ℕ, IfSome, IsTrue, length};
ghost use Rattle.hq_model.specs.Certificate.{Says};
ghost use Rattle.hq_derive.specs.Through.{AreThrough, IsThrough, lines_by};

use crate::short::{FORMS, Short, THROUGH};
use crate::store::{LIMIT, Store};
use std::thread::{Threads, join};

/// The packets of a line that stands behind others, by its number, unless it cites a line for each dependency.
#[inline(always)]
fn packets_of(ahead: &Store, shorts: &[Short], number: usize) -> Option<(usize, usize)>
    requires { number < length ahead.now + length shorts.now }
    ensures { IfSome result (λ at. (limit : ℕ) → number < limit
        → Says (ahead.now ++ lines_by shorts.now) limit number at.0 at.1) }
{
    let count = ahead.len();
    if number < count {
        return Some(ahead.line(number).packets());
    }
    let short = shorts[number - count];
    if short.form() > THROUGH {
        return None;
    }
    Some((short.p() as usize, short.r() as usize))
}

/// Whether line k of those behind others follows through two lines ahead of it.
#[inline(always)]
fn is_through(ahead: &Store, shorts: &[Short], k: usize) -> bool
    requires k_is { k < length shorts.now }
    requires few { length ahead.now + length shorts.now ≤ LIMIT }
    ensures { IsTrue result → IsThrough ahead.now shorts.now k }
{
    let short = shorts[k];
    let number = ahead.len() + k;
    let (first, second) = (short.first() as usize, short.second() as usize);
    if short.form() != THROUGH || first >= number || second >= number {
        return false;
    }
    let Some((p, middle)) = packets_of(ahead, shorts, first) else {
        return false;
    };
    let Some((from, r)) = packets_of(ahead, shorts, second) else {
        return false;
    };
    middle == from && short.is_of(p, r)
}

/// Whether so do those from one on, up to another.
fn are_through_between(ahead: &Store, shorts: &[Short], from: usize, to: usize) -> bool
    requires within { to ≤ length shorts.now }
    requires few { length ahead.now + length shorts.now ≤ LIMIT }
    ensures { IsTrue result → AreThrough ahead.now shorts.now from to }
{
    for k in from..to {
        if !is_through(ahead, shorts, k) {
            return false;
        }
    }
    true
}

/// Whether so do all from one on, by threads that look at so many each. All threads are started here, and this one only
/// waits.
#[cycle(looking)]
fn are_through_from<R: Threads>(
    rt: &R,
    ahead: &Store,
    shorts: &[Short],
    from: usize,
    many: usize,
) -> bool
    requires some { 0 < many }
    requires few { length ahead.now + length shorts.now ≤ LIMIT }
    ensures { IsTrue result → AreThrough ahead.now shorts.now from (length shorts.now) }
{
    if from >= shorts.len() {
        return true;
    }
    let to = from + many.min(shorts.len() - from);
    let beside = || -> bool
        requires { (to ≤ length shorts.now) × (length ahead.now + length shorts.now ≤ LIMIT) }
        ensures { IsTrue result → AreThrough ahead.entry.now shorts.entry.now from to }
    { are_through_between(ahead, shorts, from, to) };
    let here = || -> bool
        requires { (0 < many) × (length ahead.now + length shorts.now ≤ LIMIT) }
        ensures { IsTrue result → AreThrough ahead.entry.now shorts.entry.now to (length shorts.entry.now) }
    { are_through_from(rt, ahead, shorts, to, many) };
    let (own, others) = join(rt, beside, here);
    own && others
}

/// Whether all follow so.
pub fn are_through(ahead: &Store, shorts: &[Short]) -> bool
    ensures { IsTrue result → AreThrough ahead.now shorts.now 0 (length shorts.now) }
{
    if shorts.len() > LIMIT - ahead.len() {
        return false;
    }
    are_through_between(ahead, shorts, 0, shorts.len())
}

/// Whether all follow so, looked at in as many parts, each by a thread of its own.
pub fn are_through_wide<R: Threads>(rt: &R, ahead: &Store, shorts: &[Short], parts: usize) -> bool
    requires { 0 < parts }
    ensures { IsTrue result → AreThrough ahead.now shorts.now 0 (length shorts.now) }
{
    if shorts.len() > LIMIT - ahead.len() {
        return false;
    }
    are_through_from(rt, ahead, shorts, 0, shorts.len().div_ceil(parts).max(1))
}
