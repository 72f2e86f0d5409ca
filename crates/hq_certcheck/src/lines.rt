//! Lines of a certificate, one by one.

ghost use Rattle.std.specs.Prelude.{◌≡◌, ℕ, ◌↔◌, IsTrue, List, Some, map, length, slice_get};
ghost use Rattle.std.specs.List.{AllZip};
ghost use Rattle.hq_cert.specs.View.{line_of, rule_of, cited};
ghost use Rattle.hq_job.specs.Plan.{plan};
ghost use Rattle.hq_model.specs.Certificate as model;
ghost use Rattle.hq_model.specs.Certificate.{Follows, signals, LineHolds};
ghost use Rattle.hq_model.specs.Certificate.Rule.{Or as OrRule};
ghost use Rattle.hq_model.specs.Order.{ByAnd, ByBit, ByQueue};
ghost use Rattle.hq_certcheck.specs.Concluded.{bare, conclusion_of};
ghost use Rattle.hq_certcheck.specs.Listed.{HoldsFor, StandAt, BadLineOf};

use crate::citing::{follower, says};
use crate::conclusion::Conclusion;
use hq_cert::{Citation, Line, Rule};
use hq_job::Job;

/// Whether p comes before r by the barrier bit of j.
fn by_bit(job: &Job, p: usize, j: usize, r: usize) -> bool
    ensures { IsTrue result ↔ ByBit (plan job.now) p r j }
{
    job.is_earlier(p, j) && job.has_bit(j) && (j == r || job.is_earlier(j, r))
}

/// Whether p comes before r since it is a barrier packet of the same queue.
fn by_queue(job: &Job, p: usize, r: usize) -> bool
    ensures { IsTrue result ↔ ByQueue (plan job.now) p r }
{
    job.is_earlier(p, r) && job.is_barrier(p)
}

/// Whether r is a barrier-AND, and p completes on the dependency in this slot of it.
fn by_and(job: &Job, p: usize, slot: usize, r: usize) -> bool
    ensures { IsTrue result ↔ ((s : ℕ) × ByAnd (plan job.now) p r slot s) }
{
    match job.dependency(r, slot) {
        Some(signal) => job.is_and(r) && job.completes_on(p, signal),
        None => false,
    }
}

/// Whether p is what the branch says, or comes before it, and that completes on the signal.
fn holds_for(
    job: &Job,
    lines: &[Conclusion],
    limit: usize,
    p: usize,
    signal: u16,
    branch: Citation,
) -> bool
    ensures { IsTrue result ↔ HoldsFor (plan job.now) (map bare lines.now) limit p signal (cited branch) }
{
    match branch.number() {
        None => job.completes_on(p, signal),
        Some(k) => match follower(lines, limit, k as usize, p) {
            Some(number) => job.completes_on(number, signal),
            None => false,
        },
    }
}

/// Whether there is a branch that holds for each signal of the slots, in their order, and no more.
fn hold_for_each(
    job: &Job,
    lines: &[Conclusion],
    limit: usize,
    p: usize,
    slots: &[Option<u16>],
    branches: &[Citation],
) -> bool
    ensures { IsTrue result
        ↔ AllZip (HoldsFor (plan job.now) (map bare lines.now) limit p) (signals slots.now)
        (map cited branches.now) }
{
    let mut next = 0;
    for slot in slots {
        if let Some(signal) = slot {
            if next >= branches.len() {
                return false;
            }
            if !holds_for(job, lines, limit, p, *signal, branches[next]) {
                return false;
            }
            next += 1;
        }
    }
    next == branches.len()
}

/// Whether r is a barrier-OR whose dependencies have these branches.
fn by_or(
    job: &Job,
    lines: &[Conclusion],
    limit: usize,
    p: usize,
    r: usize,
    branches: &[Citation],
) -> bool
    ensures { IsTrue result
        ↔ Follows (plan job.now) (map bare lines.now) limit p r (OrRule (map cited branches.now)) }
{
    job.is_packet(r) && job.is_or(r) && hold_for_each(job, lines, limit, p, job.slots(r), branches)
}

/// Whether the first line says that p comes before a packet, and the second that this comes before r.
fn through(
    lines: &[Conclusion],
    limit: usize,
    p: usize,
    r: usize,
    first: usize,
    second: usize,
) -> bool
    ensures { IsTrue result
        ↔ ((m : ℕ) × model.Says (map bare lines.now) limit first p m
        × model.Says (map bare lines.now) limit second m r) }
{
    match follower(lines, limit, first, p) {
        Some(middle) => says(lines, limit, second, middle, r),
        None => false,
    }
}

/// Whether the line follows by its rule from lines below the limit.
fn follows(job: &Job, lines: &[Conclusion], limit: usize, line: &Line) -> bool
    ensures { IsTrue result
        ↔ Follows (plan job.now) (map bare lines.now) limit line.now.p line.now.r (rule_of line.now.rule) }
{
    let p = line.p as usize;
    let r = line.r as usize;
    match &line.rule {
        Rule::Bit(j) => by_bit(job, p, *j as usize, r),
        Rule::Queue => by_queue(job, p, r),
        Rule::And(slot) => by_and(job, p, *slot as usize, r),
        Rule::Or(branches) => by_or(job, lines, limit, p, r, &branches.citations),
        Rule::Through(first, second) => {
            through(lines, limit, p, r, *first as usize, *second as usize)
        }
    }
}

/// Whether line k, which is this, holds: it follows by its rule from lines of lower number, by what they conclude.
pub fn line_holds(job: &Job, lines: &[Conclusion], k: usize, line: &Line) -> bool
    ensures { (all : List model.Line) → map conclusion_of all ≡ lines.now → slice_get all k ≡ Some (line_of line.now)
        → IsTrue result ↔ LineHolds (plan job.now) all k }
{
    follows(job, lines, k, line)
}

/// The least of these lines that doesn't hold, by its number. They are numbered from this number on, and all lines
/// conclude this.
pub fn first_bad_line(job: &Job, lines: &[Conclusion], from: usize, found: &[Line]) -> Option<usize>
    ensures { (all : List model.Line) → map conclusion_of all ≡ lines.now → StandAt all from (map line_of found.now)
        → BadLineOf (plan job.now) all (record { from = from; count = length found.now }) result }
{
    for k in from..lines.len() {
        let line = found.get(k - from)?;
        if !line_holds(job, lines, k, line) {
            return Some(k);
        }
    }
    None
}
