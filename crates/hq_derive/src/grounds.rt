//! Why a packet comes before another.

ghost use Rattle.std.specs.Prelude.{◌≡◌, ℕ, ◌<◌, ◌↔◌, IsTrue, MatchOption, Some, slice_get};
ghost use Rattle.hq_model.specs.Job.{IsPacket, Decrements};
ghost use Rattle.hq_job.specs.Plan.{plan};
ghost use Rattle.hq_order.specs.Rounds.{IsFirstWithin, Reaches, ByOr};
ghost use Rattle.hq_derive.specs.Rests.{Below, ByBranch, FollowsAlone, NoneAlone, IsGround};

use hq_cert::Rule;
use hq_job::Job;
use hq_order::Before;
use hq_order::rules::{bit_between, is_held, slot_of};
use hq_packet::Packet;

/// Why packet p comes before packet r: by a rule that cites no line; since p is complete whichever dependency of the
/// barrier-OR r is over; or since p comes before a packet that comes before r.
#[derive(Debug, Drop)]
pub enum Ground {
    Alone(Rule),
    Or,
    Through(usize),
}

/// The rule by which p is before r, where it is one that cites no line: by the barrier bit of a packet; since p is a
/// barrier packet ahead of r; since p completes on the dependency in a slot of the barrier-AND r.
#[inline(always)]
pub fn rule_alone(job: &Job, p: usize, r: usize) -> Option<Rule>
    requires p_is { IsPacket (plan job.now) p }
    requires r_is { IsPacket (plan job.now) r }
    ensures { MatchOption result (NoneAlone (plan job.now) p r) (FollowsAlone (plan job.now) p r) }
{
    job.valid();
    if let Some(j) = bit_between(job, p, r) {
        return Some(Rule::Bit(j as u32));
    }
    if is_held(job, p, r) {
        return Some(Rule::Queue);
    }
    match slot_of(job, p, r) {
        Some(slot) => Some(Rule::And(slot as u32)),
        None => None,
    }
}

/// Whether p is before r by rounds below this one. That it is before r at all costs less to find out.
fn is_below(before: &Before, round: usize, p: usize, r: usize) -> bool
    ensures { IsTrue result ↔ Below before.now round p r }
{
    if !before.holds(p, r) {
        return false;
    }
    match before.round(p, r) {
        Some(k) => k < round,
        None => false,
    }
}

/// Whether d completes on the signal, and p comes before d by lower rounds.
#[inline(always)]
fn is_branch(before: &Before, round: usize, p: usize, signal: u16, d: usize) -> bool
    ensures { IsTrue result ↔ (Decrements before.now d signal × Below before.now round p d) }
{
    before.job().completes_on(d, signal) && is_below(before, round, p, d)
}

/// The packet that completes on the signal and that p comes up to by lower rounds: p itself, or else the least.
pub fn branch_of(before: &Before, round: usize, p: usize, signal: u16) -> Option<usize>
    requires { IsPacket before.now p }
    ensures { MatchOption result ((d : ℕ) → ByBranch before.now round p signal d → ⊥)
        (λ d. ByBranch before.now round p signal d) }
{
    if before.job().completes_on(p, signal) {
        return Some(p);
    }
    if let Some(d) = before.completer(round, p, signal) {
        if is_branch(before, round, p, signal, d) {
            return Some(d);
        }
    }
    for d in 0..before.len() {
        if is_branch(before, round, p, signal, d) {
            return Some(d);
        }
    }
    None
}

/// Whether p comes up to a packet that completes on the signal, by lower rounds.
#[tactic(auto, using(crate::proofs::Founded::branch_reaches, crate::proofs::Founded::reaches_branch))]
fn is_up_to(before: &Before, round: usize, p: usize, signal: u16) -> bool
    requires { IsPacket before.now p }
    ensures { IsTrue result ↔ Reaches before.now (Below before.now round) p signal }
{
    branch_of(before, round, p, signal).is_some()
}

/// Whether p comes up to each of these signals by lower rounds.
fn is_up_to_each(before: &Before, round: usize, p: usize, slots: &[Option<u16>]) -> bool
    requires { IsPacket before.now p }
    ensures { IsTrue result
        ↔ ((slot s : ℕ) → slice_get slots.now slot ≡ Some (Some s) → Reaches before.now (Below before.now round) p s) }
{
    for slot in slots {
        if let Some(signal) = slot {
            if !is_up_to(before, round, p, *signal) {
                return false;
            }
        }
    }
    true
}

/// Whether r is a barrier-OR, and p comes up to each of its dependencies by lower rounds.
fn is_either(before: &Before, round: usize, p: usize, r: usize) -> bool
    requires p_is { IsPacket before.now p }
    requires r_is { IsPacket before.now r }
    ensures { IsTrue result ↔ ByOr before.now (Below before.now round) p r }
{
    let job = before.job();
    job.valid();
    let waiting = job.packet(r);
    match waiting.packet {
        Packet::Or(_) => is_up_to_each(before, round, p, &waiting.slots),
        _ => false,
    }
}

/// Why p is before r, by the round in which that comes first.
pub fn ground_of(before: &Before, round: usize, p: usize, r: usize) -> Ground
    requires { IsFirstWithin before.now round p r }
    ensures { IsGround before.now round p r result }
{
    if let Some(rule) = rule_alone(before.job(), p, r) {
        return Ground::Alone(rule);
    }
    if is_either(before, round, p, r) {
        return Ground::Or;
    }
    Ground::Through(before.middle(round, p, r).unwrap())
}
