//! By which rule a packet is before another.

ghost use Rattle.std.specs.Prelude.{◌≡◌, ◌↔◌, ℕ, ◌<◌, IsTrue, MatchOption, Some, length, slice_get};
ghost use Rattle.hq_job.specs.Plan.{plan};
ghost use Rattle.hq_model.specs.Job.{IsPacket};
ghost use Rattle.hq_graph.specs.Known.{Completes};
ghost use Rattle.hq_graph.specs.Order.{HasRule, IsRule, IsStep};
ghost use Rattle.hq_graph.specs.declared.rule.Rule.TheVariants as by;

use crate::rule::Rule;
use hq_job::Job;
use hq_order::Before;
use hq_order::rules::{bit_between, is_held};
use hq_packet::Packet;

/// Whether a slot names the signal.
fn is_named(slots: &[Option<u16>], signal: u16) -> bool
    ensures { IsTrue result ↔ ((slot : ℕ) × (slice_get slots.now slot ≡ Some (Some signal))) }
{
    for slot in slots {
        if *slot == Some(signal) {
            return true;
        }
    }
    false
}

/// The signal that p completes on, where a slot of r names it.
pub fn named(job: &Job, p: usize, r: usize) -> Option<u16>
    requires p_is { IsPacket (plan job.now) p }
    requires r_is { IsPacket (plan job.now) r }
    ensures { MatchOption result ((s : ℕ) → ¬ Completes (plan job.now) p r s) (λ s. Completes (plan job.now) p r s) }
{
    let signal = job.packet(p).done?;
    if is_named(&job.packet(r).slots, signal) {
        Some(signal)
    } else {
        None
    }
}

/// The dependency of r, a barrier-AND, that p completes on.
fn signal_of(job: &Job, p: usize, r: usize) -> Option<u16>
    requires p_is { IsPacket (plan job.now) p }
    requires r_is { IsPacket (plan job.now) r }
    ensures { MatchOption result ((s : ℕ) → ¬ IsRule (plan job.now) p r (by.And s))
        (λ s. IsRule (plan job.now) p r (by.And s)) }
{
    match job.packet(r).packet {
        Packet::And(_) => named(job, p, r),
        _ => None,
    }
}

/// A rule that alone puts p before r, where there is one.
pub fn rule_in(job: &Job, p: usize, r: usize) -> Rule
    requires p_is { p < length (plan job.now).packets }
    requires r_is { r < length (plan job.now).packets }
    requires direct { HasRule (plan job.now) p r }
    ensures { IsRule (plan job.now) p r result }
{
    job.valid();
    if let Some(j) = bit_between(job, p, r) {
        return Rule::Bit(j as u16);
    }
    if is_held(job, p, r) {
        return Rule::Queue;
    }
    match signal_of(job, p, r) {
        Some(signal) => Rule::And(signal),
        None => Rule::Or,
    }
}

/// The rule by which p is before r, where no packet is between them.
pub fn rule_of(before: &Before, p: usize, r: usize) -> Rule
    requires p_is { IsPacket before.now p }
    requires r_is { IsPacket before.now r }
    requires step { IsStep before.now p r }
    ensures { IsRule before.now p r result }
{
    rule_in(before.job(), p, r)
}
