//! What packets that can never complete wait for.

ghost use Rattle.std.specs.Prelude.{◌≡◌, ◌↔◌, ℕ, suc, IsTrue, MatchOption};
ghost use Rattle.hq_job.specs.Plan.{plan};
ghost use Rattle.hq_model.specs.Job.{IsPacket};
ghost use Rattle.hq_model.specs.Order as order;
ghost use Rattle.hq_graph.specs.Known.{Sees, TellsStuck};
ghost use Rattle.hq_graph.specs.Order.{Awaits, WaitsBy};
ghost use Rattle.hq_graph.specs.declared.wait.Wait.{Wait as By};
ghost use Rattle.hq_graph.specs.declared.wait.Wait.TheVariants as wait;

use crate::ruling::named;
use crate::sight::Sight;
use crate::stuck::Stuck;
use crate::turns::has_slot;
use crate::wait::Wait;
use hq_job::Job;
use hq_packet::Packet;

/// Whether p stands right ahead of r in its queue.
fn is_right_ahead(job: &Job, p: usize, r: usize) -> bool
    requires p_is { IsPacket (plan job.now) p }
    requires r_is { IsPacket (plan job.now) r }
    ensures { IsTrue result ↔ WaitsBy (plan job.now) p r wait.Ahead }
{
    p < r && r - p == 1 && job.packet(p).queue == job.packet(r).queue
}

/// The signal that p completes on and r, a barrier packet, waits for.
fn signal_between(job: &Job, p: usize, r: usize) -> Option<u16>
    requires p_is { IsPacket (plan job.now) p }
    requires r_is { IsPacket (plan job.now) r }
    ensures { MatchOption result ((s : ℕ) → ¬ WaitsBy (plan job.now) p r (wait.Signal s))
        (λ s. WaitsBy (plan job.now) p r (wait.Signal s)) }
{
    match job.packet(r).packet {
        Packet::And(_) | Packet::Or(_) => named(job, p, r),
        _ => None,
    }
}

/// Whether one turn comes right behind another.
fn is_next(turn: usize, other: usize) -> bool
    ensures { IsTrue result ↔ (suc turn ≡ other) }
{
    turn < other && other - turn == 1
}

/// Whether p comes right ahead of r in the order of submission, and never is submitted.
fn is_turn(job: &Job, stuck: &Stuck, p: usize, r: usize) -> bool
    requires tells { TellsStuck (plan job.now) stuck.now }
    requires some { IsTrue stuck.now.some }
    requires p_is { IsPacket (plan job.now) p }
    requires r_is { IsPacket (plan job.now) r }
    ensures { IsTrue result ↔ WaitsBy (plan job.now) p r wait.Turn }
{
    job.valid();
    let turn = stuck.turns[p];
    if turn < stuck.barred {
        return false;
    }
    is_next(turn, stuck.turns[r])
}

/// A way in which r waits for p.
fn way_of(job: &Job, stuck: &Stuck, p: usize, r: usize) -> Option<Wait>
    requires tells { TellsStuck (plan job.now) stuck.now }
    requires some { IsTrue stuck.now.some }
    requires p_is { IsPacket (plan job.now) p }
    requires r_is { IsPacket (plan job.now) r }
    ensures { MatchOption result ((by : By) → ¬ WaitsBy (plan job.now) p r by) (λ by. WaitsBy (plan job.now) p r by) }
{
    if is_right_ahead(job, p, r) {
        return Some(Wait::Ahead);
    }
    if has_slot(job, p, r) {
        return Some(Wait::Slot);
    }
    if let Some(signal) = signal_between(job, p, r) {
        return Some(Wait::Signal(signal));
    }
    if is_turn(job, stuck, p, r) {
        Some(Wait::Turn)
    } else {
        None
    }
}

/// A way in which r, which can never complete, waits for p, if that can't either.
pub fn wait_at(job: &Job, stuck: &Stuck, p: usize, r: usize) -> Option<Wait>
    requires tells { TellsStuck (plan job.now) stuck.now }
    requires stuck { order.Stuck (plan job.now) r }
    requires p_is { IsPacket (plan job.now) p }
    requires r_is { IsPacket (plan job.now) r }
    ensures { MatchOption result ((by : By) → ¬ Awaits (plan job.now) p r by) (λ by. Awaits (plan job.now) p r by) }
{
    if stuck.has(job, p) {
        way_of(job, stuck, p, r)
    } else {
        None
    }
}

/// Whether a packet can never complete.
pub fn is_stuck(sight: &Sight, p: usize) -> bool
    requires sees { Sees sight.now }
    ensures { IsTrue result ↔ order.Stuck sight.now.before.now p }
{
    sight.stuck.has(sight.before.job(), p)
}

/// A way in which r, which can never complete, waits for p, if that can't either.
pub fn wait_of(sight: &Sight, p: usize, r: usize) -> Option<Wait>
    requires sees { Sees sight.now }
    requires stuck { order.Stuck sight.now.before.now r }
    requires p_is { IsPacket sight.now.before.now p }
    requires r_is { IsPacket sight.now.before.now r }
    ensures { MatchOption result ((by : By) → ¬ Awaits sight.now.before.now p r by)
        (λ by. Awaits sight.now.before.now p r by) }
{
    wait_at(sight.before.job(), sight.stuck, p, r)
}
