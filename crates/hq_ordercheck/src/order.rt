//! Order lists.

ghost use Rattle.std.specs.Prelude.{◌≡◌, ℕ, ◌<◌, ◌≤◌, ◌↔◌, IsTrue, IfOk, All, length};
ghost use Rattle.hq_job.specs.Plan.{plan};
ghost use Rattle.hq_model.specs.Job.{IsPacket, Earlier};
ghost use Rattle.hq_model.specs.Order.{OrderList};
ghost use Rattle.hq_ordercheck.specs.Placed.{ArePlaces, StandsAhead, RisesOn, KeepsQueue};
ghost use Rattle.hq_ordercheck.specs.Placed.{AreLasts, KeepsOrder};

use crate::placing::{each_once, places};
use crate::rings::all_have_slots;
use crate::waits::{all_have_waited, last_places};
use hq_job::Job;
use std::alloc::{AllocError, Global};
use std::ops::Range;

/// Whether the places of these packets rise.
fn rise(places: &[usize], span: Range<usize>) -> bool
    requires { (p : ℕ) → span.start ≤ p → p < span.end → p < length places.now }
    ensures { IsTrue result ↔ RisesOn places.now span.start span.end }
{
    let start = span.start;
    for r in start..span.end {
        if r > start && places[r - 1] >= places[r] {
            return false;
        }
    }
    true
}

/// Whether the order keeps that of a queue.
fn keeps_queue(job: &Job, places: &[usize], queue: usize) -> bool
    requires count { length places.now ≡ length job.now.packets }
    requires queue_is { queue < length job.now.queues }
    ensures { IsTrue result ↔ KeepsQueue (plan job.now) places.now queue }
{
    rise(places, job.of_queue(queue))
}

/// Whether the order keeps that of each queue.
fn all_keep_queues(job: &Job, places: &[usize]) -> bool
    requires { length places.now ≡ length job.now.packets }
    ensures { IsTrue result ↔ ((p r : ℕ) → Earlier (plan job.now) p r → StandsAhead places.now p r) }
{
    job.valid();
    for queue in 0..job.queues().len() {
        if !keeps_queue(job, places, queue) {
            return false;
        }
    }
    true
}

/// Whether the places keep the order of the queues, of what is waited for, and of slots.
fn keeps_order(job: &Job, turns: &[usize], places: &[usize], lasts: &[Option<usize>]) -> bool
    requires lasts { AreLasts (plan job.now) places.now (length job.now.signals) lasts.now }
    requires turns { length turns.now ≡ length job.now.packets }
    requires count { length places.now ≡ length job.now.packets }
    ensures { IsTrue result ↔ KeepsOrder (plan job.now) turns.now places.now }
{
    all_keep_queues(job, places)
        && all_have_waited(job, places, lasts)
        && all_have_slots(job, turns, places)
}

/// Whether a list of packets is an order list of the job, by its tables.
fn is_kept(
    job: &Job,
    turns: &[usize],
    list: &[u16],
    places: &[usize],
    lasts: &[Option<usize>],
) -> bool
    requires lasts { AreLasts (plan job.now) places.now (length job.now.signals) lasts.now }
    requires turns { ArePlaces (plan job.now) job.now.submissions turns.now }
    requires packets { All (IsPacket (plan job.now)) list.now }
    requires places { ArePlaces (plan job.now) list.now places.now }
    ensures { IsTrue result ↔ OrderList (plan job.now) list.now }
{
    job.valid();
    each_once(job, list, places) && keeps_order(job, turns, places, lasts)
}

/// Whether a list of packets is an order list of the job.
///
/// # Errors
///
/// `AllocError` where there is no memory.
pub fn is_order_list(alloc: Global, job: &Job, list: &[u16]) -> Result<bool, AllocError>
    requires { All (IsPacket (plan job.now)) list.now }
    ensures { IfOk result (λ is. IsTrue is ↔ OrderList (plan job.now) list.now) }
{
    let turns = places(alloc, job, job.submissions())?;
    let places = places(alloc, job, list)?;
    let lasts = last_places(alloc, job, &places)?;
    Ok(is_kept(job, &turns, list, &places, &lasts))
}
