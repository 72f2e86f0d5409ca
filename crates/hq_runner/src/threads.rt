//! A thread for each queue, and one for the host.

ghost use Rattle.std.specs.Prelude.{◌≡◌, ◌<◌, ◌≤◌, IfOk, false, length, map};
ghost use Rattle.hq_job.specs.Plan.{plan};
ghost use Rattle.hq_runner.specs.Ended.{AllDone, Done};
ghost use Rattle.hq_runner.specs.Hosted.{HostDone};

use crate::gate::Gate;
use crate::host::{Hosted, host};
use crate::places::{Place, seated, unseated};
use crate::queue::{Ended, process};
use crate::shared::Shared;
use crate::spread::{run_beside, run_each};
use hq_board::Board;
use hq_certcheck::Accepted;
use hq_job::Job;
use hq_kernels::Kit;
use std::alloc::{AllocError, Global};
use std::sync::Wait;
use std::thread::Threads;

/// Starts a processor in each place, each in a thread of its own, and waits for all.
fn run_queues<R: Threads + Wait + Sync, G: Gate>(
    rt: &R,
    alloc: Global,
    job: &Job,
    shared: &Shared,
    gate: &G,
    places: Vec<Place>,
) -> Result<Vec<Ended>, AllocError>
    requires { length places.items ≤ length job.now.queues }
    ensures { IfOk result
        (λ all. AllDone (λ b. kernel (b.vtable, b.value)) (λ b. service (b.vtable, b.value)) (plan job.now)
        (map (λ place. place.kit) places.entry.items) all.items) }
{
    run_each(
        rt,
        alloc,
        shared,
        &|queue: usize, place: Place| -> Ended
            requires { queue < length job.now.queues }
            ensures { Done (λ b. kernel (b.vtable, b.value)) (λ b. service (b.vtable, b.value))
                (plan job.entry.now) queue place.entry.kit result }
        { process(rt, alloc, job, shared, gate, queue, place) },
        places,
    )
}

/// Starts the host too, in a thread of its own, and waits for all. Where queues are rings, processors wait for the
/// host's submissions, and have no seats.
fn run_rings<R: Threads + Wait + Sync, G: Gate>(
    rt: &R,
    alloc: Global,
    job: &Job,
    shared: &Shared,
    gate: &G,
    places: Vec<Place>,
) -> Result<(Hosted, Vec<Ended>), AllocError>
    requires { length places.items ≤ length job.now.queues }
    ensures hosted { IfOk result (λ all. HostDone (plan job.now) all.0) }
    ensures ended { IfOk result
        (λ all. AllDone (λ b. kernel (b.vtable, b.value)) (λ b. service (b.vtable, b.value)) (plan job.now)
        (map (λ place. place.kit) places.entry.items) all.1.items) }
{
    let (hosted, ended) = run_beside(
        rt,
        alloc,
        shared,
        &|queue: usize, place: Place| -> Ended
            requires { queue < length job.now.queues }
            ensures { Done (λ b. kernel (b.vtable, b.value)) (λ b. service (b.vtable, b.value))
                (plan job.entry.now) queue place.entry.kit result }
        { process(rt, alloc, job, shared, gate, queue, place) },
        places,
        &|| -> Hosted
            ensures { HostDone (plan job.entry.now) result }
        { host(rt, alloc, job, shared) },
    )?;
    Ok((hosted, ended))
}

/// Opens a board and runs the processors, each with its seat.
fn run_seated<R: Threads + Wait + Sync, G: Gate>(
    rt: &R,
    alloc: Global,
    accepted: &Accepted,
    shared: &Shared,
    gate: &G,
    kits: Vec<Kit>,
) -> Result<Vec<Ended>, AllocError>
    requires count { length kits.items ≡ length accepted.now.job.queues }
    requires rings { accepted.now.job.rings ≡ false }
    ensures { IfOk result
        (λ all. AllDone (λ b. kernel (b.vtable, b.value)) (λ b. service (b.vtable, b.value))
        (plan accepted.now.job) kits.items all.items) }
{
    let Ok((board, seats)) = Board::open(alloc, accepted) else {
        return Err(AllocError);
    };
    let places = seated(alloc, &board, kits, seats)?;
    run_queues(rt, alloc, accepted.job(), shared, gate, places)
}

/// Runs the processors, and the host beside them where queues are rings, and waits for all.
pub fn run_all<R: Threads + Wait + Sync, G: Gate>(
    rt: &R,
    alloc: Global,
    accepted: &Accepted,
    shared: &Shared,
    gate: &G,
    kits: Vec<Kit>,
) -> Result<(Hosted, Vec<Ended>), AllocError>
    requires { length kits.items ≡ length accepted.now.job.queues }
    ensures hosted { IfOk result (λ all. HostDone (plan accepted.now.job) all.0) }
    ensures ended { IfOk result
        (λ all. AllDone (λ b. kernel (b.vtable, b.value)) (λ b. service (b.vtable, b.value))
        (plan accepted.now.job) kits.items all.1.items) }
{
    let job = accepted.job();
    if job.rings() {
        let places = unseated(alloc, kits)?;
        return run_rings(rt, alloc, job, shared, gate, places);
    }
    let hosted = host(rt, alloc, job, shared);
    let ended = run_seated(rt, alloc, accepted, shared, gate, kits)?;
    Ok((hosted, ended))
}
