//! A run from its start to its end.

ghost use Rattle.std.specs.Prelude.{IfOk, IfErr};
ghost use Rattle.hq_job.specs.Plan.{plan};
ghost use Rattle.hq_kernels.specs.Kits.{KitsFit, bodies_of};
ghost use Rattle.hq_runner.specs.Journals.{IsOneByOne, IsWhole};
ghost use Rattle.hq_runner.specs.Outcomes.{IsCounted, KitsRan};

use crate::finish::finish;
use crate::gate::Gate;
use crate::outcome::{Outcome, RunFault};
use crate::shared::Shared;
use crate::threads::run_all;
use hq_certcheck::Accepted;
use hq_hall::Hall;
use hq_kernels::Kit;
use std::alloc::Global;
use std::sync::Wait;
use std::thread::Threads;

/// Runs the accepted job with these kits, one thread for each queue, the caller's for the first, and where queues are
/// rings one more for the host.
///
/// The journal is a run of the job that completes every packet, in which each processor and the host do their
/// programs, and that ends with its one rest. The memory is the one that every order of one packet at a time leaves
/// which keeps the job's order. The kits come back with the tasks that they had, and each of their bodies has run.
///
/// # Errors
///
/// `Memory`, also where a thread can't be made: the others are stopped; `Kernel` where a body refused a piece, faulted,
/// or gave other pieces back: the others are stopped too, and all pieces that came home by being dropped are counted;
/// `Split` where the board, by whose words the processors wait, tells another run than the hall; `Receipts` and
/// `Unfinished` where what the processors say they did isn't what was done.
#[tactic(auto, using(crate::proofs::Endings::lists_done, crate::proofs::Endings::kits_ran))]
pub fn run<R: Threads + Wait + Sync, G: Gate>(
    rt: &R,
    alloc: Global,
    accepted: &Accepted,
    kits: Vec<Kit>,
    gate: &G,
) -> Result<Outcome, RunFault>
    requires { KitsFit accepted.now.job
        (bodies_of (λ b. kernel (b.vtable, b.value)) (λ b. service (b.vtable, b.value)) kits.items) }
    ensures whole { IfOk result (λ o. IsWhole (plan accepted.now.job) o.journal o.memory.items) }
    ensures one_by_one { IfOk result (λ o. IsOneByOne (plan accepted.now.job) o.memory.items) }
    ensures kits { IfOk result
        (λ o. KitsRan (λ b. kernel (b.vtable, b.value)) (λ b. service (b.vtable, b.value)) kits.items o.kits.items) }
    ensures counted { IfErr result (λ e. IsCounted accepted.now.job.packets e) }
{
    let Ok(hall) = Hall::open(alloc, accepted) else {
        return Err(RunFault::Memory);
    };
    let shared = Shared::new(hall);
    let Ok((host, all)) = run_all(rt, alloc, accepted, &shared, gate, kits) else {
        return Err(RunFault::Memory);
    };
    finish(alloc, accepted, shared.into_hall(), host, all)
}
