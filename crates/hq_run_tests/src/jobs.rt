//! Jobs of texts, and what is asked of their runs.

use crate::texts::joined;
use hq_audit::audit;
use hq_certcheck::{Accepted, check};
use hq_kernels::{Kit, kits_fit};
use hq_runner::{Gate, OpenGate, Outcome, RunFault, run};
use std::alloc::Global;
use std::sync::Wait;
use std::test::*;
use std::thread::Threads;

/// The job of a text, accepted by the certificate that its audit gives.
pub fn accept_text(alloc: Global, text: &[u8]) -> Option<Accepted> {
    let Ok(job) = hq_jobtext::read_text(alloc, text) else {
        return None;
    };
    let Ok(certificate) = audit(alloc, &job) else {
        return None;
    };
    check(alloc, job, &certificate).ok()
}

/// The job of the text that these make.
fn accept_parts(alloc: Global, parts: &[&[u8]]) -> Option<Accepted> {
    let Ok(text) = joined(alloc, parts) else {
        return None;
    };
    accept_text(alloc, &text)
}

/// The same, which is asked for once more where there is no memory.
pub fn accepted_again(alloc: Global, parts: &[&[u8]]) -> Option<Accepted> {
    match accept_parts(alloc, parts) {
        Some(accepted) => Some(accepted),
        None => accept_parts(alloc, parts),
    }
}

/// The same, in a test.
pub fn accepted(alloc: Global, parts: &[&[u8]]) -> Result<Accepted, Fail> {
    match accept_parts(alloc, parts) {
        Some(accepted) => Ok(accepted),
        None => Err("the text is an ordered job".into()),
    }
}

/// What a run of the job with these kits answers.
fn run_with<R: Threads + Wait + Sync, G: Gate>(
    rt: &R,
    alloc: Global,
    accepted: &Accepted,
    kits: Vec<Kit>,
    gate: &G,
) -> Result<Result<Outcome, RunFault>, Fail> {
    if !kits_fit(accepted.job(), &kits) {
        return Err("the kits are the job's".into());
    }
    Ok(run(rt, alloc, accepted, kits, gate))
}

/// Whether a run of the job with these kits leaves this memory.
pub fn run_leaves<R: Threads + Wait + Sync, G: Gate>(
    rt: &R,
    alloc: Global,
    accepted: &Accepted,
    kits: Vec<Kit>,
    gate: &G,
    memory: &[u8],
) -> Result<bool, Fail> {
    match run_with(rt, alloc, accepted, kits, gate)? {
        Ok(outcome) => Ok(outcome.memory.as_slice() == memory),
        Err(_) => Err("the run ends".into()),
    }
}

/// What is told of a fault: the packet, how many of its pieces came home, how many didn't, and how many came home
/// in all.
pub type Told = (u16, u8, u8, usize);

/// What is told of the fault of a body that ends a run of the job with these kits.
pub fn run_faults<R: Threads + Wait + Sync>(
    rt: &R,
    alloc: Global,
    accepted: &Accepted,
    kits: Vec<Kit>,
) -> Result<Told, Fail> {
    match run_with(rt, alloc, accepted, kits, &OpenGate)? {
        Err(
            RunFault::Kernel {
                packet,
                home,
                lost,
                found,
            },
        ) => Ok((packet, home, lost, found.len())),
        _ => Err("a body fails".into()),
    }
}

/// Whether both say the same.
pub fn same(told: Told, wanted: Told) -> bool {
    told.0 == wanted.0 && told.1 == wanted.1 && told.2 == wanted.2 && told.3 == wanted.3
}
