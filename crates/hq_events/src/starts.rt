//! The lists in which a run starts.

ghost use Rattle.std.specs.Prelude.{◌≡◌, [], false, length, IfOk, map, replicate};
ghost use Rattle.hq_job.specs.Plan.{plan};
ghost use Rattle.hq_model.specs.Machine.{first_phase};
ghost use Rattle.hq_events.specs.Phases.{named};
ghost use Rattle.hq_events.specs.Rows.{no_stores};

use crate::packets::packet_count;
use crate::phase::Phase;
use crate::rows::{Reads, Stores};
use hq_job::Job;
use std::alloc::{AllocError, Global};

/// The phase that packets start in.
fn first_phase(job: &Job) -> Phase
    ensures { named result ≡ first_phase (plan job.now) }
{
    if job.rings() {
        Phase::Waiting
    } else {
        Phase::InQueue
    }
}

/// The phase of each packet as the job starts.
///
/// # Errors
///
/// `AllocError` where there is no memory.
#[tactic(auto, using(crate::proofs::Replicated::map_replicate))]
pub fn first_phases(alloc: Global, job: &Job) -> Result<Vec<Phase>, AllocError>
    ensures { IfOk result
        (λ phases. map named phases.items ≡ replicate (length (plan job.now).packets) (first_phase (plan job.now))) }
{
    let phases = vec![in alloc; first_phase(job); packet_count(job)]?;
    Ok(phases)
}

/// What each packet has observed as the job starts.
///
/// # Errors
///
/// `AllocError` where there is no memory.
pub fn nothing_observed(alloc: Global, count: usize) -> Result<Vec<[bool; 5]>, AllocError>
    ensures { IfOk result (λ rows. rows.items ≡ replicate count (replicate 5 false)) }
{
    let rows = vec![in alloc; [false; 5]; count]?;
    Ok(rows)
}

/// What each signal starts with.
///
/// # Errors
///
/// `AllocError` where there is no memory.
pub fn signal_values(alloc: Global, job: &Job) -> Result<Vec<u64>, AllocError>
    ensures { IfOk result (λ values. values.items ≡ (plan job.now).starts) }
{
    let signals = job.signals();
    let count = signals.len();
    let mut values = Vec::with_capacity(alloc, count)?;
    for signal in 0..count {
        values.push(signals.start(signal))?;
    }
    Ok(values)
}

/// A row for each packet, with nothing read.
///
/// # Errors
///
/// `AllocError` where there is no memory.
#[tactic(auto, using(crate::proofs::Replicated::replicate_more))]
pub fn no_reads(alloc: Global, count: usize) -> Result<Vec<Reads>, AllocError>
    ensures { IfOk result (λ rows. rows.items ≡ replicate count []) }
{
    let mut rows = Vec::with_capacity(alloc, count)?;
    for _ in 0..count {
        rows.push(Reads::new(alloc))?;
    }
    Ok(rows)
}

/// The stores of each packet, with nothing stored.
///
/// # Errors
///
/// `AllocError` where there is no memory.
#[tactic(auto, using(crate::proofs::Replicated::replicate_more))]
pub fn nothing_stored(alloc: Global, count: usize) -> Result<Vec<Stores>, AllocError>
    ensures { IfOk result (λ rows. rows.items ≡ replicate count no_stores) }
{
    let mut rows = Vec::with_capacity(alloc, count)?;
    for _ in 0..count {
        rows.push(Stores::new(alloc))?;
    }
    Ok(rows)
}
