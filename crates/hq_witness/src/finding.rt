//! The search for a witness.

ghost use Rattle.std.specs.Prelude.{◌↔◌, ◌⊎◌, ◌<◌, IfErr, IfOk, IfSome, IsTrue, MatchOption, length};
ghost use Rattle.hq_audit.specs.declared.fault.AuditNo.TheVariants.{Conflict};
ghost use Rattle.hq_audit.specs.Refused.{IsRefused, IsUnshown, ShownOneWay};
ghost use Rattle.hq_job.specs.Plan.{plan};
ghost use Rattle.hq_model.specs.Fence.{Conflicts, Ordered};
ghost use Rattle.hq_model.specs.Fence.Conflict.{ReadWrite, WriteRead};
ghost use Rattle.hq_witness.specs.Targets.{unshown_of};
ghost use Rattle.hq_witness.specs.Witness.{AreFound, IsNo, IsOrderedOrMemory, IsWitness};

use crate::attempt::{Found, attempt};
use crate::fault::WitnessNo;
use crate::target::Target;
use crate::value::Witness;
use hq_audit::laws::ordered_is_not_refused;
use hq_audit::{AuditNo, direct, verdict};
use hq_finding::{Kind, Why};
use hq_job::Job;
use hq_order::Before;
use hq_schedule::schedule;
use std::alloc::{AllocError, Global};

/// At most so many attempts are made in all and of one pair; the second numbers are of large jobs.
const MOST: Attempts = Attempts {
    in_all: 24,
    of_pair: 6,
};

const MOST_OF_LARGE: Attempts = Attempts {
    in_all: 4,
    of_pair: 1,
};

/// From so many bytes on that packets read and write a job is large.
const LARGE: u64 = 200_000;

/// How many attempts are made.
#[derive(Clone, Copy)]
struct Attempts {
    in_all: u32,
    of_pair: u32,
}

/// What an attempt needs of the job, its order, and how many attempts are made of one pair.
#[derive(Clone, Copy)]
struct Known<'a> {
    before: &'a Before<'a>,
    order: &'a [u16],
    of_pair: u32,
}

/// How many attempts are made.
fn attempts_for(job: &Job) -> Attempts {
    let mut bytes: u64 = 0;
    for placed in job.packets() {
        let [first, second] = placed.bytes.reads;
        for range in [first, second, placed.bytes.write] {
            bytes = bytes.saturating_add(range.len);
        }
    }
    if bytes < LARGE { MOST } else { MOST_OF_LARGE }
}

/// Two runs that show the conflict of a pair by one of its bytes, with so many attempts left.
fn show_pair(
    alloc: Global,
    job: &Job,
    known: Known,
    mut target: Target,
    left: &mut u32,
) -> Result<Option<Found>, AllocError>
    ensures { IfOk result (λ found. IfSome found (AreFound (plan job.now))) }
{
    job.valid();
    let least = left.saturating_sub(known.of_pair);
    let bytes = target.bytes(job);
    for byte in bytes.start..bytes.end {
        target.byte = byte;
        if *left > least && target.is_shared(job) {
            *left -= 1;
            let found = attempt(alloc, job, known.before, known.order, &target)?;
            if found.is_some() {
                return Ok(found);
            }
        }
    }
    Ok(None)
}

/// Whether one of two packets reads what the other writes.
fn meet_in_a_read(known: Known, a: usize, b: usize) -> bool
    requires a_is { a < length known.before.now.packets }
    requires b_is { b < length known.before.now.packets }
    ensures { IsTrue result
        ↔ (Conflicts known.entry.before.now WriteRead a b ⊎ Conflicts known.entry.before.now ReadWrite a b) }
{
    let kinds = known.before.job().kinds(a, b);
    kinds.wr || kinds.rw
}

/// The conflict of two packets that isn't ordered, if there is one.
fn target_of(known: Known, a: usize, b: usize) -> Option<Target>
    requires a_is { a < length known.before.now.packets }
    requires b_is { b < length known.before.now.packets }
    ensures { MatchOption result (ShownOneWay known.entry.before.now a b)
        (λ target. IsUnshown known.entry.before.now a b (unshown_of target)) }
{
    match direct(known.before, a, b) {
        Ok(_directed) => None,
        Err(unshown) => Some(Target {
            p: unshown.p as u32,
            r: unshown.r as u32,
            kind: unshown.fault.kind,
            why: unshown.fault.why,
            byte: 0,
        }),
    }
}

/// Two runs that show a conflict of a packet with one above it, if asked so only one in which a packet reads what
/// the other writes.
fn show_row(
    alloc: Global,
    job: &Job,
    known: Known,
    a: usize,
    reads_only: bool,
    left: &mut u32,
) -> Result<Option<Found>, AllocError>
    requires { a < length known.before.now.packets }
    ensures { IfOk result (λ found. IfSome found (AreFound (plan job.now))) }
{
    let count = known.before.len();
    for b in a + 1..count {
        if *left == 0 {
            return Ok(None);
        }
        if reads_only && !meet_in_a_read(known, a, b) {
            continue;
        }
        if let Some(target) = target_of(known, a, b) {
            let found = show_pair(alloc, job, known, target, left)?;
            if found.is_some() {
                return Ok(found);
            }
        }
    }
    Ok(None)
}

/// Two runs that show a conflict in which a packet reads what another writes, the first ones first.
fn show_reads(
    alloc: Global,
    job: &Job,
    known: Known,
    left: &mut u32,
) -> Result<Option<Found>, AllocError>
    ensures { IfOk result (λ found. IfSome found (AreFound (plan job.now))) }
{
    for a in 0..known.before.len() {
        let found = show_row(alloc, job, known, a, true, left)?;
        if found.is_some() {
            return Ok(found);
        }
    }
    Ok(None)
}

/// Two runs that show a conflict, the last ones first: what is written last isn't written over.
fn show_last(
    alloc: Global,
    job: &Job,
    known: Known,
    left: &mut u32,
) -> Result<Option<Found>, AllocError>
    ensures { IfOk result (λ found. IfSome found (AreFound (plan job.now))) }
{
    let count = known.before.len();
    for behind in 0..count {
        let a = count - 1 - behind;
        let found = show_row(alloc, job, known, a, false, left)?;
        if found.is_some() {
            return Ok(found);
        }
    }
    Ok(None)
}

/// Two runs that show a conflict: this one, or another.
fn show_some(
    alloc: Global,
    job: &Job,
    known: Known,
    target: Target,
    attempts: u32,
) -> Result<Option<Found>, AllocError>
    ensures { IfOk result (λ found. IfSome found (AreFound (plan job.now))) }
{
    let mut left = attempts;
    let found = show_pair(alloc, job, known, target, &mut left)?;
    if found.is_some() {
        return Ok(found);
    }
    let mut half = left / 2;
    let found = show_reads(alloc, job, known, &mut half)?;
    if found.is_some() {
        return Ok(found);
    }
    let mut rest = left - left / 2;
    show_last(alloc, job, known, &mut rest)
}

/// Two runs that show a conflict that isn't ordered: this one, or another.
fn show(alloc: Global, job: &Job, target: Target) -> Result<Option<Found>, AllocError>
    ensures { IfOk result (λ found. IfSome found (AreFound (plan job.now))) }
{
    let Ok(order) = schedule(alloc, job) else {
        return Err(AllocError);
    };
    let Ok(before) = Before::build(alloc, job) else {
        return Err(AllocError);
    };
    let most = attempts_for(job);
    let known = Known {
        before: &before,
        order: &order,
        of_pair: most.of_pair,
    };
    show_some(alloc, job, known, target, most.in_all)
}

/// The two runs that show that the conflict which the audit refuses may go wrong.
fn witness_of(
    alloc: Global,
    job: &Job,
    p: u16,
    r: u16,
    kind: Kind,
    why: Why,
) -> Result<Witness, WitnessNo>
    requires { IsRefused (plan job.now) (Conflict p r kind why) }
    ensures is { IfOk result (λ w. IsWitness (plan job.now) w) }
    ensures no { IfErr result (λ no. IsNo (plan job.now) no) }
{
    let target = Target {
        p: p as u32,
        r: r as u32,
        kind,
        why,
        byte: 0,
    };
    let Some(found) = show(alloc, job, target)? else {
        return Err(WitnessNo::None { p, r, kind, why });
    };
    Ok(Witness {
        p,
        r,
        kind,
        why,
        place: found.difference.place,
        good: found.good,
        good_origin: found.difference.good,
        bad: found.bad,
        bad_origin: found.difference.bad,
    })
}

/// Two runs of a job that isn't ordered in which an entry that a packet reads, or a byte of memory at the end,
/// comes from elsewhere.
///
/// # Errors
///
/// `Ordered`, exactly where the job is ordered. `Stuck` with the packets that can never complete, as an audit says
/// them. `None` with the conflict that an audit refuses, where no two runs were found; nothing is said of whether
/// there are some. `Memory`.
pub fn witness(alloc: Global, job: &Job) -> Result<Witness, WitnessNo>
    ensures is { IfOk result (λ w. IsWitness (plan job.now) w) }
    ensures no { IfErr result (λ no. IsNo (plan job.now) no) }
    ensures ordered { Ordered (plan job.now) → IfErr result IsOrderedOrMemory }
{
    ordered_is_not_refused();
    match verdict(alloc, job) {
        Ok(()) => Err(WitnessNo::Ordered),
        Err(AuditNo::Conflict { p, r, kind, why }) => { witness_of(alloc, job, p, r, kind, why) }
        Err(no) => Err(WitnessNo::from(no)),
    }
}
