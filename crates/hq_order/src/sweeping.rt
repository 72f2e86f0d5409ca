//! All that is before each packet, worked out row by row in the order of a list: quick, and without the rounds that
//! say how it follows.

ghost use Rattle.std.specs.Prelude.{◌≡◌, ◌<◌, [], ℕ, suc, IfOk, IfSome, IsTrue, OnOk, length};
ghost use Rattle.hq_job.specs.Plan.{plan};
ghost use Rattle.hq_model.specs.Job.{Dependency, Earlier, IsBarrier, IsPacket, packet};
ghost use Rattle.hq_model.specs.Job.Kind.{BarrierAnd};
ghost use Rattle.hq_bits.specs.Bits.{has};
ghost use Rattle.hq_rows.specs.Matrix.{Marks, IsSquare, words_for};
ghost use Rattle.hq_rows.specs.Lists.{AllAre};
ghost use Rattle.hq_waits.specs.Waits.{Completing};
ghost use Rattle.hq_order.specs.Rounds.{ByOr, Reaches};
ghost use Rattle.hq_order.specs.Sweeping.{Asked, HaveAsked, HaveOrder, StandsTogether};

use crate::before::words_of;
use crate::rounds::unite_shared;
use hq_bits::{covers, empty, insert, insert_all, unite};
use hq_job::Job;
use hq_packet::Packet;
use hq_rows::{Known, reached, row_of};
use hq_waits::completing;
use std::alloc::{AllocError, Global};

/// After so many sweeps the rows are given up.
const MOST: usize = 64;

/// What is known by these rows.
fn known_by<'a>(rows: &'a [Vec<u64>]) -> Known<'a>
    ensures rows { result.rows.now ≡ rows.now }
    ensures unions { result.unions.now ≡ [] }
{
    Known {
        rows,
        earlier: &[],
        renewed: &[],
        unions: &[],
    }
}

/// Takes in what is before r since r stands in its queue behind it, or behind a packet that it is before.
fn unite_ahead(row: &mut [u64], job: &Job, rows: &[Vec<u64>], r: usize)
    requires r_is { IsPacket (plan job.now) r }
    requires square { IsSquare (length job.now.packets) rows.now }
    requires row { length row.old ≡ words_for (length job.now.packets) }
    ensures together { StandsTogether (plan job.now) r }
    ensures ahead { (p e : ℕ) → suc e ≡ r → Earlier (plan job.now) e r → Marks rows.now p e → IsTrue (has row.new p) }
    ensures queue { (p : ℕ) → suc p ≡ r → Earlier (plan job.now) p r → IsBarrier (plan job.now) p
        → IsTrue (has row.new p) }
    ensures bit { (p : ℕ) → Earlier (plan job.now) p r → IsTrue (packet (plan job.now) r).bit → IsTrue (has row.new p) }
{
    job.valid();
    let start = job.queue_of(r).start;
    if r <= start {
        return;
    }
    unite(row, row_of(rows, r - 1));
    if job.has_bit(r) {
        insert_all(row, start, r);
    } else if job.is_barrier(r - 1) {
        insert(row, r - 1);
    }
}

/// Takes in what is complete once a signal is over.
fn unite_branch(
    alloc: Global,
    row: &mut [u64],
    job: &Job,
    completing: &[Vec<u64>],
    rows: &[Vec<u64>],
    signal: u16,
) -> Result<(), AllocError>
    requires square { IsSquare (length job.now.packets) rows.now }
    requires row { length row.old ≡ words_for (length job.now.packets) }
    requires completing { AllAre
        (λ s set. Completing (plan job.now) s set.items
        × (length set.items ≡ words_for (length job.now.packets))) completing.now }
    requires low { signal < length completing.now }
    ensures kept { OnOk result ((p : ℕ) → IsTrue (has row.old p) → IsTrue (has row.new p)) }
    ensures taken { OnOk result ((p : ℕ) → Reaches (plan job.now) (Marks rows.now) p signal → IsTrue (has row.new p)) }
{
    let branch = reached(alloc, &completing[signal as usize], &known_by(rows))?;
    unite(row, &branch);
    Ok(())
}

/// Takes in what is complete once one of the signals is over.
fn unite_branches(
    alloc: Global,
    row: &mut [u64],
    job: &Job,
    completing: &[Vec<u64>],
    rows: &[Vec<u64>],
    r: usize,
) -> Result<(), AllocError>
    requires r_is { IsPacket (plan job.now) r }
    requires square { IsSquare (length job.now.packets) rows.now }
    requires row { length row.old ≡ words_for (length job.now.packets) }
    requires completing { AllAre
        (λ s set. Completing (plan job.now) s set.items
        × (length set.items ≡ words_for (length job.now.packets))) completing.now }
    requires signals { length completing.now ≡ length job.now.signals }
    ensures kept { OnOk result ((p : ℕ) → IsTrue (has row.old p) → IsTrue (has row.new p)) }
    ensures taken { OnOk result
        ((p slot s : ℕ) → Dependency (plan job.now) r slot s → Reaches (plan job.now) (Marks rows.now) p s
        → IsTrue (has row.new p)) }
{
    job.valid();
    for slot in job.slots(r) {
        if let Some(signal) = slot {
            unite_branch(alloc, row, job, completing, rows, *signal)?;
        }
    }
    Ok(())
}

/// Takes in what is complete before r ends its wait, where it is a barrier packet.
fn unite_waits(
    alloc: Global,
    row: &mut [u64],
    job: &Job,
    completing: &[Vec<u64>],
    rows: &[Vec<u64>],
    r: usize,
) -> Result<(), AllocError>
    requires r_is { IsPacket (plan job.now) r }
    requires square { IsSquare (length job.now.packets) rows.now }
    requires row { length row.old ≡ words_for (length job.now.packets) }
    requires completing { AllAre
        (λ s set. Completing (plan job.now) s set.items
        × (length set.items ≡ words_for (length job.now.packets))) completing.now }
    requires signals { length completing.now ≡ length job.now.signals }
    ensures kept { OnOk result ((p : ℕ) → IsTrue (has row.old p) → IsTrue (has row.new p)) }
    ensures ands { OnOk result
        ((p slot s : ℕ) → (packet (plan job.now) r).kind ≡ BarrierAnd → Dependency (plan job.now) r slot s
        → Reaches (plan job.now) (Marks rows.now) p s → IsTrue (has row.new p)) }
    ensures ors { OnOk result ((p : ℕ) → ByOr (plan job.now) (Marks rows.now) p r → IsTrue (has row.new p)) }
{
    match job.packet(r).packet {
        Packet::And(_) => unite_branches(alloc, row, job, completing, rows, r),
        Packet::Or(_) => {
            let _more = unite_shared(alloc, row, job, completing, &known_by(rows), r)?;
            Ok(())
        }
        _ => Ok(()),
    }
}

/// What the row of r is to have by the rows of those that r waits for.
fn asked_row(
    alloc: Global,
    job: &Job,
    completing: &[Vec<u64>],
    rows: &[Vec<u64>],
    r: usize,
) -> Result<Vec<u64>, AllocError>
    requires r_is { IsPacket (plan job.now) r }
    requires square { IsSquare (length job.now.packets) rows.now }
    requires completing { AllAre
        (λ s set. Completing (plan job.now) s set.items
        × (length set.items ≡ words_for (length job.now.packets))) completing.now }
    requires signals { length completing.now ≡ length job.now.signals }
    ensures len { IfOk result (λ row. length row.items ≡ words_for (length job.now.packets)) }
    ensures together { OnOk result (StandsTogether (plan job.now) r) }
    ensures asked { IfOk result
        (λ row. (p : ℕ) → Asked (plan job.now) (Marks rows.now) p r → IsTrue (has row.items p)) }
{
    let mut row = empty(alloc, words_of(job))?;
    unite_ahead(&mut row, job, rows, r);
    unite_waits(alloc, &mut row, job, completing, rows, r)?;
    Ok(row)
}

/// Works each row out anew by the others, in the order of a list.
fn renew(
    alloc: Global,
    job: &Job,
    completing: &[Vec<u64>],
    order: &[u16],
    rows: &mut Vec<Vec<u64>>,
) -> Result<(), AllocError>
    requires square { IsSquare (length job.now.packets) rows.old.items }
    requires completing { AllAre
        (λ s set. Completing (plan job.now) s set.items
        × (length set.items ≡ words_for (length job.now.packets))) completing.now }
    requires signals { length completing.now ≡ length job.now.signals }
    ensures { OnOk result (IsSquare (length job.now.packets) rows.new.items) }
{
    for packet in order {
        let r = *packet as usize;
        if r < rows.len() {
            let row = asked_row(alloc, job, completing, rows, r)?;
            rows[r] = row;
        }
    }
    Ok(())
}

/// Whether each row has what it is asked for.
fn have_asked(
    alloc: Global,
    job: &Job,
    completing: &[Vec<u64>],
    rows: &[Vec<u64>],
) -> Result<bool, AllocError>
    requires square { IsSquare (length job.now.packets) rows.now }
    requires completing { AllAre
        (λ s set. Completing (plan job.now) s set.items
        × (length set.items ≡ words_for (length job.now.packets))) completing.now }
    requires signals { length completing.now ≡ length job.now.signals }
    ensures { IfOk result (λ have. IsTrue have → HaveAsked (plan job.now) rows.now) }
{
    for r in 0..rows.len() {
        let asked = asked_row(alloc, job, completing, rows, r)?;
        if !covers(row_of(rows, r), &asked) {
            return Ok(false);
        }
    }
    Ok(true)
}

/// A row for each packet, with nothing in it.
fn empty_rows(alloc: Global, job: &Job) -> Result<Vec<Vec<u64>>, AllocError>
    ensures { IfOk result (λ rows. IsSquare (length job.now.packets) rows.items) }
{
    job.valid();
    let count = job.packets().len();
    let mut rows = Vec::with_capacity(alloc, count)?;
    for _ in 0..count {
        rows.push(empty(alloc, words_of(job))?)?;
    }
    Ok(rows)
}

/// Rows that have at least the order of a job: each has all that is before its packet. They are worked out by
/// sweeps in the order of a list, quickly where that is an order list of the job; without an answer where too many
/// sweeps don't do.
///
/// # Errors
///
/// `AllocError` where there is no memory.
pub fn sweep(alloc: Global, job: &Job, order: &[u16]) -> Result<Option<Vec<Vec<u64>>>, AllocError>
    ensures { IfOk result (λ rows. IfSome rows (λ all. HaveOrder (plan job.now) all.items)) }
{
    job.valid();
    let completing = completing(alloc, job, words_of(job))?;
    let mut rows = empty_rows(alloc, job)?;
    for _ in 0..MOST {
        renew(alloc, job, &completing, order, &mut rows)?;
        if have_asked(alloc, job, &completing, &rows)? {
            return Ok(Some(rows));
        }
    }
    Ok(None)
}
