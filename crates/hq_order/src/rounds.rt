//! One round: what follows by one rule from what is known.

ghost use Rattle.std.specs.Prelude.{OnOk, Some, slice_get, ◌≡◌, ℕ, ◌/◌, ◌<◌, ◌↔◌, ◌⊎◌, ◌*◌, ◌≤◌, IsTrue};
ghost use Rattle.std.specs.Prelude.{IfOk, false, length};
ghost use Rattle.hq_job.specs.Plan.{plan};
ghost use Rattle.hq_model.specs.Job.{IsPacket};
ghost use Rattle.hq_bits.specs.Bits.{has, Grown};
ghost use Rattle.hq_order.specs.Rounds.{Next, Reaches, ByOr};
ghost use Rattle.hq_model.specs.Order.{AwaitsAny};
ghost use Rattle.hq_rows.specs.Matrix.{row, words_for, Marks, IsSquare, Square};
ghost use Rattle.hq_rows.specs.Lists.{AllAre};
ghost use Rattle.hq_waits.specs.Waits.{Completing};
ghost use Rattle.hq_rows.specs.Uniting.{CanUnite, Stepped, Through};

use hq_bits::WORDS;
use hq_job::Job;
use hq_packet::Packet;
use hq_rows::{Known, note, reached, through_row, unite_more};
use std::alloc::{AllocError, Global};

/// Leaves only the packets that are complete once the signal is over: its decrementers, and those before them.
fn meet_branch(
    alloc: Global,
    shared: &mut [u64],
    job: &Job,
    completing: &[Vec<u64>],
    known: &Known,
    signal: u16,
) -> Result<(), AllocError>
    requires square { Square (length job.now.packets) (length shared.old) known.now.rows.now }
    requires unions { CanUnite known.now.rows.now (length shared.old) known.now.unions.now }
    requires completing { AllAre
        (λ s set. Completing (plan job.now) s set.items × (length set.items ≡ length shared.old)) completing.now }
    requires few { length shared.old ≤ WORDS }
    requires low { signal < length completing.now }
    ensures { OnOk result
        ((p : ℕ) → IsTrue (has shared.new p)
        ↔ (IsTrue (has shared.old p) × Reaches (plan job.now) (Marks known.now.rows.now) p signal)) }
{
    let branch = reached(alloc, &completing[signal as usize], known)?;
    hq_bits::meet(shared, &branch);
    Ok(())
}

/// Leaves only the packets that are complete whichever slot's signal is over.
fn meet_branches(
    alloc: Global,
    shared: &mut [u64],
    job: &Job,
    completing: &[Vec<u64>],
    known: &Known,
    slots: &[Option<u16>],
) -> Result<(), AllocError>
    requires square { Square (length job.now.packets) (length shared.old) known.now.rows.now }
    requires unions { CanUnite known.now.rows.now (length shared.old) known.now.unions.now }
    requires completing { AllAre
        (λ s set. Completing (plan job.now) s set.items × (length set.items ≡ length shared.old)) completing.now }
    requires few { length shared.old ≤ WORDS }
    requires low { (slot s : ℕ) → slice_get slots.now slot ≡ Some (Some s) → s < length completing.now }
    ensures { OnOk result
        ((p : ℕ) → IsTrue (has shared.new p)
        ↔ (IsTrue (has shared.old p)
        × ((slot s : ℕ) → slice_get slots.now slot ≡ Some (Some s)
        → Reaches (plan job.now) (Marks known.now.rows.now) p s))) }
{
    for slot in slots {
        if let Some(signal) = slot {
            meet_branch(alloc, shared, job, completing, known, *signal)?;
        }
    }
    Ok(())
}

/// Takes in the packets that are complete whichever dependency of r is over, where r is a barrier-OR. Whether any
/// of them is new.
pub fn unite_shared(
    alloc: Global,
    new: &mut [u64],
    job: &Job,
    completing: &[Vec<u64>],
    known: &Known,
    r: usize,
) -> Result<bool, AllocError>
    requires square { Square (length job.now.packets) (length new.old) known.now.rows.now }
    requires unions { CanUnite known.now.rows.now (length new.old) known.now.unions.now }
    requires completing { AllAre
        (λ s set. Completing (plan job.now) s set.items × (length set.items ≡ length new.old)) completing.now }
    requires signals { length completing.now ≡ length job.now.signals }
    requires few { length new.old ≤ WORDS }
    requires r_is { IsPacket (plan job.now) r }
    ensures grown { OnOk result (Grown new.old new.new) }
    ensures exact { OnOk result
        ((p : ℕ) → IsTrue (has new.new p)
        ↔ (IsTrue (has new.old p) ⊎ ByOr (plan job.now) (Marks known.now.rows.now) p r)) }
    ensures more { IfOk result (λ more. more ≡ false → (p : ℕ) → IsTrue (has new.new p) → IsTrue (has new.old p)) }
{
    job.valid();
    let placed = job.packet(r);
    if let Packet::Or(_) = placed.packet {
        let mut shared = hq_bits::full(alloc, new.len())?;
        meet_branches(alloc, &mut shared, job, completing, known, &placed.slots)?;
        return Ok(unite_more(new, &shared));
    }
    Ok(false)
}

/// The packets before r by what is known, or by one rule from that. Notes r as renewed where an either gives more
/// than the rows.
pub fn next_row(
    alloc: Global,
    job: &Job,
    completing: &[Vec<u64>],
    known: &Known,
    renewed: &mut [u64],
    r: usize,
) -> Result<Vec<u64>, AllocError>
    requires square { Square (length job.now.packets) (length (row known.now.rows.now r)) known.now.rows.now }
    requires unions { CanUnite known.now.rows.now (length (row known.now.rows.now r)) known.now.unions.now }
    requires stepped { Stepped known.now.earlier.now known.now.rows.now known.now.renewed.now }
    requires completing { AllAre
        (λ s set. Completing (plan job.now) s set.items
        × (length set.items ≡ length (row known.now.rows.now r))) completing.now }
    requires signals { length completing.now ≡ length job.now.signals }
    requires room { length known.now.rows.now ≤ length renewed.old * 64 }
    requires few { length (row known.now.rows.now r) ≤ WORDS }
    requires r_is { IsPacket (plan job.now) r }
    ensures grown { IfOk result (λ new. Grown (row known.now.rows.now r) new.items) }
    ensures exact { IfOk result
        (λ new. (p : ℕ) → IsTrue (has new.items p) ↔ Next (plan job.now) (Marks known.now.rows.now) p r) }
    ensures kept { OnOk result ((m : ℕ) → IsTrue (has renewed.old m) → IsTrue (has renewed.new m)) }
    ensures rests { IfOk result
        (λ new. (p : ℕ) → IsTrue (has new.items p) → IsTrue (has renewed.new r) ⊎ Through known.now.rows.now p r) }
{
    let mut new = through_row(alloc, known, r)?;
    let more = unite_shared(alloc, &mut new, job, completing, known, r)?;
    note(renewed, r, more);
    Ok(new)
}

/// The rows after one more round. Notes the packets before which an either puts more than the rows give.
pub fn next_rows(
    alloc: Global,
    job: &Job,
    completing: &[Vec<u64>],
    known: &Known,
    renewed: &mut [u64],
) -> Result<Vec<Vec<u64>>, AllocError>
    requires square { IsSquare (length job.now.packets) known.now.rows.now }
    requires unions { CanUnite known.now.rows.now (words_for (length job.now.packets)) known.now.unions.now }
    requires stepped { Stepped known.now.earlier.now known.now.rows.now known.now.renewed.now }
    requires completing { AllAre
        (λ s set. Completing (plan job.now) s set.items
        × (length set.items ≡ words_for (length job.now.packets))) completing.now }
    requires signals { length completing.now ≡ length job.now.signals }
    requires room { length known.now.rows.now ≤ length renewed.old * 64 }
    ensures square { IfOk result (λ new. IsSquare (length job.now.packets) new.items) }
    ensures grown { IfOk result (λ new. (r : ℕ) → Grown (row known.now.rows.now r) (row new.items r)) }
    ensures exact { IfOk result
        (λ new. (p r : ℕ) → Marks new.items p r ↔ Next (plan job.now) (Marks known.now.rows.now) p r) }
    ensures stepped { IfOk result (λ new. Stepped known.now.rows.now new.items renewed.new) }
{
    job.valid();
    let mut new = Vec::with_capacity(alloc, known.rows.len())?;
    for r in 0..known.rows.len() {
        new.push(next_row(alloc, job, completing, known, renewed, r)?)?;
    }
    Ok(new)
}

/// Whether no packet is a barrier-OR.
pub fn has_no_either(job: &Job) -> bool
    ensures { IsTrue result → (r : ℕ) → AwaitsAny (plan job.now) r → ⊥ }
{
    job.valid();
    for r in 0..job.packets().len() {
        if let Packet::Or(_) = job.packet(r).packet {
            return false;
        }
    }
    true
}
