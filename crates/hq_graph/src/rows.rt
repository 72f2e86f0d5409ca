//! The steps of the order, as rows of bits.

ghost use Rattle.std.specs.Prelude.{◌≡◌, ◌↔◌, ℕ, ◌<◌, ◌≤◌, IsTrue, IfOk, length};
ghost use Rattle.hq_model.specs.Job.{IsPacket};
ghost use Rattle.hq_model.specs.Order as order;
ghost use Rattle.hq_bits.specs.Bits.{has};
ghost use Rattle.hq_rows.specs.Matrix.{words_for};
ghost use Rattle.hq_graph.specs.Known.{AreSteps, Sees};
ghost use Rattle.hq_graph.specs.Order.{IsStep};

use crate::sight::Sight;
use hq_bits::{WORDS, next_in, take_out};
use hq_order::Before;
use std::alloc::{AllocError, Global};

/// Leaves of a set of packets those that are before no other of it.
fn leave_last(row: &mut [u64], before: &Before)
    requires { length row.old ≡ words_for (length before.now.packets) }
    ensures { (p : ℕ) → IsTrue (has row.new p)
        ↔ (IsTrue (has row.old p) × ((m : ℕ) → IsTrue (has row.old m) → order.Before before.now p m → ⊥)) }
{
    before.job().valid();
    let mut m = next_in(row, 0, before.len());
    'each: while m < before.len() {
        take_out(row, before.ahead(m));
        m = next_in(row, m + 1, before.len());
    }
}

/// The packets from which a step leads to a packet.
fn step_row(alloc: Global, before: &Before, r: usize) -> Result<Vec<u64>, AllocError>
    requires { IsPacket before.now r }
    ensures width { IfOk result (λ row. length row.items ≤ WORDS) }
    ensures exact { IfOk result (λ row. (p : ℕ) → IsTrue (has row.items p) ↔ IsStep before.now p r) }
{
    before.job().valid();
    let mut row = before.ahead(r).to_vec(alloc)?;
    leave_last(&mut row, before);
    Ok(row)
}

/// For each packet those from which a step leads to it.
pub fn steps_of(alloc: Global, before: &Before) -> Result<Vec<Vec<u64>>, AllocError>
    ensures { IfOk result (λ rows. AreSteps before.now rows.items) }
{
    let mut rows = Vec::with_capacity(alloc, before.len())?;
    for r in 0..before.len() {
        rows.push(step_row(alloc, before, r)?)?;
    }
    Ok(rows)
}

/// The least packet from one on from which a step leads to r, or the number of packets where there is none.
pub fn next_step(sight: &Sight, r: usize, from: usize) -> usize
    requires sees { Sees sight.now }
    requires r { IsPacket sight.now.before.now r }
    requires from { from ≤ length sight.now.before.now.packets }
    ensures above { from ≤ result }
    ensures below { result ≤ length sight.now.before.now.packets }
    ensures none { (p : ℕ) → from ≤ p → p < result → ¬ IsStep sight.now.before.now p r }
    ensures there { result < length sight.now.before.now.packets → IsStep sight.now.before.now result r }
{
    next_in(&sight.steps[r], from, sight.before.len())
}
