//! Sets of lanes.

ghost use Rattle.std.specs.Prelude.{◌≡◌, ◌/◌, ◌^◌, ◌<◌, ◌≤◌, ◌||◌, ◌&&◌, ◌==◌, not, ℕ, IfOk, IsTrue, false, length};
ghost use Rattle.hq_bits.specs.Bits.{has};
ghost use Rattle.hq_copies.specs.Known.{HasRoom};

use std::alloc::{AllocError, Global};

/// A set of lanes, as bits.
#[derive(Drop)]
pub struct Lanes {
    bits: Vec<u64>,
}

impl Lanes {
    /// No lane, with room for so many.
    pub fn new(alloc: Global, count: usize) -> Result<Lanes, AllocError>
        ensures room { IfOk result (λ set. HasRoom count set.bits.items) }
        ensures none { IfOk result (λ set. (k : ℕ) → has set.bits.items k ≡ false) }
    {
        let bits = hq_bits::empty(alloc, count / 64 + 1)?;
        Ok(Lanes { bits })
    }

    /// Takes the lane in.
    pub fn insert(&mut self, lane: usize)
        requires { lane / 64 < length self.old.bits.items }
        ensures has { (k : ℕ) → has self.new.bits.items k ≡ (has self.old.bits.items k || k == lane) }
        ensures len { length self.new.bits.items ≡ length self.old.bits.items }
    {
        hq_bits::insert(&mut self.bits, lane);
    }

    /// Takes the lane out.
    pub fn remove(&mut self, lane: usize)
        requires { lane / 64 < length self.old.bits.items }
        ensures has { (k : ℕ) → has self.new.bits.items k ≡ (has self.old.bits.items k && not (k == lane)) }
        ensures len { length self.new.bits.items ≡ length self.old.bits.items }
    {
        hq_bits::remove(&mut self.bits, lane);
    }

    /// Takes the lane out, unless another set has it.
    pub fn remove_unless(&mut self, lane: usize, other: &Lanes)
        requires { lane / 64 < length self.old.bits.items }
        ensures has { (k : ℕ) → has self.new.bits.items k
            ≡ (has self.old.bits.items k && (not (k == lane) || has other.now.bits.items lane)) }
        ensures len { length self.new.bits.items ≡ length self.old.bits.items }
    {
        if !hq_bits::has(&other.bits, lane) {
            self.remove(lane);
        }
    }

    /// The first lane of it from one on, or the end where there is none before it.
    pub fn next(&self, from: usize, end: usize) -> usize
        requires few { length self.now.bits.items ≤ 2 ^ 58 }
        requires from { from ≤ end }
        ensures above { from ≤ result }
        ensures below { result ≤ end }
        ensures none { (k : ℕ) → from ≤ k → k < result → has self.now.bits.items k ≡ false }
        ensures there { result < end → IsTrue (has self.now.bits.items result) }
    {
        hq_bits::next_in(&self.bits, from, end)
    }

    /// An equal set.
    pub fn copy(&self) -> Result<Lanes, AllocError>
        ensures { IfOk result (λ set. set.bits.items ≡ self.now.bits.items) }
    {
        Ok(Lanes {
            bits: self.bits.clone()?,
        })
    }
}
