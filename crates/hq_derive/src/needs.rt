//! Which lines a certificate needs.

ghost use Rattle.std.specs.Prelude.{◌≡◌, ℕ, ◌+◌, ◌*◌, ◌/◌, ◌<◌, ◌≤◌, ◌⊎◌, IfOk, IsTrue, false, length, slice_index};
ghost use Rattle.hq_bits.specs.Bits.{has};
ghost use Rattle.hq_model.specs.Job.{IsPacket};
ghost use Rattle.hq_derive.specs.Needed.{IsNeeded, HasRoom, Widens};

use crate::kept::{Middle, Middles};
use hq_bits::{WIDTH, WORDS, column_of, unite, word_at};
use hq_order::{Before, has_no_either};
use std::alloc::{AllocError, Global};

/// The place of r's word in the row of p.
#[inline(always)]
fn place_of(p: usize, r: usize) -> usize
    ensures { p < WIDTH → r < WIDTH → result ≡ (p * WIDTH + r) / 64 }
{
    p.wrapping_mul(WORDS).wrapping_add(r / 64)
}

/// Whether a row has no bits. All words are looked at, as that costs less than to stop at the first that has some.
fn is_bare(row: &[u64]) -> bool
    ensures { IsTrue result → (r : ℕ) → has row.now r ≡ false }
{
    let mut all = 0;
    for word in row {
        all |= *word;
    }
    all == 0
}

/// Which lines are needed.
#[derive(Drop)]
pub struct Needs {
    /// Bit `r % 64` at the place of p and r tells whether a line that p is before r is needed.
    bits: Vec<u64>,
    /// Through which packets the lines go that others were found to rest on, where that is kept.
    middles: Option<Middles>,
}

impl Needs {
    /// None are needed yet.
    ///
    /// # Errors
    ///
    /// `AllocError` where there is no memory.
    pub fn new(alloc: Global, before: &Before) -> Result<Needs, AllocError>
        ensures room { IfOk result (HasRoom before.now) }
        ensures none { IfOk result (λ needs. (p r : ℕ) → IsNeeded needs p r → ⊥) }
    {
        before.job().valid();
        let bits = vec![in alloc; 0; before.len() * WORDS]?;
        Ok(Needs {
            bits,
            middles: None,
        })
    }

    /// The packets that p is needed to be before, as bits; none at all where there is no such packet.
    pub(crate) fn row(&self, p: usize) -> &[u64]
        ensures len { length result.now ≤ WORDS }
        ensures has { p < WIDTH → (p + 1) * WORDS ≤ length self.now.bits.items
            → (r : ℕ) → IsNeeded self.now p r → IsTrue (has result.now r) }
    {
        if p >= WIDTH || (p + 1) * WORDS > self.bits.len() {
            return &[];
        }
        let row = column_of(&self.bits, p);
        if is_bare(row) { &[] } else { row }
    }

    /// What others note as needed is needed too.
    pub fn take_in(&mut self, before: &Before, others: &Needs)
        requires room { HasRoom before.now self.old }
        requires others { HasRoom before.now others.now }
        ensures widens { Widens before.now self.old self.new }
        ensures taken { Widens before.now others.now self.new }
    {
        unite(&mut self.bits, &others.bits);
    }

    /// The bits at a place, or none where there is no such place.
    #[inline(always)]
    pub(crate) fn word(&self, place: usize) -> u64
        ensures { result ≡ slice_index self.now.bits.items place }
    {
        word_at(&self.bits, place)
    }

    /// A line that p is before r is needed.
    #[inline(always)]
    pub fn need(&mut self, before: &Before, p: usize, r: usize)
        requires room { HasRoom before.now self.old }
        requires p_is { IsPacket before.now p }
        requires r_is { IsPacket before.now r }
        ensures needed { IsNeeded self.new p r }
        ensures widens { Widens before.now self.old self.new }
    {
        self.note(p, r);
    }

    /// What is found from here on of the packets that lines go through is kept, unless a packet is a barrier-OR.
    pub(crate) fn keep_middles(&mut self, alloc: Global, before: &Before)
        requires { HasRoom before.now self.old }
        ensures { Widens before.now self.old self.new }
    {
        if has_no_either(before.job()) {
            self.middles = Some(Middles::new(alloc));
        }
    }

    /// What was kept of the packets that lines go through, if that is all.
    pub(crate) fn middles(&self) -> Option<&Middles> {
        self.middles.as_ref()
    }

    /// What lines of the round below rest on is found next.
    pub(crate) fn go_down(&mut self, before: &Before)
        requires { HasRoom before.now self.old }
        ensures { Widens before.now self.old self.new }
    {
        let lost = match &mut self.middles {
            Some(middles) => middles.go_down().is_err(),
            None => false,
        };
        if lost {
            self.middles = None;
        }
    }

    /// The line that p is before r goes through m: kept, where that is asked for, as long as there is memory.
    #[inline(always)]
    pub(crate) fn keep(&mut self, before: &Before, p: usize, m: usize, r: usize)
        requires room { HasRoom before.now self.old }
        requires p_is { IsPacket before.now p }
        requires m_is { IsPacket before.now m }
        requires r_is { IsPacket before.now r }
        ensures { Widens before.now self.old self.new }
    {
        before.job().valid();
        let lost = match &mut self.middles {
            Some(middles) => middles.keep(Middle::new(p, m, r)).is_err(),
            None => false,
        };
        if lost {
            self.middles = None;
        }
    }

    /// Notes that a line that p is before r is needed, where there is room for that.
    #[inline(always)]
    pub(crate) fn note(&mut self, p: usize, r: usize)
        ensures len { length self.new.bits.items ≡ length self.old.bits.items }
        ensures still { (n : ℕ) → IsTrue (has self.old.bits.items n) → IsTrue (has self.new.bits.items n) }
        ensures noted { p < WIDTH → r < WIDTH → (p * WIDTH + r) / 64 < length self.old.bits.items
            → IsTrue (has self.new.bits.items (p * WIDTH + r)) }
        ensures only { p < WIDTH → r < WIDTH → (n : ℕ) → IsTrue (has self.new.bits.items n)
            → IsTrue (has self.old.bits.items n) ⊎ (n ≡ p * WIDTH + r) }
    {
        if let Some(word) = self.bits.get_mut(place_of(p, r)) {
            *word |= 1 << (r % 64);
        }
    }
}
