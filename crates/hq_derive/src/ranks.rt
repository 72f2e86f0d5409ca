//! The rank of each line that is needed.

ghost use Rattle.std.specs.Prelude.{◌≡◌, ◌≤◌, ◌↔◌, ℕ, List, MatchOption, Some, length, slice_get};
ghost use Rattle.hq_derive.specs.Gathered.{IsPlaceOf, IsRowOf};

use crate::needs::Needs;
use hq_bits::{WORDS, less, word_at};
use hq_order::{Before, Fresh};
use std::alloc::{AllocError, Global};

/// Which lines are needed that a packet is before 64 others.
#[derive(Clone, Copy, Debug)]
pub struct Place {
    /// The bits of those of round 0,
    pub initial: u64,
    /// and of those of later rounds.
    pub later: u64,
    /// How many of round 0 there are at the places ahead of this one,
    pub initial_ahead: u32,
    /// and how many of later rounds.
    pub later_ahead: u32,
}

impl Place {
    /// The rank of the line of a later round that is needed at a bit.
    #[inline(always)]
    pub fn later_rank(&self, bit: usize) -> u32 {
        let ahead = (1u64 << (bit % 64)).wrapping_sub(1);
        let count = (self.later & ahead).count_ones();
        self.later_ahead.wrapping_add(count)
    }
}

/// No line is needed.
const NOTHING: Place = Place {
    initial: 0,
    later: 0,
    initial_ahead: 0,
    later_ahead: 0,
};

/// How many lines stand ahead of one, of those of round 0 where it is one of these, or else of those of later rounds.
#[derive(Clone, Copy, Debug)]
pub enum Rank {
    Initial(u32),
    Later(u32),
}

/// Ranks of the needed lines of round 0, and of those of later rounds, by the first packet and then by the second.
#[derive(Drop)]
pub struct Ranks {
    /// For each packet one more than the number of its row, or 0 where no line is needed that it is before another.
    numbers: Vec<usize>,
    rows: Vec<[Place; WORDS]>,
    /// How many of round 0 there are in all,
    initial: u32,
    /// and how many of later rounds.
    later: u32,
}

impl Ranks {
    /// The ranks of no lines.
    pub fn none(alloc: Global) -> Ranks {
        Ranks {
            numbers: Vec::new(alloc),
            rows: Vec::new(alloc),
            initial: 0,
            later: 0,
        }
    }

    /// The rank of each line that is needed.
    ///
    /// # Errors
    ///
    /// `AllocError` where there is no memory.
    pub fn new(alloc: Global, before: &Before, needs: &Needs) -> Result<Ranks, AllocError> {
        let mut ranks = Ranks {
            numbers: Vec::with_capacity(alloc, before.len())?,
            rows: Vec::with_capacity(alloc, before.len())?,
            initial: 0,
            later: 0,
        };
        let fresh = before.fresh(0);
        for p in 0..before.len() {
            let number = ranks.add(&fresh, p, needs.row(p))?;
            ranks.numbers.push(number)?;
        }
        Ok(ranks)
    }

    /// Adds the row of p, where a line is needed that it is before another; answers one more than its number, or 0.
    fn add(&mut self, fresh: &Fresh, p: usize, needed: &[u64]) -> Result<usize, AllocError> {
        if needed.is_empty() {
            return Ok(0);
        }
        let mut row = [NOTHING; WORDS];
        for k in 0..WORDS {
            let word = word_at(needed, k);
            let initial = word & fresh.word(p, k);
            row[k] = self.placed(initial, less(word, initial));
        }
        self.rows.push(row)?;
        Ok(self.rows.len())
    }

    /// The place at which these lines are needed, behind all that are noted.
    #[inline(always)]
    fn placed(&mut self, initial: u64, later: u64) -> Place {
        let place = Place {
            initial,
            later,
            initial_ahead: self.initial,
            later_ahead: self.later,
        };
        self.initial = self.initial.saturating_add(initial.count_ones());
        self.later = self.later.saturating_add(later.count_ones());
        place
    }

    /// How many lines of round 0 are needed.
    pub fn initial(&self) -> usize {
        self.initial as usize
    }

    /// The number of the first line of a later round: those of round 0 stand ahead of it.
    pub fn first_later(&self) -> u32 {
        self.initial
    }

    /// How many lines of later rounds are needed.
    pub fn later(&self) -> usize {
        self.later as usize
    }

    /// For how many packets it is known whether they have a row.
    pub fn len(&self) -> usize
        ensures { result ≡ length self.now.numbers.items }
    {
        self.numbers.len()
    }

    /// The row of p, if it has one.
    #[inline(always)]
    fn row_of(&self, p: usize) -> Option<&[Place; WORDS]>
        ensures { MatchOption result ((row : List Place) → IsRowOf self.now p row → ⊥)
            (λ row. IsRowOf self.now p row.now) }
    {
        let number = self.numbers.get(p)?.checked_sub(1)?;
        self.rows.get(number)
    }

    /// The places of p; none where no line is needed that it is before another.
    #[inline(always)]
    pub fn row(&self, p: usize) -> &[Place]
        ensures places { (k : ℕ) (place : Place) → slice_get result.now k ≡ Some place ↔ IsPlaceOf self.now p k place }
        ensures len { length result.now ≤ WORDS }
    {
        match self.row_of(p) {
            Some(row) => row,
            None => &[],
        }
    }

    /// The rank of the line that p is before r, if one is needed.
    #[inline(always)]
    pub fn rank(&self, p: usize, r: usize) -> Option<Rank> {
        let place = self.row_of(p)?.get(r / 64)?;
        let bit = 1u64 << (r % 64);
        let ahead = bit.wrapping_sub(1);
        if place.initial & bit != 0 {
            let count = (place.initial & ahead).count_ones();
            return Some(Rank::Initial(place.initial_ahead.wrapping_add(count)));
        }
        if place.later & bit != 0 {
            return Some(Rank::Later(place.later_rank(r)));
        }
        None
    }
}
