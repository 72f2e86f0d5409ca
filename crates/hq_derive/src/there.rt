//! Whether the lines are there that are needed.

ghost use Rattle.std.specs.Prelude.{◌+◌, ◌≤◌, ◌<◌, ◌⊎◌, ℕ, IfOk, IsTrue, Some, length, slice_get, ◌≡◌};
ghost use Rattle.std.specs.Int.{bit_at};
ghost use Rattle.hq_bits.specs.Bits.{has};
ghost use Rattle.hq_derive.specs.Gathered.{lines_of, InitialThere, IsInitial};
ghost use Rattle.hq_derive.specs.Needed.{AllThere, HasRoom, IsNeeded};

use crate::lines::Lines;
use crate::needs::Needs;
use crate::ranks::{Place, Ranks};
use hq_bits::{WIDTH, WORDS, less};
use hq_order::Before;
use std::alloc::{AllocError, Global};

/// The lines from one on, noted as needed ones are.
fn noted_from(
    alloc: Global,
    lines: &Lines,
    before: &Before,
    from: usize,
) -> Result<Needs, AllocError>
    ensures { IfOk result (λ noted. AllThere noted (lines_of lines.now)) }
{
    let mut noted = Needs::new(alloc, before)?;
    for k in from..lines.len() {
        let (p, r) = lines.line(k).packets();
        if p < WIDTH && r < WIDTH {
            noted.note(p, r);
        }
    }
    Ok(noted)
}

/// The bits of a word but those of needed lines of round 0, of which the packet has these places.
#[inline(always)]
fn later_of(places: &[Place], place: usize, word: u64) -> u64
    ensures { (bit : ℕ) → bit_at word bit ≡ 1
        → (bit_at result bit ≡ 1) ⊎ ((x : Place) × (slice_get places.now place ≡ Some x) × (bit_at x.initial bit ≡ 1)) }
{
    match places.get(place) {
        Some(known) => less(word, known.initial),
        None => word,
    }
}

/// Whether each line is noted that the bits stand for, that p is before others, but for those of round 0.
fn row_is_noted(ranks: &Ranks, noted: &Needs, p: usize, needed: &[u64]) -> bool
    requires p_is { p < WIDTH }
    requires few { length needed.now ≤ WORDS }
    ensures { IsTrue result → (r : ℕ) → IsTrue (has needed.now r)
        → IsInitial ranks.now p r ⊎ IsNeeded noted.now p r }
{
    let places = ranks.row(p);
    for (place, word) in needed.iter().enumerate() {
        let later = later_of(places, place, *word);
        if less(later, noted.word(p * WORDS + place)) != 0 {
            return false;
        }
    }
    true
}

/// Whether each line is there that is noted as needed; those of round 0 are.
///
/// # Errors
///
/// `AllocError` where there is no memory.
pub fn are_there(
    alloc: Global,
    lines: &Lines,
    ranks: &Ranks,
    before: &Before,
    needs: &Needs,
) -> Result<bool, AllocError>
    requires initial { InitialThere (lines_of lines.now) ranks.now }
    requires room { HasRoom before.now needs.now }
    ensures { IfOk result (λ are. IsTrue are → AllThere needs.now (lines_of lines.now)) }
{
    before.job().valid();
    let noted = noted_from(alloc, lines, before, ranks.initial())?;
    for p in 0..before.len() {
        if !row_is_noted(ranks, &noted, p, needs.row(p)) {
            return Ok(false);
        }
    }
    Ok(true)
}
