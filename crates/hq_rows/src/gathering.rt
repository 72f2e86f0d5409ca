//! What stands before some packets, taken in together: four packets at a time where there are many, else one by one.

ghost use Rattle.std.specs.Prelude.{◌≡◌, ◌≢◌, ◌+◌, ◌*◌, ◌/◌, ◌%◌, ◌^◌, ◌<◌};
ghost use Rattle.std.specs.Prelude.{◌≤◌, ◌↔◌, ◌⊎◌, ◌==◌, ℕ, IsTrue, IfOk, length};
ghost use Rattle.std.specs.Int.{bit_at};
ghost use Rattle.hq_bits.specs.Bits.{has, Grown};
ghost use Rattle.hq_rows.specs.Matrix.{row, Marks};
ghost use Rattle.hq_rows.specs.Uniting.{OfChoice, OfFour, AreUnions, CanUnite, Unites, is_fresh, union};

use crate::columns::row_of;
use crate::fours::unite_four;
use hq_bits::{WORDS, covers, less, lowest, unite, without, word_at};
use std::alloc::{AllocError, Global};

/// How many choices there are from a group of four packets.
const CHOICES: usize = 16;

/// From so many packets on the unions of all choices cost less than to go through the packets one by one.
const MANY: u32 = 32_768;

/// What the next round is worked out from.
#[derive(Clone, Copy)]
pub struct Known<'a> {
    /// The rows of the last round.
    pub rows: &'a [Vec<u64>],
    /// Those of the round before that; none where there is none.
    pub earlier: &'a [Vec<u64>],
    /// The packets whose rows got more in the last round than two of the earlier rows give.
    pub renewed: &'a [u64],
    /// For each choice from each group of four packets what is before one of them by the rows; none at all where
    /// few packets are to be gone through, or rows haven't all their words.
    pub unions: &'a [[u64; WORDS]],
}

/// The choice without its first packet.
fn lesser(choice: usize, bit: usize) -> usize
    requires low { choice < 16 }
    requires has { bit_at choice bit ≡ 1 }
    ensures clear { bit_at result bit ≡ 0 }
    ensures same { (i : ℕ) → i < 64 → i ≢ bit → bit_at result i ≡ bit_at choice i }
    ensures less { result < choice }
    ensures low { bit < 4 }
{
    without(choice as u64, bit) as usize
}

/// Takes in what is before m, where there is such a packet.
fn unite_row(union: &mut [u64], rows: &[Vec<u64>], m: usize)
    requires width { (k : ℕ) → k < length rows.now → length (row rows.now k) ≡ length union.old }
    ensures grown { Grown union.old union.new }
    ensures exact { (p : ℕ) → IsTrue (has union.new p) ↔ (IsTrue (has union.old p) ⊎ Marks rows.now p m) }
{
    if m < rows.len() {
        unite(union, row_of(rows, m));
    }
}

/// The union at a place; none where there is no such place.
#[inline(always)]
fn union_at(unions: &[[u64; WORDS]], place: usize) -> &[u64]
    ensures { result.now ≡ union unions.now place }
{
    match unions.get(place) {
        Some(union) => union,
        None => &[],
    }
}

/// What is before the packets of a choice; `unions` has that for the choices ahead of it.
fn union_of(rows: &[Vec<u64>], unions: &[[u64; WORDS]], entry: usize) -> [u64; WORDS]
    requires width { (k : ℕ) → k < length rows.now → length (row rows.now k) ≡ WORDS }
    requires len { length unions.now ≡ entry }
    requires entry { entry < WORDS * 256 }
    requires exact { (k p : ℕ) → k < entry → Unites unions.now p k ↔ OfChoice rows.now (k / 16) (k % 16) p }
    ensures len { length result ≡ WORDS }
    ensures exact { (p : ℕ) → IsTrue (has result p) ↔ OfChoice rows.now (entry / 16) (entry % 16) p }
{
    let choice = entry % CHOICES;
    if choice == 0 {
        return [0; WORDS];
    }
    let bit = lowest(choice as u64);
    let mut union = unions[entry - choice + lesser(choice, bit)];
    unite_row(&mut union, rows, entry / CHOICES * 4 + bit);
    union
}

/// What is before the packets of each choice.
fn all_unions(alloc: Global, rows: &[Vec<u64>]) -> Result<Vec<[u64; WORDS]>, AllocError>
    requires width { (k : ℕ) → k < length rows.now → length (row rows.now k) ≡ WORDS }
    ensures { IfOk result (λ unions. AreUnions rows.now WORDS unions.items) }
{
    let count = WORDS * 256;
    let mut unions = Vec::with_capacity(alloc, count)?;
    for entry in 0..count {
        unions.push(union_of(rows, &unions, entry))?;
    }
    Ok(unions)
}

/// How many packets of the row are fresh.
fn count_fresh(row: &[u64], earlier: &[u64], renewed: &[u64]) -> u32 {
    let mut count = 0u32;
    for place in 0..row.len() {
        let word = fresh_word(row, earlier, renewed, place);
        count = count.saturating_add(word.count_ones());
    }
    count
}

/// Whether many packets are fresh, in all rows together, by what every fourth row has.
pub(crate) fn are_many(rows: &[Vec<u64>], earlier: &[Vec<u64>], renewed: &[u64]) -> bool {
    let mut count = 0u32;
    for (r, row) in rows.iter().enumerate() {
        if r % 4 == 0 {
            count = count.saturating_add(count_fresh(row, row_of(earlier, r), renewed));
        }
    }
    count > MANY / 4
}

/// What is before the packets of each choice, where many packets are to be gone through and rows have all their words;
/// else none.
///
/// # Errors
///
/// `AllocError` where there is no memory.
pub fn unions_if_many(
    alloc: Global,
    rows: &[Vec<u64>],
    earlier: &[Vec<u64>],
    renewed: &[u64],
    words: usize,
) -> Result<Vec<[u64; WORDS]>, AllocError>
    requires width { (k : ℕ) → k < length rows.now → length (row rows.now k) ≡ words }
    ensures { IfOk result (λ unions. CanUnite rows.now words unions.items) }
{
    if words == WORDS && are_many(rows, earlier, renewed) {
        all_unions(alloc, rows)
    } else {
        Ok(Vec::new(alloc))
    }
}

/// The choice that a word takes from one of its groups.
#[inline(always)]
fn choice_of(word: u64, group: usize) -> usize
    requires { group < 16 }
    ensures choice { result ≡ word / 2 ^ (4 * group) % 16 }
    ensures low { result < 16 }
{
    (word >> (4 * group)) as usize % CHOICES
}

/// Takes in what is before the packets of four choices, each from the group behind that of the one before it.
fn unite_choices(
    new: &mut [u64],
    known: &Known,
    group: usize,
    first: usize,
    second: usize,
    third: usize,
    fourth: usize,
)
    requires unions { AreUnions known.now.rows.now (length new.old) known.now.unions.now }
    requires group { group + 3 < length new.old * 16 }
    requires few { length new.old ≤ WORDS }
    requires first { first < 16 }
    requires second { second < 16 }
    requires third { third < 16 }
    requires fourth { fourth < 16 }
    ensures grown { Grown new.old new.new }
    ensures exact { (p : ℕ) → IsTrue (has new.new p)
        ↔ (IsTrue (has new.old p) ⊎ OfFour known.now.rows.now group first second third fourth p) }
{
    if first + second + third + fourth != 0 {
        let unions = known.unions;
        unite_four(
            new,
            union_at(unions, group * CHOICES + first),
            union_at(unions, (group + 1) * CHOICES + second),
            union_at(unions, (group + 2) * CHOICES + third),
            union_at(unions, (group + 3) * CHOICES + fourth),
        );
    }
}

/// Takes in what is before each packet of a word, one after the other; `place` is its place in its row.
fn unite_each(new: &mut [u64], rows: &[Vec<u64>], place: usize, word: u64)
    requires width { (k : ℕ) → k < length rows.now → length (row rows.now k) ≡ length new.old }
    requires place { place < WORDS }
    ensures grown { Grown new.old new.new }
    ensures exact { (p : ℕ) → IsTrue (has new.new p)
        ↔ (IsTrue (has new.old p)
        ⊎ ((bit : ℕ) × (bit < 64) × (bit_at word bit ≡ 1) × Marks rows.now p (place * 64 + bit))) }
{
    let mut rest = word;
    'each: while rest != 0 {
        let bit = lowest(rest);
        unite_row(new, rows, place * 64 + bit);
        rest = without(rest, bit);
    }
}

/// Takes in what is before the packets of a word, four at a time; `place` is its place in its row.
fn unite_groups(new: &mut [u64], known: &Known, place: usize, word: u64)
    requires unions { AreUnions known.now.rows.now (length new.old) known.now.unions.now }
    requires place { place < length new.old }
    requires few { length new.old ≤ WORDS }
    ensures grown { Grown new.old new.new }
    ensures exact { (p : ℕ) → IsTrue (has new.new p)
        ↔ (IsTrue (has new.old p)
        ⊎ ((bit : ℕ) × (bit < 64) × (bit_at word bit ≡ 1) × Marks known.now.rows.now p (place * 64 + bit))) }
{
    for quarter in 0..4 {
        let group = 4 * quarter;
        unite_choices(
            new,
            known,
            place * 16 + group,
            choice_of(word, group),
            choice_of(word, group + 1),
            choice_of(word, group + 2),
            choice_of(word, group + 3),
        );
    }
}

/// Takes in what is before the packets of a word; `place` is its place in its row.
fn unite_word(new: &mut [u64], known: &Known, place: usize, word: u64)
    requires unions { CanUnite known.now.rows.now (length new.old) known.now.unions.now }
    requires place { place < length new.old }
    requires few { length new.old ≤ WORDS }
    ensures grown { Grown new.old new.new }
    ensures exact { (p : ℕ) → IsTrue (has new.new p)
        ↔ (IsTrue (has new.old p)
        ⊎ ((bit : ℕ) × (bit < 64) × (bit_at word bit ≡ 1) × Marks known.now.rows.now p (place * 64 + bit))) }
{
    if known.unions.is_empty() {
        unite_each(new, known.rows, place, word);
    } else {
        unite_groups(new, known, place, word);
    }
}

/// The packets of a word of the row that are fresh.
fn fresh_word(row: &[u64], earlier: &[u64], renewed: &[u64], place: usize) -> u64
    ensures { (bit : ℕ) → bit < 64
        → (bit_at result bit == 1) ≡ is_fresh row.now earlier.now renewed.now (place * 64 + bit) }
{
    let word = word_at(row, place);
    if word == 0 {
        return 0;
    }
    let old = less(word_at(earlier, place), word_at(renewed, place));
    less(word, old)
}

/// Takes in what is before those packets of the set that aren't among the earlier ones, or are renewed.
pub fn unite_fresh(new: &mut [u64], known: &Known, set: &[u64], earlier: &[u64], renewed: &[u64])
    requires unions { CanUnite known.now.rows.now (length new.old) known.now.unions.now }
    requires few { length new.old ≤ WORDS }
    requires same { length set.now ≡ length new.old }
    ensures grown { Grown new.old new.new }
    ensures exact { (p : ℕ) → IsTrue (has new.new p)
        ↔ (IsTrue (has new.old p)
        ⊎ ((m : ℕ) × Marks known.now.rows.now p m × IsTrue (is_fresh set.now earlier.now renewed.now m))) }
{
    for place in 0..set.len() {
        let word = fresh_word(set, earlier, renewed, place);
        if word != 0 {
            unite_word(new, known, place, word);
        }
    }
}

/// Whether the set has all that is before m, where there is such a packet.
fn covers_row(set: &[u64], rows: &[Vec<u64>], m: usize) -> bool
    requires width { (k : ℕ) → k < length rows.now → length (row rows.now k) ≡ length set.now }
    ensures { IsTrue result → (p : ℕ) → Marks rows.now p m → IsTrue (has set.now p) }
{
    m >= rows.len() || covers(set, row_of(rows, m))
}

/// Whether the set has all that is before each packet of a word; `place` is its place in its row.
fn covers_each(set: &[u64], rows: &[Vec<u64>], place: usize, word: u64) -> bool
    requires width { (k : ℕ) → k < length rows.now → length (row rows.now k) ≡ length set.now }
    requires place { place < WORDS }
    ensures { IsTrue result → (bit p : ℕ) → bit < 64 → bit_at word bit ≡ 1 → Marks rows.now p (place * 64 + bit)
        → IsTrue (has set.now p) }
{
    let mut rest = word;
    'each: while rest != 0 {
        let bit = lowest(rest);
        if !covers_row(set, rows, place * 64 + bit) {
            return false;
        }
        rest = without(rest, bit);
    }
    true
}

/// Whether the set has all that is before those of its packets that aren't among the earlier ones, or are renewed.
pub(crate) fn covers_fresh(set: &[u64], known: &Known, earlier: &[u64]) -> bool
    requires width { (k : ℕ) → k < length known.now.rows.now → length (row known.now.rows.now k) ≡ length set.now }
    requires few { length set.now ≤ WORDS }
    ensures { IsTrue result → (m p : ℕ) → Marks known.now.rows.now p m
        → IsTrue (is_fresh set.now earlier.now known.now.renewed.now m) → IsTrue (has set.now p) }
{
    for place in 0..set.len() {
        let word = fresh_word(set, earlier, known.renewed, place);
        if !covers_each(set, known.rows, place, word) {
            return false;
        }
    }
    true
}
