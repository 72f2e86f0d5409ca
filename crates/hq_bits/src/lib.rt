//! Sets of numbers as rows of bits, number `p` as bit `p % 64` of word `p / 64`, and tables of such, one row behind
//! another.
#![tactic(auto)]

ghost use Rattle.std.specs.Prelude.{◌≡◌, ◌+◌, ◌*◌, ◌^◌, ◌/◌, ◌<◌, ◌≤◌, ◌||◌, ◌&&◌, ◌==◌, ℕ, length, true, false, All};
ghost use Rattle.std.specs.Prelude.{◌≢◌, not, IfOk, IsTrue, ◌↔◌, ◌⊎◌, MatchOption, drop, slice_index, take};
ghost use Rattle.std.specs.Int.{bit_at};
ghost use Rattle.hq_bits.specs.Bits.{has, Covers, IsFirstCommon, IsFirstFrom, Grown};

use hq_model::PACKETS;
use std::alloc::{AllocError, Global};

/// How many numbers a row of a table has room for: the most packets that a job has.
pub const WIDTH: usize = PACKETS;

/// How many words that takes.
pub const WORDS: usize = WIDTH / 64;

/// No number, in so many words.
///
/// # Errors
///
/// `AllocError` where there is no memory.
pub fn empty(alloc: Global, words: usize) -> Result<Vec<u64>, AllocError>
    ensures len { IfOk result (λ row. length row.items ≡ words) }
    ensures none { IfOk result (λ row. (p : ℕ) → has row.items p ≡ false) }
{
    vec![in alloc; 0; words]
}

/// All numbers that so many words have room for.
///
/// # Errors
///
/// `AllocError` where there is no memory.
pub fn full(alloc: Global, words: usize) -> Result<Vec<u64>, AllocError>
    ensures len { IfOk result (λ row. length row.items ≡ words) }
    ensures all { IfOk result (λ row. (p : ℕ) → IsTrue (has row.items p) ↔ p / 64 < words) }
{
    let row = vec![in alloc; u64::MAX; words]?;
    Ok(row)
}

/// Whether the set has the number.
pub fn has(row: &[u64], number: usize) -> bool
    ensures { result ≡ has row.now number }
{
    match row.get(number / 64) {
        Some(word) => *word >> (number % 64) & 1 == 1,
        None => false,
    }
}

/// Takes the number in.
pub fn insert(row: &mut [u64], number: usize)
    requires { number / 64 < length row.old }
    ensures { (p : ℕ) → has row.new p ≡ (has row.old p || p == number) }
{
    row[number / 64] |= 1 << (number % 64);
}

/// Takes the number out.
pub fn remove(row: &mut [u64], number: usize)
    requires { number / 64 < length row.old }
    ensures { (p : ℕ) → has row.new p ≡ (has row.old p && not (p == number)) }
{
    row[number / 64] &= !(1 << (number % 64));
}

/// Takes all numbers out.
pub fn clear(row: &mut [u64])
    ensures none { (p : ℕ) → has row.new p ≡ false }
    ensures len { length row.new ≡ length row.old }
{
    row.fill(0);
}

/// The bits of a word from one on up to another.
fn bits_between(from: usize, to: usize) -> u64
    requires order { from ≤ to }
    requires few { to ≤ 64 }
    ensures inside { (i : ℕ) → from ≤ i → i < to → bit_at result i ≡ 1 }
    ensures outside { (i : ℕ) → (i < from) ⊎ (to ≤ i) → bit_at result i ≡ 0 }
{
    ((1u128 << to) - (1u128 << from)) as u64
}

/// Takes in the numbers from one on up to another.
pub fn insert_all(row: &mut [u64], start: usize, end: usize)
    requires room { end ≤ length row.old * 64 }
    requires range { start ≤ end }
    ensures { (p : ℕ) → IsTrue (has row.new p) ↔ (IsTrue (has row.old p) ⊎ ((p < end) × (start ≤ p))) }
{
    for place in start / 64..row.len().min(end / 64 + 1) {
        let first = place * 64;
        let from = start.saturating_sub(first);
        let to = (end - first).min(64);
        row[place] |= bits_between(from.min(to), to);
    }
}

/// Takes in all that the other set has.
pub fn unite(row: &mut [u64], other: &[u64])
    requires { length row.old ≡ length other.now }
    ensures grown { Grown row.old row.new }
    ensures exact { (p : ℕ) → has row.new p ≡ (has row.old p || has other.now p) }
{
    let other = &other[..row.len()];
    for (i, word) in row.iter_mut().enumerate() {
        *word |= other[i];
    }
}

/// Leaves only what the other set has too.
pub fn meet(row: &mut [u64], other: &[u64])
    requires { length row.old ≡ length other.now }
    ensures { (p : ℕ) → has row.new p ≡ (has row.old p && has other.now p) }
{
    let other = &other[..row.len()];
    for (i, word) in row.iter_mut().enumerate() {
        *word &= other[i];
    }
}

/// Takes out all that the other set has.
pub fn take_out(row: &mut [u64], other: &[u64])
    requires { length row.old ≡ length other.now }
    ensures { (p : ℕ) → has row.new p ≡ (has row.old p && not (has other.now p)) }
{
    let other = &other[..row.len()];
    for (i, word) in row.iter_mut().enumerate() {
        *word &= *word ^ other[i];
    }
}

/// Whether two rows are the same.
pub fn is_same(left: &[u64], right: &[u64]) -> bool
    ensures same { IsTrue result ↔ (left.now ≡ right.now) }
    ensures small { (i : ℕ) → slice_index left.now i < 2 ^ 64 }
{
    left == right
}

/// Whether the set has all that the other has.
pub fn covers(row: &[u64], other: &[u64]) -> bool
    requires { length row.now ≡ length other.now }
    ensures { IsTrue result ↔ Covers row.now other.now }
{
    for (i, word) in row.iter().enumerate() {
        if *word | other[i] != *word {
            return false;
        }
    }
    true
}

/// The word at a place, or 0 where there is none.
pub fn word_at(row: &[u64], place: usize) -> u64
    ensures { result ≡ slice_index row.now place }
{
    match row.get(place) {
        Some(word) => *word,
        None => 0,
    }
}

/// The lowest bit of a word that has some.
pub fn lowest(word: u64) -> usize
    requires { 0 < word }
    ensures low { result < 64 }
    ensures has { bit_at word result ≡ 1 }
    ensures lowest { (i : ℕ) → i < result → bit_at word i ≡ 0 }
{
    word.trailing_zeros() as usize
}

/// The bits of a word that another hasn't.
pub fn less(word: u64, other: u64) -> u64
    ensures { (bit : ℕ) → (bit_at result bit == 1) ≡ ((bit_at word bit == 1) && not (bit_at other bit == 1)) }
{
    word & (word ^ other)
}

/// The word without one of its bits.
pub fn without(word: u64, bit: usize) -> u64
    requires low { bit < 64 }
    requires has { bit_at word bit ≡ 1 }
    ensures clear { bit_at result bit ≡ 0 }
    ensures same { (i : ℕ) → i < 64 → i ≢ bit → bit_at result i ≡ bit_at word i }
    ensures less { result < word }
{
    word & !(1 << bit)
}

/// The lowest bit of a word.
fn lowest_bit(word: u64) -> Option<usize>
    ensures { MatchOption result ((bit : ℕ) → bit_at word bit ≡ 0)
        (λ bit. (bit < 64) × (bit_at word bit ≡ 1) × ((i : ℕ) → i < bit → bit_at word i ≡ 0)) }
{
    if word == 0 {
        return None;
    }
    Some(lowest(word))
}

/// The least number that both sets have.
pub fn first_common(left: &[u64], right: &[u64]) -> Option<usize>
    requires { length left.now ≤ WORDS }
    ensures { MatchOption result ((n : ℕ) → IsTrue (has left.now n) → IsTrue (has right.now n) → ⊥)
        (IsFirstCommon left.now right.now) }
{
    for (i, word) in left.iter().enumerate() {
        if let Some(bit) = lowest_bit(*word & word_at(right, i)) {
            return Some(i * 64 + bit);
        }
    }
    None
}

/// The least number from one on that the set has.
pub fn first_from(row: &[u64], from: usize) -> Option<usize>
    requires { length row.now ≤ 2 ^ 58 }
    ensures { MatchOption result ((n : ℕ) → from ≤ n → has row.now n ≡ false) (IsFirstFrom row.now from) }
{
    if let Some(bit) = lowest_bit(word_at(row, from / 64) >> (from % 64)) {
        return Some(from + bit);
    }
    for place in from / 64 + 1..row.len() {
        if let Some(bit) = lowest_bit(row[place]) {
            return Some(place * 64 + bit);
        }
    }
    None
}

/// The least number of a set from one on, or the end where there is none below it.
pub fn next_in(row: &[u64], from: usize, end: usize) -> usize
    requires few { length row.now ≤ 2 ^ 58 }
    requires from { from ≤ end }
    ensures above { from ≤ result }
    ensures below { result ≤ end }
    ensures none { (s : ℕ) → from ≤ s → s < result → has row.now s ≡ false }
    ensures there { result < end → IsTrue (has row.now result) }
{
    match first_from(row, from) {
        Some(number) => number.min(end),
        None => end,
    }
}

/// Takes r in each row whose bit the word has; the row of its first bit is `first`.
pub fn turn_word(table: &mut [u64], word: u64, first: usize, r: usize)
    requires room { (first + 64) * WORDS ≤ length table.old }
    requires first { first + 64 ≤ WIDTH }
    requires r { r < WIDTH }
    ensures { (x : ℕ) → IsTrue (has table.new x)
        ↔ (IsTrue (has table.old x)
        ⊎ ((bit : ℕ) × (bit < 64) × (IsTrue (bit_at word bit == 1) × (x ≡ (first + bit) * WIDTH + r)))) }
{
    let mut rest = word;
    'each: while rest != 0 {
        let bit = lowest(rest);
        insert(table, (first + bit) * WIDTH + r);
        rest = without(rest, bit);
    }
}

/// The row of p in a table.
pub fn column_of(table: &[u64], p: usize) -> &[u64]
    requires room { (p + 1) * WORDS ≤ length table.now }
    requires p { p < WIDTH }
    ensures column { result.now ≡ take WORDS (drop (p * WORDS) table.now) }
    ensures len { length result.now ≡ WORDS }
{
    let start = p * WORDS;
    &table[start..start + WORDS]
}
