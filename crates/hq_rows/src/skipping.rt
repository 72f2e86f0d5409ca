//! Going over numbers that a set has.

ghost use Rattle.std.specs.Prelude.{ℕ, ◌<◌, IsTrue};
ghost use Rattle.hq_bits.specs.Bits.{has};

use hq_bits::{WIDTH, less, lowest, word_at};

/// A number above this one, such that the set has all between the two: the next that it hasn't, or the first of the
/// next word.
pub fn beyond(row: &[u64], number: usize) -> usize
    requires { number < WIDTH }
    ensures above { number < result }
    ensures has { (r : ℕ) → number < r → r < result → IsTrue (has row.now r) }
{
    let next = number + 1;
    let end = next / 64 * 64 + 64;
    let absent = less(u64::MAX, word_at(row, next / 64)) >> (next % 64);
    if absent == 0 {
        return end;
    }
    (next + lowest(absent)).min(end)
}
