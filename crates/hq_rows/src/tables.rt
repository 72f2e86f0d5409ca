//! Tables of rows, and those of several rounds.

ghost use Rattle.std.specs.Prelude.{◌≡◌, ◌<◌, ◌↔◌, ℕ, false, IsTrue, MatchOption, length};
ghost use Rattle.hq_rows.specs.Matrix.{row, Marks, Differ, matrix, last, earlier, AreTurned, IsMarkedNowhere};
ghost use Rattle.hq_rows.specs.Matrix.{IsMarkedFirst};

use hq_bits::{WIDTH, has, is_same};

/// Whether the row of r has p.
pub fn marks(rows: &[Vec<u64>], p: usize, r: usize) -> bool
    ensures { IsTrue result ↔ Marks rows.now p r }
{
    match rows.get(r) {
        Some(row) => has(row, p),
        None => false,
    }
}

/// Whether all rows are the same.
pub fn are_same(left: &[Vec<u64>], right: &[Vec<u64>]) -> bool
    requires { length left.now ≡ length right.now }
    ensures same { IsTrue result → (r : ℕ) → row left.now r ≡ row right.now r }
    ensures other { result ≡ false → Differ left.now right.now }
{
    for (r, row) in left.iter().enumerate() {
        if !is_same(row, &right[r]) {
            return false;
        }
    }
    true
}

/// The rows of a round; none where there is none.
fn rows_of(rounds: &[Vec<Vec<u64>>], k: usize) -> &[Vec<u64>]
    ensures { result.now ≡ matrix rounds.now k }
{
    match rounds.get(k) {
        Some(rows) => rows,
        None => &[],
    }
}

/// The rows of the last round.
pub fn last_rows(rounds: &[Vec<Vec<u64>>]) -> &[Vec<u64>]
    requires { 0 < length rounds.now }
    ensures { result.now ≡ last rounds.now }
{
    rows_of(rounds, rounds.len() - 1)
}

/// The rows of the round before the last; none where there is none.
pub fn earlier_rows(rounds: &[Vec<Vec<u64>>]) -> &[Vec<u64>]
    ensures { result.now ≡ earlier rounds.now }
{
    if rounds.len() < 2 {
        return &[];
    }
    rows_of(rounds, rounds.len() - 2)
}

/// The first of the rounds that marks the pair, by the rows turned round.
#[inline(always)]
pub fn first_turned(
    rounds: &[Vec<Vec<u64>>],
    tables: &[Vec<u64>],
    p: usize,
    r: usize,
) -> Option<usize>
    requires turned { AreTurned rounds.now tables.now }
    requires p { p < WIDTH }
    requires r { r < WIDTH }
    ensures { MatchOption result (IsMarkedNowhere rounds.now p r) (λ k. IsMarkedFirst rounds.now p r k) }
{
    for (k, table) in tables.iter().enumerate() {
        if has(table, p * WIDTH + r) {
            return Some(k);
        }
    }
    if marks(last_rows(rounds), p, r) {
        return Some(tables.len());
    }
    None
}
