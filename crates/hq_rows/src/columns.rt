//! The rows turned round: for each packet what it is before.

ghost use Rattle.std.specs.Prelude.{◌≡◌, ℕ, ◌+◌, ◌*◌, ◌<◌, ◌≤◌, IfOk, MatchOption, length};
ghost use Rattle.hq_rows.specs.Matrix.{row, Marks, Turned, AreTurned, IsMarkedBetween};
ghost use Rattle.hq_rows.specs.Turning.{HasBlock, IsBlockOf, PlaceTurned, PartTurned};

use crate::turning::{SIDE, turn_block};
use hq_bits::{WIDTH, WORDS, column_of, first_common, word_at};
use std::alloc::{AllocError, Global};

/// The words at a place of 64 rows, from one on; 0 where there is no such row.
#[inline(always)]
fn block_of(rows: &[Vec<u64>], first: usize, place: usize) -> [u64; SIDE]
    requires { first ≤ WIDTH }
    ensures { IsBlockOf rows.now first place result }
{
    let mut block = [0; SIDE];
    for i in 0..SIDE {
        block[i] = word_at(row_of(rows, first + i), place);
    }
    block
}

/// Puts the words of a block where the packets of a place have the word of a part.
#[inline(always)]
fn put_block(table: &mut [u64], block: &[u64; SIDE], place: usize, part: usize)
    requires len { length table.old ≡ WIDTH * WORDS }
    requires place { place < WORDS }
    requires part { part < WORDS }
    ensures { HasBlock block.now place part table.old table.new }
{
    for i in 0..SIDE {
        table[(place * SIDE + i) * WORDS + part] = block[i];
    }
}

/// Turns the words round that the 64 rows of a part have at a place.
fn turn_part(table: &mut [u64], rows: &[Vec<u64>], place: usize, part: usize)
    requires len { length table.old ≡ WIDTH * WORDS }
    requires place { place < WORDS }
    requires part { part < WORDS }
    ensures { PartTurned rows.now place part table.old table.new }
{
    let mut block = block_of(rows, part * SIDE, place);
    turn_block(&mut block);
    put_block(table, &block, place, part);
}

/// Turns the words round that all rows have at a place.
fn turn_place(table: &mut [u64], rows: &[Vec<u64>], place: usize)
    requires len { length table.old ≡ WIDTH * WORDS }
    requires place { place < WORDS }
    ensures { PlaceTurned rows.now place table.old table.new }
{
    for part in 0..WORDS {
        turn_part(table, rows, place, part);
    }
}

/// Turns the words round that all rows have: for each packet there is then what it is before.
pub fn turn_rows(table: &mut [u64], rows: &[Vec<u64>])
    requires { length table.old ≡ WIDTH * WORDS }
    ensures { Turned rows.now table.new }
{
    for place in 0..WORDS {
        turn_place(table, rows, place);
    }
}

/// A table without bits, as large as rows turned round are.
///
/// # Errors
///
/// `AllocError` where there is no memory.
pub fn bare_table(alloc: Global) -> Result<Vec<u64>, AllocError>
    ensures { IfOk result (λ table. length table.items ≡ WIDTH * WORDS) }
{
    vec![in alloc; 0; WIDTH * WORDS]
}

/// The rows turned round.
fn turned(alloc: Global, rows: &[Vec<u64>]) -> Result<Vec<u64>, AllocError>
    ensures { IfOk result (λ table. Turned rows.now table.items) }
{
    let mut table = bare_table(alloc)?;
    turn_rows(&mut table, rows);
    Ok(table)
}

/// The rows of each round but the last turned round.
///
/// # Errors
///
/// `AllocError` where there is no memory.
pub fn all_turned(alloc: Global, rounds: &[Vec<Vec<u64>>]) -> Result<Vec<Vec<u64>>, AllocError>
    requires { 0 < length rounds.now }
    ensures { IfOk result (λ tables. AreTurned rounds.now tables.items) }
{
    let last = rounds.len() - 1;
    let mut tables = Vec::with_capacity(alloc, last)?;
    for k in 0..last {
        tables.push(turned(alloc, &rounds[k])?)?;
    }
    Ok(tables)
}

/// The row of r; none where there is no such packet.
pub fn row_of(rows: &[Vec<u64>], r: usize) -> &[u64]
    ensures { result.now ≡ row rows.now r }
{
    match rows.get(r) {
        Some(row) => row,
        None => &[],
    }
}

/// The least packet that p is before and that is before r.
pub fn between(rows: &[Vec<u64>], table: &[u64], p: usize, r: usize) -> Option<usize>
    requires turned { Turned rows.now table.now }
    requires p { p < WIDTH }
    requires few { length rows.now ≤ WIDTH }
    ensures { MatchOption result ((m : ℕ) → Marks rows.now p m → Marks rows.now m r → ⊥)
        (IsMarkedBetween rows.now p r) }
{
    first_common(column_of(table, p), row_of(rows, r))
}
