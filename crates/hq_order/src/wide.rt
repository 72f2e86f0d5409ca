//! One round worked out, and rounds turned round, by several threads. All memory is taken ahead, by the caller's thread:
//! threads that asked for it all at once would wait for one another.

ghost use Rattle.std.specs.Prelude.{◌≡◌, ◌+◌, ◌*◌, ◌<◌, ◌≤◌, ◌↔◌, ℕ, List, IfOk, length};
ghost use Rattle.hq_bits.specs.Bits.{Grown};
ghost use Rattle.hq_job.specs.Plan.{plan};
ghost use Rattle.hq_model.specs.Order.{AwaitsAny};
ghost use Rattle.hq_rows.specs.Matrix.{row, words_for, Marks, IsSquare, Turned, AreTurned};
ghost use Rattle.hq_rows.specs.Uniting.{CanUnite, Stepped};
ghost use Rattle.hq_order.specs.Rounds.{Next};
ghost use Rattle.hq_order.specs.Wide.{Each, IsCopy, IsStep, CanStep, AreCopies, AreBare, EachTurned};

use hq_bits::{WIDTH, WORDS};
use hq_job::Job;
use hq_rows::{Known, bare_table, turn_rows, unite_through};
use std::alloc::{AllocError, Global};
use std::thread::{Threads, join_mut};

/// In how many parts the rows are, each worked out in a thread of its own.
const PARTS: usize = 4;

/// Takes in what is before those packets that are before r by what is known; the row has these.
fn unite_one(row: &mut Vec<u64>, known: &Known, r: usize)
    requires can { CanStep known.now }
    requires low { r < length known.now.rows.now }
    requires copy { IsCopy known.now.rows.now r row.old.items }
    ensures { IsStep known.now.rows.now r row.new.items }
{
    unite_through(row, known, r);
}

/// Takes in, for each of these rows, what is before those packets that are before its own by what is known. The first
/// is the row of packet `first`.
fn unite_rows(rows: &mut [Vec<u64>], known: &Known, first: usize)
    requires can { CanStep known.now }
    requires copies { AreCopies known.now first rows.old }
    ensures steps { Each (IsStep known.now.rows.now) first rows.new }
    ensures len { length rows.new ≡ length rows.old }
{
    let Some((row, others)) = rows.split_first_mut() else {
        return;
    };
    unite_one(row, known, first);
    unite_rows(others, known, first + 1);
}

/// Does so, for so many rows in a thread of its own each. All threads are started here, and this one only waits: the
/// first that is started may be given this thread's processor.
#[cycle(parts)]
#[tactic(auto, using(crate::proofs::Stepping::front_of, crate::proofs::Stepping::back_of, crate::proofs::Stepping::joined_of))]
fn unite_parts<R: Threads>(rt: &R, rows: &mut [Vec<u64>], known: &Known, first: usize, many: usize)
    requires some { 0 < many }
    requires can { CanStep known.now }
    requires copies { AreCopies known.now first rows.old }
    ensures steps { Each (IsStep known.now.rows.now) first rows.new }
    ensures len { length rows.new ≡ length rows.old }
{
    if rows.is_empty() {
        return;
    }
    let count = many.min(rows.len());
    let next = first + count;
    let (own, others) = rows.split_at_mut(count);
    let mut beside = ||
        requires { CanStep known.now × AreCopies known.now first own.now }
        ensures { Each (IsStep known.entry.now.rows.now) first own.exit.now
            × (length own.exit.now ≡ length own.entry.now) }
    { unite_rows(own, known, first) };
    let mut here = ||
        requires { (0 < many) × CanStep known.now × AreCopies known.now next others.now }
        ensures { Each (IsStep known.entry.now.rows.now) next others.exit.now
            × (length others.exit.now ≡ length others.entry.now) }
    { unite_parts(rt, others, known, next, many) };
    join_mut(rt, &mut beside, &mut here);
}

/// The same rows once more.
fn copied(alloc: Global, rows: &[Vec<u64>]) -> Result<Vec<Vec<u64>>, AllocError>
    ensures copies { IfOk result (λ copies. Each (IsCopy rows.now) 0 copies.items) }
    ensures len { IfOk result (λ copies. length copies.items ≡ length rows.now) }
{
    let mut copies = Vec::with_capacity(alloc, rows.len())?;
    for row in rows {
        copies.push(row.to_vec(alloc)?)?;
    }
    Ok(copies)
}

/// The rows after one more round, where no packet is a barrier-OR: then no packet's row is renewed.
///
/// # Errors
///
/// `AllocError` where there is no memory.
pub fn next_rows_wide<R: Threads>(
    rt: &R,
    alloc: Global,
    job: &Job,
    known: &Known,
) -> Result<Vec<Vec<u64>>, AllocError>
    requires square { IsSquare (length job.now.packets) known.now.rows.now }
    requires unions { CanUnite known.now.rows.now (words_for (length job.now.packets)) known.now.unions.now }
    requires stepped { Stepped known.now.earlier.now known.now.rows.now known.now.renewed.now }
    requires no_either { (r : ℕ) → AwaitsAny (plan job.now) r → ⊥ }
    ensures square { IfOk result (λ new. IsSquare (length job.now.packets) new.items) }
    ensures grown { IfOk result (λ new. (r : ℕ) → Grown (row known.now.rows.now r) (row new.items r)) }
    ensures exact { IfOk result
        (λ new. (p r : ℕ) → Marks new.items p r ↔ Next (plan job.now) (Marks known.now.rows.now) p r) }
    ensures stepped { IfOk result (λ new. (renewed : List ℕ) → Stepped known.now.rows.now new.items renewed) }
{
    let mut new = copied(alloc, known.rows)?;
    let many = job.packets().len().div_ceil(PARTS).max(1);
    unite_parts(rt, &mut new, known, 0, many);
    Ok(new)
}

/// Turns the rows of a round round.
fn turn_one(table: &mut Vec<u64>, rows: &[Vec<u64>])
    requires { length table.old.items ≡ WIDTH * WORDS }
    ensures { Turned rows.now table.new.items }
{
    turn_rows(table, rows);
}

/// Turns each of these rounds round, in a thread of its own.
#[cycle(turning)]
fn turn_each<R: Threads>(rt: &R, tables: &mut [Vec<u64>], rounds: &[Vec<Vec<u64>>])
    requires few { length tables.old ≤ length rounds.now }
    requires bare { AreBare tables.old }
    ensures turned { EachTurned rounds.now tables.new }
    ensures len { length tables.new ≡ length tables.old }
{
    let Some((table, others)) = tables.split_first_mut() else {
        return;
    };
    let Some((rows, rest)) = rounds.split_first() else {
        return;
    };
    let mut beside = ||
        requires { length table.now.items ≡ WIDTH * WORDS }
        ensures { Turned rows.entry.now.items table.exit.now.items }
    { turn_one(table, rows) };
    let mut here = ||
        requires { (length others.now ≤ length rest.now) × AreBare others.now }
        ensures { EachTurned rest.entry.now others.exit.now × (length others.exit.now ≡ length others.entry.now) }
    { turn_each(rt, others, rest) };
    join_mut(rt, &mut beside, &mut here);
}

/// So many tables without bits.
fn bare_tables(alloc: Global, count: usize) -> Result<Vec<Vec<u64>>, AllocError>
    ensures bare { IfOk result (λ tables. AreBare tables.items) }
    ensures len { IfOk result (λ tables. length tables.items ≡ count) }
{
    let mut tables = Vec::with_capacity(alloc, count)?;
    for _table in 0..count {
        tables.push(bare_table(alloc)?)?;
    }
    Ok(tables)
}

/// The rows of each round but the last turned round.
///
/// # Errors
///
/// `AllocError` where there is no memory.
pub fn turned_wide<R: Threads>(
    rt: &R,
    alloc: Global,
    rounds: &[Vec<Vec<u64>>],
) -> Result<Vec<Vec<u64>>, AllocError>
    requires { 0 < length rounds.now }
    ensures { IfOk result (λ tables. AreTurned rounds.now tables.items) }
{
    let mut tables = bare_tables(alloc, rounds.len() - 1)?;
    turn_each(rt, &mut tables, rounds);
    Ok(tables)
}
