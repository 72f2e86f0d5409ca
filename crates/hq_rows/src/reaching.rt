//! What comes before the packets of a set, or of a row.

ghost use Rattle.std.specs.Prelude.{◌≡◌, ◌<◌, ◌≤◌, ◌↔◌, ◌⊎◌, ℕ, IsTrue, IfOk, length};
ghost use Rattle.hq_bits.specs.Bits.{has, Grown};
ghost use Rattle.hq_rows.specs.Matrix.{row, Marks};
ghost use Rattle.hq_rows.specs.Uniting.{CanUnite, Stepped, Through};

use crate::columns::row_of;
use crate::gathering::{Known, are_many, covers_fresh, unite_fresh};
use hq_bits::WORDS;
use std::alloc::{AllocError, Global};

/// The packets of a set, and all that are before them.
///
/// # Errors
///
/// `AllocError` where there is no memory.
pub fn reached(alloc: Global, set: &[u64], known: &Known) -> Result<Vec<u64>, AllocError>
    requires unions { CanUnite known.now.rows.now (length set.now) known.now.unions.now }
    requires few { length set.now ≤ WORDS }
    ensures len { IfOk result (λ reached. length reached.items ≡ length set.now) }
    ensures exact { IfOk result
        (λ reached. (p : ℕ) → IsTrue (has reached.items p)
        ↔ (IsTrue (has set.now p) ⊎ ((m : ℕ) × Marks known.now.rows.now p m × IsTrue (has set.now m)))) }
{
    let mut reached = set.to_vec(alloc)?;
    unite_fresh(&mut reached, known, set, &[], &[]);
    Ok(reached)
}

/// Takes in what is before those that are before r by what is known, where those are there already. Only those that are
/// fresh in the row of r, or are renewed, bring anything new.
pub fn unite_through(new: &mut [u64], known: &Known, r: usize)
    requires unions { CanUnite known.now.rows.now (length (row known.now.rows.now r)) known.now.unions.now }
    requires stepped { Stepped known.now.earlier.now known.now.rows.now known.now.renewed.now }
    requires r_is { r < length known.now.rows.now }
    requires few { length (row known.now.rows.now r) ≤ WORDS }
    requires start { new.old ≡ row known.now.rows.now r }
    ensures grown { Grown (row known.now.rows.now r) new.new }
    ensures exact { (p : ℕ) → IsTrue (has new.new p) ↔ Through known.now.rows.now p r }
{
    let row = row_of(known.rows, r);
    let earlier = row_of(known.earlier, r);
    unite_fresh(new, known, row, earlier, known.renewed);
}

/// The packets that are before r by what is known, or before one of those.
///
/// # Errors
///
/// `AllocError` where there is no memory.
pub fn through_row(alloc: Global, known: &Known, r: usize) -> Result<Vec<u64>, AllocError>
    requires unions { CanUnite known.now.rows.now (length (row known.now.rows.now r)) known.now.unions.now }
    requires stepped { Stepped known.now.earlier.now known.now.rows.now known.now.renewed.now }
    requires r_is { r < length known.now.rows.now }
    requires few { length (row known.now.rows.now r) ≤ WORDS }
    ensures grown { IfOk result (λ new. Grown (row known.now.rows.now r) new.items) }
    ensures exact { IfOk result (λ new. (p : ℕ) → IsTrue (has new.items p) ↔ Through known.now.rows.now p r) }
{
    let mut new = row_of(known.rows, r).to_vec(alloc)?;
    unite_through(&mut new, known, r);
    Ok(new)
}

/// Whether the row of r has all that is before it by two rows.
fn is_whole(known: &Known, r: usize) -> bool
    requires width { (k : ℕ) → k < length known.now.rows.now
        → length (row known.now.rows.now k) ≡ length (row known.now.rows.now r) }
    requires stepped { Stepped known.now.earlier.now known.now.rows.now known.now.renewed.now }
    requires r_is { r < length known.now.rows.now }
    requires few { length (row known.now.rows.now r) ≤ WORDS }
    ensures { IsTrue result → (p : ℕ) → Through known.now.rows.now p r → Marks known.now.rows.now p r }
{
    let row = row_of(known.rows, r);
    covers_fresh(row, known, row_of(known.earlier, r))
}

/// Whether each row has all that is before its packet by two rows; false, too, where so many packets are fresh that the
/// next round costs less by their unions. The last packets' rows are looked at first: mostly they grow longest.
pub fn are_whole(known: &Known) -> bool
    requires width { (k r : ℕ) → k < length known.now.rows.now → r < length known.now.rows.now
        → length (row known.now.rows.now k) ≡ length (row known.now.rows.now r) }
    requires stepped { Stepped known.now.earlier.now known.now.rows.now known.now.renewed.now }
    requires few { (r : ℕ) → r < length known.now.rows.now → length (row known.now.rows.now r) ≤ WORDS }
    ensures { IsTrue result → (p r : ℕ) → Through known.now.rows.now p r → Marks known.now.rows.now p r }
{
    for behind in 0..known.rows.len() {
        if !is_whole(known, known.rows.len() - 1 - behind) {
            return false;
        }
        if behind == 0 && are_many(known.rows, known.earlier, known.renewed) {
            return false;
        }
    }
    true
}
