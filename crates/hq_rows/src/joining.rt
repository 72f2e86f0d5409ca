//! Sets that are joined: what each of some sets has, and whether one brings more to another.

ghost use Rattle.std.specs.Prelude.{◌≡◌, ℕ, ◌/◌, ◌<◌, ◌↔◌, ◌||◌, false, IsTrue, Some, length, slice_get};
ghost use Rattle.hq_bits.specs.Bits.{has, Grown};
ghost use Rattle.hq_rows.specs.Matrix.{row, Marks};

use hq_bits::{covers, insert, meet, unite};

/// Leaves only what the row of the signal has too.
fn meet_one(shared: &mut [u64], completing: &[Vec<u64>], signal: usize)
    requires low { signal < length completing.now }
    requires width { (s : ℕ) → s < length completing.now → length (row completing.now s) ≡ length shared.old }
    ensures { (p : ℕ) → IsTrue (has shared.new p) ↔ (IsTrue (has shared.old p) × Marks completing.now p signal) }
{
    meet(shared, &completing[signal]);
}

/// Leaves only what the row of each signal that a slot names has too.
pub fn meet_each(shared: &mut [u64], completing: &[Vec<u64>], slots: &[Option<u16>])
    requires low { (slot s : ℕ) → slice_get slots.now slot ≡ Some (Some s) → s < length completing.now }
    requires width { (s : ℕ) → s < length completing.now → length (row completing.now s) ≡ length shared.old }
    ensures { (p : ℕ) → IsTrue (has shared.new p)
        ↔ (IsTrue (has shared.old p)
        × ((slot s : ℕ) → slice_get slots.now slot ≡ Some (Some s) → Marks completing.now p s)) }
{
    for slot in slots {
        if let Some(signal) = slot {
            meet_one(shared, completing, *signal as usize);
        }
    }
}

/// Takes in all that the other set has. Whether any of it is new.
pub fn unite_more(row: &mut [u64], other: &[u64]) -> bool
    requires { length row.old ≡ length other.now }
    ensures grown { Grown row.old row.new }
    ensures exact { (p : ℕ) → has row.new p ≡ (has row.old p || has other.now p) }
    ensures more { result ≡ false → (p : ℕ) → IsTrue (has row.new p) → IsTrue (has row.old p) }
{
    let more = !covers(row, other);
    unite(row, other);
    more
}

/// Notes r as renewed where there is more.
pub fn note(renewed: &mut [u64], r: usize, more: bool)
    requires room { r / 64 < length renewed.old }
    ensures kept { (m : ℕ) → IsTrue (has renewed.old m) → IsTrue (has renewed.new m) }
    ensures noted { IsTrue more → IsTrue (has renewed.new r) }
{
    if more {
        insert(renewed, r);
    }
}
