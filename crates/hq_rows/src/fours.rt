//! Sets that are taken in four at a time.

ghost use Rattle.std.specs.Prelude.{◌≡◌, ◌||◌, ℕ, length};
ghost use Rattle.hq_bits.specs.Bits.{has, Grown};

use hq_bits::{WORDS, unite};

/// Takes in all that four other sets have, each of as many words as a table's rows.
fn unite_wide(row: &mut [u64], a: &[u64], b: &[u64], c: &[u64], d: &[u64])
    requires row { length row.old ≡ WORDS }
    requires a { length a.now ≡ WORDS }
    requires b { length b.now ≡ WORDS }
    requires c { length c.now ≡ WORDS }
    requires d { length d.now ≡ WORDS }
    ensures grown { Grown row.old row.new }
    ensures exact { (p : ℕ)
        → has row.new p ≡ ((((has row.old p || has a.now p) || has b.now p) || has c.now p) || has d.now p) }
{
    for i in 0..WORDS {
        row[i] = row[i] | a[i] | b[i] | c[i] | d[i];
    }
}

/// Takes in all that four other sets have.
pub fn unite_four(row: &mut [u64], a: &[u64], b: &[u64], c: &[u64], d: &[u64])
    requires a { length row.old ≡ length a.now }
    requires b { length row.old ≡ length b.now }
    requires c { length row.old ≡ length c.now }
    requires d { length row.old ≡ length d.now }
    ensures grown { Grown row.old row.new }
    ensures exact { (p : ℕ)
        → has row.new p ≡ ((((has row.old p || has a.now p) || has b.now p) || has c.now p) || has d.now p) }
{
    if row.len() == WORDS {
        unite_wide(row, a, b, c, d);
    } else {
        unite(row, a);
        unite(row, b);
        unite(row, c);
        unite(row, d);
    }
}
