//! Which kinds of conflict of which packets have pair lines, as bits: for each packet a row for each kind, in which the
//! bits are the packets behind it in the pair line. Until there is a pair line there are no rows.

ghost use Rattle.std.specs.Prelude.{◌≡◌, ℕ, ◌+◌, ◌*◌, ◌<◌, ◌≤◌, ◌⊎◌, [], ◌++◌, List, OnOk, OnErr, map, length};
ghost use Rattle.hq_cert.specs.View.{pair_of, fences_of};
ghost use Rattle.hq_bits.specs.Bits.{has};
ghost use Rattle.hq_model.specs.Fence.{Conflict};
ghost use Rattle.hq_model.specs.Certificate as model;
ghost use Rattle.hq_model.specs.Certificate.{kind_of};
ghost use Rattle.hq_certcheck.specs.Covering.{has_flag, has_kind, row_of, AreListed, HasRows, IsMarked};

use hq_bits::{WIDTH, WORDS, empty, has, insert};
use hq_cert::{Fences, Pair};
use hq_footprint::Kinds;
use hq_model::PACKETS;
use std::alloc::{AllocError, Global};

/// How many kinds of conflict there are.
pub const KINDS: usize = 3;

/// How many words the rows of a packet take.
pub const PACKET_WORDS: usize = KINDS * WORDS;

/// The row of conflicts by a write that is read, among those of a packet.
pub const WRITE_READ: usize = 0;

/// The row of conflicts by two writes.
pub const WRITE_WRITE: usize = 1;

/// The row of conflicts by a write over what was read.
pub const READ_WRITE: usize = 2;

/// The row of the kind of conflict that fences are for.
fn row_of(fences: &Fences) -> usize
    ensures { result ≡ row_of (kind_of (fences_of fences.now)) }
{
    match fences {
        Fences::WriteRead { .. } | Fences::WriteReadChained(_) => WRITE_READ,
        Fences::WriteWrite { .. } | Fences::WriteWriteChained(_) => WRITE_WRITE,
        Fences::ReadWrite(_) => READ_WRITE,
    }
}

/// Sets the flag of a pair line, unless it names packets that there aren't.
fn mark(flags: &mut [u64], count: usize, pair: &Pair)
    requires few { count ≤ PACKETS }
    requires len { length flags.old ≡ count * PACKET_WORDS }
    ensures marked { IsMarked (pair_of pair.now) count flags.old flags.new }
    ensures len { length flags.new ≡ length flags.old }
{
    let p = pair.p as usize;
    let r = pair.r as usize;
    if p < count && r < count {
        insert(flags, (p * KINDS + row_of(&pair.fences)) * WIDTH + r);
    }
}

/// Sets the flags of pair lines, behind those that are there.
fn mark_each(flags: &mut [u64], count: usize, pairs: &[Pair])
    requires few { count ≤ PACKETS }
    requires len { length flags.old ≡ count * PACKET_WORDS }
    ensures len { length flags.new ≡ count * PACKET_WORDS }
    ensures marked { (before : List model.Pair) → AreListed before count flags.old
        → AreListed (before ++ map pair_of pairs.now) count flags.new }
{
    for pair in pairs {
        mark(flags, count, pair);
    }
}

/// Makes the rows of so many packets, without flags, where there are none yet.
///
/// # Errors
///
/// `AllocError` where there is no memory; then there are none.
fn make_rows(alloc: Global, flags: &mut Vec<u64>, count: usize) -> Result<(), AllocError>
    requires few { count ≤ PACKETS }
    requires rows { HasRows count flags.old.items }
    ensures rows { HasRows count flags.new.items }
    ensures len { OnOk result (length flags.new.items ≡ count * PACKET_WORDS) }
    ensures alike { (p : ℕ) → has flags.new.items p ≡ has flags.old.items p }
{
    if flags.is_empty() {
        *flags = empty(alloc, count * PACKET_WORDS)?;
    }
    Ok(())
}

/// Sets the flags of pair lines, behind those that are there. The rows are made at the first pair line.
///
/// # Errors
///
/// `AllocError` where there is no memory; then no flag is set.
pub fn mark_all(
    alloc: Global,
    flags: &mut Vec<u64>,
    count: usize,
    pairs: &[Pair],
) -> Result<(), AllocError>
    requires few { count ≤ PACKETS }
    requires rows { HasRows count flags.old.items }
    ensures rows { HasRows count flags.new.items }
    ensures marked { OnOk result
        ((before : List model.Pair) → AreListed before count flags.old.items
        → AreListed (before ++ map pair_of pairs.now) count flags.new.items) }
    ensures unmarked { OnErr result ((p : ℕ) → has flags.new.items p ≡ has flags.old.items p) }
{
    if pairs.is_empty() {
        return Ok(());
    }
    make_rows(alloc, flags, count)?;
    mark_each(flags, count, pairs);
    Ok(())
}

/// The flags of p and r.
pub fn flags_of(flags: &[u64], p: usize, r: usize) -> Kinds
    requires p_is { p < PACKETS }
    requires r_is { r < PACKETS }
    ensures { (kind : Conflict) → has_kind kind result ≡ has_flag kind flags.now p r }
{
    let first = p * KINDS * WIDTH + r;
    Kinds {
        wr: has(flags, first + WRITE_READ * WIDTH),
        ww: has(flags, first + WRITE_WRITE * WIDTH),
        rw: has(flags, first + READ_WRITE * WIDTH),
    }
}

/// A row of p; of no rows one without flags.
pub fn flags_in(flags: &[u64], p: usize, row: usize) -> &[u64]
    requires p_is { (flags.now ≡ []) ⊎ ((p + 1) * PACKET_WORDS ≤ length flags.now) }
    requires few { p < PACKETS }
    requires row { row < KINDS }
    ensures flags { (r : ℕ) → r < PACKETS → has result.now r ≡ has flags.now ((p * KINDS + row) * WIDTH + r) }
    ensures len { length result.now ≡ WORDS }
{
    if flags.is_empty() {
        return &[0; WORDS];
    }
    let start = (p * KINDS + row) * WORDS;
    &flags[start..start + WORDS]
}
