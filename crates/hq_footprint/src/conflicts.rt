//! Which footprints conflict.

ghost use Rattle.std.specs.Prelude.{◌≡◌, ◌↔◌, ◌||◌, Any, IsTrue, IsSome, IfSome};
ghost use Rattle.std.specs.List.{flat_map};
ghost use Rattle.hq_footprint.specs.Bytes.{bytes_of, Share};
ghost use Rattle.hq_footprint.specs.Conflicts.{Conflict, HasKinds, turned};

use crate::footprint::{Footprint, Range};

/// How two footprints conflict, in an order: one flag for each way to share a byte.
#[derive(Clone, Copy, Debug, PartialEq, Eq)]
pub struct Kinds {
    /// The first writes a byte that the second reads.
    pub wr: bool,
    /// Both write a byte.
    pub ww: bool,
    /// The first reads a byte that the second writes.
    pub rw: bool,
}

impl Kinds {
    /// Whether there is a conflict: a flag is set.
    pub fn is_some(self) -> bool
        ensures { result ≡ (self.wr || self.ww || self.rw) }
    {
        self.wr || self.ww || self.rw
    }

    /// How the second conflicts with the first.
    #[inline(always)]
    pub fn turned(self) -> Kinds
        ensures { result ≡ turned self }
    {
        Kinds {
            wr: self.rw,
            ww: self.ww,
            rw: self.wr,
        }
    }
}

/// Whether one of the ranges shares a byte with the other range.
#[inline(always)]
fn some_overlaps(ranges: &[Range; 2], other: Range) -> bool
    ensures { IsTrue result ↔ Any (λ range. Share (bytes_of range) (bytes_of other)) ranges.now }
{
    ranges.iter().any(|range| range.overlaps(other))
}

/// Whether a byte of the entries of these ranges is in the other range.
#[inline(always)]
fn reads_overlap(reads: &[Range; 2], other: Range) -> bool
    ensures { IsTrue result ↔ Share (flat_map bytes_of reads.now) (bytes_of other) }
{
    some_overlaps(reads, other)
}

/// How the footprints share bytes, with `first` first: where they don't conflict, no flag is set.
#[inline(always)]
pub fn kinds_of(first: &Footprint, second: &Footprint) -> Kinds
    ensures { HasKinds first.now second.now result }
{
    Kinds {
        wr: reads_overlap(&second.reads, first.write),
        ww: first.write.overlaps(second.write),
        rw: reads_overlap(&first.reads, second.write),
    }
}

/// How the footprints conflict, with `first` first; None where they don't.
pub fn conflict(first: &Footprint, second: &Footprint) -> Option<Kinds>
    ensures found { IsSome result ↔ Conflict first.now second.now }
    ensures kinds { IfSome result (HasKinds first.now second.now) }
{
    let kinds = kinds_of(first, second);
    if kinds.is_some() { Some(kinds) } else { None }
}
