//! Ranges of bytes.

ghost use Rattle.std.specs.Prelude.{◌≡◌, ◌+◌, ◌^◌, ◌<◌, ◌↔◌, IsTrue};
ghost use Rattle.hq_footprint.specs.Bytes.{bytes_of, Share, Fits, IsWithin};
ghost use Rattle.hq_footprint.specs.Conflicts.{Overlap};
ghost use Rattle.hq_footprint.specs.Table.{range};

use crate::task::Task;

/// `len` bytes from address `at` on. A range of length 0 is none.
#[derive(Clone, Copy, Debug, PartialEq, Eq)]
pub struct Range {
    pub at: u64,
    pub len: u64,
}

impl Range {
    /// `len` bytes from address `at` on.
    pub fn new(at: u64, len: u64) -> Range
        ensures { result ≡ range at len }
    {
        Range { at, len }
    }

    /// The address behind the last byte.
    fn end(self) -> u128
        ensures end { result ≡ self.at + self.len }
        ensures at { self.at < 2 ^ 64 }
        ensures len { self.len < 2 ^ 64 }
    {
        self.at as u128 + self.len as u128
    }

    /// Whether the range ends at the last address, 2^64 - 1, or before it.
    pub fn fits(self) -> bool
        ensures { IsTrue result ↔ Fits self }
    {
        self.end() <= 1 << 64
    }

    /// Whether both ranges have bytes, and each begins before the other ends. Only the one that begins first can
    /// end too early.
    #[inline(always)]
    fn meets(self, other: Range) -> bool
        ensures { IsTrue result ↔ Overlap self other }
    {
        let (first, second) = if self.at < other.at {
            (self.len, other.len)
        } else {
            (other.len, self.len)
        };
        second != 0 && self.at.abs_diff(other.at) < first
    }

    /// Whether some byte is in both ranges.
    #[inline(always)]
    pub fn overlaps(self, other: Range) -> bool
        ensures { IsTrue result ↔ Share (bytes_of self) (bytes_of other) }
    {
        self.meets(other)
    }

    /// Whether the range begins and ends within the other.
    pub fn is_within(self, outer: Range) -> bool
        ensures { IsTrue result ↔ IsWithin self outer }
    {
        outer.at <= self.at && self.end() <= outer.end()
    }
}

/// What a packet reads and writes, in bytes. All reads come before all stores, so the ranges may overlap.
#[derive(Clone, Copy, Debug, PartialEq, Eq)]
pub struct Footprint {
    pub reads: [Range; 2],
    pub write: Range,
}

/// A footprint, and what is written there of what was read.
#[derive(Clone, Copy, Debug, PartialEq, Eq)]
pub struct Work {
    pub foot: Footprint,
    pub task: Task,
}
