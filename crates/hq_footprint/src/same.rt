//! Whether two values are the same, part by part.

ghost use Rattle.std.specs.Prelude.{◌≡◌, ◌↔◌, IsTrue};

use crate::footprint::{Footprint, Range, Work};
use crate::task::Task;

fn same_ranges(first: &[Range], second: &[Range]) -> bool
    ensures { IsTrue result ↔ (first.now ≡ second.now) }
{
    first == second
}

impl Range {
    /// Whether both are the same range.
    pub fn same(self, other: Range) -> bool
        ensures { IsTrue result ↔ (self ≡ other) }
    {
        self.at == other.at && self.len == other.len
    }
}

impl Footprint {
    /// Whether both have the same ranges.
    pub fn same(self, other: Footprint) -> bool
        ensures { IsTrue result ↔ (self ≡ other) }
    {
        same_ranges(&self.reads, &other.reads) && self.write.same(other.write)
    }
}

impl Task {
    /// Whether both are the same task.
    pub fn same(self, other: Task) -> bool
        ensures { IsTrue result ↔ (self ≡ other) }
    {
        self == other
    }
}

impl Work {
    /// Whether both are the same work: the same ranges and the same task.
    pub fn same(self, other: Work) -> bool
        ensures { IsTrue result ↔ (self ≡ other) }
    {
        self.foot.same(other.foot) && self.task.same(other.task)
    }
}
