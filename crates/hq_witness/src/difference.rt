//! Where two traces differ.

ghost use Rattle.std.specs.Prelude.{◌↔◌, IsTrue, MatchOption};
ghost use Rattle.hq_witness.specs.declared.trace.Sighting.{Sighting as Sight};
ghost use Rattle.hq_witness.specs.Differences.{Agree, AreOther, Has, SameReads, TellApart};

use crate::origin::Origin;
use crate::place::Place;
use crate::trace::{Sighting, Trace};

/// A place, and the origin there in each of two runs.
#[derive(Clone, Copy, Debug)]
pub struct Difference {
    pub place: Place,
    pub good: Origin,
    pub bad: Origin,
}

/// Whether one read is of the same entry by the same packet as another, and had another origin.
fn is_other(sighting: Sighting, other: Sighting) -> bool
    ensures { IsTrue result ↔ AreOther sighting other }
{
    other.packet == sighting.packet
        && other.entry == sighting.entry
        && other.origin != sighting.origin
}

/// A read of the same entry by the same packet that had another origin.
fn other_sighting(reads: &[Sighting], sighting: Sighting) -> Option<Sighting>
    ensures { MatchOption result ((other : Sight) → Has reads.now other → ¬ AreOther sighting other)
        (λ other. Has reads.now other × AreOther sighting other) }
{
    for other in reads {
        if is_other(sighting, *other) {
            return Some(*other);
        }
    }
    None
}

/// A read that has one origin in the one trace and another in the other.
fn read_difference(good: &Trace, bad: &Trace) -> Option<Difference>
    ensures { MatchOption result (SameReads good.now bad.now) (TellApart good.now bad.now) }
{
    for sighting in good.reads.as_slice() {
        if let Some(other) = other_sighting(&bad.reads, *sighting) {
            return Some(Difference {
                place: Place::Read {
                    packet: sighting.packet,
                    entry: sighting.entry,
                },
                good: sighting.origin,
                bad: other.origin,
            });
        }
    }
    None
}

/// Where two traces of one byte differ: in a read, or in what memory has.
pub fn apart(good: &Trace, bad: &Trace) -> Option<Difference>
    ensures { MatchOption result (Agree good.now bad.now) (TellApart good.now bad.now) }
{
    if let Some(found) = read_difference(good, bad) {
        return Some(found);
    }
    if good.byte != bad.byte || good.memory == bad.memory {
        return None;
    }
    Some(Difference {
        place: Place::Memory { byte: good.byte },
        good: good.memory,
        bad: bad.memory,
    })
}
