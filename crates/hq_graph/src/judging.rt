//! What an audit finds.

ghost use Rattle.hq_parts.specs.Parts.{AreParts};
ghost use Rattle.hq_graph.specs.Known.{TellsStuck};
ghost use Rattle.hq_graph.specs.Order.{IsFound};

use crate::stuck::Stuck;
use hq_audit::all_shown;
use hq_finding::Found;
use hq_order::Before;
use hq_parts::Parts;

/// What an audit of the job would find.
pub fn found_of(before: &Before, parts: &Parts, stuck: &Stuck) -> Found
    requires parts { AreParts before.now parts.now }
    requires stuck { TellsStuck before.now stuck.now }
    ensures { IsFound before.now result }
{
    if stuck.some {
        return Found::Stuck;
    }
    match all_shown(before, parts) {
        Ok(()) => Found::Ordered,
        Err(_) => Found::Conflict,
    }
}
