//! All heads lowered at one level, as far as the job stays ordered.

ghost use Rattle.std.specs.Prelude.{IfOk, OnOk};
ghost use Rattle.hq_job.specs.Heads.{SameButHeads};
ghost use Rattle.hq_job.specs.Plan.{plan};
ghost use Rattle.hq_parts.specs.Parts.{AreParts};
ghost use Rattle.hq_change.specs.Minimal.{Fit, IsOn, Settles};

use crate::attempt::{Search, attempt};
use crate::level::{LEVELS, Level};
use crate::watch::Watch;
use hq_job::Job;
use hq_order::Rounds;
use hq_packet::Head;
use std::alloc::{AllocError, Global};

/// At most so many packets are lowered at once.
const MOST: usize = 1024;

/// Tells how far it is, where so many of the packets are left at a level.
pub fn tell(watch: &dyn Watch, level: Level, packets: usize, left: usize) {
    let here = packets.saturating_sub(left);
    let done = level.ahead().saturating_mul(packets).saturating_add(here);
    watch.settled(done, packets.saturating_mul(LEVELS));
}

/// Lowers each head at the level of the search, if the job is still ordered then, the last packet's first: many at
/// once where that goes, half as many where it doesn't. An error leaves a job of which nothing is known.
pub fn settle(
    alloc: Global,
    job: &mut Job,
    heads: &mut Vec<Head>,
    rounds: Rounds,
    search: &Search,
    watch: &dyn Watch,
) -> Result<Rounds, AllocError>
    requires on { IsOn search.now.floor.now (plan job.old) heads.old.items }
    requires rounds { Fit search.now.level (plan job.old) rounds }
    requires parts { AreParts (plan job.old) search.now.parts.now }
    ensures settles { IfOk result
        (λ new. Settles search.now.level search.now.floor.now (plan job.old) (plan job.new) heads.new.items new) }
    ensures same { OnOk result (SameButHeads job.old job.new) }
{
    job.valid();
    let mut rounds = rounds;
    let mut to = heads.len();
    let mut many = to;
    'down: while to > 0 {
        tell(watch, search.level, heads.len(), to);
        let from = to.saturating_sub(many);
        let (ordered, next) = attempt(alloc, job, heads, rounds, search, from, to)?;
        rounds = next;
        if ordered {
            many = many.saturating_mul(2).min(MOST);
            to = from;
        } else if to - from == 1 {
            to = from;
        } else {
            many = (to - from) / 2;
        }
    }
    Ok(rounds)
}
