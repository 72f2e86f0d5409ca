//! One attempt to lower heads.

ghost use Rattle.std.specs.Prelude.{◌≡◌, ◌<◌, ◌≤◌, IfOk, IsTrue, OnOk, false, length};
ghost use Rattle.hq_job.specs.Heads.{SameButHeads};
ghost use Rattle.hq_job.specs.Plan.{plan};
ghost use Rattle.hq_order.specs.View.{AreOf};
ghost use Rattle.hq_parts.specs.Parts.{AreParts};
ghost use Rattle.hq_change.specs.Levels.{AreLowered};
ghost use Rattle.hq_change.specs.Minimal.{Attempted, Fit, IsOn, TooLow};

use crate::heads::{copied, lower_between, set_between};
use crate::level::Level;
use crate::trial::judged;
use hq_job::Job;
use hq_order::{Before, Rounds};
use hq_packet::Head;
use hq_parts::Parts;
use std::alloc::{AllocError, Global};

/// What stays as it is while heads are lowered at one level: which packets may conflict, and the heads below which
/// none goes.
#[derive(Clone, Copy)]
pub struct Search<'a> {
    pub parts: &'a Parts,
    pub floor: &'a [Head],
    pub level: Level,
}

/// The rounds of a job whose heads were lowered at a level, from those that it had. Those of another bit are worked
/// out anew.
fn rounds_for(alloc: Global, job: &Job, rounds: Rounds, level: Level) -> Result<Rounds, AllocError>
    requires { Fit level (plan job.now) rounds }
    ensures { IfOk result (λ new. AreOf (plan job.now) new) }
{
    if level != Level::Bit {
        return Ok(rounds);
    }
    let Ok(before) = Before::build(alloc, job) else {
        return Err(AllocError);
    };
    Ok(before.into_rounds())
}

/// Lowers the heads of the packets from one number up to another, if the job is still ordered then, and answers
/// whether it is; else leaves the job as it was. An error leaves a job of which nothing is known.
pub fn attempt(
    alloc: Global,
    job: &mut Job,
    heads: &mut Vec<Head>,
    rounds: Rounds,
    search: &Search,
    from: usize,
    to: usize,
) -> Result<(bool, Rounds), AllocError>
    requires on { IsOn search.now.floor.now (plan job.old) heads.old.items }
    requires rounds { Fit search.now.level (plan job.old) rounds }
    requires parts { AreParts (plan job.old) search.now.parts.now }
    requires from { from < to }
    requires to { to ≤ length job.old.packets }
    ensures attempted { IfOk result
        (λ tried. Attempted search.now.level search.now.floor.now from to (plan job.old)
        (plan job.new) heads.new.items tried.1 tried.0) }
    ensures lowered { IfOk result
        (λ tried. IsTrue tried.0
        → AreLowered search.now.level search.now.floor.now from to heads.old.items heads.new.items) }
    ensures kept { IfOk result (λ tried. tried.0 ≡ false → heads.new.items ≡ heads.old.items) }
    ensures low { IfOk result
        (λ tried. tried.0 ≡ false
        → TooLow search.now.level search.now.floor.now from to heads.old.items (plan job.old)) }
    ensures same { OnOk result (SameButHeads job.old job.new) }
{
    job.valid();
    let mut lowered = copied(alloc, heads)?;
    if !lower_between(&mut lowered, search.floor, search.level, from, to) {
        return Ok((true, rounds));
    }
    set_between(job, &lowered, from, to);
    let rounds = rounds_for(alloc, job, rounds, search.level)?;
    let (ordered, rounds) = judged(job, rounds, search.parts, from, to);
    if ordered {
        *heads = lowered;
    } else {
        set_between(job, heads, from, to);
    }
    Ok((ordered, rounds))
}
