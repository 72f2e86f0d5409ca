//! Lists of heads, one for each packet.

ghost use Rattle.std.specs.Prelude.{◌≡◌, ◌↔◌, ◌≤◌, IfOk, IsTrue, false, length};
ghost use Rattle.hq_job.specs.Heads.{SameButHeads};
ghost use Rattle.hq_job.specs.Plan.{plan};
ghost use Rattle.hq_model.specs.Settings.{HeadRaises};
ghost use Rattle.hq_change.specs.Levels.{AreLowered, SomeOther};
ghost use Rattle.hq_change.specs.Between.{SetBetween};

use crate::level::Level;
use hq_job::Job;
use hq_packet::Head;
use std::alloc::{AllocError, Global};

/// Whether a head is at or above the floor: has the bit where that has it, and scopes that reach as far.
pub fn is_at_or_above(head: Head, floor: Head) -> bool
    ensures { IsTrue result ↔ HeadRaises floor head }
{
    let bit = head.barrier || !floor.barrier;
    bit && head.acquire.reaches(floor.acquire) && head.release.reaches(floor.release)
}

/// A list of the same heads.
pub fn copied(alloc: Global, heads: &[Head]) -> Result<Vec<Head>, AllocError>
    ensures { IfOk result (λ copy. copy.items ≡ heads.now) }
{
    let mut copy = Vec::with_capacity(alloc, heads.len())?;
    copy.extend_from_slice(heads)?;
    Ok(copy)
}

/// Lowers the heads from one number up to another by one level, where they stand at the level and that isn't below
/// the floor. Answers whether there was one.
pub fn lower_between(
    heads: &mut [Head],
    floor: &[Head],
    level: Level,
    from: usize,
    to: usize,
) -> bool
    requires floor { length floor.now ≡ length heads.old }
    requires from { from ≤ to }
    requires to { to ≤ length heads.old }
    ensures lowered { AreLowered level floor.now from to heads.old heads.new }
    ensures none { result ≡ false → heads.new ≡ heads.old }
    ensures some { IsTrue result → SomeOther heads.old heads.new }
{
    let mut some = false;
    for p in from..to {
        if let Some(head) = level.lower(heads[p], floor[p]) {
            heads[p] = head;
            some = true;
        }
    }
    some
}

/// Gives the packets from one number up to another these heads.
pub fn set_between(job: &mut Job, heads: &[Head], from: usize, to: usize)
    requires heads { length heads.now ≡ length job.old.packets }
    requires from { from ≤ to }
    requires to { to ≤ length job.old.packets }
    ensures set { SetBetween heads.now from to (plan job.old) (plan job.new) }
    ensures same { SameButHeads job.old job.new }
{
    for p in from..to {
        job.set_head(p, heads[p]);
    }
}
