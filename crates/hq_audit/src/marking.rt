//! What pair lines need.

ghost use Rattle.std.specs.Prelude.{◌≡◌};
ghost use Rattle.hq_model.specs.Job.{IsPacket};
ghost use Rattle.hq_fence.specs.Judgement.{IsRelease, IsAcquire, end_of, first_of};
ghost use Rattle.hq_derive.specs.Needed.{HasRoom, IsNeeded, Widens};
ghost use Rattle.hq_audit.specs.Drafted.{OrderedBy, Upto, KnownForRelease, KnownForAcquire, KnownFor};

use crate::draft::Means;
use hq_derive::Needs;
use hq_fence::{Acquire, Release};
use hq_order::Before;

/// A line that p is before x is needed, unless p is x.
#[inline(always)]
fn need_upto(needs: &mut Needs, before: &Before, p: usize, x: usize)
    requires room { HasRoom before.now needs.old }
    requires p_is { IsPacket before.now p }
    requires x_is { IsPacket before.now x }
    ensures needed { Upto (IsNeeded needs.new) p x }
    ensures widens { Widens before.now needs.old needs.new }
{
    if p != x {
        needs.need(before, p, x);
    }
}

/// What a release needs; answers its last packet.
#[inline(always)]
fn need_release(needs: &mut Needs, before: &Before, p: usize, r: usize, release: Release) -> usize
    requires room { HasRoom before.now needs.old }
    requires p_is { IsPacket before.now p }
    requires release { IsRelease before.now p r release }
    ensures needed { KnownForRelease (IsNeeded needs.new) p release }
    ensures widens { Widens before.now needs.old needs.new }
    ensures last { result ≡ end_of release }
    ensures last_is { IsPacket before.now result }
{
    match release {
        Release::Alone(x) => {
            need_upto(needs, before, p, x as usize);
            x as usize
        }
        Release::Chained(x, x2) => {
            need_upto(needs, before, p, x as usize);
            needs.need(before, x as usize, x2 as usize);
            x2 as usize
        }
    }
}

/// What an acquire needs; answers its first packet.
#[inline(always)]
fn need_acquire(needs: &mut Needs, before: &Before, p: usize, r: usize, acquire: Acquire) -> usize
    requires room { HasRoom before.now needs.old }
    requires r_is { IsPacket before.now r }
    requires acquire { IsAcquire before.now p r acquire }
    ensures needed { KnownForAcquire (IsNeeded needs.new) r acquire }
    ensures widens { Widens before.now needs.old needs.new }
    ensures first { result ≡ first_of acquire }
    ensures first_is { IsPacket before.now result }
{
    match acquire {
        Acquire::Alone(y) => {
            need_upto(needs, before, y as usize, r);
            y as usize
        }
        Acquire::Chained(y2, y) => {
            need_upto(needs, before, y as usize, r);
            needs.need(before, y2 as usize, y as usize);
            y2 as usize
        }
    }
}

/// What a pair line of p with r needs that these order.
#[inline(always)]
pub fn need_means(needs: &mut Needs, before: &Before, p: usize, r: usize, means: Means)
    requires room { HasRoom before.now needs.old }
    requires p_is { IsPacket before.now p }
    requires r_is { IsPacket before.now r }
    requires order { OrderedBy before.now p r means }
    ensures needed { KnownFor (IsNeeded needs.new) p r means }
    ensures widens { Widens before.now needs.old needs.new }
{
    match means {
        Means::ReadWrite => needs.need(before, p, r),
        Means::WriteWrite(release) => {
            let last = need_release(needs, before, p, r, release);
            needs.need(before, last, r);
        }
        Means::WriteRead(release, acquire) => {
            let last = need_release(needs, before, p, r, release);
            let first = need_acquire(needs, before, p, r, acquire);
            needs.need(before, last, first);
        }
    }
}
