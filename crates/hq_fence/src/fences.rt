//! Single fences.

ghost use Rattle.std.specs.Prelude.{◌≡◌, ◌↔◌, IsTrue};
ghost use Rattle.hq_model.specs.Job.{IsPacket, packet};
ghost use Rattle.hq_model.specs.Fence.{need, SameOrBefore, Releases, Acquires, Forwards};

use hq_order::Before;
use hq_packet::Scope;

/// The scope that a fence between two packets needs.
#[inline(always)]
pub fn need(before: &Before, p: usize, r: usize) -> Scope
    requires p_is { IsPacket before.now p }
    requires r_is { IsPacket before.now r }
    ensures { result ≡ need before.now p r }
{
    before.job().need(p, r)
}

/// Whether p is r or comes before it.
#[inline(always)]
pub fn is_same_or_before(before: &Before, p: usize, r: usize) -> bool
    ensures { IsTrue result ↔ SameOrBefore before.now p r }
{
    p == r || before.holds(p, r)
}

/// Whether x is p, or a packet of p's queue that p comes before, and releases as far as is needed.
#[inline(always)]
pub fn releases(before: &Before, p: usize, x: usize, needed: Scope) -> bool
    requires p_is { IsPacket before.now p }
    requires x_is { IsPacket before.now x }
    ensures { IsTrue result ↔ Releases before.now p x needed }
{
    let job = before.job();
    job.release_of(x).reaches(needed) && job.same_queue(x, p) && is_same_or_before(before, p, x)
}

/// Whether y is r, or a packet of r's queue that comes before r, and acquires as far as is needed.
#[inline(always)]
pub fn acquires(before: &Before, r: usize, y: usize, needed: Scope) -> bool
    requires r_is { IsPacket before.now r }
    requires y_is { IsPacket before.now y }
    ensures { IsTrue result ↔ Acquires before.now r y needed }
{
    let job = before.job();
    job.acquire_of(y).reaches(needed) && job.same_queue(y, r) && is_same_or_before(before, y, r)
}

/// Whether m, on p's agent, releases to the system.
pub fn forwards_release(before: &Before, p: usize, m: usize) -> bool
    requires p_is { IsPacket before.now p }
    requires m_is { IsPacket before.now m }
    ensures { IsTrue result ↔ Forwards before.now p m (packet before.now m).release }
{
    let job = before.job();
    job.release_of(m).reaches(Scope::System) && job.agent_of(m) == job.agent_of(p)
}

/// Whether m, on r's agent, acquires from the system.
pub fn forwards_acquire(before: &Before, r: usize, m: usize) -> bool
    requires r_is { IsPacket before.now r }
    requires m_is { IsPacket before.now m }
    ensures { IsTrue result ↔ Forwards before.now r m (packet before.now m).acquire }
{
    let job = before.job();
    job.acquire_of(m).reaches(Scope::System) && job.agent_of(m) == job.agent_of(r)
}
