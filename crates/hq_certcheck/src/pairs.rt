//! Pair lines of a certificate, one by one, by what its lines conclude.

ghost use Rattle.std.specs.Prelude.{◌<◌, ◌↔◌, IsTrue, Some, None, map, length};
ghost use Rattle.hq_cert.specs.View.{pair_of, fences_of, cited};
ghost use Rattle.hq_job.specs.Plan.{plan};
ghost use Rattle.hq_model.specs.Job.{packet, IsPacket};
ghost use Rattle.hq_model.specs.Fence.{FenceReaches, Forwards};
ghost use Rattle.hq_model.specs.Certificate.{ReleaseHolds, AcquireHolds, FencesHold, PairHolds};
ghost use Rattle.hq_model.specs.Certificate.Fences.{ForWriteWrite, ForWriteRead, ForWriteWriteChained};
ghost use Rattle.hq_model.specs.Certificate.Fences.{ForWriteReadChained};
ghost use Rattle.hq_certcheck.specs.Concluded.{bare};
ghost use Rattle.hq_certcheck.specs.Listed.{PairHoldsAt, BadPairIs, NeedsSystem};

use crate::citing::{cites, says};
use crate::conclusion::Conclusion;
use hq_cert::{Citation, Fences, Pair, ReadChain, WriteChain};
use hq_job::Job;
use hq_packet::Scope;

/// Whether x stands in p's queue, and releases as far as is needed.
fn releases(job: &Job, p: usize, x: usize, needed: Scope) -> bool
    requires { IsPacket (plan job.now) p }
    ensures { IsTrue result ↔ FenceReaches (plan job.now) p x (packet (plan job.now) x).release needed }
{
    job.is_packet(x) && job.same_queue(x, p) && job.release_of(x).reaches(needed)
}

/// Whether y stands in r's queue, and acquires from as far as is needed.
fn acquires(job: &Job, r: usize, y: usize, needed: Scope) -> bool
    requires { IsPacket (plan job.now) r }
    ensures { IsTrue result ↔ FenceReaches (plan job.now) r y (packet (plan job.now) y).acquire needed }
{
    job.is_packet(y) && job.same_queue(y, r) && job.acquire_of(y).reaches(needed)
}

/// Whether m stands on p's agent, and releases to the system.
fn forwards(job: &Job, p: usize, m: usize) -> bool
    requires { IsPacket (plan job.now) p }
    ensures { IsTrue result ↔ Forwards (plan job.now) p m (packet (plan job.now) m).release }
{
    job.is_packet(m)
        && job.agent_of(m) == job.agent_of(p)
        && job.release_of(m).reaches(Scope::System)
}

/// Whether m stands on r's agent, and acquires from the system.
fn fetches(job: &Job, r: usize, m: usize) -> bool
    requires { IsPacket (plan job.now) r }
    ensures { IsTrue result ↔ Forwards (plan job.now) r m (packet (plan job.now) m).acquire }
{
    job.is_packet(m)
        && job.agent_of(m) == job.agent_of(r)
        && job.acquire_of(m).reaches(Scope::System)
}

/// Whether a fence between two packets needs to reach the whole system.
fn needs_system(job: &Job, p: usize, r: usize) -> bool
    requires p_is { IsPacket (plan job.now) p }
    requires r_is { IsPacket (plan job.now) r }
    ensures { IsTrue result ↔ NeedsSystem (plan job.now) p r }
{
    job.need(p, r) == Scope::System
}

/// Whether p's release begins with x, and goes on to x2 by this line.
fn release_goes_on(
    job: &Job,
    lines: &[Conclusion],
    p: usize,
    r: usize,
    x: usize,
    x2: usize,
    link: usize,
) -> bool
    requires p_is { IsPacket (plan job.now) p }
    requires r_is { IsPacket (plan job.now) r }
    ensures { IsTrue result ↔ ReleaseHolds (plan job.now) (map bare lines.now) p r x x2 (Some link) }
{
    needs_system(job, p, r)
        && releases(job, p, x, Scope::Agent)
        && says(lines, lines.len(), link, x, x2)
        && forwards(job, p, x2)
}

/// Whether p's release begins with x and ends with x2.
fn release_holds(
    job: &Job,
    lines: &[Conclusion],
    p: usize,
    r: usize,
    x: usize,
    x2: usize,
    link: Citation,
) -> bool
    requires p_is { IsPacket (plan job.now) p }
    requires r_is { IsPacket (plan job.now) r }
    ensures { IsTrue result ↔ ReleaseHolds (plan job.now) (map bare lines.now) p r x x2 (cited link) }
{
    match link.number() {
        Some(link) => release_goes_on(job, lines, p, r, x, x2, link as usize),
        None => x == x2 && releases(job, p, x, job.need(p, r)),
    }
}

/// Whether r's acquire begins with y2, and goes on to y by this line.
fn acquire_goes_on(
    job: &Job,
    lines: &[Conclusion],
    p: usize,
    r: usize,
    y2: usize,
    y: usize,
    link: usize,
) -> bool
    requires p_is { IsPacket (plan job.now) p }
    requires r_is { IsPacket (plan job.now) r }
    ensures { IsTrue result ↔ AcquireHolds (plan job.now) (map bare lines.now) p r y2 y (Some link) }
{
    needs_system(job, p, r)
        && fetches(job, r, y2)
        && says(lines, lines.len(), link, y2, y)
        && acquires(job, r, y, Scope::Agent)
}

/// Whether r's acquire begins with y2 and ends with y.
fn acquire_holds(
    job: &Job,
    lines: &[Conclusion],
    p: usize,
    r: usize,
    y2: usize,
    y: usize,
    link: Citation,
) -> bool
    requires p_is { IsPacket (plan job.now) p }
    requires r_is { IsPacket (plan job.now) r }
    ensures { IsTrue result ↔ AcquireHolds (plan job.now) (map bare lines.now) p r y2 y (cited link) }
{
    match link.number() {
        Some(link) => acquire_goes_on(job, lines, p, r, y2, y, link as usize),
        None => y2 == y && acquires(job, r, y, job.need(p, r)),
    }
}

/// Whether x releases p, and comes before r.
fn write_write(
    job: &Job,
    lines: &[Conclusion],
    p: usize,
    r: usize,
    x: usize,
    from: Citation,
    on: usize,
) -> bool
    requires p_is { IsPacket (plan job.now) p }
    requires r_is { IsPacket (plan job.now) r }
    ensures { IsTrue result ↔ FencesHold (plan job.now) (map bare lines.now) p r (ForWriteWrite x (cited from) on) }
{
    releases(job, p, x, job.need(p, r))
        && cites(lines, lines.len(), from, p, x)
        && says(lines, lines.len(), on, x, r)
}

/// Whether x releases p, y acquires for r, and x comes before y.
fn write_read(
    job: &Job,
    lines: &[Conclusion],
    p: usize,
    r: usize,
    x: usize,
    y: usize,
    from: Citation,
    between: usize,
    to: Citation,
) -> bool
    requires p_is { IsPacket (plan job.now) p }
    requires r_is { IsPacket (plan job.now) r }
    ensures { IsTrue result
        ↔ FencesHold (plan job.now) (map bare lines.now) p r (ForWriteRead x y (cited from) between (cited to)) }
{
    let needed = job.need(p, r);
    releases(job, p, x, needed)
        && acquires(job, r, y, needed)
        && cites(lines, lines.len(), from, p, x)
        && says(lines, lines.len(), between, x, y)
        && cites(lines, lines.len(), to, y, r)
}

/// Whether x and then x2 release p, and x2 comes before r.
fn write_write_chained(
    job: &Job,
    lines: &[Conclusion],
    p: usize,
    r: usize,
    chain: &WriteChain,
) -> bool
    requires p_is { IsPacket (plan job.now) p }
    requires r_is { IsPacket (plan job.now) r }
    ensures { let c = chain.now in IsTrue result
        ↔ FencesHold (plan job.now) (map bare lines.now) p r
        (ForWriteWriteChained c.x c.x2 (cited c.from) c.link c.on) }
{
    let x = chain.x as usize;
    let x2 = chain.x2 as usize;
    release_goes_on(job, lines, p, r, x, x2, chain.link as usize)
        && cites(lines, lines.len(), chain.from, p, x)
        && says(lines, lines.len(), chain.on as usize, x2, r)
}

/// Whether x and then x2 release p, y2 and then y acquire for r, and x2 comes before y2.
fn write_read_chained(
    job: &Job,
    lines: &[Conclusion],
    p: usize,
    r: usize,
    chain: &ReadChain,
) -> bool
    requires p_is { IsPacket (plan job.now) p }
    requires r_is { IsPacket (plan job.now) r }
    ensures { let c = chain.now in IsTrue result
        ↔ FencesHold (plan job.now) (map bare lines.now) p r
        (ForWriteReadChained c.x c.x2 c.y2 c.y (cited c.from) (cited c.link) c.between (cited c.link2) (cited c.to)) }
{
    let x = chain.x as usize;
    let x2 = chain.x2 as usize;
    let y2 = chain.y2 as usize;
    let y = chain.y as usize;
    needs_system(job, p, r)
        && release_holds(job, lines, p, r, x, x2, chain.link)
        && acquire_holds(job, lines, p, r, y2, y, chain.link2)
        && cites(lines, lines.len(), chain.from, p, x)
        && says(lines, lines.len(), chain.between as usize, x2, y2)
        && cites(lines, lines.len(), chain.to, y, r)
}

/// Whether the fences order a conflict of p with r.
fn fences_hold(job: &Job, lines: &[Conclusion], p: usize, r: usize, fences: &Fences) -> bool
    requires p_is { IsPacket (plan job.now) p }
    requires r_is { IsPacket (plan job.now) r }
    ensures { IsTrue result ↔ FencesHold (plan job.now) (map bare lines.now) p r (fences_of fences.now) }
{
    match fences {
        Fences::ReadWrite(line) => says(lines, lines.len(), *line as usize, p, r),
        Fences::WriteWrite { x, from, on } => {
            write_write(job, lines, p, r, *x as usize, *from, *on as usize)
        }
        Fences::WriteRead {
            x,
            y,
            from,
            between,
            to,
        } => write_read(
            job,
            lines,
            p,
            r,
            *x as usize,
            *y as usize,
            *from,
            *between as usize,
            *to,
        ),
        Fences::WriteWriteChained(chain) => write_write_chained(job, lines, p, r, chain),
        Fences::WriteReadChained(chain) => write_read_chained(job, lines, p, r, chain),
    }
}

/// Whether the pair line holds: what it cites concludes what its kind asks.
fn pair_holds(job: &Job, lines: &[Conclusion], pair: &Pair) -> bool
    ensures { IsTrue result ↔ PairHolds (plan job.now) (map bare lines.now) (pair_of pair.now) }
{
    let p = pair.p as usize;
    let r = pair.r as usize;
    job.is_packet(p) && job.is_packet(r) && fences_hold(job, lines, p, r, &pair.fences)
}

/// Whether pair line k holds.
pub fn pair_line_holds(job: &Job, lines: &[Conclusion], pairs: &[Pair], k: usize) -> bool
    requires { k < length pairs.now }
    ensures { IsTrue result ↔ PairHoldsAt (plan job.now) (map bare lines.now) (map pair_of pairs.now) k }
{
    pair_holds(job, lines, &pairs[k])
}

/// The packets of the first pair line that doesn't hold.
pub fn first_bad_pair(job: &Job, lines: &[Conclusion], pairs: &[Pair]) -> Option<(u32, u32)>
    ensures { BadPairIs (plan job.now) (map bare lines.now) (map pair_of pairs.now) result }
{
    for pair in pairs {
        if !pair_holds(job, lines, pair) {
            return Some((pair.p, pair.r));
        }
    }
    None
}
