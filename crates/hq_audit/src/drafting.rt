//! Drafts of pair lines as pairs are judged.

ghost use Rattle.std.specs.Prelude.{◌≡◌, ◌<◌, ◌⊎◌, [], IfErr, IfOk, OnOk, IfSome, IsSome, IsTrue, length};
ghost use Rattle.hq_job.specs.Conflicts.{HasConflicts};
ghost use Rattle.hq_model.specs.Job.{IsPacket};
ghost use Rattle.hq_model.specs.Order as order;
ghost use Rattle.hq_model.specs.Fence as model;
ghost use Rattle.hq_fence.specs.Judgement.{ReleasesBefore, ReleasesToAcquire, Shows};
ghost use Rattle.hq_audit.specs.Drafted.{drafts_of, kind_by, listed, OrderedBy, AreDrafts, DraftsGo, DraftsJoin};
ghost use Rattle.hq_audit.specs.Paired.{HasDraft, HasAll, RowPaired};
ghost use Rattle.hq_audit.specs.Rowed.{DraftsAll};
ghost use Rattle.hq_parts.specs.Parts.{AreParts};
ghost use Rattle.hq_audit.specs.Refused.{ShownOneWay, RowShown, PairRefused, RowRefused, AllRefused};

use crate::directed::{Directed, direct_at_once, direct_kinds};
use crate::draft::{Draft, Means};
use crate::fault::AuditNo;
use crate::marking::need_means;
use crate::packed::Packed;
use hq_derive::Needs;
use hq_fence::{Acquire, Release, Shown};
use hq_footprint::Kinds;
use hq_model::PACKETS;
use hq_order::Before;
use hq_parts::Parts;
use std::alloc::{AllocError, Global};
use std::mem;

/// How many drafts a list may have.
const ROOM: usize = 8_192;

/// A list is full where there may be no room in it for those of one more packet: three with each other packet.
const FULL: usize = ROOM - 3 * PACKETS;

/// Drafts of the pair lines of some packets, and which lines these need.
#[derive(Drop)]
pub struct Drafts {
    /// Full lists, one behind another.
    pub full: Vec<Vec<Packed>>,
    /// The list behind them, to which drafts are added.
    pub last: Vec<Packed>,
    pub needs: Needs,
    /// Whether one is chained.
    pub chained: bool,
}

impl Drafts {
    /// No drafts.
    pub fn new(alloc: Global, before: &Before) -> Result<Drafts, AllocError>
        ensures are { IfOk result (AreDrafts before.now) }
        ensures empty { IfOk result (λ drafts. drafts_of drafts ≡ []) }
    {
        let needs = Needs::new(alloc, before)?;
        Ok(Drafts {
            full: Vec::new(alloc),
            last: Vec::new(alloc),
            needs,
            chained: false,
        })
    }

    /// No drafts, with room for a list of them, so that who adds them seldom asks for memory.
    pub fn with_room(alloc: Global, before: &Before) -> Result<Drafts, AllocError>
        ensures are { IfOk result (AreDrafts before.now) }
        ensures empty { IfOk result (λ drafts. drafts_of drafts ≡ []) }
    {
        let mut drafts = Drafts::new(alloc, before)?;
        drafts.last.reserve(ROOM)?;
        Ok(drafts)
    }

    /// Adds the draft of a pair line of p with r, and notes which lines it needs.
    #[inline(always)]
    fn push(&mut self, before: &Before, p: usize, r: usize, means: Means) -> Result<(), AllocError>
        requires are { AreDrafts before.now self.old }
        requires p_is { IsPacket before.now p }
        requires r_is { IsPacket before.now r }
        requires order { OrderedBy before.now p r means }
        ensures goes { OnOk result (DraftsGo before.now self.old self.new) }
        ensures has { OnOk result (HasDraft (drafts_of self.new) p r (kind_by means)) }
    {
        before.job().valid();
        need_means(&mut self.needs, before, p, r, means);
        self.chained |= means.is_chained();
        let draft = Draft {
            p: p as u16,
            r: r as u16,
            means,
        };
        self.last.push(Packed::new(draft))?;
        Ok(())
    }

    /// Adds the draft for a write that r reads, if there is one.
    #[inline(always)]
    fn add_write_read(
        &mut self,
        before: &Before,
        p: usize,
        r: usize,
        fences: Option<(Release, Acquire)>,
    ) -> Result<(), AllocError>
        requires are { AreDrafts before.now self.old }
        requires p_is { IsPacket before.now p }
        requires r_is { IsPacket before.now r }
        requires fences { IfSome fences (ReleasesToAcquire before.now p r) }
        ensures goes { OnOk result (DraftsGo before.now self.old self.new) }
        ensures has { OnOk result
            (IsSome fences → HasDraft (drafts_of self.new) p r model.Conflict.WriteRead) }
    {
        if let Some((release, acquire)) = fences {
            self.push(before, p, r, Means::WriteRead(release, acquire))?;
        }
        Ok(())
    }

    /// Adds the draft for two writes, if there is one.
    #[inline(always)]
    fn add_write_write(
        &mut self,
        before: &Before,
        p: usize,
        r: usize,
        release: Option<Release>,
    ) -> Result<(), AllocError>
        requires are { AreDrafts before.now self.old }
        requires p_is { IsPacket before.now p }
        requires r_is { IsPacket before.now r }
        requires release { IfSome release (ReleasesBefore before.now p r) }
        ensures goes { OnOk result (DraftsGo before.now self.old self.new) }
        ensures has { OnOk result
            (IsSome release → HasDraft (drafts_of self.new) p r model.Conflict.WriteWrite) }
    {
        if let Some(release) = release {
            self.push(before, p, r, Means::WriteWrite(release))?;
        }
        Ok(())
    }

    /// Adds the draft for a read of what r writes, if there is one.
    #[inline(always)]
    fn add_read_write(
        &mut self,
        before: &Before,
        p: usize,
        r: usize,
        there: bool,
    ) -> Result<(), AllocError>
        requires are { AreDrafts before.now self.old }
        requires p_is { IsPacket before.now p }
        requires r_is { IsPacket before.now r }
        requires before { IsTrue there → order.Before before.now p r }
        ensures goes { OnOk result (DraftsGo before.now self.old self.new) }
        ensures has { OnOk result
            (IsTrue there → HasDraft (drafts_of self.new) p r model.Conflict.ReadWrite) }
    {
        if there {
            self.push(before, p, r, Means::ReadWrite)?;
        }
        Ok(())
    }

    /// Adds the drafts of two packets in their direction.
    #[inline(always)]
    fn add_directed(&mut self, before: &Before, direction: Directed) -> Result<(), AllocError>
        requires are { AreDrafts before.now self.old }
        requires p_is { IsPacket before.now direction.first }
        requires r_is { IsPacket before.now direction.second }
        requires shows { Shows before.now direction.first direction.second direction.shown }
        ensures goes { OnOk result (DraftsGo before.now self.old self.new) }
        ensures has { OnOk result (HasAll before.now (drafts_of self.new) direction.first direction.second) }
    {
        let (p, r, shown) = (direction.first, direction.second, direction.shown);
        self.add_write_read(before, p, r, shown.wr)?;
        self.add_write_write(before, p, r, shown.ww)?;
        self.add_read_write(before, p, r, shown.rw)?;
        Ok(())
    }

    /// Judges a and b, and adds their drafts. `kinds` says how a conflicts with b.
    fn add_judged(
        &mut self,
        before: &Before,
        a: usize,
        b: usize,
        kinds: Kinds,
    ) -> Result<(), AuditNo>
        requires are { AreDrafts before.now self.old }
        requires a_is { IsPacket before.now a }
        requires b_is { IsPacket before.now b }
        requires kinds { HasConflicts before.now a b kinds }
        ensures goes { OnOk result (DraftsGo before.now self.old self.new) }
        ensures has { OnOk result
            (HasAll before.now (drafts_of self.new) a b ⊎ HasAll before.now (drafts_of self.new) b a) }
        ensures shown { OnOk result (ShownOneWay before.now a b) }
        ensures refused { IfErr result (PairRefused before.now a b) }
    {
        let direction = direct_kinds(before, a, b, kinds)?;
        self.add_directed(before, direction)?;
        Ok(())
    }

    /// Does so, and at once where that costs little.
    #[inline(always)]
    fn add_pair(&mut self, before: &Before, a: usize, b: usize) -> Result<(), AuditNo>
        requires are { AreDrafts before.now self.old }
        requires a_is { IsPacket before.now a }
        requires b_is { IsPacket before.now b }
        ensures goes { OnOk result (DraftsGo before.now self.old self.new) }
        ensures has { OnOk result
            (HasAll before.now (drafts_of self.new) a b ⊎ HasAll before.now (drafts_of self.new) b a) }
        ensures shown { OnOk result (ShownOneWay before.now a b) }
        ensures refused { IfErr result (PairRefused before.now a b) }
    {
        let kinds = before.job().kinds(a, b);
        let Some(direction) = direct_at_once(before, a, b, kinds) else {
            return self.add_judged(before, a, b, kinds);
        };
        self.add_directed(before, direction)?;
        Ok(())
    }

    /// Has the next drafts go to a list of their own, where the last one is full.
    fn turn(&mut self, alloc: Global, before: &Before) -> Result<(), AllocError>
        requires { AreDrafts before.now self.old }
        ensures { OnOk result (DraftsGo before.now self.old self.new) }
    {
        if self.last.len() < FULL {
            return Ok(());
        }
        self.last.shrink_to_fit();
        let next = Vec::with_capacity(alloc, ROOM)?;
        let last = mem::replace(&mut self.last, next);
        self.full.push(last)?;
        Ok(())
    }

    /// Adds the drafts of a with the packets above it to the last list.
    fn add_others(&mut self, before: &Before, parts: &Parts, a: usize) -> Result<(), AuditNo>
        requires are { AreDrafts before.now self.old }
        requires parts { AreParts before.now parts.now }
        requires a_is { IsPacket before.now a }
        ensures goes { OnOk result (DraftsGo before.now self.old self.new) }
        ensures paired { OnOk result (RowPaired before.now (drafts_of self.new) a (length before.now.packets)) }
        ensures shown { OnOk result (RowShown before.now a (length before.now.packets)) }
        ensures refused { IfErr result (RowRefused before.now a) }
    {
        let job = before.job();
        job.valid();
        let row = parts.others(job, a);
        let mut b = row.next(job, a + 1);
        'others: while b < before.len() {
            self.add_pair(before, a, b)?;
            b = row.next(job, b + 1);
        }
        Ok(())
    }

    /// Adds the drafts of a with the packets above it.
    pub fn add_row(
        &mut self,
        alloc: Global,
        before: &Before,
        parts: &Parts,
        a: usize,
    ) -> Result<(), AuditNo>
        requires are { AreDrafts before.now self.old }
        requires parts { AreParts before.now parts.now }
        requires a_is { IsPacket before.now a }
        ensures goes { OnOk result (DraftsGo before.now self.old self.new) }
        ensures paired { OnOk result (RowPaired before.now (drafts_of self.new) a (length before.now.packets)) }
        ensures shown { OnOk result (RowShown before.now a (length before.now.packets)) }
        ensures refused { IfErr result (RowRefused before.now a) }
    {
        self.turn(alloc, before)?;
        self.add_others(before, parts, a)
    }

    /// What the lines rest on that the drafts need is needed too.
    pub fn close(&mut self, before: &Before)
        requires { AreDrafts before.now self.old }
        ensures are { AreDrafts before.now self.new }
        ensures same { drafts_of self.new ≡ drafts_of self.old }
    {
        self.needs.close(before);
    }

    /// Does so, and keeps what one thread makes these lines by.
    pub fn close_keeping(&mut self, alloc: Global, before: &Before)
        requires { AreDrafts before.now self.old }
        ensures are { AreDrafts before.now self.new }
        ensures same { drafts_of self.new ≡ drafts_of self.old }
    {
        self.needs.close_keeping(alloc, before);
    }

    /// Takes over the drafts of others, and what these need; the drafts stand behind those that are there.
    pub fn join(
        &mut self,
        alloc: Global,
        before: &Before,
        others: &mut Drafts,
    ) -> Result<(), AllocError>
        requires are { AreDrafts before.now self.old }
        requires others { AreDrafts before.now others.old }
        ensures { OnOk result (DraftsJoin before.now self.old others.old self.new) }
    {
        self.needs.take_in(before, &others.needs);
        self.chained |= others.chained;
        let next = mem::replace(&mut others.last, Vec::new(alloc));
        let last = mem::replace(&mut self.last, next);
        self.full.push(last)?;
        self.full.append(&mut others.full)?;
        Ok(())
    }

    /// The lists of drafts.
    pub fn into_lists(self) -> Result<Vec<Vec<Packed>>, AllocError>
        ensures { IfOk result (λ lists. listed lists.items ≡ drafts_of self) }
    {
        let Drafts { mut full, last, .. } = self;
        full.push(last)?;
        Ok(full)
    }
}

/// The drafts of all packets, with all lines noted that they need and rest on. The error is the first two packets that aren't ordered, or that there is no memory.
pub fn draft_all(alloc: Global, before: &Before, parts: &Parts) -> Result<Drafts, AuditNo>
    requires parts { AreParts before.now parts.now }
    ensures all { IfOk result (DraftsAll before.now) }
    ensures refused { IfErr result (AllRefused before.now) }
{
    let mut drafts = Drafts::new(alloc, before)?;
    for a in 0..before.len() {
        drafts.add_row(alloc, before, parts, a)?;
    }
    drafts.close_keeping(alloc, before);
    Ok(drafts)
}
