//! Drafts as pairs are judged in many threads.

ghost use Rattle.std.specs.Prelude.{◌≡◌, ◌+◌, ◌<◌, ◌≤◌, IfOk, IfSome, IsTrue, OnOk, length};
ghost use Rattle.hq_parts.specs.Parts.{AreParts};
ghost use Rattle.hq_audit.specs.Drafted.{AreDrafts};
ghost use Rattle.hq_audit.specs.Rowed.{DraftsRows, DraftsUpto, DraftsAll, MayDraft, AllMayDraft, AreJudged, AreRooms};
ghost use Rattle.hq_audit.specs.Rowed.{start_of};

use crate::drafting::Drafts;
use crate::fault::AuditNo;
use hq_model::PACKETS;
use hq_order::Before;
use hq_parts::Parts;
use std::alloc::{AllocError, Global};
use std::thread::{Threads, join_mut};

/// In how many parts the packets are, whose pairs with those above them are judged in a thread of their own each.
pub const PARTS: usize = 4;

/// Where parts begin of the most packets that there can be, so that each has about as many pairs as the others: the
/// first packets have the most above them. Those of fewer packets begin in proportion.
pub const STARTS: [usize; PARTS] = [0, 137, 300, 512];

/// Where part k begins; or where the last one ends.
fn start_of(before: &Before, k: usize) -> usize
    ensures { result ≡ start_of before.now k }
{
    before.job().valid();
    match STARTS.get(k) {
        Some(start) => before.len() * *start / PACKETS,
        None => before.len(),
    }
}

/// What comes of a part of the packets: drafts, and whether these are of all its pairs.
#[derive(Drop)]
pub struct Part {
    drafts: Drafts,
    whole: bool,
}

/// Adds the drafts of the packets from one on, up to another, with those above them, and notes what the lines rest on
/// that they need. The error says nothing of packets ahead of these.
fn draft_rows(
    drafts: &mut Drafts,
    alloc: Global,
    before: &Before,
    parts: &Parts,
    from: usize,
    to: usize,
) -> Result<(), AuditNo>
    requires are { AreDrafts before.now drafts.old }
    requires parts { AreParts before.now parts.now }
    ensures { OnOk result (DraftsRows before.now from to drafts.new) }
{
    for a in from..to.min(before.len()) {
        drafts.add_row(alloc, before, parts, a)?;
    }
    drafts.close(before);
    Ok(())
}

impl Part {
    /// Judges the pairs of part k, unless one of them isn't ordered, or there is no memory.
    fn judge(&mut self, alloc: Global, before: &Before, parts: &Parts, k: usize)
        requires are { AreDrafts before.now self.old.drafts }
        requires parts { AreParts before.now parts.now }
        requires few { k < PARTS }
        ensures { MayDraft before.now k self.new }
    {
        let (from, to) = (start_of(before, k), start_of(before, k + 1));
        self.whole = draft_rows(&mut self.drafts, alloc, before, parts, from, to).is_ok();
    }
}

/// Room for what comes of each part: threads that asked for memory all at once would wait for one another.
fn rooms(alloc: Global, before: &Before) -> Result<Vec<Part>, AllocError>
    ensures are { IfOk result (λ rooms. AreRooms before.now rooms.items) }
    ensures count { IfOk result (λ rooms. length rooms.items ≡ PARTS) }
{
    let mut rooms = Vec::with_capacity(alloc, PARTS)?;
    for _part in 0..PARTS {
        rooms.push(Part {
            drafts: Drafts::with_room(alloc, before)?,
            whole: false,
        })?;
    }
    Ok(rooms)
}

/// Judges the pairs of these parts, of which the first is part k, each in a thread of its own. All threads are started
/// here, and this one only waits: the first that is started may be given this thread's processor.
#[cycle(parts)]
fn judge_parts<R: Threads>(
    rt: &R,
    alloc: Global,
    before: &Before,
    parts: &Parts,
    k: usize,
    rooms: &mut [Part],
)
    requires parts { AreParts before.now parts.now }
    requires are { AreRooms before.now rooms.old }
    requires few { k + length rooms.old ≤ PARTS }
    ensures judged { AreJudged before.now k rooms.new }
    ensures count { length rooms.new ≡ length rooms.old }
{
    let Some((room, others)) = rooms.split_first_mut() else {
        return;
    };
    let mut beside = ||
        requires { AreParts before.now parts.now × AreDrafts before.now room.now.drafts × (k < PARTS) }
        ensures { MayDraft before.entry.now k room.exit.now }
    { room.judge(alloc, before, parts, k) };
    let mut here = ||
        requires { AreParts before.now parts.now × AreRooms before.now others.now
            × (k + 1 + length others.now ≤ PARTS) }
        ensures { AreJudged before.entry.now (k + 1) others.exit.now
            × (length others.exit.now ≡ length others.entry.now) }
    { judge_parts(rt, alloc, before, parts, k + 1, others) };
    join_mut(rt, &mut beside, &mut here);
}

/// Takes over the drafts of all parts, one part behind another; answers whether all are there.
fn join(alloc: Global, all: &mut Drafts, before: &Before, parts: &mut [Part]) -> bool
    requires parts { AllMayDraft before.now parts.old }
    requires are { AreDrafts before.now all.old }
    ensures { IsTrue result → DraftsUpto before.now (start_of before.now (length parts.old)) all.new }
{
    for part in parts.iter_mut() {
        if !part.whole {
            return false;
        }
        let Ok(()) = all.join(alloc, before, &mut part.drafts) else {
            return false;
        };
    }
    true
}

/// The drafts of all packets, judged in these rooms, unless a pair isn't ordered or there is no memory.
fn draft_in<R: Threads>(
    rt: &R,
    alloc: Global,
    before: &Before,
    parts: &Parts,
    rooms: &mut [Part],
) -> Option<Drafts>
    requires parts { AreParts before.now parts.now }
    requires are { AreRooms before.now rooms.old }
    requires count { length rooms.old ≡ PARTS }
    ensures { IfSome result (DraftsAll before.now) }
{
    judge_parts(rt, alloc, before, parts, 0, rooms);
    let Ok(mut all) = Drafts::new(alloc, before) else {
        return None;
    };
    if join(alloc, &mut all, before, rooms) {
        Some(all)
    } else {
        None
    }
}

/// The drafts of all packets, unless a pair isn't ordered or there is no memory.
pub fn draft_wide<R: Threads>(
    rt: &R,
    alloc: Global,
    before: &Before,
    parts: &Parts,
) -> Option<Drafts>
    requires { AreParts before.now parts.now }
    ensures { IfSome result (DraftsAll before.now) }
{
    match rooms(alloc, before) {
        Ok(mut rooms) => draft_in(rt, alloc, before, parts, &mut rooms),
        Err(_) => None,
    }
}
