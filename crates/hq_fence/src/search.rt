//! The search for fences that order two packets.

ghost use Rattle.std.specs.Prelude.{◌≡◌, ◌<◌, ◌↔◌, ℕ, IsTrue, IfSome, MatchOption};
ghost use Rattle.hq_model.specs.Job.{IsPacket, packet};
ghost use Rattle.hq_model.specs.Fence.{Releases};
ghost use Rattle.hq_packet.specs.declared.packet.Scope.TheVariants as scope;
ghost use Rattle.hq_fence.specs.Asking.{IsAsked, FenceAfter, Follows, Ends, Finds};
ghost use Rattle.hq_fence.specs.Judgement.{begin_of, end_of, first_of};
ghost use Rattle.hq_fence.specs.Circuits.{IsQueueOf};
ghost use Rattle.hq_fence.specs.declared.search.Form.TheVariants as form;
ghost use Rattle.hq_fence.specs.declared.search.Ending as search;
ghost use Rattle.hq_fence.specs.declared.shown.Acquire as shown;
ghost use Rattle.hq_fence.specs.declared.shown.Acquire.TheVariants as acquire;
ghost use Rattle.hq_fence.specs.declared.shown.Release as released;
ghost use Rattle.hq_fence.specs.declared.shown.Release.TheVariants as release;

use crate::circuit::Circuit;
use crate::fences::{
    acquires, forwards_acquire, forwards_release, is_same_or_before, need, releases,
};
use crate::shown::{Acquire, Release};
use hq_model::PACKETS;
use hq_order::Before;
use hq_packet::Scope;

/// Which forms of releases and acquires count: those of one packet, or chains too.
#[derive(Clone, Copy, Debug, PartialEq, Eq)]
pub enum Form {
    Plain,
    Any,
}

/// What is to come after a release: the second packet, or fences that acquire for it.
#[derive(Clone, Copy, Debug)]
pub enum Goal {
    Second,
    Acquire,
}

/// What comes after a release.
#[derive(Clone, Copy, Debug)]
pub enum Ending {
    Second,
    Acquired(Acquire),
}

/// A search for fences between two packets, `p` and `r`, with the scope that they need.
#[derive(Clone, Copy)]
pub struct Search<'b, 'a> {
    pub before: &'b Before<'a>,
    pub p: usize,
    pub r: usize,
    pub needed: Scope,
    pub queue_of_p: Circuit,
    pub queue_of_r: Circuit,
    pub form: Form,
    pub goal: Goal,
}

/// The packets of p's queue, of which p comes first.
#[inline(always)]
fn queue_of(before: &Before, p: usize) -> Circuit
    requires { IsPacket before.now p }
    ensures { IsQueueOf before.now p result }
{
    let job = before.job();
    job.valid();
    let numbers = job.queue_of(p);
    Circuit {
        start: numbers.start,
        first: p,
        end: numbers.end,
    }
}

impl<'b, 'a> Search<'b, 'a> {
    /// A search for plain forms.
    #[inline(always)]
    pub fn new(before: &'b Before<'a>, p: usize, r: usize, goal: Goal) -> Search<'b, 'a>
        requires p_is { IsPacket before.now p }
        requires r_is { IsPacket before.now r }
        ensures asked { IsAsked result }
        ensures job { result.before.now ≡ before.now }
        ensures p { result.p ≡ p }
        ensures r { result.r ≡ r }
        ensures goal { result.goal ≡ goal }
        ensures plain { result.form ≡ form.Plain }
    {
        before.job().valid();
        Search {
            before,
            p,
            r,
            needed: need(before, p, r),
            queue_of_p: queue_of(before, p),
            queue_of_r: queue_of(before, r),
            form: Form::Plain,
            goal,
        }
    }

    /// Whether y acquires for r as far as is needed, after another packet.
    #[inline(always)]
    fn acquires_after(&self, needed: Scope, other: usize, y: usize) -> bool
        requires r_is { IsPacket self.now.before.now self.now.r }
        requires y_is { IsPacket self.now.before.now y }
        ensures { IsTrue result ↔ FenceAfter self.now needed other y }
    {
        self.before.holds(other, y) && acquires(self.before, self.r, y, needed)
    }

    /// The first packet of r's queue that acquires as far as is needed, after another packet.
    #[inline(always)]
    fn acquire_alone(&self, needed: Scope, other: usize) -> Option<usize>
        requires { IsAsked self.now }
        ensures exact { MatchOption result ((y : ℕ) → ¬ FenceAfter self.now needed other y)
            (FenceAfter self.now needed other) }
        ensures small { IfSome result (λ y. y < PACKETS) }
    {
        let circuit = self.queue_of_r.behind(other);
        for turn in 0..circuit.len() {
            let y = circuit.at(turn);
            if self.acquires_after(needed, other, y) {
                return Some(y);
            }
        }
        None
    }

    /// The first acquire that begins at m, after another packet: m alone, else a chain.
    fn acquire_at(&self, other: usize, m: usize) -> Option<Acquire>
        requires asked { IsAsked self.now }
        requires m_is { IsPacket self.now.before.now m }
        requires system { self.now.needed ≡ scope.System }
        ensures { MatchOption result
            ((fences : shown.Acquire) → first_of fences ≡ m → ¬ Follows self.now form.Any other fences)
            (Follows self.now form.Any other) }
    {
        if !forwards_acquire(self.before, self.r, m) || !self.before.holds(other, m) {
            return None;
        }
        if acquires(self.before, self.r, m, self.needed) {
            return Some(Acquire::Alone(m as u16));
        }
        match self.acquire_alone(Scope::Agent, m) {
            Some(y) => Some(Acquire::Chained(m as u16, y as u16)),
            None => None,
        }
    }

    /// The first acquire of any form after another packet.
    #[cold]
    #[inline(never)]
    fn any_acquire(&self, other: usize) -> Option<Acquire>
        requires asked { IsAsked self.now }
        requires system { self.now.needed ≡ scope.System }
        ensures { MatchOption result ((fences : shown.Acquire) → ¬ Follows self.now form.Any other fences)
            (Follows self.now form.Any other) }
    {
        for y2 in 0..self.before.len() {
            if let Some(fences) = self.acquire_at(other, y2) {
                return Some(fences);
            }
        }
        None
    }

    /// Whether chains count.
    #[inline(always)]
    fn allows_chains(&self) -> bool
        ensures { IsTrue result ↔ ((self.now.form ≡ form.Any) × (self.now.needed ≡ scope.System)) }
    {
        self.form == Form::Any && self.needed == Scope::System
    }

    /// The first acquire after another packet.
    #[inline(always)]
    fn acquire(&self, other: usize) -> Option<Acquire>
        requires { IsAsked self.now }
        ensures { MatchOption result ((fences : shown.Acquire) → ¬ Follows self.now self.now.form other fences)
            (Follows self.now self.now.form other) }
    {
        if self.allows_chains() {
            return self.any_acquire(other);
        }
        match self.acquire_alone(self.needed, other) {
            Some(y) => Some(Acquire::Alone(y as u16)),
            None => None,
        }
    }

    /// What is asked for after another packet.
    #[inline(always)]
    fn ending(&self, other: usize) -> Option<Ending>
        requires { IsAsked self.now }
        ensures { MatchOption result ((end : search.Ending) → ¬ Ends self.now other end) (Ends self.now other) }
    {
        if !self.before.holds(other, self.r) {
            return None;
        }
        match self.goal {
            Goal::Second => Some(Ending::Second),
            Goal::Acquire => Some(Ending::Acquired(self.acquire(other)?)),
        }
    }

    /// The release that begins with x and ends with x2, and what is asked for after that. At x alone x2 is x.
    fn release_at(&self, x: usize, x2: usize) -> Option<(Release, Ending)>
        requires asked { IsAsked self.now }
        requires x2_is { IsPacket self.now.before.now x2 }
        requires system { self.now.needed ≡ scope.System }
        requires any { self.now.form ≡ form.Any }
        requires releases { Releases self.now.before.now self.now.p x scope.Agent }
        ensures { MatchOption result
            ((fences : released.Release) (end : search.Ending) → begin_of fences ≡ x → end_of fences ≡ x2
            → ¬ Finds self.now self.now.form fences end) (λ a. Finds self.now self.now.form a.0 a.1) }
    {
        if !forwards_release(self.before, self.p, x2) || !is_same_or_before(self.before, x, x2) {
            return None;
        }
        let Some(end) = self.ending(x2) else {
            return None;
        };
        if x == x2 {
            Some((Release::Alone(x as u16), end))
        } else {
            Some((Release::Chained(x as u16, x2 as u16), end))
        }
    }

    /// The first release of any form that begins with x, and what is asked for after that.
    #[cold]
    #[inline(never)]
    fn any_from(&self, x: usize) -> Option<(Release, Ending)>
        requires asked { IsAsked self.now }
        requires system { self.now.needed ≡ scope.System }
        requires any { self.now.form ≡ form.Any }
        requires releases { Releases self.now.before.now self.now.p x scope.Agent }
        ensures { MatchOption result
            ((fences : released.Release) (end : search.Ending) → begin_of fences ≡ x
            → ¬ Finds self.now self.now.form fences end) (λ a. Finds self.now self.now.form a.0 a.1) }
    {
        for x2 in 0..self.before.len() {
            if let Some(found) = self.release_at(x, x2) {
                return Some(found);
            }
        }
        None
    }

    /// What is asked for after a release by x alone.
    #[inline(always)]
    fn alone_from(&self, x: usize) -> Option<Ending>
        requires asked { IsAsked self.now }
        requires x_is { IsPacket self.now.before.now x }
        ensures { MatchOption result ((end : search.Ending) → ¬ Finds self.now self.now.form (release.Alone x) end)
            (Finds self.now self.now.form (release.Alone x)) }
    {
        if releases(self.before, self.p, x, self.needed) {
            self.ending(x)
        } else {
            None
        }
    }

    /// The first release that begins with x, and what is asked for after that.
    #[inline(always)]
    fn release_from(&self, x: usize) -> Option<(Release, Ending)>
        requires asked { IsAsked self.now }
        requires x_is { IsPacket self.now.before.now x }
        ensures { MatchOption result
            ((fences : released.Release) (end : search.Ending) → begin_of fences ≡ x
            → ¬ Finds self.now self.now.form fences end) (λ a. Finds self.now self.now.form a.0 a.1) }
    {
        if !self.allows_chains() {
            return match self.alone_from(x) {
                Some(end) => Some((Release::Alone(x as u16), end)),
                None => None,
            };
        }
        if releases(self.before, self.p, x, Scope::Agent) {
            self.any_from(x)
        } else {
            None
        }
    }

    /// The first release after which comes what is asked for, and that. There is none where that doesn't come after
    /// p itself.
    #[inline(always)]
    fn release(&self) -> Option<(Release, Ending)>
        requires { IsAsked self.now }
        ensures { MatchOption result
            ((fences : released.Release) (end : search.Ending) → ¬ Finds self.now self.now.form fences end)
            (λ a. Finds self.now self.now.form a.0 a.1) }
    {
        if let Some(found) = self.release_from(self.p) {
            return Some(found);
        }
        let Some(_) = self.ending(self.p) else {
            return None;
        };
        let circuit = self.queue_of_p;
        for turn in 0..circuit.len() {
            if let Some(found) = self.release_from(circuit.at(turn)) {
                return Some(found);
            }
        }
        None
    }

    /// The first release after which comes what is asked for, and that; chains count where no plain form does.
    #[inline(always)]
    pub fn find(&self) -> Option<(Release, Ending)>
        requires asked { IsAsked self.now }
        requires plain { self.now.form ≡ form.Plain }
        ensures { MatchOption result
            ((fences : released.Release) (end : search.Ending) → ¬ Finds self.now form.Any fences end)
            (λ a. Finds self.now form.Any a.0 a.1) }
    {
        if let Some(found) = self.release() {
            return Some(found);
        }
        let any = Search {
            form: Form::Any,
            ..*self
        };
        if any.allows_chains() {
            any.release()
        } else {
            None
        }
    }
}
