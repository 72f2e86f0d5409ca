//! What is asked of a job's packets, by their numbers.

ghost use Rattle.std.specs.Prelude.{◌≡◌, ℕ, ◌<◌, ◌≤◌, ◌↔◌, IsTrue, Some, length};
ghost use Rattle.hq_job.specs.Access.{AreOfQueue};
ghost use Rattle.hq_job.specs.Plan.{plan};
ghost use Rattle.hq_model.specs.Job.{packet, IsPacket, Earlier, IsBarrier, Decrements, Dependency, Frees, agent_of};
ghost use Rattle.hq_model.specs.Job.{place_in_queue, size_of};
ghost use Rattle.hq_model.specs.Job.Kind.{BarrierAnd, BarrierOr};
ghost use Rattle.hq_model.specs.Fence.{need};

use crate::job::Job;
use hq_packet::{Packet, Scope};
use std::ops::Range;

impl Job {
    /// Whether there is a packet of this number.
    #[inline(always)]
    pub fn is_packet(&self, number: usize) -> bool
        ensures { IsTrue result ↔ IsPacket (plan self.now) number }
    {
        number < self.packets().len()
    }

    /// Whether two packets stand in one queue.
    #[inline(always)]
    pub fn same_queue(&self, p: usize, r: usize) -> bool
        requires p_is { IsPacket (plan self.now) p }
        requires r_is { IsPacket (plan self.now) r }
        ensures { IsTrue result ↔ ((packet (plan self.now) p).queue ≡ (packet (plan self.now) r).queue) }
    {
        self.packet(p).queue == self.packet(r).queue
    }

    /// Whether there is a packet `r`, and `p` stands ahead of it in its queue.
    #[inline(always)]
    pub fn is_earlier(&self, p: usize, r: usize) -> bool
        ensures { IsTrue result ↔ Earlier (plan self.now) p r }
    {
        p < r && self.is_packet(r) && self.same_queue(p, r)
    }

    /// The numbers of the packets of a packet's queue, itself among them.
    pub fn queue_of(&self, number: usize) -> Range<usize>
        requires { IsPacket (plan self.now) number }
        ensures are { AreOfQueue (plan self.now) (packet (plan self.now) number).queue result.start result.end }
        ensures from { result.start ≤ number }
        ensures to { number < result.end }
        ensures within { result.end ≤ length (plan self.now).packets }
    {
        self.valid();
        self.of_queue(self.packet(number).queue as usize)
    }

    /// The numbers of the packets that stand before a packet in its queue.
    pub fn earlier(&self, number: usize) -> Range<usize>
        requires { IsPacket (plan self.now) number }
        ensures are { (e : ℕ) → Earlier (plan self.now) e number ↔ ((result.start ≤ e) × (e < result.end)) }
        ensures order { result.start ≤ result.end }
        ensures end { result.end ≡ number }
    {
        self.queue_of(number).start..number
    }

    /// How many packets of its queue stand before a packet.
    pub fn place_in_queue(&self, number: usize) -> usize
        requires { IsPacket (plan self.now) number }
        ensures { result ≡ place_in_queue (plan self.now) number }
    {
        number - self.queue_of(number).start
    }

    /// How many slots a packet's queue has.
    fn slots_of(&self, number: usize) -> usize
        requires { IsPacket (plan self.now) number }
        ensures { result ≡ size_of (plan self.now) number }
    {
        self.valid();
        self.queues()[self.packet(number).queue as usize].size as usize
    }

    /// The numbers of the packets that free a packet's slot: none where queues aren't rings.
    pub fn freeing(&self, number: usize) -> Range<usize>
        requires { IsPacket (plan self.now) number }
        ensures are { (e : ℕ) → Frees (plan self.now) e number ↔ ((result.start ≤ e) × (e < result.end)) }
        ensures order { result.start ≤ result.end }
        ensures ahead { result.end ≤ number }
    {
        self.valid();
        let start = self.queue_of(number).start;
        if !self.rings() {
            return start..start;
        }
        let end = (number + 1).saturating_sub(self.slots_of(number));
        start..end.max(start)
    }

    /// Whether a packet has the barrier bit.
    #[inline(always)]
    pub fn has_bit(&self, number: usize) -> bool
        requires { IsPacket (plan self.now) number }
        ensures { result ≡ (packet (plan self.now) number).bit }
    {
        self.packet(number).packet.head().barrier
    }

    /// The scope of a packet's acquire fence.
    #[inline(always)]
    pub fn acquire_of(&self, number: usize) -> Scope
        requires { IsPacket (plan self.now) number }
        ensures { result ≡ (packet (plan self.now) number).acquire }
    {
        self.packet(number).packet.head().acquire
    }

    /// The scope of a packet's release fence.
    #[inline(always)]
    pub fn release_of(&self, number: usize) -> Scope
        requires { IsPacket (plan self.now) number }
        ensures { result ≡ (packet (plan self.now) number).release }
    {
        self.packet(number).packet.head().release
    }

    /// Whether a packet is a barrier packet.
    #[inline(always)]
    pub fn is_barrier(&self, number: usize) -> bool
        requires { IsPacket (plan self.now) number }
        ensures { IsTrue result ↔ IsBarrier (plan self.now) number }
    {
        matches!(&self.packet(number).packet, Packet::And(_) | Packet::Or(_))
    }

    /// Whether a packet is a barrier-AND.
    #[inline(always)]
    pub fn is_and(&self, number: usize) -> bool
        requires { IsPacket (plan self.now) number }
        ensures { IsTrue result ↔ ((packet (plan self.now) number).kind ≡ BarrierAnd) }
    {
        matches!(&self.packet(number).packet, Packet::And(_))
    }

    /// Whether a packet is a barrier-OR.
    #[inline(always)]
    pub fn is_or(&self, number: usize) -> bool
        requires { IsPacket (plan self.now) number }
        ensures { IsTrue result ↔ ((packet (plan self.now) number).kind ≡ BarrierOr) }
    {
        matches!(&self.packet(number).packet, Packet::Or(_))
    }

    /// The signals of a packet's dependency slots, slot by slot.
    #[inline(always)]
    pub fn slots(&self, number: usize) -> &[Option<u16>]
        requires { IsPacket (plan self.now) number }
        ensures { result.now ≡ (packet (plan self.now) number).deps }
    {
        &self.packet(number).slots
    }

    /// The signal in a dependency slot of the packet of this number, where there is one.
    #[inline(always)]
    pub fn dependency(&self, number: usize, slot: usize) -> Option<u16>
        ensures { (s : ℕ) → (result ≡ Some s) ↔ Dependency (plan self.now) number slot s }
    {
        if !self.is_packet(number) {
            return None;
        }
        *self.slots(number).get(slot)?
    }

    /// Whether there is a packet of this number, and it completes on the signal.
    #[inline(always)]
    pub fn completes_on(&self, number: usize, signal: u16) -> bool
        ensures { IsTrue result ↔ Decrements (plan self.now) number signal }
    {
        self.is_packet(number) && self.packet(number).done == Some(signal)
    }

    /// The number of the agent of a packet's queue.
    #[inline(always)]
    pub fn agent_of(&self, number: usize) -> usize
        requires { IsPacket (plan self.now) number }
        ensures { result ≡ agent_of (plan self.now) number }
    {
        self.valid();
        self.queues()[self.packet(number).queue as usize].agent as usize
    }

    /// The scope that a fence between two packets needs: agent where their queues are of one agent, else system.
    #[inline(always)]
    pub fn need(&self, p: usize, r: usize) -> Scope
        requires p_is { IsPacket (plan self.now) p }
        requires r_is { IsPacket (plan self.now) r }
        ensures { result ≡ need (plan self.now) p r }
    {
        if self.agent_of(p) == self.agent_of(r) {
            Scope::Agent
        } else {
            Scope::System
        }
    }
}
