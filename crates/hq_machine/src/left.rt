//! The work that is left.

ghost use Rattle.std.specs.Prelude.{◌<◌, ℕ, length, MatchOption};
ghost use Rattle.hq_job.specs.Plan.{plan};
ghost use Rattle.hq_model.specs.Job.{IsPacket, packet as packet_of};
ghost use Rattle.hq_model.specs.Machine.{NoWorkLeft, Event as Step};
ghost use Rattle.hq_model.specs.Machine.Event.{Submit, Launch, Observe, Enter, Read, Store, PushLane, PushAgent};
ghost use Rattle.hq_machine.specs.Enabled.{Enabled};
ghost use Rattle.hq_machine.specs.View.{IsStateOf, state_of};
ghost use Rattle.hq_machine.specs.WorkLeft.{IsLeft, NoneOf, WaitIdle, ActiveIdle, PacketIdle};

use crate::state::State;
use hq_events::packets::{
    agent_total, packet_total, queue_total, read_total, slot_count, write_total,
};
use hq_events::{Event, Phase};
use hq_job::Job;

impl State {
    /// The next submission, if it is enabled.
    #[tactic(auto, using(crate::proofs::WorkLeft::not_submit))]
    fn submit_left(&self, job: &Job) -> Option<Event>
        requires { IsStateOf (plan job.now) self.now }
        ensures { MatchOption result (Enabled (plan job.now) self.now Submit → ⊥)
            (λ event. IsLeft (plan job.now) self.now event) }
    {
        self.submittable(job)?;
        Some(Event::Submit)
    }

    /// A queue's next launch, if it is enabled.
    #[tactic(auto, using(crate::proofs::WorkLeft::not_launch))]
    fn queue_left(&self, job: &Job, queue: u32) -> Option<Event>
        requires { IsStateOf (plan job.now) self.now }
        ensures { MatchOption result (Enabled (plan job.now) self.now (Launch queue) → ⊥)
            (λ event. IsLeft (plan job.now) self.now event) }
    {
        self.launchable(job, queue as usize)?;
        Some(Event::Launch { queue })
    }

    /// A launch that is enabled, if there is one.
    fn launch_left(&self, job: &Job) -> Option<Event>
        requires { IsStateOf (plan job.now) self.now }
        ensures { MatchOption result (NoneOf (plan job.now) self.now Launch)
            (λ event. IsLeft (plan job.now) self.now event) }
    {
        job.valid();
        for queue in 0..queue_total(job) {
            if let Some(event) = self.queue_left(job, queue) {
                return Some(event);
            }
        }
        None
    }

    /// The observation of a packet's slot, if it is enabled.
    #[tactic(auto, using(crate::proofs::WorkLeft::observe_left, crate::proofs::Moves::not_observable))]
    fn slot_left(&self, job: &Job, packet: u32, slot: usize) -> Option<Event>
        requires is { IsStateOf (plan job.now) self.now }
        requires packet { IsPacket (plan job.now) packet }
        ensures { MatchOption result (Enabled (plan job.now) self.now (Observe packet slot) → ⊥)
            (λ event. IsLeft (plan job.now) self.now event) }
    {
        if !self.is_observable(job, packet as usize, slot) {
            return None;
        }
        let slot = slot as u32;
        Some(Event::Observe { packet, slot })
    }

    /// An observation of a packet that is enabled, if there is one.
    fn observe_left(&self, job: &Job, packet: u32) -> Option<Event>
        requires is { IsStateOf (plan job.now) self.now }
        requires packet { IsPacket (plan job.now) packet }
        ensures { MatchOption result (NoneOf (plan job.now) self.now (Observe packet))
            (λ event. IsLeft (plan job.now) self.now event) }
    {
        for slot in 0..slot_count(job, packet as usize) {
            if let Some(event) = self.slot_left(job, packet, slot) {
                return Some(event);
            }
        }
        None
    }

    /// The packet's entry, if it is enabled.
    #[tactic(auto, using(crate::proofs::WorkLeft::enter_left, crate::proofs::WorkLeft::not_enter))]
    fn enter_left(&self, job: &Job, packet: u32) -> Option<Event>
        requires { IsStateOf (plan job.now) self.now }
        ensures { MatchOption result (Enabled (plan job.now) self.now (Enter packet) → ⊥)
            (λ event. IsLeft (plan job.now) self.now event) }
    {
        if !self.may_enter(job, packet as usize) {
            return None;
        }
        Some(Event::Enter { packet })
    }

    /// The read of an entry, if it is enabled.
    #[tactic(auto, using(crate::proofs::WorkLeft::read_left, crate::proofs::WorkLeft::not_read))]
    fn entry_left(&self, job: &Job, packet: u32, entry: u32) -> Option<Event>
        requires is { IsStateOf (plan job.now) self.now }
        requires entry { entry < length (packet_of (plan job.now) packet).reads }
        ensures { MatchOption result (Enabled (plan job.now) self.now (Read packet entry) → ⊥)
            (λ event. IsLeft (plan job.now) self.now event) }
    {
        if !self.is_read_open(job, packet as usize, entry as usize) {
            return None;
        }
        Some(Event::Read { packet, entry })
    }

    /// A read of a packet that is enabled, if there is one.
    fn read_left(&self, job: &Job, packet: u32) -> Option<Event>
        requires is { IsStateOf (plan job.now) self.now }
        requires packet { IsPacket (plan job.now) packet }
        ensures { MatchOption result (NoneOf (plan job.now) self.now (Read packet))
            (λ event. IsLeft (plan job.now) self.now event) }
    {
        for entry in 0..read_total(job, packet) {
            if let Some(event) = self.entry_left(job, packet, entry) {
                return Some(event);
            }
        }
        None
    }

    /// The store of a byte, if it is enabled.
    #[tactic(auto, using(crate::proofs::WorkLeft::store_left, crate::proofs::WorkLeft::not_store))]
    fn byte_left(&self, job: &Job, packet: u32, entry: u32) -> Option<Event>
        requires { IsStateOf (plan job.now) self.now }
        ensures { MatchOption result (Enabled (plan job.now) self.now (Store packet entry) → ⊥)
            (λ event. IsLeft (plan job.now) self.now event) }
    {
        if !self.may_store(job, packet as usize, entry as usize) {
            return None;
        }
        Some(Event::Store { packet, entry })
    }

    /// A store of a packet that is enabled, if there is one.
    fn store_left(&self, job: &Job, packet: u32) -> Option<Event>
        requires is { IsStateOf (plan job.now) self.now }
        requires packet { IsPacket (plan job.now) packet }
        ensures { MatchOption result (NoneOf (plan job.now) self.now (Store packet))
            (λ event. IsLeft (plan job.now) self.now event) }
    {
        for entry in 0..write_total(job, packet) {
            if let Some(event) = self.byte_left(job, packet, entry) {
                return Some(event);
            }
        }
        None
    }

    /// The packet's completion, if it is enabled.
    #[tactic(auto, using(crate::proofs::WorkLeft::finish_left, crate::proofs::Finishing::not_finishing))]
    fn finish_left(&self, job: &Job, packet: u32) -> Option<Event>
        requires { IsStateOf (plan job.now) self.now }
        ensures { MatchOption result (Enabled (plan job.now) self.now (Step.Finish packet) → ⊥)
            (λ event. IsLeft (plan job.now) self.now event) }
    {
        if !self.may_finish(job, packet as usize) {
            return None;
        }
        Some(Event::Finish { packet })
    }

    /// A push from the packet's lane that is enabled, if there is one.
    #[tactic(auto, using(crate::proofs::WorkLeft::push_lane_left, crate::proofs::WorkLeft::not_push_lane))]
    fn push_lane_left(&self, job: &Job, packet: u32) -> Option<Event>
        requires is { IsStateOf (plan job.now) self.now }
        requires packet { IsPacket (plan job.now) packet }
        ensures { MatchOption result (NoneOf (plan job.now) self.now (PushLane packet))
            (λ event. IsLeft (plan job.now) self.now event) }
    {
        let _packets = job.packets();
        let byte = self.copies.first_dirty_lane(packet as usize)?;
        Some(Event::PushLane { packet, byte })
    }

    /// A push from this agent that is enabled, if there is one.
    #[tactic(auto, using(crate::proofs::WorkLeft::push_agent_left, crate::proofs::WorkLeft::not_push_agent))]
    fn agent_left(&self, job: &Job, agent: u32) -> Option<Event>
        requires is { IsStateOf (plan job.now) self.now }
        requires agent { agent < (plan job.now).agents }
        ensures { MatchOption result (NoneOf (plan job.now) self.now (PushAgent agent))
            (λ event. IsLeft (plan job.now) self.now event) }
    {
        let _agents = job.agents();
        let byte = self.copies.first_dirty_agent(agent as usize)?;
        Some(Event::PushAgent { agent, byte })
    }

    /// A step that ends the packet's wait and is enabled, if there is one.
    #[tactic(auto, using(crate::proofs::WorkLeft::not_launched))]
    fn wait_left(&self, job: &Job, packet: u32) -> Option<Event>
        requires is { IsStateOf (plan job.now) self.now }
        requires packet { IsPacket (plan job.now) packet }
        ensures { MatchOption result (WaitIdle (plan job.now) self.now packet)
            (λ event. IsLeft (plan job.now) self.now event) }
    {
        if !self.is_in(packet as usize, Phase::Launched) {
            return None;
        }
        if let Some(event) = self.observe_left(job, packet) {
            return Some(event);
        }
        self.enter_left(job, packet)
    }

    /// A read, a store or the completion of the packet that is enabled, if there is one.
    #[tactic(auto, using(crate::proofs::WorkLeft::not_active))]
    fn active_left(&self, job: &Job, packet: u32) -> Option<Event>
        requires is { IsStateOf (plan job.now) self.now }
        requires packet { IsPacket (plan job.now) packet }
        ensures { MatchOption result (ActiveIdle (plan job.now) self.now packet)
            (λ event. IsLeft (plan job.now) self.now event) }
    {
        if !self.is_in(packet as usize, Phase::Active) {
            return None;
        }
        if let Some(event) = self.read_left(job, packet) {
            return Some(event);
        }
        if let Some(event) = self.store_left(job, packet) {
            return Some(event);
        }
        self.finish_left(job, packet)
    }

    /// A step of the packet that is enabled, or a push from its lane, if there is one.
    fn packet_left(&self, job: &Job, packet: u32) -> Option<Event>
        requires is { IsStateOf (plan job.now) self.now }
        requires packet { IsPacket (plan job.now) packet }
        ensures { MatchOption result (PacketIdle (plan job.now) self.now packet)
            (λ event. IsLeft (plan job.now) self.now event) }
    {
        if let Some(event) = self.wait_left(job, packet) {
            return Some(event);
        }
        if let Some(event) = self.active_left(job, packet) {
            return Some(event);
        }
        self.push_lane_left(job, packet)
    }

    /// A step of a packet that is enabled, or a push from a lane, if there is one.
    fn packets_left(&self, job: &Job) -> Option<Event>
        requires { IsStateOf (plan job.now) self.now }
        ensures { MatchOption result ((p : ℕ) → PacketIdle (plan job.now) self.now p)
            (λ event. IsLeft (plan job.now) self.now event) }
    {
        for packet in 0..packet_total(job) {
            if let Some(event) = self.packet_left(job, packet) {
                return Some(event);
            }
        }
        None
    }

    /// A push from an agent that is enabled, if there is one.
    fn push_agent_left(&self, job: &Job) -> Option<Event>
        requires { IsStateOf (plan job.now) self.now }
        ensures { MatchOption result ((a : ℕ) → NoneOf (plan job.now) self.now (PushAgent a))
            (λ event. IsLeft (plan job.now) self.now event) }
    {
        for agent in 0..agent_total(job) {
            if let Some(event) = self.agent_left(job, agent) {
                return Some(event);
            }
        }
        None
    }

    /// A step of work that is enabled, or `None` where there is none. It takes no memory.
    #[tactic(auto, using(crate::proofs::WorkLeft::no_work_left))]
    pub fn work_left(&self, job: &Job) -> Option<Event>
        requires { IsStateOf (plan job.now) self.now }
        ensures { MatchOption result (NoWorkLeft (plan job.now) (state_of (plan job.now) self.now))
            (λ event. IsLeft (plan job.now) self.now event) }
    {
        if let Some(event) = self.submit_left(job) {
            return Some(event);
        }
        if let Some(event) = self.launch_left(job) {
            return Some(event);
        }
        if let Some(event) = self.packets_left(job) {
            return Some(event);
        }
        self.push_agent_left(job)
    }
}
