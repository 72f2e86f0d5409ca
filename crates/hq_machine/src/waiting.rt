//! Observations and entries.

ghost use Rattle.std.specs.Prelude.{◌≡◌, ◌<◌, ◌↔◌, Some, true, false, IsTrue, length, IfErr, OnOk, OnErr};
ghost use Rattle.std.specs.Prelude.{slice_index_or};
ghost use Rattle.hq_job.specs.Plan.{plan};
ghost use Rattle.hq_model.specs.Job.{IsPacket};
ghost use Rattle.hq_model.specs.Machine.{WaitOver};
ghost use Rattle.hq_model.specs.Machine.Event.{Observe, Enter};
ghost use Rattle.hq_machine.specs.Changes.{Acquired, Moved, with_observed};
ghost use Rattle.hq_machine.specs.Enabled.{Observes, MayObserve, MayEnter, Refused};
ghost use Rattle.hq_machine.specs.View.{IsStateOf, row_of, state_of};

use crate::state::State;
use hq_events::packets::dependency;
use hq_events::waiting::wait_is_over;
use hq_events::{Phase, StepFault};
use hq_job::Job;

impl State {
    /// Whether a packet has observed a slot.
    fn has_observed(&self, packet: usize, slot: usize) -> bool
        requires { packet < length self.now.observed }
        ensures { result ≡ slice_index_or (row_of self.now.observed packet) slot false }
    {
        match self.observed[packet].get(slot) {
            Some(observed) => *observed,
            None => false,
        }
    }

    /// Which slots a packet has observed.
    fn slots_of(&self, packet: usize) -> &[bool; 5]
        requires { packet < length self.now.observed }
        ensures { result.now ≡ row_of self.now.observed packet }
    {
        &self.observed[packet]
    }

    /// The packet has observed the slot.
    fn set_observed(&mut self, packet: usize, slot: usize)
        requires packet { packet < length self.old.observed }
        requires slot { slot < 5 }
        ensures { self.new ≡ with_observed self.old packet slot }
    {
        self.observed[packet][slot] = true;
    }

    /// Whether a barrier packet waits for the slot, and its signal is 0.
    fn observes(&self, job: &Job, packet: usize, slot: usize, signal: usize) -> bool
        requires is { IsStateOf (plan job.now) self.now }
        requires packet { IsPacket (plan job.now) packet }
        ensures { IsTrue result ↔ Observes (plan job.now) (state_of (plan job.now) self.now) packet slot signal }
    {
        job.is_barrier(packet)
            && self.is_in(packet, Phase::Launched)
            && self.is_zero(signal)
            && !self.has_observed(packet, slot)
    }

    /// Whether the packet may observe the slot.
    pub(crate) fn is_observable(&self, job: &Job, packet: usize, slot: usize) -> bool
        requires is { IsStateOf (plan job.now) self.now }
        requires packet { IsPacket (plan job.now) packet }
        ensures may { IsTrue result ↔ MayObserve (plan job.now) (state_of (plan job.now) self.now) packet slot }
        ensures few { IsTrue result → slot < 5 }
    {
        match dependency(job, packet, slot) {
            Some(signal) => self.observes(job, packet, slot, signal as usize),
            None => false,
        }
    }

    /// Whether the signal's value is 0.
    fn is_zero(&self, signal: usize) -> bool
        ensures { IsTrue result ↔ (slice_index_or self.now.signals signal 0 ≡ 0) }
    {
        match self.signals.get(signal) {
            Some(value) => *value == 0,
            None => true,
        }
    }

    /// A launched barrier packet sees the signal of one of its dependencies at 0.
    pub(crate) fn observe(&mut self, job: &Job, packet: u32, slot: u32) -> Result<(), StepFault>
        requires { IsStateOf (plan job.now) self.old }
        ensures ok { OnOk result (Moved (plan job.now) self.old (Observe packet slot) self.new) }
        ensures err { OnErr result (self.new ≡ self.old) }
        ensures fault { IfErr result (λ f. Refused (plan job.now) self.old (Observe packet slot) f) }
    {
        let number = packet as usize;
        if number >= job.packets().len() {
            return Err(StepFault::NotEnabled);
        }
        if !self.is_observable(job, number, slot as usize) {
            return Err(StepFault::NotEnabled);
        }
        self.set_observed(number, slot as usize);
        Ok(())
    }

    /// Whether the packet's wait is over.
    fn is_wait_over(&self, job: &Job, packet: usize) -> bool
        requires is { IsStateOf (plan job.now) self.now }
        requires packet { IsPacket (plan job.now) packet }
        ensures { IsTrue result ↔ WaitOver (plan job.now) (state_of (plan job.now) self.now) packet }
    {
        wait_is_over(job, packet, self.slots_of(packet))
    }

    /// Whether the packet may enter.
    pub fn may_enter(&self, job: &Job, packet: usize) -> bool
        requires { IsStateOf (plan job.now) self.now }
        ensures { IsTrue result ↔ MayEnter (plan job.now) (state_of (plan job.now) self.now) packet }
    {
        packet < job.packets().len()
            && self.is_in(packet, Phase::Launched)
            && self.is_wait_over(job, packet)
    }

    /// The packet's acquire fence.
    fn acquire(&mut self, job: &Job, packet: usize)
        requires is { IsStateOf (plan job.now) self.old }
        requires packet { IsPacket (plan job.now) packet }
        ensures { Acquired (plan job.now) self.old packet self.new }
    {
        job.valid();
        let numbers = job.queue_of(packet);
        let agent = job.agent_of(packet);
        let scope = job.acquire_of(packet);
        self.copies.acquire(numbers, agent, scope);
    }

    /// Ends the packet's wait: its acquire fence is applied, and it is active.
    pub(crate) fn enter(&mut self, job: &Job, packet: u32) -> Result<(), StepFault>
        requires { IsStateOf (plan job.now) self.old }
        ensures ok { OnOk result (Moved (plan job.now) self.old (Enter packet) self.new) }
        ensures err { OnErr result (self.new ≡ self.old) }
        ensures fault { IfErr result (λ f. Refused (plan job.now) self.old (Enter packet) f) }
    {
        job.valid();
        let number = packet as usize;
        if !self.may_enter(job, number) {
            return Err(StepFault::NotEnabled);
        }
        self.acquire(job, number);
        self.set_phase(number, Phase::Active);
        Ok(())
    }
}
