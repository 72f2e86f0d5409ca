//! Submissions and launches.

ghost use Rattle.std.specs.Prelude.{◌≡◌, ◌≢◌, ◌+◌, ◌-◌, ◌<◌, ◌≤◌, ◌↔◌, ℕ, true, IsTrue, length, IfErr, OnOk, OnErr};
ghost use Rattle.std.specs.Prelude.{MatchOption};
ghost use Rattle.hq_job.specs.Plan.{plan};
ghost use Rattle.hq_model.specs.Job.{IsPacket, IsBarrier, Earlier, Frees, packet};
ghost use Rattle.hq_model.specs.Machine as machine;
ghost use Rattle.hq_model.specs.Machine.{MaySubmit, MayLaunch, is_launched};
ghost use Rattle.hq_model.specs.View.{phases_of};
ghost use Rattle.hq_model.specs.Machine.Event.{Submit, Launch};
ghost use Rattle.hq_machine.specs.Changes.{Moved};
ghost use Rattle.hq_machine.specs.Enabled.{IsFirstWaiting, IsFirstUnlaunched, IsClear, Refused};
ghost use Rattle.hq_machine.specs.View.{IsStateOf, state_of};

use crate::state::State;
use hq_events::{Phase, StepFault};
use hq_job::Job;
use std::ops::Range;

/// How many packets are looked at at once.
const BLOCK: usize = 64;

impl State {
    /// The first packet of the submission order that waits.
    fn first_waiting(&self, job: &Job) -> Option<usize>
        requires { IsStateOf (plan job.now) self.now }
        ensures { MatchOption result
            ((p : ℕ) → IsPacket (plan job.now) p → (state_of (plan job.now) self.now).phase p ≢ machine.Phase.Waiting)
            (λ p. IsFirstWaiting (plan job.now) (state_of (plan job.now) self.now) p) }
    {
        job.valid();
        for number in job.submissions() {
            let number = *number as usize;
            if self.is_in(number, Phase::Waiting) {
                return Some(number);
            }
        }
        None
    }

    /// Whether the packets that free the packet's slot are complete.
    fn has_slot(&self, job: &Job, number: usize) -> bool
        requires is { IsStateOf (plan job.now) self.now }
        requires number { IsPacket (plan job.now) number }
        ensures { IsTrue result
            ↔ ((e : ℕ) → Frees (plan job.now) e number
            → (state_of (plan job.now) self.now).phase e ≡ machine.Phase.Complete) }
    {
        job.valid();
        self.all_complete(job.freeing(number))
    }

    /// The packet that may be submitted, if one may.
    pub(crate) fn submittable(&self, job: &Job) -> Option<usize>
        requires { IsStateOf (plan job.now) self.now }
        ensures { MatchOption result ((p : ℕ) → MaySubmit (plan job.now) (state_of (plan job.now) self.now) p → ⊥)
            (λ p. MaySubmit (plan job.now) (state_of (plan job.now) self.now) p) }
    {
        job.valid();
        if !job.rings() {
            return None;
        }
        let number = self.first_waiting(job)?;
        if !self.has_slot(job, number) {
            return None;
        }
        Some(number)
    }

    /// Puts the next packet of the submission order in its queue.
    pub(crate) fn submit(&mut self, job: &Job) -> Result<(), StepFault>
        requires { IsStateOf (plan job.now) self.old }
        ensures ok { OnOk result (Moved (plan job.now) self.old Submit self.new) }
        ensures err { OnErr result (self.new ≡ self.old) }
        ensures fault { IfErr result (λ f. Refused (plan job.now) self.old Submit f) }
    {
        match self.submittable(job) {
            Some(number) => {
                self.set_phase(number, Phase::InQueue);
                Ok(())
            }
            None => Err(StepFault::NotEnabled),
        }
    }

    /// A number from the first of these on, all ahead of which are of launched packets: whole blocks are passed over.
    fn behind_launched(&self, queue: usize, numbers: Range<usize>) -> usize
        requires { (p : ℕ) → numbers.start ≤ p → p < numbers.end → p < length self.now.phases }
        ensures from { numbers.start ≤ result }
        ensures launched { (first : machine.Phase) → (e : ℕ) → numbers.start ≤ e → e < result
            → is_launched (phases_of first self.now.phases e) ≡ true }
    {
        let mut from = self.known_launched(queue, numbers.start);
        while numbers.end.saturating_sub(from) >= BLOCK {
            if !self.all_launched(from..from + BLOCK) {
                break;
            }
            from += BLOCK;
        }
        from
    }

    /// The queue's first packet that isn't launched.
    fn first_unlaunched(&self, job: &Job, queue: usize) -> Option<usize>
        requires is { IsStateOf (plan job.now) self.now }
        requires queue { queue < length job.now.queues }
        ensures { MatchOption result
            ((p : ℕ) → IsPacket (plan job.now) p → (packet (plan job.now) p).queue ≡ queue
            → is_launched ((state_of (plan job.now) self.now).phase p) ≡ true)
            (λ p. IsFirstUnlaunched (plan job.now) (state_of (plan job.now) self.now) queue p) }
    {
        let numbers = job.of_queue(queue);
        for number in self.behind_launched(queue, numbers.start..numbers.end)..numbers.end {
            if !self.is_launched(number) {
                return Some(number);
            }
        }
        None
    }

    /// Whether all barrier packets of these numbers are complete.
    fn barriers_complete(&self, job: &Job, numbers: Range<usize>) -> bool
        requires is { IsStateOf (plan job.now) self.now }
        requires end { numbers.end ≤ length (plan job.now).packets }
        ensures { IsTrue result
            ↔ ((e : ℕ) → numbers.start ≤ e → e < numbers.end → IsBarrier (plan job.now) e
            → (state_of (plan job.now) self.now).phase e ≡ machine.Phase.Complete) }
    {
        if self.all_complete(numbers.start..numbers.end) {
            return true;
        }
        for number in numbers.start..numbers.end {
            if !self.is_in(number, Phase::Complete) && job.is_barrier(number) {
                return false;
            }
        }
        true
    }

    /// Whether the packet has no barrier bit, or all before it in its queue are complete.
    fn bit_is_over(&self, job: &Job, number: usize) -> bool
        requires is { IsStateOf (plan job.now) self.now }
        requires number { IsPacket (plan job.now) number }
        ensures { IsTrue result
            ↔ (IsTrue (packet (plan job.now) number).bit → (e : ℕ) → Earlier (plan job.now) e number
            → (state_of (plan job.now) self.now).phase e ≡ machine.Phase.Complete) }
    {
        if !job.has_bit(number) {
            return true;
        }
        self.all_complete(job.earlier(number))
    }

    /// Whether all barrier packets before the packet in its queue are complete.
    fn barriers_over(&self, job: &Job, number: usize) -> bool
        requires is { IsStateOf (plan job.now) self.now }
        requires number { IsPacket (plan job.now) number }
        ensures { IsTrue result
            ↔ ((e : ℕ) → Earlier (plan job.now) e number → IsBarrier (plan job.now) e
            → (state_of (plan job.now) self.now).phase e ≡ machine.Phase.Complete) }
    {
        self.barriers_complete(job, job.earlier(number))
    }

    /// Whether the packet is in its queue, and nothing before it there keeps it from its launch.
    fn is_clear(&self, job: &Job, number: usize) -> bool
        requires is { IsStateOf (plan job.now) self.now }
        requires number { IsPacket (plan job.now) number }
        ensures { IsTrue result ↔ IsClear (plan job.now) (state_of (plan job.now) self.now) number }
    {
        self.is_in(number, Phase::InQueue)
            && self.bit_is_over(job, number)
            && (job.has_bit(number) || self.barriers_over(job, number))
    }

    /// The packet of the queue that may be launched, if one may.
    pub(crate) fn launchable(&self, job: &Job, queue: usize) -> Option<usize>
        requires { IsStateOf (plan job.now) self.now }
        ensures { MatchOption result ((p : ℕ) → MayLaunch (plan job.now) (state_of (plan job.now) self.now) queue p → ⊥)
            (λ p. MayLaunch (plan job.now) (state_of (plan job.now) self.now) queue p) }
    {
        job.valid();
        if queue >= job.queues().len() {
            return None;
        }
        let number = self.first_unlaunched(job, queue)?;
        if !self.is_clear(job, number) {
            return None;
        }
        Some(number)
    }

    /// Launches the queue's next packet.
    pub(crate) fn launch(&mut self, job: &Job, queue: u32) -> Result<(), StepFault>
        requires { IsStateOf (plan job.now) self.old }
        ensures ok { OnOk result (Moved (plan job.now) self.old (Launch queue) self.new) }
        ensures err { OnErr result (self.new ≡ self.old) }
        ensures fault { IfErr result (λ f. Refused (plan job.now) self.old (Launch queue) f) }
    {
        match self.launchable(job, queue as usize) {
            Some(number) => {
                self.set_phase(number, Phase::Launched);
                self.know_launched(queue as usize, job.earlier(number));
                Ok(())
            }
            None => Err(StepFault::NotEnabled),
        }
    }
}
