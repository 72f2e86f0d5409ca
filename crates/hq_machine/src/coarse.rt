//! Completions with the pushes that they wait for, and the rest.

ghost use Rattle.std.specs.Prelude.{◌≡◌, ◌≤◌, length, IfOk, IfErr, OnOk, OnErr};
ghost use Rattle.hq_job.specs.Plan.{plan};
ghost use Rattle.hq_machine.specs.Pushes.{AreCopiesOf, Within, Swept, WrittenBack, WroteBack};
ghost use Rattle.hq_machine.specs.Pushes.Holders.{Lanes, Agents};
ghost use Rattle.hq_machine.specs.Changes.{Applied, with_copies};
ghost use Rattle.hq_machine.specs.Enabled.{NotApplied};
ghost use Rattle.hq_machine.specs.View.{IsStateOf};
ghost use Rattle.hq_model.specs.Job.{IsPacket};
ghost use Rattle.hq_model.specs.Journal.Coarse.{Complete, Rest};

use crate::state::State;
use hq_copies::{Copies, CopiesFault};
use hq_events::packets::done_of;
use hq_events::{Phase, StepFault};
use hq_job::Job;
use hq_packet::Scope;
use std::ops::Range;

/// Writes all dirty bytes of all lanes back, queue by queue.
fn push_lanes(job: &Job, copies: &mut Copies) -> Result<(), CopiesFault>
    requires { AreCopiesOf (plan job.now) copies.old }
    ensures ok { OnOk result (Swept Lanes copies.old 0 (length (plan job.now).packets) copies.new) }
    ensures memory { IfErr result (λ e. e ≡ CopiesFault.Memory) }
{
    let mut lane = 0;
    'queues: while lane < job.packets().len() {
        let end = job.queue_of(lane).end;
        copies.release(lane..end, job.agent_of(lane), Scope::Agent)?;
        lane = end;
    }
    Ok(())
}

/// Writes all dirty bytes of so many agents back, one agent after another.
fn push_agents(copies: &mut Copies, agents: usize) -> Result<(), CopiesFault>
    requires agents { agents ≤ length copies.old.agents }
    requires within { Within copies.old }
    ensures ok { OnOk result (Swept Agents copies.old 0 agents copies.new) }
    ensures memory { IfErr result (λ e. e ≡ CopiesFault.Memory) }
{
    for agent in 0..agents {
        copies.release(0..0, agent, Scope::System)?;
    }
    Ok(())
}

impl State {
    /// Copies of which all dirty bytes of all lanes, and then of all agents, are written back.
    fn written_back(&self, job: &Job) -> Result<Copies, CopiesFault>
        requires { IsStateOf (plan job.now) self.now }
        ensures ok { IfOk result
            (λ c. WrittenBack self.now.copies 0 (length (plan job.now).packets) 0 (plan job.now).agents c) }
        ensures memory { IfErr result (λ e. e ≡ CopiesFault.Memory) }
    {
        job.valid();
        let mut copies = self.copies.copy(self.alloc)?;
        push_lanes(job, &mut copies)?;
        push_agents(&mut copies, job.agents())?;
        Ok(copies)
    }

    /// Takes these copies in place of its own.
    fn set_copies(&mut self, copies: Copies)
        ensures { self.new ≡ with_copies self.old copies }
    {
        self.copies = copies;
    }

    /// Writes back what the packet's release fence waits for, of these lanes.
    fn write_back(
        &mut self,
        job: &Job,
        packet: usize,
        numbers: Range<usize>,
    ) -> Result<(), StepFault>
        requires is { IsStateOf (plan job.now) self.old }
        requires packet { IsPacket (plan job.now) packet }
        requires rising { numbers.start ≤ numbers.end }
        requires numbers { numbers.end ≤ length (plan job.now).packets }
        ensures ok { OnOk result (WroteBack (plan job.now) self.old packet numbers.start numbers.end self.new) }
        ensures err { OnErr result (self.new ≡ self.old) }
        ensures memory { IfErr result (λ e. e ≡ StepFault.Memory) }
    {
        job.valid();
        let agent = job.agent_of(packet);
        let scope = job.release_of(packet);
        match self.copies.release(numbers, agent, scope) {
            Ok(()) => Ok(()),
            Err(_fault) => Err(StepFault::Memory),
        }
    }

    /// The pushes that a packet's release fence asks for, and its completion: whole or not at all.
    #[tactic(auto, using(crate::proofs::Releases::within_of))]
    pub(crate) fn complete(&mut self, job: &Job, packet: u32) -> Result<(), StepFault>
        requires { IsStateOf (plan job.now) self.old }
        ensures ok { OnOk result (Applied (plan job.now) self.old (Complete packet) self.new) }
        ensures err { OnErr result (self.new ≡ self.old) }
        ensures fault { IfErr result (λ f. NotApplied (plan job.now) self.old (Complete packet) f) }
    {
        job.valid();
        let number = packet as usize;
        if !self.is_worked(job, number) {
            return Err(StepFault::NotEnabled);
        }
        let done = done_of(job, number);
        let numbers = job.queue_of(number);
        self.write_back(job, number, numbers)?;
        self.decrement(done);
        self.set_phase(number, Phase::Complete);
        Ok(())
    }

    /// All dirty bytes of all lanes are pushed, then those of all agents: whole or not at all.
    #[tactic(auto, using(crate::proofs::Releases::within_of))]
    pub(crate) fn rest(&mut self, job: &Job) -> Result<(), StepFault>
        requires { IsStateOf (plan job.now) self.old }
        ensures ok { OnOk result (Applied (plan job.now) self.old Rest self.new) }
        ensures err { OnErr result (self.new ≡ self.old) }
        ensures fault { IfErr result (λ f. NotApplied (plan job.now) self.old Rest f) }
    {
        job.valid();
        match self.written_back(job) {
            Ok(copies) => {
                self.set_copies(copies);
                Ok(())
            }
            Err(_fault) => Err(StepFault::Memory),
        }
    }
}
