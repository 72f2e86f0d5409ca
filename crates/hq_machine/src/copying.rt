//! Pushes, fills and drops.

ghost use Rattle.std.specs.Prelude.{◌≡◌, ◌<◌, ◌↔◌, IsTrue, IfErr, OnOk, OnErr};
ghost use Rattle.hq_job.specs.Plan.{plan};
ghost use Rattle.hq_model.specs.Job.{IsPacket};
ghost use Rattle.hq_model.specs.Machine.{IsByte};
ghost use Rattle.hq_model.specs.Machine.Event.{PushLane, PushAgent, FillLane, FillAgent, DropLane, DropAgent};
ghost use Rattle.hq_machine.specs.Changes.{Moved, fault_of};
ghost use Rattle.hq_machine.specs.Enabled.{Refused};
ghost use Rattle.hq_machine.specs.View.{IsStateOf};

use crate::state::State;
use hq_copies::CopiesFault;
use hq_events::StepFault;
use hq_job::Job;

/// What a fault of the copies is for a step.
pub(crate) fn step_fault(fault: CopiesFault) -> StepFault
    ensures { result ≡ fault_of fault }
{
    match fault {
        CopiesFault::Memory => StepFault::Memory,
        CopiesFault::NotDirty => StepFault::NotEnabled,
        CopiesFault::NotClean => StepFault::NotEnabled,
        CopiesFault::Present => StepFault::NotEnabled,
    }
}

impl State {
    /// Whether there is such a packet and such a byte.
    fn has_lane_byte(&self, job: &Job, packet: usize, byte: usize) -> bool
        requires { IsStateOf (plan job.now) self.now }
        ensures { IsTrue result ↔ (IsPacket (plan job.now) packet × IsByte (plan job.now) byte) }
    {
        packet < job.packets().len() && byte < self.copies.memory().len()
    }

    /// Whether there is such an agent and such a byte.
    fn has_agent_byte(&self, job: &Job, agent: usize, byte: usize) -> bool
        requires { IsStateOf (plan job.now) self.now }
        ensures { IsTrue result ↔ ((agent < (plan job.now).agents) × IsByte (plan job.now) byte) }
    {
        agent < job.agents() && byte < self.copies.memory().len()
    }

    /// Writes a lane's dirty byte back to its agent.
    pub(crate) fn push_lane(&mut self, job: &Job, packet: u32, byte: u32) -> Result<(), StepFault>
        requires { IsStateOf (plan job.now) self.old }
        ensures ok { OnOk result (Moved (plan job.now) self.old (PushLane packet byte) self.new) }
        ensures err { OnErr result (self.new ≡ self.old) }
        ensures fault { IfErr result (λ f. Refused (plan job.now) self.old (PushLane packet byte) f) }
    {
        job.valid();
        if !self.has_lane_byte(job, packet as usize, byte as usize) {
            return Err(StepFault::NotEnabled);
        }
        match self.copies.push_lane(packet as usize, byte as usize) {
            Ok(()) => Ok(()),
            Err(fault) => Err(step_fault(fault)),
        }
    }

    /// Writes an agent's dirty byte back to memory.
    pub(crate) fn push_agent(&mut self, job: &Job, agent: u32, byte: u32) -> Result<(), StepFault>
        requires { IsStateOf (plan job.now) self.old }
        ensures ok { OnOk result (Moved (plan job.now) self.old (PushAgent agent byte) self.new) }
        ensures err { OnErr result (self.new ≡ self.old) }
        ensures fault { IfErr result (λ f. Refused (plan job.now) self.old (PushAgent agent byte) f) }
    {
        job.valid();
        if !self.has_agent_byte(job, agent as usize, byte as usize) {
            return Err(StepFault::NotEnabled);
        }
        match self.copies.push_agent(agent as usize, byte as usize) {
            Ok(()) => Ok(()),
            Err(fault) => Err(step_fault(fault)),
        }
    }

    /// Gives a lane a clean copy of a byte that it doesn't hold.
    pub(crate) fn fill_lane(&mut self, job: &Job, packet: u32, byte: u32) -> Result<(), StepFault>
        requires { IsStateOf (plan job.now) self.old }
        ensures ok { OnOk result (Moved (plan job.now) self.old (FillLane packet byte) self.new) }
        ensures err { OnErr result (self.new ≡ self.old) }
        ensures fault { IfErr result (λ f. Refused (plan job.now) self.old (FillLane packet byte) f) }
    {
        job.valid();
        if !self.has_lane_byte(job, packet as usize, byte as usize) {
            return Err(StepFault::NotEnabled);
        }
        match self.copies.fill_lane(packet as usize, byte as usize) {
            Ok(()) => Ok(()),
            Err(fault) => Err(step_fault(fault)),
        }
    }

    /// Gives an agent a clean copy of a byte that it doesn't hold.
    pub(crate) fn fill_agent(&mut self, job: &Job, agent: u32, byte: u32) -> Result<(), StepFault>
        requires { IsStateOf (plan job.now) self.old }
        ensures ok { OnOk result (Moved (plan job.now) self.old (FillAgent agent byte) self.new) }
        ensures err { OnErr result (self.new ≡ self.old) }
        ensures fault { IfErr result (λ f. Refused (plan job.now) self.old (FillAgent agent byte) f) }
    {
        job.valid();
        if !self.has_agent_byte(job, agent as usize, byte as usize) {
            return Err(StepFault::NotEnabled);
        }
        match self.copies.fill_agent(agent as usize, byte as usize) {
            Ok(()) => Ok(()),
            Err(fault) => Err(step_fault(fault)),
        }
    }

    /// Lets a lane's clean copy of a byte go.
    pub(crate) fn drop_lane(&mut self, job: &Job, packet: u32, byte: u32) -> Result<(), StepFault>
        requires { IsStateOf (plan job.now) self.old }
        ensures ok { OnOk result (Moved (plan job.now) self.old (DropLane packet byte) self.new) }
        ensures err { OnErr result (self.new ≡ self.old) }
        ensures fault { IfErr result (λ f. Refused (plan job.now) self.old (DropLane packet byte) f) }
    {
        job.valid();
        if !self.has_lane_byte(job, packet as usize, byte as usize) {
            return Err(StepFault::NotEnabled);
        }
        match self.copies.drop_lane(packet as usize, byte as usize) {
            Ok(()) => Ok(()),
            Err(fault) => Err(step_fault(fault)),
        }
    }

    /// Lets an agent's clean copy of a byte go.
    pub(crate) fn drop_agent(&mut self, job: &Job, agent: u32, byte: u32) -> Result<(), StepFault>
        requires { IsStateOf (plan job.now) self.old }
        ensures ok { OnOk result (Moved (plan job.now) self.old (DropAgent agent byte) self.new) }
        ensures err { OnErr result (self.new ≡ self.old) }
        ensures fault { IfErr result (λ f. Refused (plan job.now) self.old (DropAgent agent byte) f) }
    {
        job.valid();
        if !self.has_agent_byte(job, agent as usize, byte as usize) {
            return Err(StepFault::NotEnabled);
        }
        match self.copies.drop_agent(agent as usize, byte as usize) {
            Ok(()) => Ok(()),
            Err(fault) => Err(step_fault(fault)),
        }
    }
}
