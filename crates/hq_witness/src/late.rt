//! A run in which a byte is taken early and written back late: of a conflict whose packets are ordered, but not by
//! fences.

ghost use Rattle.std.specs.Prelude.{◌≤◌, IfOk, OnOk};
ghost use Rattle.hq_job.specs.Plan.{plan};
ghost use Rattle.hq_model.specs.Machine.{IsByte};
ghost use Rattle.hq_witness.specs.Traces.{IsRecording};

use crate::origin::Origin;
use crate::packets::{acquire_of, agent_of, queue_of, release_of};
use crate::recording::{Recording, let_go};
use crate::target::Target;
use hq_events::packets::{agent_total, packet_total};
use hq_finding::Kind;
use hq_job::Job;
use hq_machine::Event;
use hq_order::Before;
use hq_packet::Scope;
use std::alloc::{AllocError, Global};

/// How well a packet goes ahead of the target's second one, the least first: what doesn't write the first one's
/// byte back goes before what does, and then what lets go of more copies that the second one may see.
fn rank(job: &Job, before: &Before, target: &Target, packet: u32) -> u32 {
    let late = if writes_back(job, before, target, packet) {
        3
    } else {
        0
    };
    late + kept(job, target, packet)
}

/// Whether a packet's release fence asks for a push of what the target's first packet wrote.
fn writes_back(job: &Job, before: &Before, target: &Target, packet: u32) -> bool {
    if !before.holds(target.p as usize, packet as usize) {
        return false;
    }
    match release_of(job, packet) {
        Scope::None => false,
        Scope::Agent => queue_of(job, packet) == queue_of(job, target.p),
        Scope::System => agent_of(job, packet) == agent_of(job, target.p),
    }
}

/// How much of what the target's second packet may see a packet's acquire fence keeps.
fn kept(job: &Job, target: &Target, packet: u32) -> u32
    ensures { result ≤ 2 }
{
    if agent_of(job, packet) != agent_of(job, target.r) {
        return 2;
    }
    match acquire_of(job, packet) {
        Scope::None => 2,
        Scope::Agent => 1,
        Scope::System => 0,
    }
}

impl Recording {
    /// Gives the target's second packet and its agent copies of the byte, where they have none, and what is below
    /// isn't what the first packet wrote.
    fn keep_old(&mut self, job: &Job, target: &Target) -> Result<(), AllocError>
        requires { IsRecording (plan job.now) self.old }
        ensures { OnOk result (IsRecording (plan job.now) self.new) }
    {
        let written = Origin::StoredBy { packet: target.p };
        let byte = target.byte;
        let agent = agent_of(job, target.r);
        if self.memory_origin() != written {
            self.take(job, Event::FillAgent { agent, byte })?;
        }
        if self.agent_origin(job, agent) != written {
            let packet = target.r;
            self.take(job, Event::FillLane { packet, byte })?;
        }
        Ok(())
    }

    /// Writes back what a packet's release fence asks for of one byte.
    fn release(&mut self, job: &Job, packet: u32, byte: u32) -> Result<(), AllocError>
        requires { IsRecording (plan job.now) self.old }
        ensures { OnOk result (IsRecording (plan job.now) self.new) }
    {
        let scope = release_of(job, packet);
        if scope == Scope::None {
            return Ok(());
        }
        self.push_lanes(job, queue_of(job, packet), byte)?;
        if scope == Scope::System {
            let agent = agent_of(job, packet);
            self.take(job, Event::PushAgent { agent, byte })?;
        }
        Ok(())
    }

    /// Writes a byte of all lanes of a queue's packets back to their agent.
    fn push_lanes(&mut self, job: &Job, queue: u16, byte: u32) -> Result<(), AllocError>
        requires { IsRecording (plan job.now) self.old }
        ensures { OnOk result (IsRecording (plan job.now) self.new) }
    {
        for packet in 0..packet_total(job) {
            if queue_of(job, packet) == queue {
                self.take(job, Event::PushLane { packet, byte })?;
            }
        }
        Ok(())
    }

    /// Of two writes, writes what the target's second packet wrote down to memory, and what the first one wrote
    /// over it.
    fn overwrite(&mut self, job: &Job, target: &Target, packet: u32) -> Result<(), AllocError>
        requires { IsRecording (plan job.now) self.old }
        ensures { OnOk result (IsRecording (plan job.now) self.new) }
    {
        if packet != target.r || target.kind != Kind::WriteWrite {
            return Ok(());
        }
        self.push_down(job, target.r, target.byte)?;
        self.push_down(job, target.p, target.byte)
    }

    /// Takes a packet that has entered to its completion, with no push of the target's byte that isn't asked for.
    fn go_on_lazily(&mut self, job: &Job, target: &Target, packet: u32) -> Result<(), AllocError>
        requires { IsRecording (plan job.now) self.old }
        ensures { OnOk result (IsRecording (plan job.now) self.new) }
    {
        self.keep_old(job, target)?;
        self.read_all(job, packet)?;
        self.store_all(job, packet)?;
        self.push_all_but(job, packet, Some(target.byte))?;
        self.overwrite(job, target, packet)?;
        self.release(job, packet, target.byte)?;
        self.take(job, Event::Finish { packet })?;
        self.advance(job)?;
        self.keep_old(job, target)
    }

    /// The packet to go next of those before the target's second one, of those that can enter.
    fn next_ahead(
        &mut self,
        job: &Job,
        before: &Before,
        target: &Target,
    ) -> Result<Option<u32>, AllocError>
        requires { IsRecording (plan job.now) self.old }
        ensures { OnOk result (IsRecording (plan job.now) self.new) }
    {
        let mut best = None;
        let mut least = u32::MAX;
        for packet in 0..packet_total(job) {
            if before.holds(packet as usize, target.r as usize) {
                self.observe(job, packet)?;
                let rank = rank(job, before, target, packet);
                if rank < least && self.can_enter(job, packet) {
                    best = Some(packet);
                    least = rank;
                }
            }
        }
        Ok(best)
    }

    /// Takes what is before the target's second packet, one by one and lazily, and then that packet.
    fn reach_second(
        &mut self,
        job: &Job,
        before: &Before,
        target: &Target,
    ) -> Result<(), AllocError>
        requires { IsRecording (plan job.now) self.old }
        ensures { OnOk result (IsRecording (plan job.now) self.new) }
    {
        for _ in 0..packet_total(job) {
            if self.enter(job, target.r)? {
                return self.go_on_lazily(job, target, target.r);
            }
            let Some(packet) = self.next_ahead(job, before, target)? else {
                return Ok(());
            };
            self.take(job, Event::Enter { packet })?;
            self.go_on_lazily(job, target, packet)?;
        }
        Ok(())
    }

    /// Writes a byte of all lanes and agents down to memory, and lets go of what agents have of it.
    fn settle(&mut self, job: &Job, byte: u32) -> Result<(), AllocError>
        requires { IsRecording (plan job.now) self.old }
        ensures { OnOk result (IsRecording (plan job.now) self.new) }
    {
        for packet in 0..packet_total(job) {
            self.take(job, Event::PushLane { packet, byte })?;
        }
        for agent in 0..agent_total(job) {
            self.take(job, Event::PushAgent { agent, byte })?;
            self.take(job, Event::DropAgent { agent, byte })?;
        }
        Ok(())
    }

    /// Takes all packets, the target's as late as may be.
    fn take_late(
        &mut self,
        job: &Job,
        before: &Before,
        order: &[u16],
        target: &Target,
    ) -> Result<(), AllocError>
        requires { IsRecording (plan job.now) self.old }
        ensures { OnOk result (IsRecording (plan job.now) self.new) }
    {
        self.advance(job)?;
        self.take_each_apart(job, before, order, target.p, target.p)?;
        self.keep_old(job, target)?;
        if self.enter(job, target.p)? {
            self.go_on_lazily(job, target, target.p)?;
        }
        self.reach_second(job, before, target)?;
        self.settle(job, target.byte)?;
        self.take_each(job, order)
    }
}

/// The run in which the target's second packet keeps what it can see of the byte as long as may be, and what the
/// first packet wrote there is written back as late as may be; all others are taken one by one.
pub fn late(
    alloc: Global,
    job: &Job,
    before: &Before,
    order: &[u16],
    target: &Target,
) -> Result<Recording, AllocError>
    requires { IsByte (plan job.now) target.now.byte }
    ensures { IfOk result (λ r. IsRecording (plan job.now) r) }
{
    let mut run = Recording::start(alloc, job, target.byte)?;
    match run.take_late(job, before, order, target) {
        Ok(()) => Ok(run),
        Err(error) => {
            let_go(run);
            Err(error)
        }
    }
}
