//! Packets taken from their entry to their completion, every byte seen at once by all.

ghost use Rattle.std.specs.Prelude.{◌≡◌, ◌≢◌, ◌↔◌, IfOk, IsTrue, OnOk, false};
ghost use Rattle.hq_job.specs.Plan.{plan};
ghost use Rattle.hq_machine.specs.Enabled.{Enabled};
ghost use Rattle.hq_model.specs.Machine.Event.{Enter};
ghost use Rattle.hq_model.specs.Machine.{IsByte};
ghost use Rattle.hq_model.specs.Order as order;
ghost use Rattle.hq_witness.specs.Traces.{EndsWith, IsRecording};

use crate::packets::{agent_of, written};
use crate::recording::{Recording, let_go};
use hq_events::packets::{agent_total, packet_total, queue_total};
use hq_job::Job;
use hq_machine::Event;
use hq_order::Before;
use std::alloc::{AllocError, Global};

/// No packet has more slots, read entries and written bytes than these.
const MOST_SLOTS: u32 = 5;

const MOST_READS: u32 = 131_072;

const MOST_WRITES: u32 = 65_536;

impl Recording {
    /// Submits what may be submitted.
    fn submit_all(&mut self, job: &Job) -> Result<(), AllocError>
        requires { IsRecording (plan job.now) self.old }
        ensures { OnOk result (IsRecording (plan job.now) self.new) }
    {
        for _ in 0..packet_total(job) {
            if !self.take(job, Event::Submit)? {
                return Ok(());
            }
        }
        Ok(())
    }

    /// Launches what may be launched in a queue.
    fn launch_all(&mut self, job: &Job, queue: u32) -> Result<(), AllocError>
        requires { IsRecording (plan job.now) self.old }
        ensures { OnOk result (IsRecording (plan job.now) self.new) }
    {
        for _ in 0..packet_total(job) {
            if !self.take(job, Event::Launch { queue })? {
                return Ok(());
            }
        }
        Ok(())
    }

    /// Submits and launches what may be.
    pub fn advance(&mut self, job: &Job) -> Result<(), AllocError>
        requires { IsRecording (plan job.now) self.old }
        ensures { OnOk result (IsRecording (plan job.now) self.new) }
    {
        self.submit_all(job)?;
        for queue in 0..queue_total(job) {
            self.launch_all(job, queue)?;
        }
        Ok(())
    }

    /// Observes what a packet may observe.
    pub fn observe(&mut self, job: &Job, packet: u32) -> Result<(), AllocError>
        requires { IsRecording (plan job.now) self.old }
        ensures { OnOk result (IsRecording (plan job.now) self.new) }
    {
        for slot in 0..MOST_SLOTS {
            self.take(job, Event::Observe { packet, slot })?;
        }
        Ok(())
    }

    /// Lets a packet enter, where it can, and answers whether it could.
    pub fn enter(&mut self, job: &Job, packet: u32) -> Result<bool, AllocError>
        requires { IsRecording (plan job.now) self.old }
        ensures recording { OnOk result (IsRecording (plan job.now) self.new) }
        ensures entered { IfOk result (λ yes. IsTrue yes → EndsWith self.new.journal (Event.Enter packet)) }
        ensures refused { IfOk result
            (λ yes. yes ≡ false → ¬ Enabled (plan job.now) self.new.state (Enter packet)) }
    {
        self.observe(job, packet)?;
        self.take(job, Event::Enter { packet })
    }

    /// Reads all entries of a packet.
    pub fn read_all(&mut self, job: &Job, packet: u32) -> Result<(), AllocError>
        requires { IsRecording (plan job.now) self.old }
        ensures { OnOk result (IsRecording (plan job.now) self.new) }
    {
        for entry in 0..MOST_READS {
            if !self.take(job, Event::Read { packet, entry })? {
                return Ok(());
            }
        }
        Ok(())
    }

    /// Stores all bytes of a packet.
    pub fn store_all(&mut self, job: &Job, packet: u32) -> Result<(), AllocError>
        requires { IsRecording (plan job.now) self.old }
        ensures { OnOk result (IsRecording (plan job.now) self.new) }
    {
        for entry in 0..MOST_WRITES {
            if !self.take(job, Event::Store { packet, entry })? {
                return Ok(());
            }
        }
        Ok(())
    }

    /// Writes an agent's byte down to memory. Of several agents none keeps a copy then.
    pub fn push_agent(&mut self, job: &Job, agent: u32, byte: u32) -> Result<(), AllocError>
        requires { IsRecording (plan job.now) self.old }
        ensures { OnOk result (IsRecording (plan job.now) self.new) }
    {
        self.take(job, Event::PushAgent { agent, byte })?;
        if agent_total(job) > 1 {
            self.take(job, Event::DropAgent { agent, byte })?;
        }
        Ok(())
    }

    /// Writes a lane's byte down to memory.
    pub fn push_down(&mut self, job: &Job, packet: u32, byte: u32) -> Result<(), AllocError>
        requires { IsRecording (plan job.now) self.old }
        ensures { OnOk result (IsRecording (plan job.now) self.new) }
    {
        self.take(job, Event::PushLane { packet, byte })?;
        self.push_agent(job, agent_of(job, packet), byte)
    }

    /// Writes all that a packet wrote down to memory, but for one byte.
    pub fn push_all_but(
        &mut self,
        job: &Job,
        packet: u32,
        kept: Option<u32>,
    ) -> Result<(), AllocError>
        requires { IsRecording (plan job.now) self.old }
        ensures { OnOk result (IsRecording (plan job.now) self.new) }
    {
        for byte in written(job, packet) {
            if kept != Some(byte) {
                self.push_down(job, packet, byte)?;
            }
        }
        Ok(())
    }

    /// Takes a packet from its entry to its completion, and all that it writes down to memory, where it can enter.
    pub fn take_eagerly(&mut self, job: &Job, packet: u32) -> Result<(), AllocError>
        requires { IsRecording (plan job.now) self.old }
        ensures { OnOk result (IsRecording (plan job.now) self.new) }
    {
        if !self.enter(job, packet)? {
            return Ok(());
        }
        self.read_all(job, packet)?;
        self.store_all(job, packet)?;
        self.push_all_but(job, packet, None)?;
        self.take(job, Event::Finish { packet })?;
        self.advance(job)
    }

    /// Takes packets eagerly, in their order.
    pub fn take_each(&mut self, job: &Job, packets: &[u16]) -> Result<(), AllocError>
        requires { IsRecording (plan job.now) self.old }
        ensures { OnOk result (IsRecording (plan job.now) self.new) }
    {
        for packet in packets {
            self.take_eagerly(job, *packet as u32)?;
        }
        Ok(())
    }

    /// Takes eagerly those packets that a packet isn't before, itself aside.
    pub fn take_each_apart(
        &mut self,
        job: &Job,
        before: &Before,
        order: &[u16],
        packet: u32,
        other: u32,
    ) -> Result<(), AllocError>
        requires { IsRecording (plan job.now) self.old }
        ensures { OnOk result (IsRecording (plan job.now) self.new) }
    {
        for number in order {
            if is_apart(before, packet, *number) && is_apart(before, other, *number) {
                self.take_eagerly(job, *number as u32)?;
            }
        }
        Ok(())
    }

    /// Takes the packets of an order list one by one.
    fn take_in_order(&mut self, job: &Job, order: &[u16]) -> Result<(), AllocError>
        requires { IsRecording (plan job.now) self.old }
        ensures { OnOk result (IsRecording (plan job.now) self.new) }
    {
        self.advance(job)?;
        self.take_each(job, order)
    }

    /// Takes two packets in this order, as early as may be and one behind the other, and all others one by one.
    fn take_with_first(
        &mut self,
        job: &Job,
        before: &Before,
        order: &[u16],
        first: u32,
        second: u32,
    ) -> Result<(), AllocError>
        requires { IsRecording (plan job.now) self.old }
        ensures { OnOk result (IsRecording (plan job.now) self.new) }
    {
        self.advance(job)?;
        self.take_each_apart(job, before, order, first, second)?;
        self.take_eagerly(job, first)?;
        self.take_eagerly(job, second)?;
        self.take_each(job, order)
    }
}

/// Whether a packet is neither the other nor before it.
fn is_apart(before: &Before, packet: u32, number: u16) -> bool
    ensures { IsTrue result ↔ ((packet ≢ number) × ¬ order.Before before.now packet number) }
{
    packet != number as u32 && !before.holds(packet as usize, number as usize)
}

/// The run that takes the packets of an order list one by one.
pub fn in_order(alloc: Global, job: &Job, order: &[u16], byte: u32) -> Result<Recording, AllocError>
    requires { IsByte (plan job.now) byte }
    ensures { IfOk result (λ r. IsRecording (plan job.now) r) }
{
    let mut run = Recording::start(alloc, job, byte)?;
    match run.take_in_order(job, order) {
        Ok(()) => Ok(run),
        Err(error) => {
            let_go(run);
            Err(error)
        }
    }
}

/// The run that takes two packets in this order, as early as may be and one behind the other, and all others one by
/// one.
pub fn with_first(
    alloc: Global,
    job: &Job,
    before: &Before,
    order: &[u16],
    first: u32,
    second: u32,
    byte: u32,
) -> Result<Recording, AllocError>
    requires { IsByte (plan job.now) byte }
    ensures { IfOk result (λ r. IsRecording (plan job.now) r) }
{
    let mut run = Recording::start(alloc, job, byte)?;
    match run.take_with_first(job, before, order, first, second) {
        Ok(()) => Ok(run),
        Err(error) => {
            let_go(run);
            Err(error)
        }
    }
}
