//! Where one byte comes from, along a run.

ghost use Rattle.std.specs.Prelude.{◌≡◌, ◌<◌, ◌==◌, ◌↔◌, IfOk, IfSome, IsTrue, OnOk, if◌then◌else◌, length};
ghost use Rattle.std.specs.Prelude.{slice_index, slice_index_or};
ghost use Rattle.hq_job.specs.Plan.{plan};
ghost use Rattle.hq_events.specs.Events.{single_of};
ghost use Rattle.hq_machine.specs.View.{IsStateOf, state_of};
ghost use Rattle.hq_model.specs.Job.{IsPacket, agent_of, packet as packet_of};
ghost use Rattle.hq_model.specs.Machine.{IsByte, start};
ghost use Rattle.hq_model.specs.Machine.Event.{Read};
ghost use Rattle.hq_model.specs.Origins.{Origins, all_start, agent_origin, lane_origin};
ghost use Rattle.hq_witness.specs.declared.origin.Origin.{Origin as OriginOf};
ghost use Rattle.hq_witness.specs.declared.origin.Origin.TheVariants.{Start, StoredBy};
ghost use Rattle.hq_witness.specs.Origins.{named};
ghost use Rattle.hq_witness.specs.Traces.{Comes, Follows, IsTraceOf, Tells, TellsCopies, noted};

use crate::origin::Origin;
use crate::table::Table;
use hq_events::packets::{read_at, write_at};
use hq_job::Job;
use hq_machine::{Event, State};
use std::alloc::{AllocError, Global};

/// A read of the byte: by which packet, as which entry, and where what it read came from.
#[derive(Clone, Copy, Debug)]
pub struct Sighting {
    pub packet: u32,
    pub entry: u32,
    pub origin: Origin,
}

/// The origins of one byte: of what memory has, of each agent's and each lane's copy, and of each read of it.
#[derive(Drop)]
pub struct Trace {
    pub byte: u32,
    pub memory: Origin,
    pub agents: Table,
    pub lanes: Table,
    pub reads: Vec<Sighting>,
}

impl Trace {
    /// The origins of a byte as a job starts.
    pub fn start(alloc: Global, job: &Job, byte: u32) -> Result<Trace, AllocError>
        requires { IsByte (plan job.now) byte }
        ensures { IfOk result (λ t. Tells (plan job.now) (start (plan job.now)) all_start t) }
    {
        Ok(Trace {
            byte,
            memory: Origin::Start,
            agents: Table::new(alloc, job.agents())?,
            lanes: Table::new(alloc, job.packets().len())?,
            reads: Vec::new(alloc),
        })
    }

    /// The origin of what an agent sees there.
    pub fn seen_by_agent(&self, job: &Job, state: &State, agent: usize) -> Origin
        requires is { IsStateOf (plan job.now) state.now }
        requires fits { IsTraceOf (plan job.now) self.now }
        requires agent { agent < (plan job.now).agents }
        ensures { (o : Origins) → TellsCopies (plan job.now) o self.now
            → agent_origin (state_of (plan job.now) state.now) o agent self.now.byte ≡ named result }
    {
        job.valid();
        if state.agent_holds(agent, self.byte as usize) {
            self.agents.get(agent)
        } else {
            self.memory
        }
    }

    /// The origin of what is seen there through a packet's lane.
    fn seen_by_lane(&self, job: &Job, state: &State, packet: usize) -> Origin
        requires is { IsStateOf (plan job.now) state.now }
        requires fits { IsTraceOf (plan job.now) self.now }
        requires packet { IsPacket (plan job.now) packet }
        ensures { (o : Origins) → TellsCopies (plan job.now) o self.now
            → lane_origin (plan job.now) (state_of (plan job.now) state.now) o packet self.now.byte ≡ named result }
    {
        job.valid();
        if state.lane_holds(packet, self.byte as usize) {
            self.lanes.get(packet)
        } else {
            self.seen_by_agent(job, state, job.agent_of(packet))
        }
    }

    /// Whether a packet reads the byte as this entry.
    fn is_read_as(&self, job: &Job, packet: usize, entry: usize) -> bool
        requires packet { IsPacket (plan job.now) packet }
        requires entry { entry < length (packet_of (plan job.now) packet).reads }
        ensures { IsTrue result ↔ (slice_index (packet_of (plan job.now) packet).reads entry ≡ self.now.byte) }
    {
        match read_at(job, packet, entry) {
            Some(byte) => byte == self.byte as usize,
            None => false,
        }
    }

    /// Notes a read, which has led to this state.
    fn note_read(
        &mut self,
        job: &Job,
        state: &State,
        packet: u32,
        entry: u32,
    ) -> Result<(), AllocError>
        requires is { IsStateOf (plan job.now) state.now }
        requires fits { IsTraceOf (plan job.now) self.old }
        requires packet { IsPacket (plan job.now) packet }
        requires entry { entry < length (packet_of (plan job.now) packet).reads }
        ensures { OnOk result
            (Follows (plan job.now) self.old (Read packet entry) (state_of (plan job.now) state.now) self.new) }
    {
        if !self.is_read_as(job, packet as usize, entry as usize) {
            return Ok(());
        }
        let origin = self.seen_by_lane(job, state, packet as usize);
        self.reads.push(Sighting {
            packet,
            entry,
            origin,
        })?;
        Ok(())
    }

    /// Notes a store.
    fn note_store(&mut self, job: &Job, packet: u32, entry: u32)
        requires fits { IsTraceOf (plan job.now) self.old }
        requires packet { IsPacket (plan job.now) packet }
        requires entry { entry < length (packet_of (plan job.now) packet).writes }
        ensures { self.new ≡ record self.old {
          lanes = noted self.old
              (slice_index (packet_of (plan job.now) packet).writes entry) self.old.lanes packet (StoredBy packet);
        } }
    {
        if write_at(job, packet as usize, entry as usize) == self.byte as usize {
            self.lanes.put(packet as usize, Origin::StoredBy { packet });
        }
    }

    /// Notes that a lane's copy was written back to its agent.
    fn note_lane_push(&mut self, job: &Job, packet: u32, byte: u32)
        requires fits { IsTraceOf (plan job.now) self.old }
        requires packet { IsPacket (plan job.now) packet }
        ensures { self.new ≡ record self.old {
          agents = noted self.old byte self.old.agents
              (agent_of (plan job.now) packet) (slice_index_or self.old.lanes packet Start);
        } }
    {
        job.valid();
        if byte == self.byte {
            let origin = self.lanes.get(packet as usize);
            self.agents.put(job.agent_of(packet as usize), origin);
        }
    }

    /// Notes that an agent's copy was written back to memory.
    fn note_agent_push(&mut self, agent: u32, byte: u32)
        requires { agent < length self.old.agents }
        ensures { self.new ≡ record self.old
            { memory = if byte == self.old.byte then slice_index_or self.old.agents agent Start else self.old.memory } }
    {
        if byte == self.byte {
            self.memory = self.agents.get(agent as usize);
        }
    }

    /// Notes that a lane took a copy of what its agent sees, which has led to this state.
    fn note_lane_fill(&mut self, job: &Job, state: &State, packet: u32, byte: u32)
        requires is { IsStateOf (plan job.now) state.now }
        requires fits { IsTraceOf (plan job.now) self.old }
        requires packet { IsPacket (plan job.now) packet }
        ensures { (x : OriginOf) × (self.new ≡ record self.old { lanes = noted self.old byte self.old.lanes packet x })
            × ((o : Origins) → TellsCopies (plan job.now) o self.old
            → agent_origin (state_of (plan job.now) state.now) o
            (agent_of (plan job.now) packet) self.old.byte ≡ named x) }
    {
        job.valid();
        let origin = self.seen_by_agent(job, state, job.agent_of(packet as usize));
        if byte == self.byte {
            self.lanes.put(packet as usize, origin);
        }
    }

    /// Notes that an agent took a copy of what memory has.
    fn note_agent_fill(&mut self, agent: u32, byte: u32)
        requires { agent < length self.old.agents }
        ensures { self.new ≡ record self.old { agents = noted self.old byte self.old.agents agent self.old.memory } }
    {
        if byte == self.byte {
            self.agents.put(agent as usize, self.memory);
        }
    }

    /// Notes what a single step did that has led to this state.
    pub fn follow(&mut self, job: &Job, state: &State, event: Event) -> Result<(), AllocError>
        requires is { IsStateOf (plan job.now) state.now }
        requires fits { IsTraceOf (plan job.now) self.old }
        requires comes { IfSome (single_of event) (λ e. Comes (plan job.now) e (state_of (plan job.now) state.now)) }
        ensures { OnOk result
            (IfSome (single_of event)
            (λ e. Follows (plan job.now) self.old e (state_of (plan job.now) state.now) self.new)) }
    {
        match event {
            Event::Read { packet, entry } => return self.note_read(job, state, packet, entry),
            Event::Store { packet, entry } => self.note_store(job, packet, entry),
            Event::PushLane { packet, byte } => self.note_lane_push(job, packet, byte),
            Event::PushAgent { agent, byte } => self.note_agent_push(agent, byte),
            Event::FillLane { packet, byte } => self.note_lane_fill(job, state, packet, byte),
            Event::FillAgent { agent, byte } => self.note_agent_fill(agent, byte),
            _ => {}
        }
        Ok(())
    }
}
