//! Reads, stores and completions.

ghost use Rattle.std.specs.Prelude.{◌≡◌, ◌<◌, ◌↔◌, Some, None, IsTrue, IfSome, length, count_by, is_some, IfErr};
ghost use Rattle.std.specs.Prelude.{OnOk, OnErr, MatchOption, slice_index_or};
ghost use Rattle.hq_job.specs.Plan.{plan};
ghost use Rattle.hq_model.specs.Job.{IsPacket, packet as packet_of};
ghost use Rattle.hq_model.specs.Machine.{AllRead, AllStored, Released};
ghost use Rattle.hq_model.specs.Machine.{Event};
ghost use Rattle.hq_machine.specs.Changes.{Moved, with_decrement};
ghost use Rattle.hq_machine.specs.Enabled.{IsWorked, MayFinish, Refused};
ghost use Rattle.hq_machine.specs.View.{IsStateOf, row_of, stores_of, state_of};

use crate::state::State;
use hq_events::packets::{done_of, read_at, read_count, write_count};
use hq_events::{Phase, StepFault};
use hq_job::Job;
use std::alloc::AllocError;

impl State {
    /// How many entries a packet has read.
    pub(crate) fn reads_done(&self, packet: usize) -> usize
        requires { packet < length self.now.reads }
        ensures { result ≡ count_by is_some (row_of self.now.reads packet) }
    {
        self.reads[packet].count()
    }

    /// How many bytes a packet has stored.
    pub(crate) fn stores_done(&self, packet: usize) -> usize
        requires { packet < length self.now.stores }
        ensures { result ≡ count_by (λ b. b) (stores_of self.now packet).stored }
    {
        self.stores[packet].count()
    }

    /// Whether a packet has read all its entries.
    pub(crate) fn has_read_all(&self, job: &Job, packet: usize) -> bool
        requires is { IsStateOf (plan job.now) self.now }
        requires packet { IsPacket (plan job.now) packet }
        ensures { IsTrue result ↔ AllRead (plan job.now) (state_of (plan job.now) self.now) packet }
    {
        self.reads_done(packet) == read_count(job, packet)
    }

    /// Whether a packet has stored all its bytes.
    pub(crate) fn has_stored_all(&self, job: &Job, packet: usize) -> bool
        requires is { IsStateOf (plan job.now) self.now }
        requires packet { IsPacket (plan job.now) packet }
        ensures { IsTrue result ↔ AllStored (plan job.now) (state_of (plan job.now) self.now) packet }
    {
        self.stores_done(packet) == write_count(job, packet)
    }

    /// Whether nothing is left to write back for the packet's release fence.
    fn is_released(&self, job: &Job, packet: usize) -> bool
        requires is { IsStateOf (plan job.now) self.now }
        requires packet { IsPacket (plan job.now) packet }
        ensures { IsTrue result
            ↔ Released (plan job.now) (state_of (plan job.now) self.now) packet
            (packet_of (plan job.now) packet).release }
    {
        job.valid();
        let numbers = job.queue_of(packet);
        let agent = job.agent_of(packet);
        let scope = job.release_of(packet);
        self.copies.is_released(numbers, agent, scope)
    }

    /// Whether the packet is at its completion, but for its release fence.
    pub(crate) fn is_worked(&self, job: &Job, packet: usize) -> bool
        requires { IsStateOf (plan job.now) self.now }
        ensures { IsTrue result ↔ IsWorked (plan job.now) (state_of (plan job.now) self.now) packet }
    {
        packet < job.packets().len()
            && self.is_in(packet, Phase::Active)
            && self.has_read_all(job, packet)
            && self.has_stored_all(job, packet)
    }

    /// Whether the packet may complete.
    pub(crate) fn may_finish(&self, job: &Job, packet: usize) -> bool
        requires { IsStateOf (plan job.now) self.now }
        ensures { IsTrue result ↔ MayFinish (plan job.now) (state_of (plan job.now) self.now) packet }
    {
        self.is_worked(job, packet) && self.is_released(job, packet)
    }

    /// The signal, if there is one, goes down by 1.
    pub(crate) fn decrement(&mut self, done: Option<u16>)
        requires { IfSome done (λ s. s < length self.old.signals) }
        ensures { self.new ≡ with_decrement self.old done }
    {
        if let Some(signal) = done {
            let value = self.signals[signal as usize];
            self.signals[signal as usize] = value.saturating_sub(1);
        }
    }

    /// Completes the packet.
    pub(crate) fn finish(&mut self, job: &Job, packet: u32) -> Result<(), StepFault>
        requires { IsStateOf (plan job.now) self.old }
        ensures ok { OnOk result (Moved (plan job.now) self.old (Event.Finish packet) self.new) }
        ensures err { OnErr result (self.new ≡ self.old) }
        ensures fault { IfErr result (λ f. Refused (plan job.now) self.old (Event.Finish packet) f) }
    {
        let number = packet as usize;
        if !self.may_finish(job, number) {
            return Err(StepFault::NotEnabled);
        }
        self.decrement(done_of(job, number));
        self.set_phase(number, Phase::Complete);
        Ok(())
    }
}

impl State {
    ghost use Rattle.hq_model.specs.Machine.Event.{Read};
    ghost use Rattle.hq_events.specs.Packets.{IsEntry};
    ghost use Rattle.hq_events.specs.Rows.{IsRow};
    ghost use Rattle.hq_machine.specs.Changes.{ReadTaken};
    ghost use Rattle.hq_machine.specs.Enabled.{MayRead, ReadOpen};

    /// Whether a packet hasn't read an entry.
    fn is_unread(&self, job: &Job, packet: usize, entry: usize) -> bool
        requires is { IsStateOf (plan job.now) self.now }
        requires packet { IsPacket (plan job.now) packet }
        ensures { IsTrue result ↔ ((state_of (plan job.now) self.now).read packet entry ≡ None) }
    {
        let _packets = job.packets();
        match self.read_byte(packet, entry) {
            Some(_byte) => false,
            None => true,
        }
    }

    /// Whether the packet reads, and hasn't read the entry.
    pub(crate) fn is_read_open(&self, job: &Job, packet: usize, entry: usize) -> bool
        requires { IsStateOf (plan job.now) self.now }
        ensures { IsTrue result ↔ ReadOpen (plan job.now) (state_of (plan job.now) self.now) packet entry }
    {
        packet < job.packets().len()
            && self.is_in(packet, Phase::Active)
            && self.is_unread(job, packet, entry)
    }

    /// The byte that the packet may read as an entry, if it may.
    fn readable(&self, job: &Job, packet: usize, entry: usize) -> Option<usize>
        requires { IsStateOf (plan job.now) self.now }
        ensures { MatchOption result (MayRead (plan job.now) (state_of (plan job.now) self.now) packet entry → ⊥)
            (λ b. MayRead (plan job.now) (state_of (plan job.now) self.now) packet entry
            × IsEntry (plan job.now) packet entry b) }
    {
        if !self.is_read_open(job, packet, entry) {
            return None;
        }
        read_at(job, packet, entry)
    }

    /// The packet has read this byte as an entry.
    fn take_read(
        &mut self,
        packet: usize,
        entry: usize,
        total: usize,
        byte: u8,
    ) -> Result<(), AllocError>
        requires packet { packet < length self.old.reads }
        requires row { IsRow total (row_of self.old.reads packet) }
        requires entry { entry < total }
        requires fresh { slice_index_or (row_of self.old.reads packet) entry None ≡ None }
        ensures ok { OnOk result (ReadTaken self.old packet entry total byte self.new) }
        ensures err { OnErr result (self.new ≡ self.old) }
    {
        self.reads[packet].take(entry, total, byte)?;
        Ok(())
    }

    /// Reads one entry.
    pub(crate) fn read(&mut self, job: &Job, packet: u32, entry: u32) -> Result<(), StepFault>
        requires { IsStateOf (plan job.now) self.old }
        ensures ok { OnOk result (Moved (plan job.now) self.old (Read packet entry) self.new) }
        ensures err { OnErr result (self.new ≡ self.old) }
        ensures fault { IfErr result (λ f. Refused (plan job.now) self.old (Read packet entry) f) }
    {
        let number = packet as usize;
        let place = entry as usize;
        match self.readable(job, number, place) {
            None => Err(StepFault::NotEnabled),
            Some(byte) => {
                let value = self.seen(number, byte);
                self.take_read(number, place, read_count(job, number), value)?;
                Ok(())
            }
        }
    }
}
