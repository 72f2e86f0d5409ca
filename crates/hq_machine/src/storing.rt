//! Stores.

ghost use Rattle.std.specs.Prelude.{◌≡◌, ◌<◌, ◌↔◌, ℕ, IsTrue, length, IfOk, IfErr, OnOk, OnErr, slice_index};
ghost use Rattle.std.specs.Prelude.{slice_index_or, unwrap_or, false, All, Some, map};
ghost use Rattle.hq_copies.specs.Copies.{stored};
ghost use Rattle.hq_footprint.specs.Tasks.{Suits, result_of};
ghost use Rattle.hq_job.specs.Plan.{plan};
ghost use Rattle.hq_model.specs.Job.{Job as JobOfNumbers, IsPacket, packet as packet_of};
ghost use Rattle.hq_model.specs.Machine.{bytes_read, bytes_stored};
ghost use Rattle.hq_model.specs.Machine.Event.{Store};
ghost use Rattle.hq_machine.specs.Changes.{NextStores, Moved, with_byte_stored, with_copies, with_stores};
ghost use Rattle.hq_machine.specs.Enabled.{MayStore, Refused};
ghost use Rattle.hq_machine.specs.View.{IsStateOf, row_of, stores_of, state_of};

use crate::copying::step_fault;
use crate::state::State;
use hq_events::packets::{read_count, task_of, write_at, write_count};
use hq_events::{Phase, StepFault, Stores};
use hq_footprint::{Task, evaluate};
use hq_job::Job;
use std::alloc::{AllocError, Global};

/// What a task makes of these bytes.
fn evaluated(alloc: Global, task: Task, reads: &[u8], count: usize) -> Result<Vec<u8>, AllocError>
    requires { Suits task (length reads.now) count }
    ensures bytes { IfOk result (λ bytes. bytes.items ≡ result_of task count reads.now) }
    ensures count { IfOk result (λ bytes. length bytes.items ≡ count) }
{
    let mut bytes = vec![in alloc; 0; count]?;
    evaluate(&task, reads, &mut bytes);
    Ok(bytes)
}

impl State {
    /// Where the state takes memory.
    pub(crate) fn allocator(&self) -> Global {
        self.alloc
    }

    /// Fills the slice with the bytes that a packet has read, in order, and with 0 where it has read none.
    fn copy_reads(&self, packet: usize, bytes: &mut [u8])
        requires { packet < length self.now.reads }
        ensures { (job : JobOfNumbers) → (i : ℕ) → i < length bytes.old
            → slice_index bytes.new i ≡ unwrap_or ((state_of job self.now).read packet i) 0 }
    {
        for (entry, slot) in bytes.iter_mut().enumerate() {
            *slot = self.read_byte(packet, entry).unwrap_or(0);
        }
    }

    /// The bytes that a packet has read, in order.
    fn bytes_read(&self, job: &Job, packet: usize) -> Result<Vec<u8>, AllocError>
        requires is { IsStateOf (plan job.now) self.now }
        requires packet { IsPacket (plan job.now) packet }
        ensures { IfOk result
            (λ bytes. bytes.items ≡ bytes_read (plan job.now) (state_of (plan job.now) self.now) packet) }
    {
        let mut bytes = vec![in self.allocator(); 0; read_count(job, packet)]?;
        self.copy_reads(packet, &mut bytes);
        Ok(bytes)
    }

    /// All bytes that a packet has read, where it read them at once; else none.
    fn whole_reads(&self, packet: usize) -> &[u8]
        requires { packet < length self.now.reads }
        ensures { 0 < length result.now → row_of self.now.reads packet ≡ map Some result.now }
    {
        self.reads[packet].whole()
    }

    /// The bytes that the packet's task makes of those that it has read.
    #[tactic(auto, using(crate::proofs::StoreMoves::length_listed))]
    pub(crate) fn task_bytes(&self, job: &Job, packet: usize) -> Result<Vec<u8>, AllocError>
        requires is { IsStateOf (plan job.now) self.now }
        requires packet { IsPacket (plan job.now) packet }
        ensures bytes { IfOk result
            (λ bytes. bytes.items ≡ bytes_stored (plan job.now) (state_of (plan job.now) self.now) packet) }
        ensures count { IfOk result (λ bytes. length bytes.items ≡ length (packet_of (plan job.now) packet).writes) }
    {
        let task = task_of(job, packet);
        let count = write_count(job, packet);
        let whole = self.whole_reads(packet);
        if !whole.is_empty() {
            return evaluated(self.allocator(), task, whole, count);
        }
        let reads = self.bytes_read(job, packet)?;
        evaluated(self.allocator(), task, &reads, count)
    }

    /// Whether a packet hasn't stored a byte.
    fn is_unstored(&self, packet: usize, entry: usize) -> bool
        requires { packet < length self.now.stores }
        ensures { IsTrue result ↔ (slice_index_or (stores_of self.now packet).stored entry false ≡ false) }
    {
        !self.stores[packet].is_stored(entry)
    }

    /// Whether the packet may store the byte.
    pub(crate) fn may_store(&self, job: &Job, packet: usize, entry: usize) -> bool
        requires { IsStateOf (plan job.now) self.now }
        ensures { IsTrue result ↔ MayStore (plan job.now) (state_of (plan job.now) self.now) packet entry }
    {
        packet < job.packets().len()
            && self.is_in(packet, Phase::Active)
            && self.has_read_all(job, packet)
            && entry < write_count(job, packet)
            && self.is_unstored(packet, entry)
    }

    /// Writes the byte through the packet's lane.
    fn write(&mut self, job: &Job, packet: usize, entry: usize, value: u8) -> Result<(), StepFault>
        requires is { IsStateOf (plan job.now) self.old }
        requires packet { IsPacket (plan job.now) packet }
        requires entry { entry < length (packet_of (plan job.now) packet).writes }
        ensures ok { OnOk result
            (self.new ≡ with_copies self.old
            (stored self.old.copies packet (slice_index (packet_of (plan job.now) packet).writes entry) value)) }
        ensures err { OnErr result (self.new ≡ self.old) }
        ensures memory { IfErr result (λ e. e ≡ StepFault.Memory) }
    {
        let byte = write_at(job, packet, entry);
        match self.copies.store(packet, byte, value) {
            Ok(()) => Ok(()),
            Err(_fault) => Err(StepFault::Memory),
        }
    }

    /// The packet has these stores.
    pub(crate) fn put_stores(&mut self, packet: usize, stores: Stores)
        requires { packet < length self.old.stores }
        ensures { self.new ≡ with_stores self.old packet stores self.old.copies }
    {
        self.stores[packet] = stores;
    }

    /// The packet has stored the byte.
    fn mark_stored(&mut self, packet: usize, entry: usize)
        requires packet { packet < length self.old.stores }
        requires there { entry < length (stores_of self.old packet).stored }
        requires fresh { slice_index_or (stores_of self.old packet).stored entry false ≡ false }
        ensures { self.new ≡ with_stores self.old packet (with_byte_stored (stores_of self.old packet) entry)
            self.old.copies }
    {
        self.stores[packet].set(entry);
    }

    /// The packet's stores after its first one.
    fn first_stores(&self, job: &Job, packet: usize, entry: usize) -> Result<Stores, AllocError>
        requires is { IsStateOf (plan job.now) self.now }
        requires may { MayStore (plan job.now) (state_of (plan job.now) self.now) packet entry }
        requires none { length (stores_of self.now packet).stored ≡ 0 }
        ensures next { IfOk result (λ s. NextStores (plan job.now) self.now packet entry s) }
        ensures room { IfOk result (λ s. entry < length s.bytes) }
    {
        let bytes = self.task_bytes(job, packet)?;
        let mut stores = Stores::open(self.allocator(), bytes)?;
        stores.set(entry);
        Ok(stores)
    }

    /// A byte that the packet stores, where it has stores.
    fn byte_to_store(&self, packet: usize, entry: usize) -> u8
        requires packet { packet < length self.now.stores }
        requires entry { entry < length (stores_of self.now packet).bytes }
        ensures { result ≡ slice_index (stores_of self.now packet).bytes entry }
    {
        self.stores[packet].byte(entry)
    }

    /// Whether a packet has no stores yet.
    fn has_no_stores(&self, packet: usize) -> bool
        requires { packet < length self.now.stores }
        ensures { IsTrue result ↔ (length (stores_of self.now packet).stored ≡ 0) }
    {
        self.stores[packet].is_empty()
    }

    /// The packet's first store.
    fn store_first(&mut self, job: &Job, packet: usize, entry: usize) -> Result<(), StepFault>
        requires is { IsStateOf (plan job.now) self.old }
        requires may { MayStore (plan job.now) (state_of (plan job.now) self.old) packet entry }
        requires none { length (stores_of self.old packet).stored ≡ 0 }
        ensures ok { OnOk result (Moved (plan job.now) self.old (Store packet entry) self.new) }
        ensures err { OnErr result (self.new ≡ self.old) }
        ensures memory { IfErr result (λ e. e ≡ StepFault.Memory) }
    {
        job.valid();
        let stores = self.first_stores(job, packet, entry)?;
        let value = stores.byte(entry);
        self.write(job, packet, entry, value)?;
        self.put_stores(packet, stores);
        Ok(())
    }

    /// A further store of the packet.
    fn store_again(&mut self, job: &Job, packet: usize, entry: usize) -> Result<(), StepFault>
        requires is { IsStateOf (plan job.now) self.old }
        requires may { MayStore (plan job.now) (state_of (plan job.now) self.old) packet entry }
        requires some { 0 < length (stores_of self.old packet).stored }
        ensures ok { OnOk result (Moved (plan job.now) self.old (Store packet entry) self.new) }
        ensures err { OnErr result (self.new ≡ self.old) }
        ensures memory { IfErr result (λ e. e ≡ StepFault.Memory) }
    {
        job.valid();
        let _task = task_of(job, packet);
        let value = self.byte_to_store(packet, entry);
        self.write(job, packet, entry, value)?;
        self.mark_stored(packet, entry);
        Ok(())
    }

    /// Stores one byte.
    pub(crate) fn store(&mut self, job: &Job, packet: u32, entry: u32) -> Result<(), StepFault>
        requires { IsStateOf (plan job.now) self.old }
        ensures ok { OnOk result (Moved (plan job.now) self.old (Store packet entry) self.new) }
        ensures err { OnErr result (self.new ≡ self.old) }
        ensures fault { IfErr result (λ f. Refused (plan job.now) self.old (Store packet entry) f) }
    {
        let number = packet as usize;
        let place = entry as usize;
        if !self.may_store(job, number, place) {
            return Err(StepFault::NotEnabled);
        }
        if self.has_no_stores(number) {
            return self.store_first(job, number, place);
        }
        self.store_again(job, number, place)
    }
}
