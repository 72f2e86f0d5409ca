//! All reads of a packet in order, and all its stores.

ghost use Rattle.std.specs.Prelude.{◌≡◌, ◌<◌, ◌↔◌, ℕ, None, IsTrue, length, IfOk, IfErr, OnOk, OnErr};
ghost use Rattle.std.specs.Prelude.{slice_index_or, false, map, All, ◌+◌, ◌++◌, ◌≤◌};
ghost use Rattle.hq_job.specs.Plan.{plan};
ghost use Rattle.std.specs.List.{flat_map};
ghost use Rattle.hq_footprint.specs.Bytes.{bytes_of};
ghost use Rattle.hq_model.specs.Job.{Job as JobOfNumbers, IsPacket, packet as packet_of};
ghost use Rattle.hq_model.specs.Journal.Coarse.{Fetch, Deliver};
ghost use Rattle.hq_model.specs.Machine.{bytes_stored, lane_sees, listed};
ghost use Rattle.hq_machine.specs.Changes.{Applied, with_reads};
ghost use Rattle.hq_machine.specs.Enabled.{NotApplied, Possible};
ghost use Rattle.hq_machine.specs.Entries.{MayFetch, FetchedUpTo, MayDeliver};
ghost use Rattle.hq_machine.specs.View.{IsStateOf, row_of, state_of, stores_of};

use crate::state::State;
use hq_events::packets::{first_write, read_count, task_of, write_count};
use hq_events::{Phase, Reads, StepFault, Stores};
use hq_footprint::Range as ByteRange;
use hq_job::Job;
use std::alloc::AllocError;

/// Puts a part behind bytes. Where there are none, it is taken as it is.
fn put_behind(bytes: &mut Vec<u8>, part: Vec<u8>) -> Result<(), AllocError>
    ensures { OnOk result (bytes.new.items ≡ bytes.old.items ++ part.items) }
{
    if bytes.is_empty() {
        *bytes = part;
        return Ok(());
    }
    bytes.extend_from_slice(&part)
}

impl State {
    /// Whether a packet has read nothing.
    fn has_read_none(&self, packet: usize) -> bool
        requires { packet < length self.now.reads }
        ensures { IsTrue result ↔ ((i : ℕ) → slice_index_or (row_of self.now.reads packet) i None ≡ None) }
    {
        self.reads_done(packet) == 0
    }

    /// Whether a packet that reads something may read all its entries.
    fn may_fetch(&self, job: &Job, packet: usize) -> bool
        requires is { IsStateOf (plan job.now) self.now }
        requires packet { IsPacket (plan job.now) packet }
        requires some { 0 < length (packet_of (plan job.now) packet).reads }
        ensures { IsTrue result ↔ MayFetch (plan job.now) (state_of (plan job.now) self.now) packet }
    {
        let _packets = job.packets();
        self.is_in(packet, Phase::Active) && self.has_read_none(packet)
    }

    /// The bytes of a range that are seen through a packet's lane.
    ///
    /// # Errors
    ///
    /// `AllocError` where there is no memory.
    pub fn seen_range(&self, packet: usize, range: ByteRange) -> Result<Vec<u8>, AllocError>
        requires packet { packet < length self.now.copies.lanes }
        requires range { 0 < range.len → range.at + range.len ≤ length self.now.copies.memory }
        ensures { (job : JobOfNumbers) → IsStateOf job self.now
            → IfOk result
            (λ bytes. bytes.items ≡ listed range.len
            (λ i. lane_sees job (state_of job self.now) packet (range.at + i))) }
    {
        if range.len == 0 {
            return Ok(Vec::new(self.allocator()));
        }
        let mut bytes = vec![in self.allocator(); 0; range.len as usize]?;
        self.seen_into(packet, range.at as usize, &mut bytes);
        Ok(bytes)
    }

    /// The bytes of ranges, laid end to end, that are seen through a packet's lane.
    fn bytes_of_ranges(&self, packet: usize, ranges: &[ByteRange]) -> Result<Vec<u8>, AllocError>
        requires packet { packet < length self.now.copies.lanes }
        requires ranges { All (λ b. b < length self.now.copies.memory) (flat_map bytes_of ranges.now) }
        ensures { (job : JobOfNumbers) → IsStateOf job self.now
            → IfOk result
            (λ bytes. bytes.items ≡ map (lane_sees job (state_of job self.now) packet) (flat_map bytes_of ranges.now)) }
    {
        let mut bytes = Vec::new(self.allocator());
        for range in ranges {
            let part = self.seen_range(packet, *range)?;
            put_behind(&mut bytes, part)?;
        }
        Ok(bytes)
    }

    /// The bytes that a packet is to read, in order.
    fn bytes_to_read(&self, job: &Job, packet: usize) -> Result<Vec<u8>, AllocError>
        requires is { IsStateOf (plan job.now) self.now }
        requires packet { IsPacket (plan job.now) packet }
        ensures { IfOk result
            (λ bytes. bytes.items ≡ map (lane_sees (plan job.now) (state_of (plan job.now) self.now) packet)
            (packet_of (plan job.now) packet).reads) }
    {
        job.valid();
        self.bytes_of_ranges(packet, &job.packet(packet).bytes.reads)
    }

    /// What the packet reads, in order.
    fn read_in_order(&self, job: &Job, packet: usize) -> Result<Reads, AllocError>
        requires is { IsStateOf (plan job.now) self.now }
        requires some { 0 < length (packet_of (plan job.now) packet).reads }
        requires may { MayFetch (plan job.now) (state_of (plan job.now) self.now) packet }
        ensures { IfOk result
            (λ row. FetchedUpTo (plan job.now) self.now packet (length (packet_of (plan job.now) packet).reads) row) }
    {
        let bytes = self.bytes_to_read(job, packet)?;
        Ok(Reads::all(self.allocator(), bytes))
    }

    /// The packet has read this row.
    fn put_reads(&mut self, packet: usize, row: Reads)
        requires { packet < length self.old.reads }
        ensures { self.new ≡ with_reads self.old packet row }
    {
        self.reads[packet] = row;
    }

    /// All reads of a packet that reads something.
    fn fetch_entries(&mut self, job: &Job, packet: usize) -> Result<(), StepFault>
        requires is { IsStateOf (plan job.now) self.old }
        requires packet { IsPacket (plan job.now) packet }
        requires some { 0 < length (packet_of (plan job.now) packet).reads }
        ensures ok { OnOk result (Applied (plan job.now) self.old (Fetch packet) self.new) }
        ensures err { OnErr result (self.new ≡ self.old) }
        ensures fault { IfErr result (λ f. NotApplied (plan job.now) self.old (Fetch packet) f) }
    {
        if !self.may_fetch(job, packet) {
            return Err(StepFault::NotEnabled);
        }
        let row = self.read_in_order(job, packet)?;
        self.put_reads(packet, row);
        Ok(())
    }

    /// All reads of a packet, in order: whole or not at all.
    pub(crate) fn fetch(&mut self, job: &Job, packet: u32) -> Result<(), StepFault>
        requires { IsStateOf (plan job.now) self.old }
        ensures ok { OnOk result (Applied (plan job.now) self.old (Fetch packet) self.new) }
        ensures err { OnErr result (self.new ≡ self.old) }
        ensures fault { IfErr result (λ f. NotApplied (plan job.now) self.old (Fetch packet) f) }
    {
        let number = packet as usize;
        if number >= job.packets().len() {
            return Err(StepFault::NotEnabled);
        }
        if read_count(job, number) == 0 {
            return Ok(());
        }
        self.fetch_entries(job, number)
    }

    /// Whether a packet has stored nothing.
    fn has_stored_none(&self, packet: usize) -> bool
        requires { packet < length self.now.stores }
        ensures { IsTrue result ↔ ((i : ℕ) → slice_index_or (stores_of self.now packet).stored i false ≡ false) }
    {
        self.stores_done(packet) == 0
    }

    /// Whether a packet that writes something may store all its bytes.
    fn may_deliver(&self, job: &Job, packet: usize) -> bool
        requires is { IsStateOf (plan job.now) self.now }
        requires packet { IsPacket (plan job.now) packet }
        requires some { 0 < length (packet_of (plan job.now) packet).writes }
        ensures { IsTrue result ↔ MayDeliver (plan job.now) (state_of (plan job.now) self.now) packet }
    {
        let _packets = job.packets();
        self.is_in(packet, Phase::Active)
            && self.has_read_all(job, packet)
            && self.has_stored_none(packet)
    }

    /// All stores of a packet that writes something, where these are its bytes.
    fn deliver_bytes(&mut self, job: &Job, packet: usize, bytes: Vec<u8>) -> Result<(), StepFault>
        requires is { IsStateOf (plan job.now) self.old }
        requires packet { IsPacket (plan job.now) packet }
        requires some { 0 < length (packet_of (plan job.now) packet).writes }
        requires may { MayDeliver (plan job.now) (state_of (plan job.now) self.old) packet }
        requires bytes { bytes.items ≡ bytes_stored (plan job.now) (state_of (plan job.now) self.old) packet }
        requires count { length bytes.items ≡ length (packet_of (plan job.now) packet).writes }
        ensures ok { OnOk result (Applied (plan job.now) self.old (Deliver packet) self.new) }
        ensures err { OnErr result (self.new ≡ self.old) }
        ensures memory { IfErr result (λ e. e ≡ StepFault.Memory) }
    {
        job.valid();
        let first = first_write(job, packet);
        let stores = Stores::whole(self.allocator(), bytes);
        match self.copies.store_run(packet, first, stores.bytes()) {
            Ok(()) => {
                self.put_stores(packet, stores);
                Ok(())
            }
            Err(_fault) => Err(StepFault::Memory),
        }
    }

    /// All stores of a packet that writes something.
    fn deliver_entries(&mut self, job: &Job, packet: usize) -> Result<(), StepFault>
        requires is { IsStateOf (plan job.now) self.old }
        requires packet { IsPacket (plan job.now) packet }
        requires some { 0 < length (packet_of (plan job.now) packet).writes }
        ensures ok { OnOk result (Applied (plan job.now) self.old (Deliver packet) self.new) }
        ensures err { OnErr result (self.new ≡ self.old) }
        ensures fault { IfErr result (λ f. NotApplied (plan job.now) self.old (Deliver packet) f) }
    {
        job.valid();
        if !self.may_deliver(job, packet) {
            return Err(StepFault::NotEnabled);
        }
        let bytes = self.task_bytes(job, packet)?;
        self.deliver_bytes(job, packet, bytes)?;
        Ok(())
    }

    /// All stores of a packet that writes something, of bytes that are handed in.
    fn deliver_given(&mut self, job: &Job, packet: usize, bytes: &[u8]) -> Result<(), StepFault>
        requires is { IsStateOf (plan job.now) self.old }
        requires packet { IsPacket (plan job.now) packet }
        requires some { 0 < length (packet_of (plan job.now) packet).writes }
        requires bytes { MayDeliver (plan job.now) (state_of (plan job.now) self.old) packet
            → bytes.now ≡ bytes_stored (plan job.now) (state_of (plan job.now) self.old) packet }
        ensures ok { OnOk result (Applied (plan job.now) self.old (Deliver packet) self.new) }
        ensures err { OnErr result (self.new ≡ self.old) }
        ensures fault { IfErr result (λ f. NotApplied (plan job.now) self.old (Deliver packet) f) }
    {
        job.valid();
        if !self.may_deliver(job, packet) {
            return Err(StepFault::NotEnabled);
        }
        let _task = task_of(job, packet);
        let bytes = Vec::from_slice(self.allocator(), bytes)?;
        self.deliver_bytes(job, packet, bytes)?;
        Ok(())
    }

    /// All stores of a packet, in order: whole or not at all.
    pub(crate) fn deliver_all(&mut self, job: &Job, packet: u32) -> Result<(), StepFault>
        requires { IsStateOf (plan job.now) self.old }
        ensures ok { OnOk result (Applied (plan job.now) self.old (Deliver packet) self.new) }
        ensures err { OnErr result (self.new ≡ self.old) }
        ensures fault { IfErr result (λ f. NotApplied (plan job.now) self.old (Deliver packet) f) }
    {
        let number = packet as usize;
        if number >= job.packets().len() {
            return Err(StepFault::NotEnabled);
        }
        if write_count(job, number) == 0 {
            return Ok(());
        }
        self.deliver_entries(job, number)
    }

    /// All stores of a packet, in order, of these bytes, which a kernel that the machine doesn't know has made:
    /// whole or not at all. Where the event can happen, they have to be the bytes that the packet's task makes.
    ///
    /// # Errors
    ///
    /// `NotEnabled` exactly where the event can't happen in this state, and `Memory`; the state is then as it was.
    pub fn deliver(&mut self, job: &Job, packet: u32, bytes: &[u8]) -> Result<(), StepFault>
        requires is { IsStateOf (plan job.now) self.old }
        requires bytes { Possible (plan job.now) self.old (Deliver packet)
            → bytes.now ≡ bytes_stored (plan job.now) (state_of (plan job.now) self.old) packet }
        ensures ok { OnOk result (Applied (plan job.now) self.old (Deliver packet) self.new) }
        ensures err { OnErr result (self.new ≡ self.old) }
        ensures fault { IfErr result (λ f. NotApplied (plan job.now) self.old (Deliver packet) f) }
    {
        job.valid();
        let number = packet as usize;
        if number >= job.packets().len() {
            return Err(StepFault::NotEnabled);
        }
        if write_count(job, number) == 0 {
            return Ok(());
        }
        self.deliver_given(job, number, bytes)
    }
}
