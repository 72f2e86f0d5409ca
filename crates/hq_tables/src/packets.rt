//! Packets taken in.

ghost use Rattle.std.specs.Prelude.{◌≡◌, ◌+◌, ◌^◌, ◌<◌, ◌≤◌, ◌↔◌, ◌⊎◌, ◌==◌, ◌∷◌, false, map, count_by};
ghost use Rattle.std.specs.Prelude.{slice_index, All, AllPairs, Any, IfOk, IsNone, IsTrue};
ghost use Rattle.hq_footprint.specs.Bytes.{Fits, IsOutside, ranges_of};
ghost use Rattle.hq_lines.specs.Meaning as says;
ghost use Rattle.hq_packet.specs.Parts.{completion_of};
ghost use Rattle.hq_signals.specs.Table.{IsOpen, changed_at, noted, with_wait};
ghost use Rattle.hq_tables.specs.Adds.{Adds};
ghost use Rattle.hq_tables.specs.Fits.{TablesFit};
ghost use Rattle.hq_tables.specs.PacketTests.{Checks, Calls};
ghost use Rattle.hq_tables.specs.Tables.{IsUndeclared, IsUnknownService, NamesUndeclared, IsNullOr, HasManyItems};
ghost use Rattle.hq_tables.specs.Tables.{NoneApplies, kernel_of, block_of, deps_of, items_of, work_of, placed_of};
ghost use Rattle.hq_tables.specs.Tables.{slots_of, completed, awaited, noted_by, signal_number};
ghost use Rattle.hq_tables.specs.Tables.{place_tests, name_tests, work_tests};
ghost use Rattle.hq_tables.specs.TablesView.{tables_of};

use crate::addresses::in_bytes;
use crate::fault::Reason;
use crate::finding::kernel_at;
use crate::limits::ITEMS;
use crate::rows::Placed;
use crate::tables::Tables;
use hq_footprint::{FootFault, Footprint, Range, Work, inside, nothing, of_kernel, of_service};
use hq_model::PACKETS;
use hq_packet::{Kernel, Packet};
use hq_signals::SignalTable;
use std::alloc::AllocError;

/// The dependency handles of a barrier packet.
fn deps_of(packet: &Packet) -> &[u64]
    ensures { result.now ≡ deps_of packet.now }
{
    match packet {
        Packet::And(barrier) | Packet::Or(barrier) => &barrier.deps,
        _ => &[],
    }
}

/// How many work-items a kernel has.
fn items_of(kernel: &Kernel) -> u128
    ensures { result ≡ items_of kernel.now }
{
    let [x, y, z] = kernel.grid;
    x as u128 * y as u128 * z as u128
}

fn is_unknown_service(packet: &Packet) -> bool
    ensures { IsTrue result ↔ IsUnknownService packet.now }
{
    match packet {
        Packet::Agent(call) => {
            of_service(call.kind, call.args, call.ret) == Err(FootFault::Service)
        }
        _ => false,
    }
}

fn all_null(deps: &[u64]) -> bool
    ensures { IsTrue result ↔ All (λ d. d ≡ 0) deps.now }
{
    deps.iter().all(|dep| *dep == 0)
}

fn is_null_or(packet: &Packet) -> bool
    ensures { IsTrue result ↔ IsNullOr packet.now }
{
    match packet {
        Packet::Or(barrier) => all_null(&barrier.deps),
        _ => false,
    }
}

fn has_many_items(packet: &Packet) -> bool
    ensures { IsTrue result ↔ HasManyItems packet.now }
{
    match packet {
        Packet::Kernel(kernel) => items_of(kernel) > ITEMS,
        _ => false,
    }
}

/// Whether a range that has a byte lies within no buffer, where none passes the last address.
fn is_outside(foot: &Footprint, ranges: &[Range]) -> bool
    ensures { All Fits (ranges_of foot.now) → IsTrue result ↔ Any (IsOutside ranges.now) (ranges_of foot.now) }
{
    inside(foot, ranges) == Err(FootFault::OutsideBuffer)
}

/// Notes a completion, of a handle that is 0 or a signal's.
fn note_completion(signals: &mut SignalTable, handle: u64)
    requires some { All (λ s. 0 < s.handle) signals.old }
    requires declared { ¬ IsUndeclared signals.old handle }
    requires room { noted signals.old + 1 < 2 ^ 64 }
    ensures { signals.new ≡ map (completed handle) signals.old }
{
    if handle != 0 {
        signals.note_decrement(handle);
    }
}

/// Notes a dependency, whose handle is 0 or a signal's.
fn note_dependency(signals: &mut SignalTable, handle: u64)
    requires { ¬ (handle ≡ 0) → IsOpen signals.old handle }
    ensures { ((handle ≡ 0) × (signals.new ≡ signals.old)) ⊎ (signals.new ≡ changed_at handle with_wait signals.old) }
{
    if handle != 0 {
        signals.note_wait(handle);
    }
}

/// Notes dependencies, of which each is 0 or a signal's handle.
fn note_dependencies(signals: &mut SignalTable, deps: &[u64])
    requires some { All (λ s. 0 < s.handle) signals.old }
    requires declared { ¬ Any (IsUndeclared signals.old) deps.now }
    ensures { signals.new ≡ map (awaited deps.now) signals.old }
{
    for dep in deps {
        note_dependency(signals, *dep);
    }
}

/// Notes a packet's completion and its dependencies.
fn note(signals: &mut SignalTable, packet: &Packet)
    requires some { All (λ s. 0 < s.handle) signals.old }
    requires declared { ¬ Any (IsUndeclared signals.old) (completion_of packet.now ∷ deps_of packet.now) }
    requires room { noted signals.old + 1 < 2 ^ 64 }
    ensures { signals.new ≡ noted_by packet.now signals.old }
{
    note_completion(signals, packet.completion());
    note_dependencies(signals, deps_of(packet));
}

/// Whether the last queue has so many packets, where packets stand queue by queue.
fn has_last(placed: &[Placed], queue: u16, count: usize) -> bool
    requires some { 0 < count }
    requires rises { AllPairs (λ p r. p.queue ≤ r.queue) placed.now }
    requires most { All (λ p. p.queue ≤ queue) placed.now }
    ensures { IsTrue result ↔ (count ≤ count_by (λ p. p.queue == queue) placed.now) }
{
    match placed.len().checked_sub(count) {
        Some(place) => placed[place].queue == queue,
        None => false,
    }
}

/// Where so many packets stand, room is made for all that a job can have: copies of a growing list cost more than
/// memory that isn't touched.
const MANY: usize = 64;

/// Makes room for the next packet.
///
/// # Errors
///
/// Where there is no memory; then the packets stay as they were.
fn make_room(placed: &mut Vec<Placed>) -> Result<(), AllocError>
    ensures { placed.new.items ≡ placed.old.items }
{
    if placed.len() == MANY {
        placed.reserve(PACKETS - MANY)?;
    }
    Ok(())
}

impl Tables {
    /// Whether the queue that packets go to is no ring and has no slot left.
    fn is_full(&self, queue: u16) -> bool
        requires fit { TablesFit (tables_of self.now) }
        requires current { self.now.current ≡ Some queue }
        ensures { IsTrue result
            ↔ ((self.now.rings ≡ false)
            × (slice_index (map (λ e. e.size) self.now.queues.items) queue ≤ count_by
            (λ p. p.queue == queue) self.now.placed.items)) }
    {
        if self.rings {
            return false;
        }
        let size = self.queues[queue as usize].size as usize;
        has_last(&self.placed, queue, size)
    }

    /// The queue that the next packet goes to.
    fn place(&self) -> Result<u16, Reason>
        requires { TablesFit (tables_of self.now) }
        ensures checks { Checks result (place_tests (tables_of self.now)) }
        ensures queue { IfOk result (λ queue. self.now.current ≡ Some queue) }
    {
        if self.placed.len() >= PACKETS {
            return Err(Reason::Limit);
        }
        let Some(queue) = self.current else {
            return Err(Reason::Unknown);
        };
        if self.is_full(queue) {
            return Err(Reason::QueueFull);
        }
        Ok(queue)
    }

    fn is_undeclared(&self, handle: u64) -> bool
        ensures { IsTrue result ↔ IsUndeclared self.now.signals handle }
    {
        handle != 0 && !self.signals.has(handle)
    }

    fn some_undeclared(&self, deps: &[u64]) -> bool
        ensures { IsTrue result ↔ Any (IsUndeclared self.now.signals) deps.now }
    {
        for dep in deps {
            if self.is_undeclared(*dep) {
                return true;
            }
        }
        false
    }

    fn signals_undeclared(&self, packet: &Packet) -> bool
        ensures { IsTrue result ↔ Any (IsUndeclared self.now.signals) (completion_of packet.now ∷ deps_of packet.now) }
    {
        self.is_undeclared(packet.completion()) || self.some_undeclared(deps_of(packet))
    }

    /// Whether a kernel's object or its kernarg block is not there.
    fn is_unfound(&self, kernel: &Kernel) -> bool
        ensures { IsTrue result
            ↔ (IsNone (kernel_of (tables_of self.now) kernel.now.object)
            ⊎ IsNone (block_of (tables_of self.now) kernel.now.kernarg)) }
    {
        kernel_at(&self.kernels, kernel.object).is_none()
            || self.arguments.at(kernel.kernarg).is_none()
    }

    fn names_undeclared(&self, packet: &Packet) -> bool
        ensures { IsTrue result ↔ NamesUndeclared (tables_of self.now) packet.now }
    {
        let undeclared = self.signals_undeclared(packet);
        match packet {
            Packet::Kernel(kernel) => undeclared || self.is_unfound(kernel),
            _ => undeclared,
        }
    }

    /// Whether all that the packet names is there, and the limits of packets are kept.
    fn check_names(&self, packet: &Packet) -> Result<(), Reason>
        ensures { Checks result (name_tests (tables_of self.now) packet.now) }
    {
        if is_unknown_service(packet) {
            return Err(Reason::Service);
        }
        if self.names_undeclared(packet) {
            return Err(Reason::Handle);
        }
        if is_null_or(packet) {
            return Err(Reason::NullOr);
        }
        if has_many_items(packet) {
            return Err(Reason::Items);
        }
        Ok(())
    }

    /// What a kernel does.
    fn kernel_work(&self, kernel: &Kernel) -> Result<Work, FootFault>
        requires { NoneApplies (name_tests (tables_of self.now) (Packet.Kernel kernel.now)) }
        ensures { Calls result (tables_of self.now) (Packet.Kernel kernel.now) }
    {
        let code = kernel_at(&self.kernels, kernel.object).unwrap().code;
        let block = self.arguments.at(kernel.kernarg).unwrap();
        of_kernel(code, items_of(kernel) as u64, &block.bytes)
    }

    /// What a packet does, in addresses.
    fn work_of(&self, packet: &Packet) -> Result<Work, FootFault>
        requires { NoneApplies (name_tests (tables_of self.now) packet.now) }
        ensures { Calls result (tables_of self.now) packet.now }
    {
        match packet {
            Packet::Kernel(kernel) => self.kernel_work(kernel),
            Packet::Agent(call) => of_service(call.kind, call.args, call.ret),
            _ => Ok(nothing()),
        }
    }

    /// What a packet does, within the buffers.
    fn check_work(&self, packet: &Packet) -> Result<Work, Reason>
        requires { NoneApplies (name_tests (tables_of self.now) packet.now) }
        ensures checks { Checks result (work_tests (tables_of self.now) packet.now) }
        ensures work { IfOk result (λ work. work ≡ work_of (tables_of self.now) packet.now) }
    {
        let work = match self.work_of(packet) {
            Ok(work) => work,
            Err(fault) => return Err(Reason::Footprint(fault)),
        };
        if is_outside(&work.foot, self.buffers.ranges()) {
            return Err(Reason::Footprint(FootFault::OutsideBuffer));
        }
        Ok(work)
    }

    /// The number of the signal with the handle; none for a handle of 0.
    fn signal_number(&self, handle: u64) -> Option<u16>
        requires { TablesFit (tables_of self.now) }
        ensures { result ≡ signal_number self.now.signals handle }
    {
        if handle == 0 {
            return None;
        }
        match self.signals.index_of(handle) {
            Some(number) => Some(number as u16),
            None => None,
        }
    }

    /// The numbers of the dependency signals, slot by slot.
    fn slots_of(&self, packet: &Packet) -> [Option<u16>; 5]
        requires { TablesFit (tables_of self.now) }
        ensures { result ≡ map (signal_number self.now.signals) (slots_of packet.now) }
    {
        match packet {
            Packet::And(barrier) | Packet::Or(barrier) => {
                let [a, b, c, d, e] = barrier.deps;
                [
                    self.signal_number(a),
                    self.signal_number(b),
                    self.signal_number(c),
                    self.signal_number(d),
                    self.signal_number(e),
                ]
            }
            _ => [None; 5],
        }
    }

    /// The packet in its queue.
    fn placed(&self, queue: u16, packet: Packet, work: Work) -> Placed
        requires fit { TablesFit (tables_of self.now) }
        requires work { work ≡ work_of (tables_of self.now) packet }
        ensures { result ≡ placed_of (tables_of self.now) queue packet }
    {
        Placed {
            queue,
            packet,
            work,
            bytes: in_bytes(self.buffers.as_slice(), work.foot),
            slots: self.slots_of(&packet),
            done: self.signal_number(packet.completion()),
        }
    }

    /// Adds a packet to the queue that packets go to, with all that it names looked up.
    ///
    /// # Errors
    ///
    /// The first test that the packet fails, or `Memory`; then the tables stay as they were.
    pub fn add_packet(&mut self, packet: Packet) -> Result<(), Reason>
        requires { TablesFit (tables_of self.old) }
        ensures { Adds result (tables_of self.old) (tables_of self.new) (says.Packet packet) }
    {
        let queue = self.place()?;
        self.check_names(&packet)?;
        let work = self.check_work(&packet)?;
        let placed = self.placed(queue, packet, work);
        make_room(&mut self.placed)?;
        self.placed.push(placed)?;
        note(&mut self.signals, &packet);
        Ok(())
    }
}
