//! The state of a run.

ghost use Rattle.std.specs.Prelude.{◌≡◌, ◌+◌, ◌^◌, ◌<◌, ◌≤◌, ◌↔◌, ℕ, Some, slice_index, length, IfOk, true, IfErr};
ghost use Rattle.std.specs.Prelude.{◌⊎◌, IsTrue, false, is_some};
ghost use Rattle.hq_copies.specs.Copies.{IsAgentByte, IsLaneByte};
ghost use Rattle.hq_job.specs.Plan.{plan};
ghost use Rattle.hq_model.specs.Job.{Job as JobOfNumbers};
ghost use Rattle.hq_model.specs.Machine as machine;
ghost use Rattle.hq_model.specs.Machine.{start, is_launched, lane_sees, listed};
ghost use Rattle.hq_model.specs.View.{phases_of};
ghost use Rattle.hq_events.specs.Phases.{named};
ghost use Rattle.hq_machine.specs.Changes.{in_phase};
ghost use Rattle.hq_machine.specs.View.{IsStateOf, Opens, state_of};

use hq_copies::Copies;
use hq_events::packets::{lane_agents, packet_count};
use hq_events::starts::{first_phases, no_reads, nothing_observed, nothing_stored, signal_values};
use hq_events::{Phase, Reads, StepFault, Stores};
use hq_job::Job;
use std::alloc::Global;
use std::marker::Model;
use std::ops::Range;

/// Packets that follow each other by their numbers.
#[derive(Clone, Copy, Debug)]
pub(crate) struct Stretch {
    start: usize,
    end: usize,
}

/// The state of a run of a job.
///
/// Each call that takes the job wants the one that the state was started with.
#[derive(Drop)]
pub struct State {
    pub(crate) alloc: Global,
    pub(crate) phases: Vec<Phase>,
    pub(crate) observed: Vec<[bool; 5]>,
    pub(crate) reads: Vec<Reads>,
    pub(crate) stores: Vec<Stores>,
    pub(crate) signals: Vec<u64>,
    pub(crate) copies: Copies,
    // For each queue packets that are known as launched: its first ones, where any are.
    launched: Vec<Stretch>,
}

impl Model for State {
    ghost use Rattle.std.specs.Prelude.{map};
    ghost use Rattle.hq_events.specs.Phases.{named};
    ghost use Rattle.hq_machine.specs.State.{StateValue, state_code};

    ghost Value = { StateValue };

    ghost coded = { state_code };

    ghost view = { λ s. record {
      phases = map named s.phases.items;
      observed = s.observed.items;
      reads = s.reads.items;
      stores = s.stores.items;
      signals = s.signals.items;
      copies = s.copies;
    } };

    ghost use Rattle.hq_machine.specs.Launched.{AreLaunched};

    ghost invariant = { λ s. AreLaunched (map named s.phases.items) s.launched.items };
}

/// Memory as the job starts, and a lane for each packet.
fn first_copies(alloc: Global, job: &Job) -> Result<Copies, StepFault>
    ensures ok { IfOk result (λ copies. Opens (plan job.now) copies) }
    ensures memory { IfErr result (λ e. e ≡ StepFault.Memory) }
{
    job.valid();
    let agents = lane_agents(alloc, job)?;
    let memory = job.memory(alloc)?;
    match Copies::new(alloc, memory, job.agents(), agents) {
        Ok(copies) => Ok(copies),
        Err(_) => Err(StepFault::Memory),
    }
}

impl State {
    /// The state in which a run of the job starts.
    ///
    /// # Errors
    ///
    /// `Memory` alone.
    pub fn start(alloc: Global, job: &Job) -> Result<State, StepFault>
        ensures is { IfOk result (λ s. IsStateOf (plan job.now) s) }
        ensures start { IfOk result (λ s. state_of (plan job.now) s ≡ start (plan job.now)) }
        ensures memory { IfErr result (λ e. e ≡ StepFault.Memory) }
    {
        let count = packet_count(job);
        Ok(State {
            alloc,
            phases: first_phases(alloc, job)?,
            observed: nothing_observed(alloc, count)?,
            reads: no_reads(alloc, count)?,
            stores: nothing_stored(alloc, count)?,
            signals: signal_values(alloc, job)?,
            copies: first_copies(alloc, job)?,
            launched: vec![in alloc; Stretch { start: 0, end: 0 }; job.queues().len()]?,
        })
    }

    /// How many packets there are.
    pub fn packets(&self) -> usize
        ensures { result ≡ length self.now.phases }
    {
        self.phases.len()
    }

    /// The phase of a packet.
    pub fn phase(&self, packet: usize) -> Phase
        requires { packet < length self.now.phases }
        ensures { (first : machine.Phase) → named result ≡ phases_of first self.now.phases packet }
    {
        self.phases[packet]
    }

    /// The bytes of memory.
    pub fn memory(&self) -> &[u8]
        ensures { result.now ≡ self.now.copies.memory }
    {
        self.copies.memory()
    }

    /// The bytes of memory, for good.
    pub fn into_memory(self) -> Vec<u8>
        ensures { result.items ≡ self.copies.memory }
    {
        self.copies.into_memory()
    }

    /// The byte that is seen through a packet's lane.
    pub fn seen(&self, packet: usize, byte: usize) -> u8
        requires { IsLaneByte self.now.copies packet byte }
        ensures { (job : JobOfNumbers) → IsStateOf job self.now
            → result ≡ lane_sees job (state_of job self.now) packet byte }
    {
        self.copies.read(packet, byte)
    }

    /// Whether a packet's lane holds a copy of a byte.
    pub fn lane_holds(&self, packet: usize, byte: usize) -> bool
        requires { IsLaneByte self.now.copies packet byte }
        ensures { (job : JobOfNumbers) → result ≡ is_some ((state_of job self.now).lane packet byte) }
    {
        self.copies.lane_holds(packet, byte)
    }

    /// Whether an agent holds a copy of a byte.
    pub fn agent_holds(&self, agent: usize, byte: usize) -> bool
        requires { IsAgentByte self.now.copies agent byte }
        ensures { (job : JobOfNumbers) → result ≡ is_some ((state_of job self.now).agent agent byte) }
    {
        self.copies.agent_holds(agent, byte)
    }

    /// Writes into the slice the bytes that are seen through a packet's lane from a byte on.
    pub fn seen_into(&self, packet: usize, byte: usize, bytes: &mut [u8])
        requires packet { packet < length self.now.copies.lanes }
        requires bytes { byte + length bytes.old ≤ length self.now.copies.memory }
        ensures { (job : JobOfNumbers) → IsStateOf job self.now
            → bytes.new ≡ listed (length bytes.old) (λ i. lane_sees job (state_of job self.now) packet (byte + i)) }
    {
        self.copies.read_into(packet, byte, bytes);
    }

    /// The byte that a packet has read as an entry, if it has.
    pub fn read_byte(&self, packet: usize, entry: usize) -> Option<u8>
        requires { packet < length self.now.reads }
        ensures { (job : JobOfNumbers) → result ≡ (state_of job self.now).read packet entry }
    {
        self.reads[packet].get(entry)
    }

    /// Whether a packet has read these bytes as its entries from `first` on.
    pub fn has_read(&self, packet: usize, first: usize, bytes: &[u8]) -> bool
        requires packet { packet < length self.now.reads }
        requires entries { first + length bytes.now < 2 ^ 64 }
        ensures { (job : JobOfNumbers) → IsTrue result
            ↔ ((i : ℕ) → i < length bytes.now
            → (state_of job self.now).read packet (first + i) ≡ Some (slice_index bytes.now i)) }
    {
        self.reads[packet].has(first, bytes)
    }

    /// Whether a packet is launched, and isn't in this phase.
    fn takes_back(&self, packet: usize, phase: Phase) -> bool
        requires { packet < length self.now.phases }
        ensures { result ≡ false → (first : machine.Phase)
            → (is_launched (phases_of first self.now.phases packet) ≡ false) ⊎ (is_launched (named phase) ≡ true) }
    {
        self.is_launched(packet) && !phase.is_launched()
    }

    /// Puts a packet in a phase.
    #[tactic(auto, using(crate::proofs::Moves::map_named))]
    pub(crate) fn set_phase(&mut self, packet: usize, phase: Phase)
        requires { packet < length self.old.phases }
        ensures { self.new ≡ in_phase self.old packet (named phase) }
    {
        if self.takes_back(packet, phase) {
            self.launched.clear();
        }
        self.phases[packet] = phase;
    }

    /// Knows the packets of these numbers, of a queue, as launched.
    pub(crate) fn know_launched(&mut self, queue: usize, numbers: Range<usize>)
        requires { (first : machine.Phase) → (e : ℕ) → numbers.start ≤ e → e < numbers.end
            → is_launched (phases_of first self.old.phases e) ≡ true }
        ensures { self.new ≡ self.old }
    {
        if let Some(known) = self.launched.get_mut(queue) {
            *known = Stretch {
                start: numbers.start,
                end: numbers.end,
            };
        }
    }

    /// A number from this one on, all ahead of which are of packets of the queue that are known as launched.
    pub(crate) fn known_launched(&self, queue: usize, start: usize) -> usize
        ensures from { start ≤ result }
        ensures launched { (first : machine.Phase) → (e : ℕ) → start ≤ e → e < result
            → is_launched (phases_of first self.now.phases e) ≡ true }
    {
        match self.launched.get(queue) {
            Some(known) if known.start <= start && start <= known.end => known.end,
            _ => start,
        }
    }

    /// Whether a packet is in a phase.
    #[tactic(auto, using(crate::proofs::Moves::named_same))]
    pub(crate) fn is_in(&self, packet: usize, phase: Phase) -> bool
        requires { packet < length self.now.phases }
        ensures { (first : machine.Phase) → IsTrue result ↔ (phases_of first self.now.phases packet ≡ named phase) }
    {
        self.phase(packet) == phase
    }

    /// Whether a packet is launched, active or complete.
    pub(crate) fn is_launched(&self, packet: usize) -> bool
        requires { packet < length self.now.phases }
        ensures { (first : machine.Phase) → result ≡ is_launched (phases_of first self.now.phases packet) }
    {
        self.phase(packet).is_launched()
    }

    /// Whether all packets of these numbers are complete. No test ends the loop early, so that many are looked at
    /// at once.
    pub fn all_complete(&self, numbers: Range<usize>) -> bool
        requires { numbers.end ≤ length self.now.phases }
        ensures { (first : machine.Phase) → IsTrue result
            ↔ ((e : ℕ) → numbers.start ≤ e → e < numbers.end
            → phases_of first self.now.phases e ≡ machine.Phase.Complete) }
    {
        let mut all = true;
        for packet in numbers.start..numbers.end {
            all &= self.is_in(packet, Phase::Complete);
        }
        all
    }

    /// Whether all packets of these numbers are launched.
    pub(crate) fn all_launched(&self, numbers: Range<usize>) -> bool
        requires { numbers.end ≤ length self.now.phases }
        ensures { (first : machine.Phase) → IsTrue result
            ↔ ((e : ℕ) → numbers.start ≤ e → e < numbers.end
            → is_launched (phases_of first self.now.phases e) ≡ true) }
    {
        let mut all = true;
        for packet in numbers.start..numbers.end {
            all &= self.is_launched(packet);
        }
        all
    }
}
