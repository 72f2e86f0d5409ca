//! Memory and the maps of copies.

ghost use Rattle.std.specs.Prelude.{◌≡◌, is_some, ◌↔◌, ◌<◌, ◌≤◌, ◌+◌, ℕ, ◌-◌, Some, length, All, IsTrue, IfOk};
ghost use Rattle.std.specs.Prelude.{IfErr, OnOk, OnErr, MatchOption, slice_index, ◌⊎◌, replicate, false};
ghost use Rattle.std.specs.FinMap as finite;
ghost use Rattle.hq_packet.specs.Scopes.{reaches};
ghost use Rattle.hq_model.specs.Machine.{is_dirty};
ghost use Rattle.hq_model.specs.View.{copies_of};
ghost use Rattle.hq_copies.specs.Copies.{opened, stored, lane_filled, agent_filled, lane_dropped, agent_dropped};
ghost use Rattle.hq_copies.specs.Copies.{after_acquire, lane_byte, lane_bytes};
ghost use Rattle.hq_copies.specs.Copies.{IsLaneByte, IsAgentByte, IsDirty, IsClean};
ghost use Rattle.hq_copies.specs.Copies.{IsReleased, IsFirstDirty, NoneDirty, held, PushedLane, PushedAgent};
ghost use Rattle.hq_copies.specs.Copies.{IsAbsent, agent_byte, dirty_within, LanesReleased};
ghost use Rattle.hq_copies.specs.Copies.{AgentReleased, Released, after_pushes, cleaned, stored_run};
ghost use Rattle.hq_copies.specs.Known.{AreKnown, HasDirty, HasRoom};

use crate::fault::CopiesFault;
use crate::lanes::Lanes;
use crate::level::Level;
use hq_model::BYTES;
use hq_packet::Scope;
use std::alloc::{AllocError, Global};
use std::marker::Model;
use std::ops::Range;

/// Memory, and what agents and lanes hold of it.
#[derive(Drop)]
pub struct Copies {
    memory: Vec<u8>,
    agents: Vec<Level>,
    lanes: Vec<Level>,
    // The number of each lane's agent.
    lane_agents: Vec<u8>,
    // Sets of lanes: all that hold bytes are in the one, and all that hold dirty ones in the other.
    holding: Lanes,
    marked: Lanes,
}

impl Model for Copies {
    ghost use Rattle.hq_copies.specs.Copies.{CopiesValue, copies_code, IsCopies};

    ghost Value = { CopiesValue };

    ghost coded = { copies_code };

    ghost view = { λ c. record {
      memory = c.memory.items;
      agents = c.agents.items;
      lanes = c.lanes.items;
      lane_agents = c.lane_agents.items;
    } };

    ghost invariant = { λ c. IsCopies c.memory.items c.agents.items c.lanes.items c.lane_agents.items
        c.holding.bits.items c.marked.bits.items };
}

impl Copies {
    /// Memory with these bytes, agents that hold nothing, and for each number of an agent a lane that holds nothing.
    ///
    /// # Errors
    ///
    /// `Memory` alone.
    pub fn new(
        alloc: Global,
        memory: Vec<u8>,
        agents: usize,
        lane_agents: Vec<u8>,
    ) -> Result<Copies, CopiesFault>
        requires agents { All (λ a. a < agents) lane_agents.items }
        requires bytes { length memory.items ≤ BYTES }
        ensures ok { IfOk result (λ c. c ≡ opened memory.items agents lane_agents.items) }
        ensures memory { IfErr result (λ e. e ≡ CopiesFault.Memory) }
    {
        let count = lane_agents.len();
        let agents = empty_levels(alloc, agents)?;
        let lanes = empty_levels(alloc, count)?;
        let holding = Lanes::new(alloc, count)?;
        let marked = Lanes::new(alloc, count)?;
        Ok(Copies {
            memory,
            agents,
            lanes,
            lane_agents,
            holding,
            marked,
        })
    }

    /// How many lanes there are.
    pub fn lanes(&self) -> usize
        ensures { result ≡ length self.now.lanes }
    {
        self.lanes.len()
    }

    /// How many agents there are.
    pub fn agents(&self) -> usize
        ensures { result ≡ length self.now.agents }
    {
        self.agents.len()
    }

    /// The bytes of memory.
    pub fn memory(&self) -> &[u8]
        ensures { result.now ≡ self.now.memory }
    {
        &self.memory
    }

    /// The bytes of memory, for good.
    pub fn into_memory(self) -> Vec<u8>
        ensures { result.items ≡ self.memory }
    {
        self.memory
    }

    /// The byte that is seen through a lane.
    pub fn read(&self, lane: usize, byte: usize) -> u8
        requires { IsLaneByte self.now lane byte }
        ensures { result ≡ lane_byte self.now lane byte }
    {
        let agent = self.agent_of(lane);
        let below = self.agent_byte(agent, byte);
        self.lanes[lane].value_or(self.number(byte), below)
    }

    // A byte's number, as levels take it.
    fn number(&self, byte: usize) -> u32
        requires { byte ≤ length self.now.memory }
        ensures number { result ≡ byte }
        ensures small { result ≤ BYTES }
    {
        let _ = self.memory.len();
        byte as u32
    }

    // The number of a lane's agent.
    fn agent_of(&self, lane: usize) -> usize
        requires { lane < length self.now.lanes }
        ensures agent { result ≡ slice_index self.now.lane_agents lane }
        ensures there { result < length self.now.agents }
    {
        usize::from(self.lane_agents[lane])
    }

    // The byte that an agent sees.
    fn agent_byte(&self, agent: usize, byte: usize) -> u8
        requires { IsAgentByte self.now agent byte }
        ensures { result ≡ agent_byte self.now agent byte }
    {
        self.agents[agent].value_or(self.number(byte), self.memory[byte])
    }

    /// Writes into the slice the bytes that are seen through a lane from a byte on.
    pub fn read_into(&self, lane: usize, byte: usize, bytes: &mut [u8])
        requires lane { lane < length self.now.lanes }
        requires bytes { byte + length bytes.old ≤ length self.now.memory }
        ensures { bytes.new ≡ lane_bytes self.now lane byte (length bytes.old) }
    {
        let agent = self.agent_of(lane);
        let from = self.number(byte);
        copy_from(&self.memory, byte, bytes);
        self.agents[agent].write_over(from, bytes);
        self.lanes[lane].write_over(from, bytes);
    }

    /// The write of a byte through a lane: the lane's copy is then dirty.
    ///
    /// # Errors
    ///
    /// `Memory`, and then nothing changes.
    pub fn store(&mut self, lane: usize, byte: usize, value: u8) -> Result<(), CopiesFault>
        requires { IsLaneByte self.old lane byte }
        ensures ok { OnOk result (self.new ≡ stored self.old lane byte value) }
        ensures err { OnErr result (self.new ≡ self.old) }
        ensures memory { IfErr result (λ e. e ≡ CopiesFault.Memory) }
    {
        let number = self.number(byte);
        self.lanes[lane].set_dirty(number, value)?;
        self.holding.insert(lane);
        self.marked.insert(lane);
        Ok(())
    }

    /// Whether a lane holds a copy of a byte.
    pub fn lane_holds(&self, lane: usize, byte: usize) -> bool
        requires { IsLaneByte self.now lane byte }
        ensures { result ≡ is_some (copies_of self.now.lanes lane byte) }
    {
        self.lanes[lane].holds(self.number(byte))
    }

    /// Whether an agent holds a copy of a byte.
    pub fn agent_holds(&self, agent: usize, byte: usize) -> bool
        requires { IsAgentByte self.now agent byte }
        ensures { result ≡ is_some (copies_of self.now.agents agent byte) }
    {
        self.agents[agent].holds(self.number(byte))
    }

    /// The writes of bytes through a lane, from a byte on: all of them or none.
    ///
    /// # Errors
    ///
    /// `Memory`, and then nothing changes.
    pub fn store_run(&mut self, lane: usize, byte: usize, bytes: &[u8]) -> Result<(), CopiesFault>
        requires lane { lane < length self.old.lanes }
        requires bytes { byte + length bytes.now ≤ length self.old.memory }
        ensures ok { OnOk result (self.new ≡ stored_run self.old lane byte bytes.now) }
        ensures err { OnErr result (self.new ≡ self.old) }
        ensures memory { IfErr result (λ e. e ≡ CopiesFault.Memory) }
    {
        let start = self.number(byte);
        self.lanes[lane].set_run(start, bytes)?;
        self.holding.insert(lane);
        self.marked.insert(lane);
        Ok(())
    }

    /// Writes a lane's dirty byte back to its agent.
    ///
    /// # Errors
    ///
    /// `NotDirty` where the lane's copy isn't dirty; `Memory`. Nothing changes then.
    pub fn push_lane(&mut self, lane: usize, byte: usize) -> Result<(), CopiesFault>
        requires { IsLaneByte self.old lane byte }
        ensures ok { OnOk result (PushedLane self.old lane byte self.new) }
        ensures err { OnErr result (self.new ≡ self.old) }
        ensures not_dirty { IfErr result
            (λ e. e ≡ CopiesFault.NotDirty → IsDirty (copies_of self.old.lanes lane byte) → ⊥) }
        ensures faults { IfErr result
            (λ e. (e ≡ CopiesFault.NotDirty)
            ⊎ ((e ≡ CopiesFault.Memory) × IsDirty (copies_of self.old.lanes lane byte))) }
    {
        let number = self.number(byte);
        let Some(value) = self.lanes[lane].dirty_byte(number) else {
            return Err(CopiesFault::NotDirty);
        };
        let agent = self.agent_of(lane);
        let below = &mut self.agents[agent];
        let level = &mut self.lanes[lane];
        level.push(below, number, value)?;
        self.holding.insert(lane);
        self.marked.insert(lane);
        Ok(())
    }

    /// Writes an agent's dirty byte back to memory.
    ///
    /// # Errors
    ///
    /// `NotDirty` where the agent's copy isn't dirty; `Memory`. Nothing changes then.
    pub fn push_agent(&mut self, agent: usize, byte: usize) -> Result<(), CopiesFault>
        requires { IsAgentByte self.old agent byte }
        ensures ok { OnOk result (PushedAgent self.old agent byte self.new) }
        ensures err { OnErr result (self.new ≡ self.old) }
        ensures not_dirty { IfErr result
            (λ e. e ≡ CopiesFault.NotDirty → IsDirty (copies_of self.old.agents agent byte) → ⊥) }
        ensures faults { IfErr result
            (λ e. (e ≡ CopiesFault.NotDirty)
            ⊎ ((e ≡ CopiesFault.Memory) × IsDirty (copies_of self.old.agents agent byte))) }
    {
        let number = self.number(byte);
        let Some(value) = self.agents[agent].dirty_byte(number) else {
            return Err(CopiesFault::NotDirty);
        };
        self.agents[agent].set_clean(number, value)?;
        self.memory[byte] = value;
        Ok(())
    }

    /// Gives a lane a clean copy of a byte that it doesn't hold, as its agent sees it.
    ///
    /// # Errors
    ///
    /// `Present` where the lane holds the byte; `Memory`. Nothing changes then.
    pub fn fill_lane(&mut self, lane: usize, byte: usize) -> Result<(), CopiesFault>
        requires { IsLaneByte self.old lane byte }
        ensures ok { OnOk result
            (IsAbsent (copies_of self.old.lanes lane byte) × (self.new ≡ lane_filled self.old lane byte)) }
        ensures err { OnErr result (self.new ≡ self.old) }
        ensures present { IfErr result
            (λ e. e ≡ CopiesFault.Present → IsAbsent (copies_of self.old.lanes lane byte) → ⊥) }
        ensures faults { IfErr result
            (λ e. (e ≡ CopiesFault.Present)
            ⊎ ((e ≡ CopiesFault.Memory) × IsAbsent (copies_of self.old.lanes lane byte))) }
    {
        let number = self.number(byte);
        if !self.lanes[lane].is_absent(number) {
            return Err(CopiesFault::Present);
        }
        let agent = self.agent_of(lane);
        let value = self.agent_byte(agent, byte);
        self.lanes[lane].set_clean(number, value)?;
        self.holding.insert(lane);
        self.marked.insert(lane);
        Ok(())
    }

    /// Gives an agent a clean copy of a byte of memory that it doesn't hold.
    ///
    /// # Errors
    ///
    /// `Present` where the agent holds the byte; `Memory`. Nothing changes then.
    pub fn fill_agent(&mut self, agent: usize, byte: usize) -> Result<(), CopiesFault>
        requires { IsAgentByte self.old agent byte }
        ensures ok { OnOk result
            (IsAbsent (copies_of self.old.agents agent byte) × (self.new ≡ agent_filled self.old agent byte)) }
        ensures err { OnErr result (self.new ≡ self.old) }
        ensures present { IfErr result
            (λ e. e ≡ CopiesFault.Present → IsAbsent (copies_of self.old.agents agent byte) → ⊥) }
        ensures faults { IfErr result
            (λ e. (e ≡ CopiesFault.Present)
            ⊎ ((e ≡ CopiesFault.Memory) × IsAbsent (copies_of self.old.agents agent byte))) }
    {
        let number = self.number(byte);
        if !self.agents[agent].is_absent(number) {
            return Err(CopiesFault::Present);
        }
        let value = self.memory[byte];
        self.agents[agent].set_clean(number, value)?;
        Ok(())
    }

    /// Lets a lane's clean copy of a byte go.
    ///
    /// # Errors
    ///
    /// `NotClean` where the lane has no clean copy; `Memory`. Nothing changes then.
    pub fn drop_lane(&mut self, lane: usize, byte: usize) -> Result<(), CopiesFault>
        requires { IsLaneByte self.old lane byte }
        ensures ok { OnOk result
            (IsClean (copies_of self.old.lanes lane byte) × (self.new ≡ lane_dropped self.old lane byte)) }
        ensures err { OnErr result (self.new ≡ self.old) }
        ensures not_clean { IfErr result
            (λ e. e ≡ CopiesFault.NotClean → IsClean (copies_of self.old.lanes lane byte) → ⊥) }
        ensures faults { IfErr result
            (λ e. (e ≡ CopiesFault.NotClean)
            ⊎ ((e ≡ CopiesFault.Memory) × IsClean (copies_of self.old.lanes lane byte))) }
    {
        let number = self.number(byte);
        let level = &mut self.lanes[lane];
        if !level.is_clean(number) {
            return Err(CopiesFault::NotClean);
        }
        level.drop_clean(number)?;
        self.holding.insert(lane);
        self.marked.insert(lane);
        Ok(())
    }

    /// Lets an agent's clean copy of a byte go.
    ///
    /// # Errors
    ///
    /// `NotClean` where the agent has no clean copy; `Memory`. Nothing changes then.
    pub fn drop_agent(&mut self, agent: usize, byte: usize) -> Result<(), CopiesFault>
        requires { IsAgentByte self.old agent byte }
        ensures ok { OnOk result
            (IsClean (copies_of self.old.agents agent byte) × (self.new ≡ agent_dropped self.old agent byte)) }
        ensures err { OnErr result (self.new ≡ self.old) }
        ensures not_clean { IfErr result
            (λ e. e ≡ CopiesFault.NotClean → IsClean (copies_of self.old.agents agent byte) → ⊥) }
        ensures faults { IfErr result
            (λ e. (e ≡ CopiesFault.NotClean)
            ⊎ ((e ≡ CopiesFault.Memory) × IsClean (copies_of self.old.agents agent byte))) }
    {
        let number = self.number(byte);
        let below = &mut self.agents[agent];
        if !below.is_clean(number) {
            return Err(CopiesFault::NotClean);
        }
        below.drop_clean(number)?;
        Ok(())
    }

    // Lets the clean bytes go of the lanes from start on and before end.
    fn drop_clean_bytes(&mut self, start: usize, end: usize)
        requires rising { start ≤ end }
        requires lanes { end ≤ length self.old.lanes }
        ensures { self.new ≡ record self.old { lanes = dirty_within start end self.old.lanes } }
    {
        keep_dirty(&mut self.lanes, &mut self.holding, &self.marked, start, end);
    }

    /// An acquire fence over these lanes and this agent.
    pub fn acquire(&mut self, lanes: Range<usize>, agent: usize, scope: Scope)
        requires agent { agent < length self.old.agents }
        requires rising { lanes.start ≤ lanes.end }
        requires lanes { lanes.end ≤ length self.old.lanes }
        ensures { self.new ≡ after_acquire self.old lanes.start lanes.end agent scope }
    {
        if scope.reaches(Scope::Agent) {
            self.drop_clean_bytes(lanes.start, lanes.end);
        }
        if scope.reaches(Scope::System) {
            self.agents[agent].keep_dirty();
        }
    }

    /// Whether nothing is left to write back for a release fence over these lanes and this agent.
    pub fn is_released(&self, lanes: Range<usize>, agent: usize, scope: Scope) -> bool
        requires agent { agent < length self.now.agents }
        requires rising { lanes.start ≤ lanes.end }
        requires lanes { lanes.end ≤ length self.now.lanes }
        ensures { IsTrue result ↔ IsReleased self.now lanes.start lanes.end agent scope }
    {
        if scope.reaches(Scope::Agent)
            && !have_no_dirty(&self.lanes, &self.marked, lanes.start, lanes.end)
        {
            return false;
        }
        !scope.reaches(Scope::System) || self.agents[agent].has_no_dirty()
    }

    // Writes all dirty bytes of these lanes back to this agent: all of them or none.
    fn release_lanes(&mut self, lanes: Range<usize>, agent: usize) -> Result<(), AllocError>
        requires agent { agent < length self.old.agents }
        requires rising { lanes.start ≤ lanes.end }
        requires lanes { lanes.end ≤ length self.old.lanes }
        ensures ok { OnOk result (LanesReleased self.old lanes.start lanes.end agent self.new) }
        ensures err { OnErr result (self.new ≡ self.old) }
    {
        let mut below = self.agents[agent].copy()?;
        push_each(
            &self.lanes,
            &self.marked,
            lanes.start,
            lanes.end,
            &mut below,
        )?;
        self.agents[agent] = below;
        mark_clean(&mut self.lanes, &mut self.marked, lanes.start, lanes.end);
        Ok(())
    }

    // Writes all dirty bytes of this agent back to memory.
    fn release_agent(&mut self, agent: usize)
        requires { agent < length self.old.agents }
        ensures { AgentReleased self.old agent self.new }
    {
        let level = &mut self.agents[agent];
        level.write_to(&mut self.memory);
        level.mark_clean();
    }

    /// The write-backs that a release fence over these lanes and this agent waits for: all of them or none.
    ///
    /// # Errors
    ///
    /// `Memory`, and then nothing changes.
    pub fn release(
        &mut self,
        lanes: Range<usize>,
        agent: usize,
        scope: Scope,
    ) -> Result<(), CopiesFault>
        requires agent { agent < length self.old.agents }
        requires rising { lanes.start ≤ lanes.end }
        requires lanes { lanes.end ≤ length self.old.lanes }
        ensures ok { OnOk result (Released self.old lanes.start lanes.end agent scope self.new) }
        ensures err { OnErr result (self.new ≡ self.old) }
        ensures memory { IfErr result (λ e. e ≡ CopiesFault.Memory) }
    {
        match scope {
            Scope::None => Ok(()),
            Scope::Agent => {
                self.release_lanes(lanes, agent)?;
                Ok(())
            }
            Scope::System => {
                self.release_lanes(lanes, agent)?;
                self.release_agent(agent);
                Ok(())
            }
        }
    }

    /// The first dirty byte of a lane.
    pub fn first_dirty_lane(&self, lane: usize) -> Option<u32>
        requires { lane < length self.now.lanes }
        ensures { MatchOption result (NoneDirty (held self.now.lanes lane))
            (λ b. IsFirstDirty (held self.now.lanes lane) b) }
    {
        self.lanes[lane].first_dirty()
    }

    /// The first dirty byte of an agent.
    pub fn first_dirty_agent(&self, agent: usize) -> Option<u32>
        requires { agent < length self.now.agents }
        ensures { MatchOption result (NoneDirty (held self.now.agents agent))
            (λ b. IsFirstDirty (held self.now.agents agent) b) }
    {
        self.agents[agent].first_dirty()
    }

    /// An equal value.
    ///
    /// # Errors
    ///
    /// `Memory` alone.
    pub fn copy(&self, alloc: Global) -> Result<Copies, CopiesFault>
        ensures ok { IfOk result (λ c. c ≡ self.now) }
        ensures memory { IfErr result (λ e. e ≡ CopiesFault.Memory) }
    {
        Ok(Copies {
            memory: self.memory.clone()?,
            agents: copied(alloc, &self.agents)?,
            lanes: copied(alloc, &self.lanes)?,
            lane_agents: self.lane_agents.clone()?,
            holding: self.holding.copy()?,
            marked: self.marked.copy()?,
        })
    }
}

// Fills the slice with the bytes of memory from one on.
fn copy_from(memory: &[u8], byte: usize, bytes: &mut [u8])
    requires { byte + length bytes.old ≤ length memory.now }
    ensures { (i : ℕ) → i < length bytes.old → slice_index bytes.new i ≡ slice_index memory.now (byte + i) }
{
    for (i, slot) in bytes.iter_mut().enumerate() {
        *slot = memory[byte + i];
    }
}

// So many that hold nothing.
fn empty_levels(alloc: Global, count: usize) -> Result<Vec<Level>, AllocError>
    ensures { IfOk result (λ levels. levels.items ≡ replicate count finite.empty) }
{
    let mut levels = Vec::with_capacity(alloc, count)?;
    for _ in 0..count {
        levels.push(Level::new(alloc))?;
    }
    Ok(levels)
}

// Equal ones.
fn copied(alloc: Global, levels: &[Level]) -> Result<Vec<Level>, AllocError>
    ensures { IfOk result (λ copies. copies.items ≡ levels.now) }
{
    let mut copies = Vec::with_capacity(alloc, levels.len())?;
    for level in levels {
        copies.push(level.copy()?)?;
    }
    Ok(copies)
}

// Lets the clean bytes go of the lanes from start on and before end.
fn keep_dirty(lanes: &mut [Level], holding: &mut Lanes, marked: &Lanes, start: usize, end: usize)
    requires rising { start ≤ end }
    requires within { end ≤ length lanes.old }
    requires known { AreKnown lanes.old holding.old.bits.items marked.now.bits.items }
    ensures lanes { lanes.new ≡ dirty_within start end lanes.old }
    ensures known { AreKnown lanes.new holding.new.bits.items marked.now.bits.items }
{
    let mut lane = holding.next(start, end);
    'lanes: while lane < end {
        lanes[lane].keep_dirty();
        holding.remove_unless(lane, marked);
        lane = holding.next(lane + 1, end);
    }
}

// Whether the lanes from start on and before end have no dirty byte.
fn have_no_dirty(lanes: &[Level], marked: &Lanes, start: usize, end: usize) -> bool
    requires rising { start ≤ end }
    requires within { end ≤ length lanes.now }
    requires room { HasRoom (length lanes.now) marked.now.bits.items }
    requires marked { HasDirty lanes.now marked.now.bits.items }
    ensures { IsTrue result ↔ ((k b : ℕ) → start ≤ k → k < end → is_dirty (copies_of lanes.now k b) ≡ false) }
{
    let mut lane = marked.next(start, end);
    'lanes: while lane < end {
        if !lanes[lane].has_no_dirty() {
            return false;
        }
        lane = marked.next(lane + 1, end);
    }
    true
}

// Lets a level take in the dirty bytes of the lanes from start on and before end, one behind the other.
fn push_each(
    lanes: &[Level],
    marked: &Lanes,
    start: usize,
    end: usize,
    below: &mut Level,
) -> Result<(), AllocError>
    requires rising { start ≤ end }
    requires within { end ≤ length lanes.now }
    requires room { HasRoom (length lanes.now) marked.now.bits.items }
    requires marked { HasDirty lanes.now marked.now.bits.items }
    ensures { OnOk result
        ((b : ℕ) → finite.get below.new b ≡ after_pushes lanes.now start (end - start) b (finite.get below.old b)) }
{
    let mut lane = marked.next(start, end);
    'lanes: while lane < end {
        lanes[lane].push_into(below)?;
        lane = marked.next(lane + 1, end);
    }
    Ok(())
}

// Makes all dirty bytes clean of the lanes from start on and before end.
fn mark_clean(lanes: &mut [Level], marked: &mut Lanes, start: usize, end: usize)
    requires rising { start ≤ end }
    requires within { end ≤ length lanes.old }
    requires room { HasRoom (length lanes.old) marked.old.bits.items }
    requires marked { HasDirty lanes.old marked.old.bits.items }
    ensures inside { (k b : ℕ) → start ≤ k → k < end → copies_of lanes.new k b ≡ cleaned (copies_of lanes.old k b) }
    ensures outside { (k b : ℕ) → (k < start) ⊎ (end ≤ k) → copies_of lanes.new k b ≡ copies_of lanes.old k b }
    ensures room { HasRoom (length lanes.new) marked.new.bits.items }
    ensures marked { HasDirty lanes.new marked.new.bits.items }
{
    let mut lane = marked.next(start, end);
    'lanes: while lane < end {
        lanes[lane].mark_clean();
        marked.remove(lane);
        lane = marked.next(lane + 1, end);
    }
}
