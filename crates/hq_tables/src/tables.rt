//! The tables that the lines of a job fill.

ghost use Rattle.std.specs.Prelude.{◌≡◌, ◌^◌, ◌<◌, ◌↔◌, All, IsOk, IfOk, IfErr, OnOk};
ghost use Rattle.hq_lines.specs.Meaning as says;
ghost use Rattle.hq_tables.specs.Fits.{TablesFit};

use crate::arguments::Arguments;
use crate::buffers::Buffers;
use crate::fault::Reason;
use crate::finding;
use crate::limits::{AGENTS, BLOCKS, BUFFERS, KERNELS, QUEUES, SIGNALS};
use crate::rows::{Block, Kernel, Placed, Queue};
use hq_footprint::{Code, Range};
use hq_model::BYTES;
use hq_signals::{SignalFault, SignalTable};
use hq_text::Name;
use indexmap::IndexSet;
use std::alloc::{AllocError, Global};

/// What the lines so far declare.
#[derive(Drop)]
pub struct Tables {
    pub rings: bool,
    pub agents: IndexSet<Name>,
    pub buffers: Buffers,
    pub arguments: Arguments,
    pub signal_names: IndexSet<Name>,
    pub signals: SignalTable,
    pub kernels: Vec<Kernel>,
    pub queues: Vec<Queue>,
    pub current: Option<u16>,
    pub placed: Vec<Placed>,
}

/// Makes the second set equal to the first.
fn copy_names(names: &IndexSet<Name>, copy: &mut IndexSet<Name>) -> Result<(), AllocError>
    ensures { OnOk result (copy.new.keys ≡ names.now.keys) }
{
    *copy = names.clone()?;
    Ok(())
}

impl Tables {
    ghost use Rattle.hq_tables.specs.Tables.{empty};
    ghost use Rattle.hq_tables.specs.Adds.{Adds};
    ghost use Rattle.hq_tables.specs.AtEnd.{signal_reason};
    ghost use Rattle.hq_tables.specs.AtEnd.{RefusedAtEnd};
    ghost use Rattle.hq_signals.specs.Table.{IsUndershot, NeverReachesZero};
    ghost use Rattle.hq_tables.specs.TablesView.{tables_of};

    /// Tables before any line. They take no memory.
    pub fn new(alloc: Global, rings: bool) -> Self
        ensures { tables_of result ≡ empty rings }
    {
        Tables {
            rings,
            agents: IndexSet::new(alloc),
            buffers: Buffers::new(alloc),
            arguments: Arguments::new(alloc),
            signal_names: IndexSet::new(alloc),
            signals: SignalTable::new(alloc),
            kernels: Vec::new(alloc),
            queues: Vec::new(alloc),
            current: None,
            placed: Vec::new(alloc),
        }
    }

    /// Fills tables before any line with what these declare.
    fn copy_to(&self, alloc: Global, copy: &mut Tables) -> Result<(), AllocError>
        requires { tables_of copy.old ≡ empty self.now.rings }
        ensures { OnOk result (tables_of copy.new ≡ tables_of self.now) }
    {
        copy_names(&self.agents, &mut copy.agents)?;
        copy.buffers = self.buffers.copy(alloc)?;
        copy.arguments = self.arguments.copy(alloc)?;
        copy_names(&self.signal_names, &mut copy.signal_names)?;
        copy.signals = self.signals.copy()?;
        copy.kernels.extend_from_slice(&self.kernels)?;
        copy.queues.extend_from_slice(&self.queues)?;
        copy.current = self.current;
        copy.placed.extend_from_slice(&self.placed)?;
        Ok(())
    }

    /// Equal tables.
    ///
    /// # Errors
    ///
    /// `AllocError` where there is no memory.
    pub fn copy(&self, alloc: Global) -> Result<Tables, AllocError>
        ensures { IfOk result (λ t. tables_of t ≡ tables_of self.now) }
    {
        let mut copy = Tables::new(alloc, self.rings);
        self.copy_to(alloc, &mut copy)?;
        Ok(copy)
    }

    /// Adds an agent with this name.
    ///
    /// # Errors
    ///
    /// The first test that the line fails, or `Memory`; then the tables stay as they were.
    pub fn add_agent(&mut self, name: Name) -> Result<(), Reason>
        ensures { Adds result (tables_of self.old) (tables_of self.new) (says.Agent name) }
    {
        if self.agents.len() >= AGENTS {
            return Err(Reason::Limit);
        }
        if self.agents.contains(&name) {
            return Err(Reason::Duplicate);
        }
        self.agents.insert(name)?;
        Ok(())
    }

    /// Adds a buffer from an address on, with the bytes that it starts with.
    ///
    /// # Errors
    ///
    /// The first test that the line fails, or `Memory`; then the tables stay as they were.
    pub fn add_buffer(&mut self, name: Name, at: u64, bytes: Vec<u8>) -> Result<(), Reason>
        requires { TablesFit (tables_of self.old) }
        ensures { Adds result (tables_of self.old) (tables_of self.new) (says.Buffer name at bytes.items) }
    {
        if self.buffers.len() >= BUFFERS {
            return Err(Reason::Limit);
        }
        if bytes.len() > BYTES - self.buffers.total() {
            return Err(Reason::Limit);
        }
        if self.buffers.has_name(name) {
            return Err(Reason::Duplicate);
        }
        if self.buffers.overlaps(Range::new(at, bytes.len() as u64)) {
            return Err(Reason::BufferOverlap);
        }
        self.buffers.add(Block { name, at, bytes })?;
        Ok(())
    }

    /// Adds a kernarg block from an address on, with its bytes.
    ///
    /// # Errors
    ///
    /// The first test that the line fails, or `Memory`; then the tables stay as they were.
    pub fn add_arguments(&mut self, name: Name, at: u64, bytes: Vec<u8>) -> Result<(), Reason>
        ensures { Adds result (tables_of self.old) (tables_of self.new) (says.Args name at bytes.items) }
    {
        if self.arguments.len() >= BLOCKS {
            return Err(Reason::Limit);
        }
        if self.arguments.has_name(name) {
            return Err(Reason::Duplicate);
        }
        if self.arguments.has_address(at) {
            return Err(Reason::Duplicate);
        }
        self.arguments.add(Block { name, at, bytes })?;
        Ok(())
    }

    /// Adds a signal with its handle and the value that it starts with.
    ///
    /// # Errors
    ///
    /// The first test that the line fails, or `Memory`; then the tables stay as they were.
    pub fn add_signal(&mut self, name: Name, handle: u64, start: u64) -> Result<(), Reason>
        requires { start < 2 ^ 63 }
        ensures { Adds result (tables_of self.old) (tables_of self.new) (says.Signal name handle start) }
    {
        if self.signals.len() >= SIGNALS {
            return Err(Reason::Limit);
        }
        if self.signal_names.contains(&name) {
            return Err(Reason::Duplicate);
        }
        if self.signals.has(handle) {
            return Err(Reason::Duplicate);
        }
        self.signal_names.reserve(1)?;
        self.signals.open(handle, start)?;
        self.signal_names.insert(name)?;
        Ok(())
    }

    /// Adds a kernel with its object handle and what it computes.
    ///
    /// # Errors
    ///
    /// The first test that the line fails, or `Memory`; then the tables stay as they were.
    pub fn add_kernel(&mut self, name: Name, object: u64, code: Code) -> Result<(), Reason>
        ensures { Adds result (tables_of self.old) (tables_of self.new) (says.Kernel name object code) }
    {
        if self.kernels.len() >= KERNELS {
            return Err(Reason::Limit);
        }
        if finding::has_kernel(&self.kernels, name) {
            return Err(Reason::Duplicate);
        }
        if finding::has_object(&self.kernels, object) {
            return Err(Reason::Duplicate);
        }
        self.kernels.push(Kernel { name, object, code })?;
        Ok(())
    }

    /// Adds a queue of an agent, with so many slots.
    ///
    /// # Errors
    ///
    /// The first test that the line fails, or `Memory`; then the tables stay as they were.
    pub fn add_queue(&mut self, name: Name, agent: Name, size: u16) -> Result<(), Reason>
        requires { TablesFit (tables_of self.old) }
        ensures { Adds result (tables_of self.old) (tables_of self.new) (says.Queue name agent size) }
    {
        if self.queues.len() >= QUEUES {
            return Err(Reason::Limit);
        }
        if finding::queue_number(&self.queues, name).is_some() {
            return Err(Reason::Duplicate);
        }
        let Some(agent) = self.agents.get_index_of(&agent) else {
            return Err(Reason::Unknown);
        };
        let number = self.queues.len() as u16;
        self.queues.push(Queue {
            name,
            agent: agent as u16,
            size,
        })?;
        self.current = Some(number);
        Ok(())
    }

    /// The packets that follow go to the queue with the name.
    ///
    /// # Errors
    ///
    /// The first test that the line fails, or `Memory`; then the tables stay as they were.
    pub fn turn_to(&mut self, name: Name) -> Result<(), Reason>
        requires { TablesFit (tables_of self.old) }
        ensures { Adds result (tables_of self.old) (tables_of self.new) (says.To name) }
    {
        if !self.rings {
            return Err(Reason::Word);
        }
        let Some(queue) = finding::queue_number(&self.queues, name) else {
            return Err(Reason::Unknown);
        };
        self.current = Some(queue as u16);
        Ok(())
    }

    /// What the signals have against the job.
    ///
    /// # Errors
    ///
    /// `Undershoot` with the first signal that has too many decrementers, else `NeverZero` with the first that is
    /// waited on and has too few.
    pub fn verdict(&self) -> Result<(), SignalFault>
        ensures ok { IsOk result
            ↔ (All (λ s. ¬ IsUndershot s) self.now.signals × All (λ s. ¬ NeverReachesZero s) self.now.signals) }
        ensures fault { IfErr result (λ f. RefusedAtEnd self.now.signals (signal_reason f)) }
    {
        self.signals.verdict()
    }
}
