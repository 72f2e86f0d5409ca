//! Jobs.

ghost use Rattle.std.specs.Prelude.{◌≡◌, ◌<◌, ◌↔◌, ℕ, Some, IsNone, All, IfOk, length};
ghost use Rattle.hq_job.specs.Access.{StandsAt, AreOfQueue};
ghost use Rattle.hq_tables.specs.Blocks.{blocks_of};
ghost use Rattle.hq_job.specs.Heads.{heads_of, job_with_each, job_with_head, SameButHeads};
ghost use Rattle.hq_job.specs.Plan.{plan, planned};
ghost use Rattle.hq_tables.specs.Tables.{byte_number};
ghost use Rattle.hq_model.specs.Job.{packet};
ghost use Rattle.hq_model.specs.Settings.{head_at, with_each, with_head};
ghost use Rattle.hq_model.specs.Theorems.{Valid};

use crate::heads;
use crate::memory::memory_of;
use crate::numbering::{by_number, firsts_of, submissions};
use crate::places::{number_at, span_of};
use hq_packet::Head;
use hq_signals::SignalTable;
use hq_tables::{Block, Kernel, Placed, Queue, Tables, byte_number};
use hq_text::Name;
use std::alloc::{AllocError, Global};
use std::marker::Model;
use std::mem;
use std::ops::Range;

/// A job that was read. Contracts see it as the value that its text describes; everything above the texts speaks of the
/// plan of that value, the job as numbers.
#[derive(Drop)]
pub struct Job {
    /// What the lines of the text filled, but for the packets.
    tables: Tables,
    /// The packets, by number.
    packets: Vec<Placed>,
    firsts: Vec<usize>,
    submissions: Vec<u16>,
}

impl Model for Job {
    ghost use Rattle.hq_job.specs.Value.{JobValue};
    ghost use Rattle.hq_job.specs.View.{value_of};
    ghost use Rattle.hq_job.specs.JobFields.{FieldsFit};

    ghost Value = { JobValue };

    ghost view = { value_of };

    ghost invariant = { FieldsFit };
}

impl Job {
    ghost use Rattle.hq_job.specs.View.{WithinLimits, PacketIsRead};
    ghost use Rattle.hq_tables.specs.Fits.{TablesFit};
    ghost use Rattle.hq_tables.specs.TablesView.{tables_of};
    ghost use Rattle.hq_job.specs.Ended.{value_of as job_of};
    ghost use Rattle.hq_signals.specs.Table.{IsUndershot, NeverReachesZero};

    /// The job of tables that are complete and have no signal against them.
    ///
    /// # Errors
    ///
    /// `AllocError` where there is no memory.
    pub fn of_tables(alloc: Global, mut tables: Tables) -> Result<Job, AllocError>
        requires fit { TablesFit (tables_of tables) }
        requires enough { All (λ s. ¬ IsUndershot s) tables.signals }
        requires exact { All (λ s. ¬ NeverReachesZero s) tables.signals }
        ensures { IfOk result (λ job. job ≡ job_of (tables_of tables)) }
    {
        let queues = tables.queues.len();
        let firsts = firsts_of(alloc, queues, &tables.placed)?;
        let next = firsts.clone()?;
        let submissions = submissions(alloc, queues, next, &tables.placed)?;
        let placed = mem::replace(&mut tables.placed, Vec::new(alloc));
        let packets = by_number(alloc, queues, !tables.rings, placed)?;
        Ok(Job {
            tables,
            packets,
            firsts,
            submissions,
        })
    }

    /// An equal job.
    ///
    /// # Errors
    ///
    /// `AllocError` where there is no memory.
    pub fn copy(&self, alloc: Global) -> Result<Job, AllocError>
        ensures { IfOk result (λ job. job ≡ self.now) }
    {
        let tables = self.tables.copy(alloc)?;
        let packets = self.packets.clone()?;
        let firsts = self.firsts.clone()?;
        let submissions = self.submissions.clone()?;
        Ok(Job {
            tables,
            packets,
            firsts,
            submissions,
        })
    }

    /// The plan is one that all laws of the model speak of.
    pub fn valid(&self)
        ensures valid { Valid (plan self.now) }
        ensures limits { WithinLimits self.now }
        ensures packets { All (PacketIsRead self.now) self.now.packets }
    {
        let _tables = &self.tables;
    }

    /// Drops the job. In a proof this call is one step, where a drop among others is one for each field of a job.
    pub fn let_go(self) {}

    /// How many agents there are.
    pub fn agents(&self) -> usize
        ensures { result ≡ length self.now.agents }
    {
        self.tables.agents.len()
    }

    /// The names of the agents, in file order.
    pub fn agent_names(&self) -> &[Name]
        ensures { result.now ≡ self.now.agents }
    {
        self.tables.agents.as_slice()
    }

    /// The buffers as the job starts, in file order.
    pub fn buffers(&self) -> &[Block]
        ensures { blocks_of result.now ≡ self.now.buffers }
    {
        self.tables.buffers.as_slice()
    }

    /// The kernarg blocks, in file order.
    pub fn arguments(&self) -> &[Block]
        ensures { blocks_of result.now ≡ self.now.arguments }
    {
        self.tables.arguments.as_slice()
    }

    /// The kernels, in file order.
    pub fn kernels(&self) -> &[Kernel]
        ensures { result.now ≡ self.now.kernels }
    {
        &self.tables.kernels
    }

    /// The queues, in file order.
    pub fn queues(&self) -> &[Queue]
        ensures { result.now ≡ self.now.queues }
    {
        &self.tables.queues
    }

    /// The signals, in file order.
    pub fn signals(&self) -> &SignalTable
        ensures { result.now ≡ self.now.signals }
    {
        &self.tables.signals
    }

    /// The names of the signals, in file order.
    pub fn signal_names(&self) -> &[Name]
        ensures { result.now ≡ self.now.signal_names }
    {
        self.tables.signal_names.as_slice()
    }

    /// The packets, by number.
    pub fn packets(&self) -> &[Placed]
        ensures { result.now ≡ self.now.packets }
    {
        self.packets.as_slice()
    }

    /// The packet of a number.
    pub fn packet(&self, number: usize) -> &Placed
        requires { number < length self.now.packets }
        ensures { planned result.now ≡ packet (plan self.now) number }
    {
        &self.packets[number]
    }

    /// A packet's barrier bit and the scopes of its fences.
    pub fn head(&self, packet: usize) -> Head
        requires { packet < length self.now.packets }
        ensures { result ≡ head_at (plan self.now) packet }
    {
        self.packet(packet).packet.head()
    }

    /// The heads of the packets, by number.
    ///
    /// # Errors
    ///
    /// `AllocError` where there is no memory.
    pub fn heads(&self, alloc: Global) -> Result<Vec<Head>, AllocError>
        ensures { IfOk result (λ heads. heads.items ≡ heads_of self.now) }
    {
        heads::heads_in(alloc, self.packets())
    }

    /// Gives a packet this head. All else is as it was, and no memory is taken.
    pub fn set_head(&mut self, packet: usize, head: Head)
        requires { packet < length self.old.packets }
        ensures value { self.new ≡ job_with_head self.old packet head }
        ensures plan { plan self.new ≡ with_head (plan self.old) packet head }
        ensures same { SameButHeads self.old self.new }
    {
        heads::set_head(&mut self.packets, packet, head);
    }

    /// Gives each packet this head. All else is as it was, and no memory is taken.
    pub fn set_each_head(&mut self, head: Head)
        ensures value { self.new ≡ job_with_each self.old head }
        ensures plan { plan self.new ≡ with_each (plan self.old) head }
        ensures same { SameButHeads self.old self.new }
    {
        heads::set_each_head(&mut self.packets, head);
    }

    /// The numbers of the packets in the order of their submission, which is the order of their lines.
    pub fn submissions(&self) -> &[u16]
        ensures { result.now ≡ self.now.submissions }
    {
        &self.submissions
    }

    /// Whether queues are rings, which may have more packets than slots.
    pub fn rings(&self) -> bool
        ensures { result ≡ self.now.rings }
    {
        self.tables.rings
    }

    /// The number of the byte at an address, if a buffer has it.
    pub fn byte_of(&self, address: u64) -> Option<u32>
        ensures { result ≡ byte_number self.now.buffers address }
    {
        byte_number(self.tables.buffers.as_slice(), address)
    }

    /// The number of the packet at a place of a queue, from 0, if the queue has so many.
    pub fn number(&self, queue: usize, place: usize) -> Option<u16>
        ensures found { (p : ℕ) → (result ≡ Some p) ↔ StandsAt (plan self.now) queue place p }
        ensures none { IsNone result ↔ ((p : ℕ) → ¬ StandsAt (plan self.now) queue place p) }
    {
        let number = number_at(&self.firsts, &self.packets, queue, place)?;
        Some(number as u16)
    }

    /// The numbers of a queue's packets.
    pub fn of_queue(&self, queue: usize) -> Range<usize>
        requires { queue < length self.now.queues }
        ensures { AreOfQueue (plan self.now) queue result.start result.end }
    {
        span_of(&self.firsts, &self.packets, queue)
    }

    /// The bytes of memory as the job starts, by number.
    ///
    /// # Errors
    ///
    /// `AllocError` where there is no memory.
    pub fn memory(&self, alloc: Global) -> Result<Vec<u8>, AllocError>
        ensures { IfOk result (λ bytes. bytes.items ≡ (plan self.now).memory) }
    {
        memory_of(alloc, self.tables.buffers.as_slice())
    }
}
