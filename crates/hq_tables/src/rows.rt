//! What the lines of a job declare.

ghost use Rattle.std.specs.Prelude.{◌≡◌, IfOk};
ghost use Rattle.hq_tables.specs.Blocks.{bytes_of, blocks_of};
ghost use Rattle.hq_tables.specs.Tables.{range_of};

use hq_footprint::{Code, Footprint, Range, Work};
use hq_packet::Packet;
use hq_text::Name;
use std::alloc::{AllocError, Global};

/// A named run of bytes from an address on: a buffer as the job starts, or a kernarg block.
#[derive(Debug, Drop)]
pub struct Block {
    pub name: Name,
    pub at: u64,
    pub bytes: Vec<u8>,
}

/// A kernel: its name, its object handle, and what it computes.
#[derive(Clone, Copy, Debug)]
pub struct Kernel {
    pub name: Name,
    pub object: u64,
    pub code: Code,
}

/// A queue: its name, the number of its agent, and how many slots it has.
#[derive(Clone, Copy, Debug)]
pub struct Queue {
    pub name: Name,
    pub agent: u16,
    pub size: u16,
}

/// A packet in its queue, with all that it names looked up.
#[derive(Clone, Copy, Debug)]
pub struct Placed {
    /// The number of its queue.
    pub queue: u16,
    /// The packet as its 64 bytes spell it.
    pub packet: Packet,
    /// What it does, in addresses. A barrier packet does nothing.
    pub work: Work,
    /// Its footprint in byte numbers.
    pub bytes: Footprint,
    /// The numbers of its dependency signals, slot by slot, where they aren't null. Only barrier packets have some.
    pub slots: [Option<u16>; 5],
    /// The number of its completion signal, if it has one.
    pub done: Option<u16>,
}

impl Block {
    /// The addresses of its bytes.
    pub(crate) fn range(&self) -> Range
        ensures { result ≡ range_of (bytes_of self.now) }
    {
        Range::new(self.at, self.bytes.len() as u64)
    }

    /// An equal block, with bytes of its own.
    fn copy(&self) -> Result<Block, AllocError>
        ensures { IfOk result (λ block. bytes_of block ≡ bytes_of self.now) }
    {
        Ok(Block {
            name: self.name,
            at: self.at,
            bytes: self.bytes.clone()?,
        })
    }
}

/// Equal blocks, with bytes of their own.
pub fn copied(alloc: Global, blocks: &[Block]) -> Result<Vec<Block>, AllocError>
    ensures { IfOk result (λ copies. blocks_of copies.items ≡ blocks_of blocks.now) }
{
    let mut copies = Vec::with_capacity(alloc, blocks.len())?;
    for block in blocks {
        copies.push(block.copy()?)?;
    }
    Ok(copies)
}
