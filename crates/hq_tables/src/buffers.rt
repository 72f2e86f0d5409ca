//! Buffers.

ghost use Rattle.std.specs.Prelude.{◌≡◌, ◌↔◌, ◌≤◌, [], ◌∷◌, ◌++◌, length, map, Any, Contains, IsTrue, IfOk};
ghost use Rattle.std.specs.Prelude.{OnErr, OnOk};
ghost use Rattle.hq_footprint.specs.Bytes.{bytes_of as range_bytes, Share};
ghost use Rattle.hq_tables.specs.Blocks.{bytes_of, blocks_of};
ghost use Rattle.hq_tables.specs.Tables.{names_of, range_of, total_of};

use crate::finding::{has_block, overlaps_some, total_of};
use crate::rows::{Block, copied};
use hq_footprint::Range;
use hq_model::BYTES;
use hq_text::Name;
use std::alloc::{AllocError, Global};
use std::marker::Model;

/// A job's buffers, in the order of their lines, and where their bytes lie.
///
/// A contract sees them as the list of the buffers.
#[derive(Drop)]
pub struct Buffers {
    rows: Vec<Block>,
    ranges: Vec<Range>,
}

impl Model for Buffers {
    ghost use Rattle.std.specs.Prelude.{◌≡◌, List, map};
    ghost use Rattle.hq_tables.specs.Blocks.{Bytes, blocks_of};
    ghost use Rattle.hq_tables.specs.Tables.{range_of};

    ghost Value = { List Bytes };

    ghost view = { λ b. blocks_of b.rows.items };

    ghost invariant = { λ b. b.ranges.items ≡ map range_of (blocks_of b.rows.items) };
}

impl Buffers {
    /// No buffers. They take no memory.
    pub fn new(alloc: Global) -> Buffers
        ensures { result ≡ [] }
    {
        Buffers {
            rows: Vec::new(alloc),
            ranges: Vec::new(alloc),
        }
    }

    /// Equal buffers, with bytes of their own.
    ///
    /// # Errors
    ///
    /// `AllocError` where there is no memory.
    pub fn copy(&self, alloc: Global) -> Result<Buffers, AllocError>
        ensures { IfOk result (λ b. b ≡ self.now) }
    {
        Ok(Buffers {
            rows: copied(alloc, &self.rows)?,
            ranges: self.ranges.clone()?,
        })
    }

    /// The buffers, in the order of their lines.
    pub fn as_slice(&self) -> &[Block]
        ensures { blocks_of result.now ≡ self.now }
    {
        &self.rows
    }

    /// The range of addresses of each.
    pub fn ranges(&self) -> &[Range]
        ensures { result.now ≡ map range_of self.now }
    {
        &self.ranges
    }

    /// How many there are.
    pub fn len(&self) -> usize
        ensures { result ≡ length self.now }
    {
        self.rows.len()
    }

    /// How many bytes they have together.
    pub fn total(&self) -> usize
        requires { total_of self.now ≤ BYTES }
        ensures { result ≡ total_of self.now }
    {
        total_of(&self.rows)
    }

    /// Whether one has this name.
    pub fn has_name(&self, name: Name) -> bool
        ensures { IsTrue result ↔ Contains (names_of self.now) name }
    {
        has_block(&self.rows, name)
    }

    /// Whether one has a byte of this range.
    pub fn overlaps(&self, range: Range) -> bool
        ensures { IsTrue result ↔ Any (λ b. Share (range_bytes (range_of b)) (range_bytes range)) self.now }
    {
        overlaps_some(&self.ranges, range)
    }

    /// Adds a buffer.
    ///
    /// # Errors
    ///
    /// `AllocError` where there is no memory; then the buffers stay as they were.
    pub fn add(&mut self, buffer: Block) -> Result<(), AllocError>
        ensures ok { OnOk result (self.new ≡ self.old ++ bytes_of buffer ∷ []) }
        ensures err { OnErr result (self.new ≡ self.old) }
    {
        let range = buffer.range();
        self.ranges.reserve(1)?;
        self.rows.push(buffer)?;
        self.ranges.push(range)?;
        Ok(())
    }
}
