//! Kernarg blocks.

ghost use Rattle.std.specs.Prelude.{◌≡◌, ◌↔◌, [], ◌∷◌, ◌++◌, find, length, ◌==◌, Any, Contains, IsTrue, IfOk};
ghost use Rattle.std.specs.Prelude.{OnErr, OnOk};
ghost use Rattle.std.specs.Option.{option_map};
ghost use Rattle.hq_tables.specs.Blocks.{bytes_of, blocks_of};
ghost use Rattle.hq_tables.specs.Tables.{names_of};

use crate::rows::{Block, copied};
use hq_text::Name;
use indexmap::IndexSet;
use std::alloc::{AllocError, Global};
use std::marker::Model;

/// A job's kernarg blocks, in the order of their lines. Each is found by its name, and by its address, without a look
/// at the others.
///
/// A contract sees them as the list of the blocks, without where their bytes lie in memory.
#[derive(Drop)]
pub struct Arguments {
    rows: Vec<Block>,
    names: IndexSet<Name>,
    addresses: IndexSet<u64>,
}

impl Model for Arguments {
    ghost use Rattle.std.specs.Prelude.{◌≡◌, List};
    ghost use Rattle.hq_tables.specs.Blocks.{Bytes, blocks_of};
    ghost use Rattle.hq_tables.specs.Tables.{names_of, addresses_of};

    ghost Value = { List Bytes };

    ghost view = { λ a. blocks_of a.rows.items };

    ghost invariant = { λ a. (a.names.keys ≡ names_of (blocks_of a.rows.items))
        × (a.addresses.keys ≡ addresses_of (blocks_of a.rows.items)) };
}

impl Arguments {
    /// No blocks. They take no memory.
    pub fn new(alloc: Global) -> Arguments
        ensures { result ≡ [] }
    {
        Arguments {
            rows: Vec::new(alloc),
            names: IndexSet::new(alloc),
            addresses: IndexSet::new(alloc),
        }
    }

    /// Equal blocks, with bytes of their own.
    ///
    /// # Errors
    ///
    /// `AllocError` where there is no memory.
    pub fn copy(&self, alloc: Global) -> Result<Arguments, AllocError>
        ensures { IfOk result (λ a. a ≡ self.now) }
    {
        Ok(Arguments {
            rows: copied(alloc, &self.rows)?,
            names: self.names.clone()?,
            addresses: self.addresses.clone()?,
        })
    }

    /// The blocks, in the order of their lines.
    pub fn as_slice(&self) -> &[Block]
        ensures { blocks_of result.now ≡ self.now }
    {
        &self.rows
    }

    /// How many there are.
    pub fn len(&self) -> usize
        ensures { result ≡ length self.now }
    {
        self.rows.len()
    }

    /// Whether one has this name.
    pub fn has_name(&self, name: Name) -> bool
        ensures { IsTrue result ↔ Contains (names_of self.now) name }
    {
        self.names.contains(&name)
    }

    /// Whether one lies at this address.
    pub fn has_address(&self, at: u64) -> bool
        ensures { IsTrue result ↔ Any (λ b. b.at ≡ at) self.now }
    {
        self.addresses.contains(&at)
    }

    /// The block at this address, if one lies there.
    pub fn at(&self, address: u64) -> Option<&Block>
        ensures { option_map (λ b. bytes_of b.now) result ≡ find (λ b. b.at == address) self.now }
    {
        let place = self.addresses.get_index_of(&address)?;
        Some(&self.rows[place])
    }

    /// Adds a block whose name and whose address no other has.
    ///
    /// # Errors
    ///
    /// `AllocError` where there is no memory; then the blocks stay as they were.
    pub fn add(&mut self, block: Block) -> Result<(), AllocError>
        requires name { ¬ Contains (names_of self.old) block.name }
        requires address { ¬ Any (λ b. b.at ≡ block.at) self.old }
        ensures ok { OnOk result (self.new ≡ self.old ++ bytes_of block ∷ []) }
        ensures err { OnErr result (self.new ≡ self.old) }
    {
        self.names.reserve(1)?;
        self.addresses.reserve(1)?;
        let (name, at) = (block.name, block.at);
        self.rows.push(block)?;
        self.names.insert(name)?;
        self.addresses.insert(at)?;
        Ok(())
    }
}
