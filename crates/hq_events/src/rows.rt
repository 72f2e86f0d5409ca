//! What a packet has read and stored.

ghost use Rattle.std.specs.Prelude.{◌≡◌, ◌↔◌, ◌<◌, ◌+◌, ◌^◌, ℕ, slice_index, Some, None, true, false, length};
ghost use Rattle.std.specs.Prelude.{replicate, slice_index_or, slice_set, IsTrue, OnOk, OnErr, IfOk, if◌then◌else◌};
ghost use Rattle.hq_events.specs.Rows.{IsRow, NextRow};

use std::alloc::{AllocError, Global};
use std::marker::Model;

/// The bytes that a packet has read; takes no memory before the first.
#[derive(Drop)]
pub struct Reads {
    /// All of them, where they were read at once.
    whole: Vec<u8>,
    /// Else each entry by itself.
    bytes: Vec<Option<u8>>,
    count: usize,
}

impl Model for Reads {
    ghost use Rattle.std.specs.Prelude.{List, Option, ℕ};
    ghost use Rattle.hq_events.specs.RowForms.{entries_read, AreReads};

    ghost Value = { List (Option ℕ) };

    ghost view = { entries_read };

    ghost invariant = { AreReads };
}

impl Reads {
    ghost use Rattle.std.specs.Prelude.{[], count_by, is_some, map};

    /// Nothing read.
    pub fn new(alloc: Global) -> Reads
        ensures { result ≡ [] }
    {
        Reads {
            whole: Vec::new(alloc),
            bytes: Vec::new(alloc),
            count: 0,
        }
    }

    /// All of these read.
    pub fn all(alloc: Global, bytes: Vec<u8>) -> Reads
        ensures { result ≡ map Some bytes.items }
    {
        Reads {
            whole: bytes,
            bytes: Vec::new(alloc),
            count: 0,
        }
    }

    /// All bytes, where they were read at once; else none.
    pub fn whole(&self) -> &[u8]
        ensures { 0 < length result.now → self.now ≡ map Some result.now }
    {
        &self.whole
    }

    /// The byte of an entry, if it was read.
    pub fn get(&self, entry: usize) -> Option<u8>
        ensures { result ≡ slice_index_or self.now entry None }
    {
        if let Some(byte) = self.whole.get(entry) {
            return Some(*byte);
        }
        match self.bytes.get(entry) {
            Some(byte) => *byte,
            None => None,
        }
    }

    /// Whether these bytes were read as the entries from `first` on.
    pub fn has(&self, first: usize, bytes: &[u8]) -> bool
        requires { first + length bytes.now < 2 ^ 64 }
        ensures { IsTrue result
            ↔ ((i : ℕ) → i < length bytes.now
            → slice_index_or self.now (first + i) None ≡ Some (slice_index bytes.now i)) }
    {
        for place in 0..bytes.len() {
            if self.get(first + place) != Some(bytes[place]) {
                return false;
            }
        }
        true
    }

    /// How many entries were read.
    pub fn count(&self) -> usize
        ensures { result ≡ count_by is_some self.now }
    {
        if self.whole.is_empty() {
            self.count
        } else {
            self.whole.len()
        }
    }

    /// Makes room for so many entries, where there is none yet.
    ///
    /// # Errors
    ///
    /// `AllocError` where there is no memory.
    pub fn open(&mut self, total: usize) -> Result<(), AllocError>
        requires { IsRow total self.old }
        ensures room { OnOk result (length self.new ≡ total) }
        ensures same { OnOk result ((i : ℕ) → slice_index_or self.new i None ≡ slice_index_or self.old i None) }
        ensures err { OnErr result (self.new ≡ self.old) }
    {
        if self.whole.is_empty() && self.bytes.is_empty() {
            self.bytes.resize(total, None)?;
        }
        Ok(())
    }

    /// Takes the byte of an entry in.
    pub fn set(&mut self, entry: usize, byte: u8)
        requires there { entry < length self.old }
        requires fresh { slice_index_or self.old entry None ≡ None }
        ensures { self.new ≡ slice_set self.old entry (Some byte) }
    {
        self.bytes[entry] = Some(byte);
        self.count += 1;
    }

    /// Takes the byte of one of so many entries in.
    ///
    /// # Errors
    ///
    /// `AllocError` where there is no memory.
    pub fn take(&mut self, entry: usize, total: usize, byte: u8) -> Result<(), AllocError>
        requires row { IsRow total self.old }
        requires there { entry < total }
        requires fresh { slice_index_or self.old entry None ≡ None }
        ensures ok { OnOk result (NextRow self.old total entry byte self.new) }
        ensures err { OnErr result (self.new ≡ self.old) }
    {
        self.open(total)?;
        self.set(entry, byte);
        Ok(())
    }
}

/// The bytes that a packet stores, and which of them it has stored; takes no memory before the first.
#[derive(Drop)]
pub struct Stores {
    bytes: Vec<u8>,
    /// Of each byte whether it is stored; nothing where all of them are.
    stored: Vec<bool>,
    count: usize,
}

impl Model for Stores {
    ghost use Rattle.hq_events.specs.Rows.{StoresValue};
    ghost use Rattle.hq_events.specs.RowForms.{value_of_stores, AreStoresOf};

    ghost Value = { StoresValue };

    ghost view = { value_of_stores };

    ghost invariant = { AreStoresOf };
}

impl Stores {
    ghost use Rattle.std.specs.Prelude.{count_by, slice_index};
    ghost use Rattle.hq_events.specs.Rows.{no_stores};

    /// Nothing stored.
    pub fn new(alloc: Global) -> Stores
        ensures { result ≡ no_stores }
    {
        Stores {
            bytes: Vec::new(alloc),
            stored: Vec::new(alloc),
            count: 0,
        }
    }

    /// These bytes, none of them stored yet.
    ///
    /// # Errors
    ///
    /// `AllocError` where there is no memory.
    pub fn open(alloc: Global, bytes: Vec<u8>) -> Result<Stores, AllocError>
        ensures { IfOk result (λ s. s ≡ record { bytes = bytes.items; stored = replicate (length bytes.items) false }) }
    {
        let stored = vec![in alloc; false; bytes.len()]?;
        Ok(Stores {
            bytes,
            stored,
            count: 0,
        })
    }

    /// These bytes, all of them stored.
    pub fn whole(alloc: Global, bytes: Vec<u8>) -> Stores
        ensures { result ≡ record { bytes = bytes.items; stored = replicate (length bytes.items) true } }
    {
        Stores {
            bytes,
            stored: Vec::new(alloc),
            count: 0,
        }
    }

    /// The bytes.
    pub fn bytes(&self) -> &[u8]
        ensures { result.now ≡ self.now.bytes }
    {
        &self.bytes
    }

    /// Whether there is no byte yet.
    pub fn is_empty(&self) -> bool
        ensures { IsTrue result ↔ (length self.now.stored ≡ 0) }
    {
        self.bytes.is_empty()
    }

    /// A byte that the packet stores.
    pub fn byte(&self, entry: usize) -> u8
        requires { entry < length self.now.bytes }
        ensures { result ≡ slice_index self.now.bytes entry }
    {
        self.bytes[entry]
    }

    /// Whether the byte is stored.
    pub fn is_stored(&self, entry: usize) -> bool
        ensures { result ≡ slice_index_or self.now.stored entry false }
    {
        if self.stored.is_empty() {
            return entry < self.bytes.len();
        }
        match self.stored.get(entry) {
            Some(stored) => *stored,
            None => false,
        }
    }

    /// How many bytes are stored.
    pub fn count(&self) -> usize
        ensures { result ≡ count_by (λ b. b) self.now.stored }
    {
        if self.stored.is_empty() {
            self.bytes.len()
        } else {
            self.count
        }
    }

    /// The byte is stored.
    pub fn set(&mut self, entry: usize)
        requires there { entry < length self.old.stored }
        requires fresh { slice_index_or self.old.stored entry false ≡ false }
        ensures { self.new ≡ record self.old { stored = slice_set self.old.stored entry true } }
    {
        self.stored[entry] = true;
        self.count += 1;
    }
}
