//! Where two runs may differ.

/// An entry that a packet reads, or a byte of memory after the run, by their numbers.
#[derive(Clone, Copy, Debug, PartialEq, Eq)]
pub enum Place {
    Read { packet: u32, entry: u32 },
    Memory { byte: u32 },
}
