//! Where a byte comes from.

/// Where a byte comes from: memory as the job starts, or the store of a packet.
#[derive(Clone, Copy, Debug, PartialEq, Eq)]
pub enum Origin {
    Start,
    StoredBy { packet: u32 },
}
