//! How much a line may say. Each limit is named here, and the definitions of this crate cite it.

/// How many slots a queue has at most.
pub const SLOTS: u64 = 1_024;

/// How many bytes a buffer has at most.
pub const BUFFER: u64 = 65_536;

/// How many bytes a kernarg block has at most.
pub const BLOCK: usize = 64;
