//! How much a job may have, but for packets and bytes, which `hq_model` limits. Each limit is named once, and the
//! definitions of this crate and of those above cite it.

/// How many agents.
pub const AGENTS: usize = 16;

/// How many queues.
pub const QUEUES: usize = 32;

/// How many buffers.
pub const BUFFERS: usize = 64;

/// How many signals.
pub const SIGNALS: usize = 1_024;

/// How many kernels.
pub const KERNELS: usize = 64;

/// How many kernarg blocks.
pub const BLOCKS: usize = 256;

/// How many work-items a kernel has.
pub const ITEMS: u128 = 65_536;
