//! How large a job may be, for all that keeps its packets or its bytes in sets or lists of a fixed size.

/// How many packets a job has at most.
pub const PACKETS: usize = 1_024;

/// How many bytes its buffers have together at most.
pub const BYTES: usize = 65_536;
