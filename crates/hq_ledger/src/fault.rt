//! Why a grant is refused.

use thiserror::Error;

/// Why a call refused; the grants are then as they were.
#[derive(Clone, Copy, Debug, PartialEq, Eq, Error)]
pub enum GrantFault {
    /// This packet is out, and is the same or conflicts.
    #[error("packet {0} is out, and is the same or conflicts")]
    Overlap(u16),
    /// The packet isn't out.
    #[error("the packet isn't out")]
    NotOut,
    /// There is no memory.
    #[error("out of memory")]
    Memory,
}
