//! Why a processor ended.

/// Why a processor ended.
#[derive(Clone, Copy, Debug, PartialEq, Eq)]
pub enum Fault {
    /// There is no memory.
    Memory,
    /// The packet's body refused a piece, faulted, or gave other pieces back.
    Kernel(u16),
    /// Board and hall don't tell the same run: one of them alone took an event.
    Split,
    /// Another processor met a fault, or what this one was given doesn't fit the job.
    Stopped,
}
