//! What can be wrong with a signal.

use thiserror::Error;

/// A decrement of a signal whose value is 0.
#[derive(Clone, Copy, Debug, PartialEq, Eq, Error)]
#[error("a decrement of a signal whose value is 0")]
pub struct Undershoot;

/// What is wrong with a table of signals. Each fault names a signal by its handle.
#[derive(Clone, Copy, Debug, PartialEq, Eq, Error)]
pub enum SignalFault {
    /// More packets complete on the signal than it starts with.
    #[error("signal {0} has more decrementers than its start")]
    Undershoot(u64),
    /// A barrier waits on the signal, and fewer packets complete on it than it starts with.
    #[error("signal {0} is waited on and never reaches 0")]
    NeverZero(u64),
}
