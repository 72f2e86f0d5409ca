//! What packets wait for.

/// How a packet waits for another: which stands right ahead of it, has its slot of the ring, completes on a signal
/// that it waits for, by the signal's number, or is to be submitted right ahead of it and never is.
#[derive(Clone, Copy, Debug)]
pub enum Wait {
    Ahead,
    Slot,
    Signal(u16),
    Turn,
}
