//! Who hears how far a change has come.

/// Hears how far a change has come, so that a long one can be told of while it goes on.
pub trait Watch {
    /// Of all parts of heads, five for each packet, so many are settled.
    fn settled(&self, done: usize, all: usize);
}

/// A watch that says nothing.
pub struct Unwatched;

impl Watch for Unwatched {
    fn settled(&self, _done: usize, _all: usize) {}
}
