//! Which pairs of packets are told of.

/// The pairs that are told of: the first hundred that conflict, all that do, or one.
#[derive(Clone, Copy, Debug, PartialEq, Eq)]
pub enum Which {
    First,
    All,
    Pair(usize, usize),
}
