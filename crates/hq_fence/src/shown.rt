//! What is answered of two packets, `p` and `r`, with `p` first.

use hq_finding::{Kind, Why};

/// The packets whose release fences release `p`, by number: one alone; or one that releases to its agent, and a
/// later one on that agent that releases to the system.
#[derive(Clone, Copy, Debug, PartialEq, Eq)]
pub enum Release {
    Alone(u16),
    Chained(u16, u16),
}

/// The packets whose acquire fences acquire for `r`, by number: one alone; or one that acquires from the system,
/// and a later one on the same agent that acquires from its agent.
#[derive(Clone, Copy, Debug, PartialEq, Eq)]
pub enum Acquire {
    Alone(u16),
    Chained(u16, u16),
}

/// Of each kind of conflict that there is, the packets whose fences order it.
#[derive(Clone, Copy, Debug, PartialEq, Eq)]
pub struct Shown {
    /// Where `p` writes what `r` reads: how `p` is released, and how `r` acquires after that.
    pub wr: Option<(Release, Acquire)>,
    /// Where both write: how `p` is released before `r`.
    pub ww: Option<Release>,
    /// Whether `p` reads what `r` writes. No fence is needed for that.
    pub rw: bool,
}

/// A conflict that isn't ordered, and why.
#[derive(Clone, Copy, Debug, PartialEq, Eq)]
pub struct NotShown {
    pub kind: Kind,
    pub why: Why,
}
