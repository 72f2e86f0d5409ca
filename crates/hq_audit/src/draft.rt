//! Pair lines, before the lines that they cite have numbers.

ghost use Rattle.std.specs.Prelude.{◌≡◌};
ghost use Rattle.hq_audit.specs.Drafted.{is_chained};

use hq_fence::{Acquire, Release};

/// What orders a conflict, by its kind: the packets whose fences order it.
#[derive(Clone, Copy, Debug)]
pub enum Means {
    /// No fence is needed.
    ReadWrite,
    /// How the first packet is released.
    WriteWrite(Release),
    /// How the first packet is released, and how the second acquires.
    WriteRead(Release, Acquire),
}

/// A conflict of packet p with packet r, p first, and what orders it.
#[derive(Clone, Copy, Debug)]
pub struct Draft {
    pub p: u16,
    pub r: u16,
    pub means: Means,
}

impl Means {
    /// Whether a fence goes on from another.
    #[inline(always)]
    pub fn is_chained(self) -> bool
        ensures { result ≡ is_chained self }
    {
        match self {
            Means::ReadWrite => false,
            Means::WriteWrite(Release::Alone(_)) => false,
            Means::WriteRead(Release::Alone(_), Acquire::Alone(_)) => false,
            Means::WriteWrite(Release::Chained(_, _)) => true,
            Means::WriteRead(_, _) => true,
        }
    }
}
