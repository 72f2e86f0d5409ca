//! The parts of heads at their levels.

ghost use Rattle.std.specs.Prelude.{◌≡◌, ◌↔◌, IsTrue, MatchOption};
ghost use Rattle.hq_model.specs.Settings.{lowered, scope_below};
ghost use Rattle.hq_change.specs.Levels.{IsAt, IsLowered, Stays, ahead_of, part_of};

use crate::heads::is_at_or_above;
use hq_packet::{Head, Scope};

/// A part of a head at a level from which it may go one lower, the dearest first.
#[derive(Clone, Copy, Debug, PartialEq, Eq)]
pub enum Level {
    ReleaseSystem,
    AcquireSystem,
    ReleaseAgent,
    AcquireAgent,
    Bit,
}

/// The scope one level lower.
fn below(scope: Scope) -> Scope
    ensures { result ≡ scope_below scope }
{
    match scope {
        Scope::System => Scope::Agent,
        Scope::Agent | Scope::None => Scope::None,
    }
}

/// How many levels there are.
pub const LEVELS: usize = 5;

impl Level {
    /// How many levels go first.
    pub fn ahead(self) -> usize
        ensures { result ≡ ahead_of self }
    {
        match self {
            Level::ReleaseSystem => 0,
            Level::AcquireSystem => 1,
            Level::ReleaseAgent => 2,
            Level::AcquireAgent => 3,
            Level::Bit => 4,
        }
    }

    /// Whether a head's part stands at this level.
    fn is_at(self, head: Head) -> bool
        ensures { IsTrue result ↔ IsAt self head }
    {
        match self {
            Level::ReleaseSystem => head.release == Scope::System,
            Level::AcquireSystem => head.acquire == Scope::System,
            Level::ReleaseAgent => head.release == Scope::Agent,
            Level::AcquireAgent => head.acquire == Scope::Agent,
            Level::Bit => head.barrier,
        }
    }

    /// The head with this part one level lower.
    fn lowered(self, head: Head) -> Head
        ensures { result ≡ lowered (part_of self) head }
    {
        match self {
            Level::ReleaseSystem | Level::ReleaseAgent => Head {
                release: below(head.release),
                ..head
            },
            Level::AcquireSystem | Level::AcquireAgent => Head {
                acquire: below(head.acquire),
                ..head
            },
            Level::Bit => Head {
                barrier: false,
                ..head
            },
        }
    }

    /// The head with this part one level lower, where it stands at this level and that isn't below the floor.
    pub fn lower(self, head: Head, floor: Head) -> Option<Head>
        ensures { MatchOption result (Stays self floor head) (IsLowered self floor head) }
    {
        if !self.is_at(head) {
            return None;
        }
        let lowered = self.lowered(head);
        if is_at_or_above(lowered, floor) {
            Some(lowered)
        } else {
            None
        }
    }
}
