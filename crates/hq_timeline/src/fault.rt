//! Why a text is no journal's.

ghost use Rattle.std.specs.Prelude.{◌≡◌};
ghost use Rattle.hq_timeline.specs.declared.fault.TimeReason.TheVariants.{Memory};

use std::alloc::{AllocError, AllocFailed};
use thiserror::Error;

/// What is wrong with a line.
#[derive(Clone, Copy, Debug, PartialEq, Eq, Error)]
pub enum TimeReason {
    /// E1: an unknown or misplaced first word, a wrong count of words, a line behind the end.
    #[error("a wrong word or a wrong count of words")]
    Word,
    /// E2: a word that is no number up to 4294967295.
    #[error("no number in range")]
    Number,
    /// E3: no end, told of the line behind the last one.
    #[error("no end")]
    NoEnd,
    /// E4: out of memory, told of line 0.
    #[error("out of memory")]
    Memory,
}

/// The first faulty line, counted from 1, and what is wrong with it.
#[derive(Clone, Copy, Debug, PartialEq, Eq, Error)]
#[error("line {line}: {reason}")]
pub struct TimeFault {
    pub line: usize,
    pub reason: TimeReason,
}

impl From<AllocError> for TimeReason {
    ghost from_gives = { λ _ e. e ≡ Memory };

    fn from(_e: AllocError) -> TimeReason {
        TimeReason::Memory
    }
}

impl<T: Drop> From<AllocFailed<T>> for TimeReason {
    ghost from_gives = { λ _ e. e ≡ Memory };

    fn from(_e: AllocFailed<T>) -> TimeReason {
        TimeReason::Memory
    }
}

/// Why the events of a journal don't all happen.
#[derive(Clone, Copy, Debug, PartialEq, Eq, Error)]
pub enum ReplayFault {
    /// The event of this place, counted from 0, isn't enabled after those before it.
    #[error("event {0} isn't enabled")]
    NotEnabled(usize),
    /// There is no memory.
    #[error("out of memory")]
    Memory,
}

impl From<AllocError> for ReplayFault {
    ghost use Rattle.hq_timeline.specs.declared.fault.ReplayFault.TheVariants as stop;

    ghost from_gives = { λ _ e. e ≡ stop.Memory };

    fn from(_e: AllocError) -> ReplayFault {
        ReplayFault::Memory
    }
}
