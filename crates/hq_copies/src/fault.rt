//! Why a call refused.

ghost use Rattle.std.specs.Prelude.{◌≡◌};
ghost use Rattle.hq_copies.specs.declared.fault.CopiesFault.TheVariants.{Memory};

use std::alloc::{AllocError, AllocFailed};
use thiserror::Error;

/// Why a call refused; the copies are then as they were.
#[derive(Clone, Copy, Debug, PartialEq, Eq, Error)]
pub enum CopiesFault {
    /// The byte isn't dirty there, so it can't be pushed.
    #[error("the byte isn't dirty there")]
    NotDirty,
    /// The byte isn't clean there, so it can't be dropped.
    #[error("the byte isn't clean there")]
    NotClean,
    /// The byte is there, so it can't be filled.
    #[error("the byte is there")]
    Present,
    /// There is no memory.
    #[error("out of memory")]
    Memory,
}

impl From<AllocError> for CopiesFault {
    ghost from_gives = { λ _ e. e ≡ Memory };

    fn from(_e: AllocError) -> CopiesFault {
        CopiesFault::Memory
    }
}

impl<T: Drop> From<AllocFailed<T>> for CopiesFault {
    ghost from_gives = { λ _ e. e ≡ Memory };

    fn from(_e: AllocFailed<T>) -> CopiesFault {
        CopiesFault::Memory
    }
}
