//! Why a call of the board does nothing.

ghost use Rattle.std.specs.Prelude.{◌≡◌};
ghost use Rattle.hq_board.specs.declared.fault.BoardFault.TheVariants.{Memory};

use std::alloc::{AllocError, AllocFailed};
use thiserror::Error;

/// Why a call of the board does nothing.
#[derive(Clone, Copy, Debug, Error, PartialEq, Eq)]
pub enum BoardFault {
    /// By the seat's own list, launch order, barrier bits, or the packet's phase forbid it.
    #[error("this isn't what comes next in the seat's queue")]
    NotNext,
    /// The signal's word was this, and not 0.
    #[error("the signal is at {0}, not at 0")]
    NotZero(u64),
    /// By the seat's own list the packet isn't entered, or it is complete.
    #[error("the packet isn't entered, or it is complete")]
    NotEntered,
    /// There is no memory.
    #[error("there is no memory")]
    Memory,
}

impl From<AllocError> for BoardFault {
    ghost from_gives = { λ _ e. e ≡ Memory };

    fn from(_e: AllocError) -> BoardFault {
        BoardFault::Memory
    }
}

impl<T: Drop> From<AllocFailed<T>> for BoardFault {
    ghost from_gives = { λ _ e. e ≡ Memory };

    fn from(_e: AllocFailed<T>) -> BoardFault {
        BoardFault::Memory
    }
}
