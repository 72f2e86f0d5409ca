//! Why a certificate isn't accepted.

ghost use Rattle.std.specs.Prelude.{◌≡◌};
ghost use Rattle.hq_certcheck.specs.declared.fault.CheckNo.TheVariants.{Memory};

use std::alloc::{AllocError, AllocFailed};
use thiserror::Error;

/// Why a certificate isn't accepted: `BadOrder` where its order is no order list of the job; `BadLine` with the
/// least line that doesn't hold; `PairMissing` with the first conflicting packets, in number order, that lack pair
/// lines in both directions; `BadPair` with the packets of the first pair line that doesn't hold; `Memory` where
/// there is none.
#[derive(Debug, Drop, Error)]
pub enum CheckNo {
    #[error("the order isn't one of the job's")]
    BadOrder,
    #[error("line {0} doesn't hold")]
    BadLine(usize),
    #[error("packets {0} and {1} conflict, and have no pair lines")]
    PairMissing(u16, u16),
    #[error("the pair line of packets {0} and {1} doesn't hold")]
    BadPair(u32, u32),
    #[error("out of memory")]
    Memory,
}

impl From<AllocError> for CheckNo {
    ghost from_gives = { λ _ e. e ≡ Memory };

    fn from(_e: AllocError) -> CheckNo {
        CheckNo::Memory
    }
}

impl<T: Drop> From<AllocFailed<T>> for CheckNo {
    ghost from_gives = { λ _ e. e ≡ Memory };

    fn from(_e: AllocFailed<T>) -> CheckNo {
        CheckNo::Memory
    }
}
