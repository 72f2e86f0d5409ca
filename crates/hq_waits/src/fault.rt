//! Why a job has no order list.

ghost use Rattle.std.specs.Prelude.{◌≡◌};
ghost use Rattle.hq_waits.specs.declared.fault.OrderFault.TheVariants.{Memory};

use std::alloc::{AllocError, AllocFailed};
use thiserror::Error;

/// Why no order list is answered.
#[derive(Debug, Drop, Error)]
pub enum OrderFault {
    #[error("packets that can never complete")]
    Stuck(Vec<u16>),
    #[error("out of memory")]
    Memory,
}

impl From<AllocError> for OrderFault {
    ghost from_gives = { λ _ e. e ≡ Memory };

    fn from(_e: AllocError) -> OrderFault {
        OrderFault::Memory
    }
}

impl<T: Drop> From<AllocFailed<T>> for OrderFault {
    ghost from_gives = { λ _ e. e ≡ Memory };

    fn from(_e: AllocFailed<T>) -> OrderFault {
        OrderFault::Memory
    }
}
