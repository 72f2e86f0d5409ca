//! Why nothing more is explained.

ghost use Rattle.std.specs.Prelude.{◌≡◌};
ghost use Rattle.hq_explain.specs.declared.fault.ExplainFault.TheVariants.{Memory, Writer};

use hq_waits::OrderFault;
use std::alloc::{AllocError, AllocFailed};
use std::io;
use thiserror::Error;

/// Why an explanation isn't whole: there is no memory, or the writer failed.
#[derive(Debug, Drop, Error)]
pub enum ExplainFault {
    #[error("out of memory")]
    Memory,
    #[error("the writer failed")]
    Writer,
}

impl From<AllocError> for ExplainFault {
    ghost from_gives = { λ _ e. e ≡ Memory };

    fn from(_e: AllocError) -> ExplainFault {
        ExplainFault::Memory
    }
}

impl<T: Drop> From<AllocFailed<T>> for ExplainFault {
    ghost from_gives = { λ _ e. e ≡ Memory };

    fn from(_e: AllocFailed<T>) -> ExplainFault {
        ExplainFault::Memory
    }
}

/// A `Before` is refused for want of memory alone.
impl From<OrderFault> for ExplainFault {
    ghost from_gives = { λ _ e. e ≡ Memory };

    fn from(_e: OrderFault) -> ExplainFault {
        ExplainFault::Memory
    }
}

impl From<io::Error> for ExplainFault {
    ghost from_gives = { λ _ e. e ≡ Writer };

    fn from(_e: io::Error) -> ExplainFault {
        ExplainFault::Writer
    }
}
