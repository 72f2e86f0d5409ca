//! Why there is no graph.

ghost use Rattle.std.specs.Prelude.{◌≡◌};
ghost use Rattle.hq_graph.specs.declared.fault.GraphFault.TheVariants.{Memory, Writer};

use hq_waits::OrderFault;
use std::alloc::AllocError;
use std::io;
use thiserror::Error;

/// Why no whole graph was written: there is no memory, and then nothing was written; or the writer failed.
#[derive(Debug, Drop, Error)]
pub enum GraphFault {
    #[error("out of memory")]
    Memory,
    #[error("the writer failed")]
    Writer,
}

impl From<AllocError> for GraphFault {
    ghost from_gives = { λ _ e. e ≡ Memory };

    fn from(_e: AllocError) -> GraphFault {
        GraphFault::Memory
    }
}

/// A `Before` is refused for want of memory alone.
impl From<OrderFault> for GraphFault {
    ghost from_gives = { λ _ e. e ≡ Memory };

    fn from(_e: OrderFault) -> GraphFault {
        GraphFault::Memory
    }
}

impl From<io::Error> for GraphFault {
    ghost from_gives = { λ _ e. e ≡ Writer };

    fn from(_e: io::Error) -> GraphFault {
        GraphFault::Writer
    }
}
