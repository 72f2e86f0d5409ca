//! Why there is no picture.

ghost use Rattle.std.specs.Prelude.{◌≡◌};
ghost use Rattle.hq_chart.specs.declared.fault.ChartFault.TheVariants.{Memory, Writer};

use std::alloc::AllocError;
use std::io;
use thiserror::Error;

/// Why no whole picture was written: there is no memory, and then nothing was written; or the writer failed.
#[derive(Debug, Drop, Error)]
pub enum ChartFault {
    #[error("out of memory")]
    Memory,
    #[error("the writer failed")]
    Writer,
}

impl From<AllocError> for ChartFault {
    ghost from_gives = { λ _ e. e ≡ Memory };

    fn from(_e: AllocError) -> ChartFault {
        ChartFault::Memory
    }
}

impl From<io::Error> for ChartFault {
    ghost from_gives = { λ _ e. e ≡ Writer };

    fn from(_e: io::Error) -> ChartFault {
        ChartFault::Writer
    }
}
