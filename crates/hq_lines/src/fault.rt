//! Why a line is no line of a job text.

ghost use Rattle.std.specs.Prelude.{◌≡◌};
ghost use Rattle.hq_lines.specs.declared.fault.LineFault.TheVariants.{Memory};

use hq_packet::PacketFault;
use std::alloc::{AllocError, AllocFailed};
use thiserror::Error;

/// What is wrong with a line by itself.
#[derive(Clone, Copy, Debug, PartialEq, Eq, Error)]
pub enum LineFault {
    #[error("a byte out of range")]
    Byte,
    #[error("a wrong word or a wrong count of words")]
    Word,
    #[error("no number in range")]
    Number,
    #[error("a wrong digit or count of digits")]
    Hex,
    #[error("no packet: {0}")]
    Packet(PacketFault),
    #[error("a queue size that is no power of two")]
    QueueSize,
    #[error("a kernarg block of more than 64 bytes")]
    TooLong,
    #[error("out of memory")]
    Memory,
}

impl From<AllocError> for LineFault {
    ghost from_gives = { λ _ e. e ≡ Memory };

    fn from(_e: AllocError) -> LineFault {
        LineFault::Memory
    }
}

impl<T: Drop> From<AllocFailed<T>> for LineFault {
    ghost from_gives = { λ _ e. e ≡ Memory };

    fn from(_e: AllocFailed<T>) -> LineFault {
        LineFault::Memory
    }
}
