//! Why a line, or a text, is refused.

ghost use Rattle.std.specs.Prelude.{◌≡◌};
ghost use Rattle.hq_tables.specs.declared.fault.Reason.TheVariants.{Memory};

use hq_footprint::FootFault;
use hq_lines::LineFault;
use hq_packet::PacketFault;
use std::alloc::{AllocError, AllocFailed};
use thiserror::Error;

/// What is wrong with a line, or with the text as a whole.
#[derive(Clone, Copy, Debug, PartialEq, Eq, Error)]
pub enum Reason {
    #[error("a byte out of range")]
    Byte,
    #[error("an unknown or misplaced word, or a wrong count of words")]
    Word,
    #[error("no number, or one out of range")]
    Number,
    #[error("a limit is passed")]
    Limit,
    #[error("declared already")]
    Duplicate,
    #[error("not declared")]
    Unknown,
    #[error("a buffer over an earlier one")]
    BufferOverlap,
    #[error("no packet: {0}")]
    Packet(PacketFault),
    #[error("a wrong digit or count of digits")]
    Hex,
    #[error("a queue size that is no power of two")]
    QueueSize,
    #[error("more packets than slots")]
    QueueFull,
    #[error("an object, address or signal that is not declared")]
    Handle,
    #[error("a footprint that is refused: {0}")]
    Footprint(FootFault),
    #[error("a barrier-OR without a dependency")]
    NullOr,
    #[error("signal {0} has more decrementers than its start")]
    Undershoot(u64),
    #[error("signal {0} is waited on and never reaches zero")]
    NeverZero(u64),
    #[error("an unknown type of service")]
    Service,
    #[error("no end")]
    NoEnd,
    #[error("too many work-items")]
    Items,
    #[error("the reader failed or passed its turns")]
    Read,
    #[error("out of memory")]
    Memory,
}

impl From<AllocError> for Reason {
    ghost from_gives = { λ _ e. e ≡ Memory };

    fn from(_e: AllocError) -> Reason {
        Reason::Memory
    }
}

impl<T: Drop> From<AllocFailed<T>> for Reason {
    ghost from_gives = { λ _ e. e ≡ Memory };

    fn from(_e: AllocFailed<T>) -> Reason {
        Reason::Memory
    }
}

impl From<LineFault> for Reason {
    ghost use Rattle.hq_tables.specs.LineFaults.{reason_of};

    ghost from_gives = { λ f e. e ≡ reason_of f };

    fn from(fault: LineFault) -> Reason {
        match fault {
            LineFault::Byte => Reason::Byte,
            LineFault::Word => Reason::Word,
            LineFault::Number => Reason::Number,
            LineFault::Hex => Reason::Hex,
            LineFault::Packet(fault) => Reason::Packet(fault),
            LineFault::QueueSize => Reason::QueueSize,
            LineFault::TooLong => Reason::Limit,
            LineFault::Memory => Reason::Memory,
        }
    }
}
