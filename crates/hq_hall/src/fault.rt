//! Why the hall refuses a call.

ghost use Rattle.std.specs.Prelude.{◌≡◌};
ghost use Rattle.hq_hall.specs.declared.fault.HallFault.TheVariants.{Memory};
ghost use Rattle.hq_hall.specs.Faults.{hall_fault};

use hq_machine::StepFault;
use std::alloc::{AllocError, AllocFailed};
use thiserror::Error;

/// Why a call was refused; the hall is then as it was.
#[derive(Clone, Copy, Debug, PartialEq, Eq, Error)]
pub enum HallFault {
    /// The event isn't enabled, or the call comes too early or too late for its packet.
    #[error("the event isn't enabled")]
    NotEnabled,
    /// These aren't the packet's pieces, or what they read isn't what was handed out.
    #[error("these aren't the packet's pieces")]
    WrongPieces,
    /// There is no memory.
    #[error("out of memory")]
    Memory,
}

impl From<AllocError> for HallFault {
    ghost from_gives = { λ _ e. e ≡ Memory };

    fn from(_e: AllocError) -> HallFault {
        HallFault::Memory
    }
}

impl<T: Drop> From<AllocFailed<T>> for HallFault {
    ghost from_gives = { λ _ e. e ≡ Memory };

    fn from(_e: AllocFailed<T>) -> HallFault {
        HallFault::Memory
    }
}

/// What a fault of a step is for the hall.
pub(crate) fn hall_fault(fault: StepFault) -> HallFault
    ensures { result ≡ hall_fault fault }
{
    match fault {
        StepFault::NotEnabled => HallFault::NotEnabled,
        StepFault::Memory => HallFault::Memory,
    }
}
