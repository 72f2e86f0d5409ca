//! Why a job has no witness.

ghost use Rattle.std.specs.Prelude.{◌≡◌};
ghost use Rattle.hq_witness.specs.Witness.{no_of};
ghost use Rattle.hq_witness.specs.declared.fault.WitnessNo.TheVariants.{Memory};

use hq_audit::AuditNo;
use hq_finding::{Kind, Why};
use std::alloc::{AllocError, AllocFailed};
use thiserror::Error;

/// Why there is no witness: the job is ordered; packets can never complete, by number, rising; the conflict of
/// packet `p` with packet `r` isn't ordered, and no two runs were found that show it; or there is no memory.
#[derive(Debug, Drop, Error)]
pub enum WitnessNo {
    #[error("the job is ordered")]
    Ordered,
    #[error("packets that can never complete")]
    Stuck(Vec<u16>),
    #[error("packets {p} and {r} are not ordered: {kind} {why}")]
    None {
        p: u16,
        r: u16,
        kind: Kind,
        why: Why,
    },
    #[error("out of memory")]
    Memory,
}

impl From<AuditNo> for WitnessNo {
    ghost from_gives = { λ e no. no ≡ no_of e };

    fn from(e: AuditNo) -> WitnessNo {
        match e {
            AuditNo::Stuck(packets) => WitnessNo::Stuck(packets),
            AuditNo::Conflict { p, r, kind, why } => WitnessNo::None { p, r, kind, why },
            AuditNo::Memory => WitnessNo::Memory,
        }
    }
}

impl From<AllocError> for WitnessNo {
    ghost from_gives = { λ _ e. e ≡ Memory };

    fn from(_e: AllocError) -> WitnessNo {
        WitnessNo::Memory
    }
}

impl<T: Drop> From<AllocFailed<T>> for WitnessNo {
    ghost from_gives = { λ _ e. e ≡ Memory };

    fn from(_e: AllocFailed<T>) -> WitnessNo {
        WitnessNo::Memory
    }
}
