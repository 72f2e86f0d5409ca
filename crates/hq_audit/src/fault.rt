//! Why a job has no certificate.

ghost use Rattle.std.specs.Prelude.{◌≡◌};
ghost use Rattle.hq_audit.specs.Refused.{no_of_order, no_of_pair};
ghost use Rattle.hq_audit.specs.declared.fault.AuditNo.TheVariants.{Memory};

use crate::directed::Unshown;
use hq_finding::{Kind, Why};
use hq_waits::OrderFault;
use std::alloc::{AllocError, AllocFailed};
use thiserror::Error;

/// Why a job has no certificate: packets can never complete, by number, rising; a conflict of packet `p` with
/// packet `r`, `p` first, isn't ordered, and why; or there is no memory.
#[derive(Debug, Drop, Error)]
pub enum AuditNo {
    #[error("packets that can never complete")]
    Stuck(Vec<u16>),
    #[error("packets {p} and {r} are not ordered: {kind} {why}")]
    Conflict {
        p: u16,
        r: u16,
        kind: Kind,
        why: Why,
    },
    #[error("out of memory")]
    Memory,
}

impl From<OrderFault> for AuditNo {
    ghost from_gives = { λ e no. no ≡ no_of_order e };

    fn from(e: OrderFault) -> AuditNo {
        match e {
            OrderFault::Stuck(packets) => AuditNo::Stuck(packets),
            OrderFault::Memory => AuditNo::Memory,
        }
    }
}

impl From<Unshown> for AuditNo {
    ghost from_gives = { λ e no. no ≡ no_of_pair e };

    fn from(e: Unshown) -> AuditNo {
        AuditNo::Conflict {
            p: e.p,
            r: e.r,
            kind: e.fault.kind,
            why: e.fault.why,
        }
    }
}

impl From<AllocError> for AuditNo {
    ghost from_gives = { λ _ e. e ≡ Memory };

    fn from(_e: AllocError) -> AuditNo {
        AuditNo::Memory
    }
}

impl<T: Drop> From<AllocFailed<T>> for AuditNo {
    ghost from_gives = { λ _ e. e ≡ Memory };

    fn from(_e: AllocFailed<T>) -> AuditNo {
        AuditNo::Memory
    }
}
