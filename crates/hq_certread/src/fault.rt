//! Why a text is no certificate's.

ghost use Rattle.std.specs.Prelude.{◌≡◌};
ghost use Rattle.hq_certread.specs.declared.fault.CertReason.TheVariants.{Memory};

use std::alloc::{AllocError, AllocFailed};
use thiserror::Error;

/// What is wrong with a line.
#[derive(Clone, Copy, Debug, PartialEq, Eq, Error)]
pub enum CertReason {
    /// K1: an unknown or misplaced first word, an unknown rule or kind, a wrong count of words, a line behind the end.
    #[error("a wrong word or a wrong count of words")]
    Word,
    /// K2: a word that is no number up to 4294967295, a line's number that isn't the next.
    #[error("no number in range")]
    Number,
    /// K3: a line that cites itself or a later one, a pair line that cites a line that isn't there.
    #[error("a citation of a line that isn't there")]
    Citation,
    /// K4: no end, told of the line behind the last one.
    #[error("no end")]
    NoEnd,
    /// K5: out of memory, told of line 0.
    #[error("out of memory")]
    Memory,
}

/// The first faulty line, counted from 1, and what is wrong with it.
#[derive(Clone, Copy, Debug, PartialEq, Eq, Error)]
#[error("line {line}: {reason}")]
pub struct CertFault {
    pub line: usize,
    pub reason: CertReason,
}

impl From<AllocError> for CertReason {
    ghost from_gives = { λ _ e. e ≡ Memory };

    fn from(_e: AllocError) -> CertReason {
        CertReason::Memory
    }
}

impl<T: Drop> From<AllocFailed<T>> for CertReason {
    ghost from_gives = { λ _ e. e ≡ Memory };

    fn from(_e: AllocFailed<T>) -> CertReason {
        CertReason::Memory
    }
}
