//! Why a text is no job.

use hq_tables::Reason;
use thiserror::Error;

/// The first fault of a text: its line, from 1, or 0 where no line is at fault, and the reason.
#[derive(Clone, Copy, Debug, PartialEq, Eq, Error)]
#[error("line {line}: {reason}")]
pub struct JobFault {
    pub line: usize,
    pub reason: Reason,
}
