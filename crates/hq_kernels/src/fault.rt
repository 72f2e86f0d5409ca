//! Why a body didn't run.

use thiserror::Error;

/// Why a body didn't do its task: it lacks a piece, or the lengths of its pieces don't fit; or it refused a piece,
/// or to run.
#[derive(Clone, Copy, Debug, PartialEq, Eq, Error)]
pub enum KernelFault {
    #[error("a piece is missing, or the lengths don't fit")]
    Missing,
    #[error("the body refused")]
    Refused,
}
