//! Why a call has no work, or no place to do it.

use thiserror::Error;

/// What is wrong with a footprint: a range goes past the last address, 2^64 - 1; a range with a byte lies within no
/// buffer; the kernarg block is shorter than the kernel's arguments; no service has this type.
#[derive(Clone, Copy, Debug, PartialEq, Eq, Error)]
pub enum FootFault {
    #[error("a range passes the last address")]
    Overflow,
    #[error("a range outside the buffers")]
    OutsideBuffer,
    #[error("too few arguments")]
    ArgsShort,
    #[error("unknown service")]
    Service,
}
