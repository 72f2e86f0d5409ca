//! Laws of tables. Each is the contract of a function with an empty body.

ghost use Rattle.std.specs.Prelude.{◌≡◌};

use crate::limits::{AGENTS, BLOCKS, BUFFERS, ITEMS, KERNELS, QUEUES, SIGNALS};
use hq_model::{BYTES, PACKETS};

/// The limits of jobs, as the format has them.
pub fn limits()
    ensures agents { AGENTS ≡ 16 }
    ensures queues { QUEUES ≡ 32 }
    ensures packets { PACKETS ≡ 1024 }
    ensures buffers { BUFFERS ≡ 64 }
    ensures bytes { BYTES ≡ 65536 }
    ensures signals { SIGNALS ≡ 1024 }
    ensures kernels { KERNELS ≡ 64 }
    ensures blocks { BLOCKS ≡ 256 }
    ensures items { ITEMS ≡ 65536 }
{}
