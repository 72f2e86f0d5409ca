//! The bytes of memory.

ghost use Rattle.std.specs.Prelude.{◌≡◌, IfOk};
ghost use Rattle.std.specs.List.{flat_map};
ghost use Rattle.hq_tables.specs.Blocks.{blocks_of};

use hq_tables::Block;
use std::alloc::{AllocError, Global};

/// The bytes of the buffers, laid end to end.
#[tactic(auto, using(crate::proofs::MemoryBytes::bytes_next))]
pub fn memory_of(alloc: Global, buffers: &[Block]) -> Result<Vec<u8>, AllocError>
    ensures { IfOk result (λ bytes. bytes.items ≡ flat_map (λ b. b.bytes) (blocks_of buffers.now)) }
{
    let mut memory = Vec::new(alloc);
    for buffer in buffers {
        memory.extend_from_slice(&buffer.bytes)?;
    }
    Ok(memory)
}
