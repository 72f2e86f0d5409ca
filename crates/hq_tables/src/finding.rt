//! Rows found.

ghost use Rattle.std.specs.Prelude.{◌≡◌, ◌↔◌, ◌≤◌, ◌==◌, map, find, option_copied, position, IsTrue, Contains, Any};
ghost use Rattle.std.specs.List.{list_any};
ghost use Rattle.std.specs.Str.{bytes_eq};
ghost use Rattle.hq_footprint.specs.Bytes.{bytes_of as range_bytes, Share};
ghost use Rattle.hq_tables.specs.Blocks.{blocks_of};
ghost use Rattle.hq_tables.specs.Tables.{names_of, total_of, number_of_name};

use crate::rows::{Block, Kernel, Queue};
use hq_footprint::Range;
use hq_model::BYTES;
use hq_text::Name;

fn any_named(blocks: &[Block], name: Name) -> bool
    ensures { result ≡ list_any (λ b. bytes_eq name b.name) blocks.now }
{
    blocks.iter().any(|block| name == block.name)
}

pub fn has_block(blocks: &[Block], name: Name) -> bool
    ensures { IsTrue result ↔ Contains (names_of (blocks_of blocks.now)) name }
{
    any_named(blocks, name)
}

/// Whether a range has a byte of one of these.
pub fn overlaps_some(ranges: &[Range], range: Range) -> bool
    ensures { IsTrue result ↔ Any (λ r. Share (range_bytes r) (range_bytes range)) ranges.now }
{
    ranges.iter().any(|other| other.overlaps(range))
}

/// How many bytes the blocks have together.
pub fn total_of(blocks: &[Block]) -> usize
    requires { total_of (blocks_of blocks.now) ≤ BYTES }
    ensures { result ≡ total_of (blocks_of blocks.now) }
{
    blocks.iter().map(|block| block.bytes.len()).sum()
}

fn any_kernel_named(kernels: &[Kernel], name: Name) -> bool
    ensures { result ≡ list_any (λ k. bytes_eq name k.name) kernels.now }
{
    kernels.iter().any(|kernel| name == kernel.name)
}

pub fn has_kernel(kernels: &[Kernel], name: Name) -> bool
    ensures { IsTrue result ↔ Contains (map (λ k. k.name) kernels.now) name }
{
    any_kernel_named(kernels, name)
}

pub fn has_object(kernels: &[Kernel], object: u64) -> bool
    ensures { IsTrue result ↔ Any (λ k. k.object ≡ object) kernels.now }
{
    kernels.iter().any(|kernel| kernel.object == object)
}

fn queue_place(queues: &[Queue], name: Name) -> Option<usize>
    ensures { result ≡ position (λ q. bytes_eq name q.name) queues.now }
{
    queues.iter().position(|queue| name == queue.name)
}

pub fn queue_number(queues: &[Queue], name: Name) -> Option<usize>
    ensures { result ≡ number_of_name (map (λ q. q.name) queues.now) name }
{
    queue_place(queues, name)
}

pub fn kernel_at(kernels: &[Kernel], object: u64) -> Option<&Kernel>
    ensures { option_copied result ≡ find (λ k. k.object == object) kernels.now }
{
    kernels.iter().find(|kernel| kernel.object == object)
}
