//! Addresses and byte numbers: the bytes of the buffers laid end to end.

ghost use Rattle.std.specs.Prelude.{◌≡◌, ◌≤◌};
ghost use Rattle.hq_tables.specs.Blocks.{blocks_of};
ghost use Rattle.hq_tables.specs.Tables.{byte_number, in_bytes, range_in_bytes, total_of};

use crate::rows::Block;
use hq_footprint::{Footprint, Range};
use hq_model::BYTES;

/// The number of the byte at an address, if a buffer has it. The buffers have no more bytes in all than a job may.
pub fn byte_number(buffers: &[Block], address: u64) -> Option<u32>
    requires { total_of (blocks_of buffers.now) ≤ BYTES }
    ensures { result ≡ byte_number (blocks_of buffers.now) address }
{
    let mut before: u32 = 0;
    for buffer in buffers {
        let len = buffer.range().len;
        if buffer.at <= address && address - buffer.at < len {
            return Some(before + (address - buffer.at) as u32);
        }
        before += len as u32;
    }
    None
}

/// A range that lies within a buffer, in byte numbers.
pub fn range_in_bytes(buffers: &[Block], range: Range) -> Range
    requires { total_of (blocks_of buffers.now) ≤ BYTES }
    ensures { result ≡ range_in_bytes (blocks_of buffers.now) range }
{
    if range.len == 0 {
        return Range::new(0, 0);
    }
    match byte_number(buffers, range.at) {
        Some(number) => Range::new(number as u64, range.len),
        None => Range::new(0, range.len),
    }
}

/// A footprint whose ranges lie within buffers, in byte numbers.
pub fn in_bytes(buffers: &[Block], foot: Footprint) -> Footprint
    requires { total_of (blocks_of buffers.now) ≤ BYTES }
    ensures { result ≡ in_bytes (blocks_of buffers.now) foot }
{
    let [first, second] = foot.reads;
    Footprint {
        reads: [
            range_in_bytes(buffers, first),
            range_in_bytes(buffers, second),
        ],
        write: range_in_bytes(buffers, foot.write),
    }
}
