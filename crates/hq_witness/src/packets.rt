//! What the job says of a packet, of any number.

ghost use Rattle.std.specs.Prelude.{◌≡◌, ◌↔◌, ℕ, ◌<◌, ◌≤◌, Contains, IsTrue, slice_index};
ghost use Rattle.std.specs.List.{flat_map};
ghost use Rattle.hq_footprint.specs.Bytes.{bytes_of};
ghost use Rattle.hq_job.specs.Plan.{plan};
ghost use Rattle.hq_model.specs.Job.{agent_of, packet as packet_of};

use hq_footprint::Range as ByteRange;
use hq_footprint::laws::bytes_bounded;
use hq_job::Job;
use hq_model::BYTES;
use hq_packet::Scope;
use std::ops::Range;

/// The number of the agent of a queue, 0 where there is no such queue.
fn agent_of_queue(job: &Job, queue: u16) -> u32
    ensures { result ≡ slice_index (plan job.now).queues queue }
{
    match job.queues().get(queue as usize) {
        Some(queue) => queue.agent as u32,
        None => 0,
    }
}

/// The number of the agent of a packet's queue; where there is no such packet, that of queue 0.
pub fn agent_of(job: &Job, packet: u32) -> u32
    ensures { result ≡ agent_of (plan job.now) packet }
{
    agent_of_queue(job, queue_of(job, packet))
}

/// The number of a packet's queue, 0 where there is no such packet.
pub fn queue_of(job: &Job, packet: u32) -> u16
    ensures { result ≡ (packet_of (plan job.now) packet).queue }
{
    match job.packets().get(packet as usize) {
        Some(placed) => placed.queue,
        None => 0,
    }
}

/// The scope of a packet's release fence, none where there is no such packet.
pub fn release_of(job: &Job, packet: u32) -> Scope
    ensures { result ≡ (packet_of (plan job.now) packet).release }
{
    match job.packets().get(packet as usize) {
        Some(placed) => placed.packet.head().release,
        None => Scope::None,
    }
}

/// The scope of a packet's acquire fence, none where there is no such packet.
pub fn acquire_of(job: &Job, packet: u32) -> Scope
    ensures { result ≡ (packet_of (plan job.now) packet).acquire }
{
    match job.packets().get(packet as usize) {
        Some(placed) => placed.packet.head().acquire,
        None => Scope::None,
    }
}

/// The numbers of the bytes of a range, as far as a job may have them.
fn numbers(range: ByteRange) -> Range<u32>
    ensures few { result.end ≤ BYTES }
    ensures are { (b : ℕ) → b < BYTES → ((result.start ≤ b) × (b < result.end)) ↔ Contains (bytes_of range) b }
{
    bytes_bounded();
    let most = BYTES as u64;
    let end = range.at.saturating_add(range.len).min(most);
    let start = range.at.min(most);
    start as u32..end as u32
}

/// The numbers of the bytes that a packet writes.
pub fn written(job: &Job, packet: u32) -> Range<u32>
    ensures { (b : ℕ) → ((result.start ≤ b) × (b < result.end)) ↔ Contains (packet_of (plan job.now) packet).writes b }
{
    job.valid();
    match job.packets().get(packet as usize) {
        Some(placed) => numbers(placed.bytes.write),
        None => 0..0,
    }
}

/// Whether a byte is in a range.
fn is_in(range: ByteRange, byte: u32) -> bool
    ensures { IsTrue result ↔ Contains (bytes_of range) byte }
{
    bytes_bounded();
    let byte = byte as u64;
    range.at <= byte && byte - range.at < range.len
}

/// Whether a byte is in one of some ranges.
fn is_in_some(ranges: &[ByteRange], byte: u32) -> bool
    ensures { IsTrue result ↔ Contains (flat_map bytes_of ranges.now) byte }
{
    match ranges.split_first() {
        Some((first, rest)) => is_in(*first, byte) || is_in_some(rest, byte),
        None => false,
    }
}

/// Whether a packet reads a byte.
pub fn reads(job: &Job, packet: u32, byte: u32) -> bool
    ensures { IsTrue result ↔ Contains (packet_of (plan job.now) packet).reads byte }
{
    match job.packets().get(packet as usize) {
        Some(placed) => is_in_some(&placed.bytes.reads, byte),
        None => false,
    }
}

/// Whether a packet writes a byte.
pub fn writes(job: &Job, packet: u32, byte: u32) -> bool
    ensures { IsTrue result ↔ Contains (packet_of (plan job.now) packet).writes byte }
{
    match job.packets().get(packet as usize) {
        Some(placed) => is_in(placed.bytes.write, byte),
        None => false,
    }
}
