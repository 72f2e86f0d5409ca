//! What the job says of a packet.

ghost use Rattle.std.specs.Prelude.{◌≡◌, ◌+◌, ◌<◌, ◌≤◌, ◌↔◌, ℕ, Some, IfSome, MatchOption, All, slice_get, slice_index};
ghost use Rattle.std.specs.Prelude.{IfOk, length};
ghost use Rattle.std.specs.List.{flat_map};
ghost use Rattle.hq_footprint.specs.Bytes.{bytes_of};
ghost use Rattle.hq_footprint.specs.Tasks.{Suits};
ghost use Rattle.hq_job.specs.Plan.{plan};
ghost use Rattle.hq_model.specs.Job.{IsPacket, Dependency, agent_of, packet};
ghost use Rattle.hq_events.specs.Packets.{AllAre, IsEntry};
ghost use Rattle.hq_model.specs.Machine.{IsByte};

use hq_footprint::laws::{bytes_counted, entries_counted};
use hq_footprint::{Range as ByteRange, Task};
use hq_job::Job;
use hq_model::BYTES;
use std::alloc::{AllocError, Global};

/// The signal of a slot of the packet, if the slot isn't null.
pub fn dependency(job: &Job, number: usize, slot: usize) -> Option<u16>
    requires { IsPacket (plan job.now) number }
    ensures found { (s : ℕ) → (result ≡ Some s) ↔ Dependency (plan job.now) number slot s }
    ensures few { IfSome result (λ s. slot < 5) }
{
    match job.packet(number).slots.get(slot) {
        Some(signal) => *signal,
        None => None,
    }
}

/// How many slots for dependencies the packet has.
pub fn slot_count(job: &Job, number: usize) -> usize
    requires { IsPacket (plan job.now) number }
    ensures { result ≡ length (packet (plan job.now) number).deps }
{
    job.slots(number).len()
}

/// How many bytes the packet writes.
pub fn write_count(job: &Job, number: usize) -> usize
    requires { IsPacket (plan job.now) number }
    ensures { result ≡ length (packet (plan job.now) number).writes }
{
    bytes_counted();
    job.packet(number).bytes.write.len as usize
}

/// How many entries the packet reads.
pub fn read_count(job: &Job, number: usize) -> usize
    requires { IsPacket (plan job.now) number }
    ensures { result ≡ length (packet (plan job.now) number).reads }
{
    job.valid();
    bytes_counted();
    entries_counted();
    let [first, second] = job.packet(number).bytes.reads;
    first.len as usize + second.len as usize
}

/// The signal that the packet completes on, if there is one.
pub fn done_of(job: &Job, number: usize) -> Option<u16>
    requires { IsPacket (plan job.now) number }
    ensures is { result ≡ (packet (plan job.now) number).done }
    ensures there { IfSome result (λ s. s < length (plan job.now).starts) }
{
    job.valid();
    job.packet(number).done
}

/// The byte of an entry of these ranges, laid end to end, if there are so many.
fn entry_of(ranges: &[ByteRange], entry: usize) -> Option<usize>
    requires { All (λ b. b < BYTES) (flat_map bytes_of ranges.now) }
    ensures { MatchOption result (length (flat_map bytes_of ranges.now) ≤ entry)
        (λ b. slice_get (flat_map bytes_of ranges.now) entry ≡ Some b) }
{
    let (range, rest) = ranges.split_first()?;
    let count = range.len as usize;
    if entry < count {
        return Some(range.at as usize + entry);
    }
    entry_of(rest, entry - count)
}

/// The byte that the packet reads as an entry, if it has so many.
pub fn read_at(job: &Job, number: usize, entry: usize) -> Option<usize>
    requires { IsPacket (plan job.now) number }
    ensures { MatchOption result (length (packet (plan job.now) number).reads ≤ entry)
        (λ b. IsEntry (plan job.now) number entry b) }
{
    job.valid();
    entry_of(&job.packet(number).bytes.reads, entry)
}

/// A byte that the packet writes.
pub fn write_at(job: &Job, number: usize, entry: usize) -> usize
    requires number { IsPacket (plan job.now) number }
    requires entry { entry < length (packet (plan job.now) number).writes }
    ensures at { result ≡ slice_index (packet (plan job.now) number).writes entry }
    ensures within { IsByte (plan job.now) result }
{
    job.valid();
    job.packet(number).bytes.write.at as usize + entry
}

/// The first byte that the packet writes; the others follow it.
pub fn first_write(job: &Job, number: usize) -> usize
    requires number { IsPacket (plan job.now) number }
    requires some { 0 < length (packet (plan job.now) number).writes }
    ensures at { (entry : ℕ) → entry < length (packet (plan job.now) number).writes
        → slice_index (packet (plan job.now) number).writes entry ≡ result + entry }
    ensures within { result + length (packet (plan job.now) number).writes ≤ length (plan job.now).memory }
{
    job.valid();
    job.packet(number).bytes.write.at as usize
}

/// What the packet does with the bytes that it reads.
pub fn task_of(job: &Job, number: usize) -> Task
    requires { IsPacket (plan job.now) number }
    ensures is { result ≡ (packet (plan job.now) number).task }
    ensures suits { Suits result (length (packet (plan job.now) number).reads)
        (length (packet (plan job.now) number).writes) }
{
    job.valid();
    job.packet(number).work.task
}

/// The number of the agent of a packet's queue.
#[tactic(auto, using(crate::proofs::Jobs::agent_below))]
fn lane_agent(job: &Job, number: usize) -> u8
    requires { IsPacket (plan job.now) number }
    ensures agent { result ≡ agent_of (plan job.now) number }
    ensures there { result < length job.now.agents }
{
    job.valid();
    job.agent_of(number) as u8
}

/// The agent of each packet.
///
/// # Errors
///
/// `AllocError` where there is no memory.
pub fn lane_agents(alloc: Global, job: &Job) -> Result<Vec<u8>, AllocError>
    ensures count { IfOk result (λ agents. length agents.items ≡ length job.now.packets) }
    ensures agents { IfOk result (λ agents. AllAre (λ p agent. agent ≡ agent_of (plan job.now) p) agents.items) }
{
    let count = job.packets().len();
    let mut agents = Vec::with_capacity(alloc, count)?;
    for packet in 0..count {
        agents.push(lane_agent(job, packet))?;
    }
    Ok(agents)
}

/// How many packets the job has.
pub fn packet_count(job: &Job) -> usize
    ensures { result ≡ length (plan job.now).packets }
{
    job.packets().len()
}

/// How many packets the job has, as an event numbers them.
pub fn packet_total(job: &Job) -> u32
    ensures { result ≡ length (plan job.now).packets }
{
    job.valid();
    job.packets().len() as u32
}

/// How many queues the job has, as an event numbers them.
pub fn queue_total(job: &Job) -> u32
    ensures { result ≡ length (plan job.now).queues }
{
    job.valid();
    job.queues().len() as u32
}

/// How many agents the job has, as an event numbers them.
pub fn agent_total(job: &Job) -> u32
    ensures { result ≡ (plan job.now).agents }
{
    job.valid();
    job.agents() as u32
}

/// How many entries a packet reads, as an event numbers them.
pub fn read_total(job: &Job, number: u32) -> u32
    requires { IsPacket (plan job.now) number }
    ensures { result ≡ length (packet (plan job.now) number).reads }
{
    job.valid();
    bytes_counted();
    entries_counted();
    let [first, second] = job.packet(number as usize).bytes.reads;
    (first.len + second.len) as u32
}

/// How many bytes a packet writes, as an event numbers them.
pub fn write_total(job: &Job, number: u32) -> u32
    requires { IsPacket (plan job.now) number }
    ensures { result ≡ length (packet (plan job.now) number).writes }
{
    job.valid();
    bytes_counted();
    job.packet(number as usize).bytes.write.len as u32
}
