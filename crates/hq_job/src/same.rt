//! Whether two jobs are one value: row by row, and each row part by part.

ghost use Rattle.std.specs.Prelude.{◌≡◌, ◌↔◌, IsTrue};
ghost use Rattle.hq_tables.specs.Blocks.{bytes_of, blocks_of};
ghost use Rattle.hq_job.specs.Equal.{SameTables};

use crate::job::Job;
use hq_footprint::Code;
use hq_packet::{Packet, encode, laws};
use hq_tables::{Block, Kernel, Placed, Queue};
use hq_text::Name;

fn same_name(first: Name, second: Name) -> bool
    ensures { IsTrue result ↔ (first ≡ second) }
{
    first == second
}

fn same_names(first: &[Name], second: &[Name]) -> bool
    ensures { IsTrue result ↔ (first.now ≡ second.now) }
{
    first == second
}

fn same_bytes(first: &[u8], second: &[u8]) -> bool
    ensures { IsTrue result ↔ (first.now ≡ second.now) }
{
    first == second
}

fn same_numbers(first: &[u16], second: &[u16]) -> bool
    ensures { IsTrue result ↔ (first.now ≡ second.now) }
{
    first == second
}

/// Whether two blocks have the same name, address and bytes, wherever those lie in memory.
fn same_block(first: &Block, second: &Block) -> bool
    ensures { IsTrue result ↔ (bytes_of first.now ≡ bytes_of second.now) }
{
    same_name(first.name, second.name)
        && first.at == second.at
        && same_bytes(&first.bytes, &second.bytes)
}

fn same_code(first: Code, second: Code) -> bool
    ensures { IsTrue result ↔ (first ≡ second) }
{
    first == second
}

fn same_kernel(first: Kernel, second: Kernel) -> bool
    ensures { IsTrue result ↔ (first ≡ second) }
{
    same_name(first.name, second.name)
        && first.object == second.object
        && same_code(first.code, second.code)
}

fn same_queue(first: Queue, second: Queue) -> bool
    ensures { IsTrue result ↔ (first ≡ second) }
{
    same_name(first.name, second.name) && first.agent == second.agent && first.size == second.size
}

/// Whether two packets have one spelling. Bytes spell one packet.
fn same_packet(first: &Packet, second: &Packet) -> bool
    ensures { IsTrue result ↔ (first.now ≡ second.now) }
{
    laws::one_packet();
    encode(first) == encode(second)
}

fn same_signal(first: Option<u16>, second: Option<u16>) -> bool
    ensures { IsTrue result ↔ (first ≡ second) }
{
    first == second
}

fn same_slots(first: &[Option<u16>], second: &[Option<u16>]) -> bool
    ensures { IsTrue result ↔ (first.now ≡ second.now) }
{
    first == second
}

fn same_placed(first: &Placed, second: &Placed) -> bool
    ensures { IsTrue result ↔ (first.now ≡ second.now) }
{
    first.queue == second.queue
        && same_packet(&first.packet, &second.packet)
        && first.work.same(second.work)
        && first.bytes.same(second.bytes)
        && same_slots(&first.slots, &second.slots)
        && same_signal(first.done, second.done)
}

fn same_blocks(first: &[Block], second: &[Block]) -> bool
    ensures { IsTrue result ↔ (blocks_of first.now ≡ blocks_of second.now) }
{
    if first.len() != second.len() {
        return false;
    }
    for i in 0..first.len() {
        if !same_block(&first[i], &second[i]) {
            return false;
        }
    }
    true
}

fn same_kernels(first: &[Kernel], second: &[Kernel]) -> bool
    ensures { IsTrue result ↔ (first.now ≡ second.now) }
{
    if first.len() != second.len() {
        return false;
    }
    for i in 0..first.len() {
        if !same_kernel(first[i], second[i]) {
            return false;
        }
    }
    true
}

fn same_queues(first: &[Queue], second: &[Queue]) -> bool
    ensures { IsTrue result ↔ (first.now ≡ second.now) }
{
    if first.len() != second.len() {
        return false;
    }
    for i in 0..first.len() {
        if !same_queue(first[i], second[i]) {
            return false;
        }
    }
    true
}

fn same_packets(first: &[Placed], second: &[Placed]) -> bool
    ensures { IsTrue result ↔ (first.now ≡ second.now) }
{
    if first.len() != second.len() {
        return false;
    }
    for i in 0..first.len() {
        if !same_placed(&first[i], &second[i]) {
            return false;
        }
    }
    true
}

/// Whether the signals are the same, and their names.
fn same_signals(first: &Job, second: &Job) -> bool
    ensures { IsTrue result
        ↔ ((first.now.signal_names ≡ second.now.signal_names) × (first.now.signals ≡ second.now.signals)) }
{
    same_names(first.signal_names(), second.signal_names())
        && first.signals().same(second.signals())
}

/// Whether what packets name is the same: agents, buffers, kernarg blocks, kernels and queues.
fn same_tables(first: &Job, second: &Job) -> bool
    ensures { IsTrue result ↔ SameTables first.now second.now }
{
    same_names(first.agent_names(), second.agent_names())
        && same_blocks(first.buffers(), second.buffers())
        && same_blocks(first.arguments(), second.arguments())
        && same_kernels(first.kernels(), second.kernels())
        && same_queues(first.queues(), second.queues())
}

impl Job {
    /// Whether the two are one value: whether queues are rings, the tables, the packets and their order of
    /// submission. It takes no memory.
    pub fn same(&self, other: &Job) -> bool
        ensures { IsTrue result ↔ (self.now ≡ other.now) }
    {
        self.rings() == other.rings()
            && same_tables(self, other)
            && same_signals(self, other)
            && same_packets(self.packets(), other.packets())
            && same_numbers(self.submissions(), other.submissions())
    }
}
