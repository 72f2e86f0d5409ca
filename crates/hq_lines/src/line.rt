//! Lines as values.

use hq_footprint::Code;
use hq_packet::Packet;
use hq_text::Name;

/// What a job text begins with.
#[derive(Clone, Copy, Debug, PartialEq, Eq)]
pub enum Version {
    /// `hsaq 1`: no queue has more packets than slots.
    One,
    /// `hsaq 2`: queues are rings, whose slots are used again.
    Two,
}

/// What a line behind the first says.
#[derive(Debug, Drop)]
pub enum Line {
    /// `agent NAME`
    Agent(Name),
    /// `buffer NAME ADDR LEN [HEX]`: 1 to 65,536 bytes from an address of 1 to 2^48 on.
    Buffer { name: Name, at: u64, bytes: Vec<u8> },
    /// `args NAME ADDR HEX`: 1 to 64 bytes from an address of 1 or more on.
    Args { name: Name, at: u64, bytes: Vec<u8> },
    /// `signal NAME HANDLE START`: a handle of 1 or more, a start below 2^63.
    Signal { name: Name, handle: u64, start: u64 },
    /// `kernel NAME OBJECT CODE`: an object of 1 or more.
    Kernel { name: Name, object: u64, code: Code },
    /// `queue NAME AGENT SIZE`: so many slots, a power of two from 1 to 1,024.
    Queue { name: Name, agent: Name, size: u16 },
    /// `to NAME`
    To(Name),
    /// `packet HEX`
    Packet(Packet),
    /// `end`
    End,
}
