//! `hsaq pack`: the words of a packet's fields to its 64 bytes.

ghost use Rattle.std.specs.Prelude.{◌≡◌, ◌⊎◌, MatchResult, Some, map, codes};
ghost use Rattle.hex.specs.Hex.{encode_lower};
ghost use Rattle.hq_showing.specs.Pack.{fields_in, fields_fault};
ghost use Rattle.hq_showing.specs.Packing.{FieldsReport, PackReport};
ghost use Rattle.hq_status.specs.Reports.{Reported, Said, with_feed};

use crate::fields::{Fields, fields_of};
use hq_packet::{Kernel, Packet, PacketFault, encode};
use hq_report::PacketRefusal;
use hq_status::{Status, say, say_memory};
use std::alloc::Global;
use std::io::Write;

/// The packet that has these fields, or their first fault.
fn packet_of(fields: Fields) -> Result<Packet, PacketFault>
    ensures { MatchResult result (λ packet. fields_in packet ≡ fields) (λ fault. fields_fault fields ≡ Some fault) }
{
    match fields {
        Fields::Kernel(fields) => Ok(Packet::Kernel(Kernel::new(fields)?)),
        Fields::Agent(call) => Ok(Packet::Agent(call)),
        Fields::And(barrier) => Ok(Packet::And(barrier)),
        Fields::Or(barrier) => Ok(Packet::Or(barrier)),
    }
}

/// Writes bytes as hexadecimal digits.
fn say_digits<W: Write>(alloc: Global, writer: &mut W, bytes: &[u8]) -> Status
    ensures { Said (W.contents writer.old) (W.contents writer.new)
        (with_feed (encode_lower bytes.now)) Status.Done result
        ⊎ Said (W.contents writer.old) (W.contents writer.new)
        (with_feed (codes "out of memory")) Status.Memory result }
{
    match hex::encode(alloc, bytes) {
        Ok(digits) => say(writer, digits, Status::Done),
        Err(_) => say_memory(writer),
    }
}

/// Writes the bytes of the packet that has these fields, or why none has them.
fn say_fields<W: Write>(alloc: Global, writer: &mut W, fields: Fields) -> Status
    ensures { Reported (FieldsReport fields) (W.contents writer.old) (W.contents writer.new) result }
{
    match packet_of(fields) {
        Ok(packet) => say_digits(alloc, writer, encode(&packet).as_slice()),
        Err(fault) => say(writer, PacketRefusal(fault), Status::PacketRefused(fault)),
    }
}

/// Writes the 64 bytes of the packet whose fields the words say, as hexadecimal digits; or the first fault of these
/// fields, where no packet has them. Words that say no fields are `Words`, and nothing is written.
pub fn pack_engine<W: Write>(alloc: Global, words: &[&str], writer: &mut W) -> Status
    ensures { Reported (PackReport (map (λ w. w.now) words.now)) (W.contents writer.old)
        (W.contents writer.new) result }
{
    match fields_of(words) {
        Some(fields) => say_fields(alloc, writer, fields),
        None => Status::Words,
    }
}
