//! What holds between packets and their spellings.

ghost use Rattle.std.specs.Prelude.{◌≡◌, Ok, Some, IfOk, IfErr};
ghost use Rattle.hq_packet.specs.Laws.{OneSpelling, OnePacket, FaultlessWhereSpelled, HeadStandsSecond, OneHead};
ghost use Rattle.hq_packet.specs.Laws.{AnotherHead};
ghost use Rattle.hq_packet.specs.Dispatches.{FaultlessFields, OneDispatch};
ghost use Rattle.hq_packet.specs.Faults.{first_fault};

use crate::decoding::decode;
use crate::encoding::encode;
use crate::fault::PacketFault;
use crate::fields::LEN;
use crate::packet::Packet;

/// A packet has one spelling.
pub fn one_spelling()
    ensures { OneSpelling }
{}

/// Bytes spell one packet.
pub fn one_packet()
    ensures { OnePacket }
{}

/// Bytes that spell a packet have no fault.
pub fn faultless_where_spelled()
    ensures { FaultlessWhereSpelled }
{}

/// In bytes that spell a packet the byte of its head stands second.
pub fn head_stands_second()
    ensures { HeadStandsSecond }
{}

/// A byte is that of one head.
pub fn one_head()
    ensures { OneHead }
{}

/// Where bytes spell a packet, with the byte of another head they spell the packet with that head.
pub fn another_head()
    ensures { AnotherHead }
{}

/// Fields are those of one kernel dispatch.
pub fn one_dispatch()
    ensures { OneDispatch }
{}

/// The fields of a kernel dispatch have no fault.
pub fn faultless_fields()
    ensures { FaultlessFields }
{}

/// A packet that was encoded is decoded as itself.
///
/// # Errors
///
/// Those of `decode`.
pub fn decode_encoded(packet: &Packet) -> Result<Packet, PacketFault>
    ensures { result ≡ Ok packet.now }
{
    decode(&encode(packet))
}

/// Bytes that were decoded are encoded as themselves.
///
/// # Errors
///
/// Those of `decode`.
pub fn encode_decoded(bytes: &[u8; LEN]) -> Result<[u8; LEN], PacketFault>
    ensures same { IfOk result (λ again. again ≡ bytes.now) }
    ensures fault { IfErr result (λ e. first_fault bytes.now ≡ Some e) }
{
    let packet = decode(bytes)?;
    Ok(encode(&packet))
}
