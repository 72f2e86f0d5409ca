//! The lines of packets with other heads.

ghost use Rattle.std.specs.Prelude.{◌≡◌, ◌≢◌, ◌↔◌, ◌+◌, ◌*◌, ◌++◌, ◌∷◌, [], ◌<◌, ◌==◌, unwrap_or, slice_index, IsTrue};
ghost use Rattle.hex.specs.Hex.{hex_digit_value, lower_digits, encode_lower};
ghost use Rattle.hq_lines.specs.Heads.{IsPacketLine, BeginsPacket, WithHead};

use crate::read::behind;
use crate::words::digit_value;
use hq_packet::{Head, head_byte};

/// Whether a line begins as the line of a packet does.
pub fn begins_packet(line: &[u8]) -> bool
    ensures { IsTrue result ↔ BeginsPacket line.now }
{
    behind(line, b"packet ".as_slice()).is_some()
}

/// Whether two digits spell a byte.
fn spell(high: u8, low: u8, byte: u8) -> bool
    ensures { result ≡ (unwrap_or (hex_digit_value high) 255 * 16 + unwrap_or (hex_digit_value low) 255 == byte) }
{
    u16::from(digit_value(high)) * 16 + u16::from(digit_value(low)) == u16::from(byte)
}

/// The digit of four bits, in lower case.
fn lower_digit(value: u8) -> u8
    requires { value < 16 }
    ensures { result ≡ slice_index lower_digits value }
{
    b"0123456789abcdef"[value as usize]
}

/// Two digits that spell the byte: these where they do, else those in lower case.
#[tactic(auto, unfolding(hex::specs::Hex::encode_with))]
fn digits_of(byte: u8, high: u8, low: u8) -> [u8; 2]
    ensures kept { unwrap_or (hex_digit_value high) 255 * 16 + unwrap_or (hex_digit_value low) 255 ≡ byte
        → result ≡ high ∷ low ∷ [] }
    ensures changed { unwrap_or (hex_digit_value high) 255 * 16 + unwrap_or (hex_digit_value low) 255 ≢ byte
        → result ≡ encode_lower (byte ∷ []) }
{
    if spell(high, low, byte) {
        return [high, low];
    }
    [lower_digit(byte / 16), lower_digit(byte % 16)]
}

/// The line of a packet as it is for the packet with this head, in three parts: what stands before the two digits
/// of the head's byte, these digits, and what stands behind them. They are the old digits where the packet has that
/// head, and else in lower case.
#[tactic(auto, using(crate::proofs::PacketLines::packet_room))]
pub fn with_head<'a>(line: &'a [u8], head: &Head) -> (&'a [u8], [u8; 2], &'a [u8])
    requires { IsPacketLine line.now }
    ensures { WithHead line.now head.now (result.0.now ++ result.1 ++ result.2.now) }
{
    // Before them stand `packet ` and the two digits of the format.
    let (front, rest) = line.split_at(9);
    let (old, behind) = rest.split_at(2);
    (front, digits_of(head_byte(head), old[0], old[1]), behind)
}
