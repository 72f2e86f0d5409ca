//! The heads of packets: their barrier bits and fence scopes.

ghost use Rattle.std.specs.Prelude.{◌≡◌, ◌<◌, length, map, IfOk};
ghost use Rattle.hq_packet.specs.Parts.{head_of};
ghost use Rattle.hq_job.specs.Heads.{placed_with_head, packets_with_head};

use hq_packet::Head;
use hq_tables::Placed;
use std::alloc::{AllocError, Global};

/// The packet with this head, and all else as it was.
fn with_head(placed: Placed, head: Head) -> Placed
    ensures { result ≡ placed_with_head placed head }
{
    Placed {
        packet: placed.packet.with_head(head),
        ..placed
    }
}

/// Gives a packet this head, and leaves all others.
pub fn set_head(packets: &mut [Placed], packet: usize, head: Head)
    requires { packet < length packets.old }
    ensures { packets.new ≡ packets_with_head packets.old packet head }
{
    packets[packet] = with_head(packets[packet], head);
}

/// Gives each packet this head.
pub fn set_each_head(packets: &mut [Placed], head: Head)
    ensures { packets.new ≡ map (λ p. placed_with_head p head) packets.old }
{
    for packet in packets.iter_mut() {
        *packet = with_head(*packet, head);
    }
}

/// The heads of these packets.
pub fn heads_in(alloc: Global, packets: &[Placed]) -> Result<Vec<Head>, AllocError>
    ensures { IfOk result (λ heads. heads.items ≡ map (λ p. head_of p.packet) packets.now) }
{
    let mut heads = Vec::with_capacity(alloc, packets.len())?;
    for packet in packets {
        heads.push(packet.packet.head())?;
    }
    Ok(heads)
}
