//! The numbers of packets by their places in their queues.

ghost use Rattle.std.specs.Prelude.{◌≡◌, ◌+◌, ◌<◌, ◌↔◌, Some, IfSome, length, slice_index, nat_lt, if◌then◌else◌, ℕ};
ghost use Rattle.hq_job.specs.Access.{LiesAt};

use hq_tables::Placed;
use std::ops::Range;

/// The number of the packet at a place of a queue, where each queue's first packet has this number.
pub fn number_at(firsts: &[usize], packets: &[Placed], queue: usize, place: usize) -> Option<usize>
    ensures few { IfSome result (λ p. p < length packets.now) }
    ensures found { (p : ℕ) → (result ≡ Some p) ↔ LiesAt firsts.now packets.now queue place p }
{
    let first = *firsts.get(queue)?;
    let number = first.checked_add(place)?;
    let packet = packets.get(number)?;
    if packet.queue as usize != queue {
        return None;
    }
    Some(number)
}

/// The numbers of a queue's packets, where each queue's first packet has this number.
pub fn span_of(firsts: &[usize], packets: &[Placed], queue: usize) -> Range<usize>
    requires { queue < length firsts.now }
    ensures start { result.start ≡ slice_index firsts.now queue }
    ensures end { result.end ≡ (if nat_lt (queue + 1) (length firsts.now) then slice_index firsts.now
        (queue + 1) else length packets.now) }
{
    let end = match firsts.get(queue + 1) {
        Some(next) => *next,
        None => packets.len(),
    };
    firsts[queue]..end
}
