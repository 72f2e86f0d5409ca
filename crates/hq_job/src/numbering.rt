//! Packets by number.

ghost use Rattle.std.specs.Prelude.{◌≡◌, ◌+◌, ◌<◌, ◌≤◌, ◌++◌, length, map, All, AllPairs, IfOk, IsTrue, OnOk};
ghost use Rattle.hq_job.specs.Numbering.{with_key, by_number, submissions_of, CountEach};
ghost use Rattle.hq_model.specs.Journal.{numbers};

use hq_model::PACKETS;
use hq_tables::Placed;
use std::alloc::{AllocError, Global};

/// Appends the packets of one queue.
fn push_queue(packets: &mut Vec<Placed>, queue: usize, placed: &[Placed]) -> Result<(), AllocError>
    ensures { OnOk result (packets.new.items ≡ packets.old.items ++ with_key (λ p. p.queue) placed.now queue) }
{
    for packet in placed {
        if packet.queue as usize == queue {
            packets.push(*packet)?;
        }
    }
    Ok(())
}

#[tactic(auto, using(crate::proofs::Grouped::grouped_next))]
/// The packets by number. Where they stand queue by queue, they stand so already, and aren't copied.
pub fn by_number(
    alloc: Global,
    queues: usize,
    in_order: bool,
    placed: Vec<Placed>,
) -> Result<Vec<Placed>, AllocError>
    requires rises { IsTrue in_order → AllPairs (λ p r. p.queue ≤ r.queue) placed.items }
    requires below { All (λ p. p.queue < queues) placed.items }
    ensures { IfOk result (λ packets. packets.items ≡ by_number queues placed.items) }
{
    if in_order {
        return Ok(placed);
    }
    let mut packets = Vec::with_capacity(alloc, placed.len())?;
    for queue in 0..queues {
        push_queue(&mut packets, queue, &placed)?;
    }
    Ok(packets)
}

/// How many packets stand in each queue.
fn counts_of(alloc: Global, queues: usize, placed: &[Placed]) -> Result<Vec<usize>, AllocError>
    requires below { All (λ p. p.queue < queues) placed.now }
    requires few { length placed.now ≤ PACKETS }
    ensures { IfOk result (λ counts. CountEach (λ p. p.queue) queues placed.now counts.items) }
{
    let mut counts = Vec::from_elem(alloc, 0, queues)?;
    for packet in placed {
        counts[packet.queue as usize] += 1;
    }
    Ok(counts)
}

/// The number of the first packet of each queue.
pub fn firsts_of(alloc: Global, queues: usize, placed: &[Placed]) -> Result<Vec<usize>, AllocError>
    requires below { All (λ p. p.queue < queues) placed.now }
    requires few { length placed.now ≤ PACKETS }
    ensures { IfOk result
        (λ firsts. firsts.items ≡ map (λ q. length (by_number q placed.now)) (numbers queues)) }
{
    let mut firsts = Vec::with_capacity(alloc, queues)?;
    let mut first = 0;
    for count in &counts_of(alloc, queues, placed)? {
        firsts.push(first)?;
        first += *count;
    }
    Ok(firsts)
}

/// The numbers of the packets in the order of their lines, by the number of the first packet of each queue.
pub fn submissions(
    alloc: Global,
    queues: usize,
    mut next: Vec<usize>,
    placed: &[Placed],
) -> Result<Vec<u16>, AllocError>
    requires firsts { next.items ≡ map (λ q. length (by_number q placed.now)) (numbers queues) }
    requires below { All (λ p. p.queue < queues) placed.now }
    requires few { length placed.now ≤ PACKETS }
    ensures { IfOk result (λ numbers. numbers.items ≡ submissions_of placed.now) }
{
    let mut numbers = Vec::with_capacity(alloc, placed.len())?;
    for packet in placed {
        let queue = packet.queue as usize;
        numbers.push(next[queue] as u16)?;
        next[queue] += 1;
    }
    Ok(numbers)
}
