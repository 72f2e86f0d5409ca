//! The packets that want bodies.

ghost use Rattle.std.specs.Prelude.{◌≡◌, ◌<◌, ℕ, length, slice_range};
ghost use Rattle.hq_job.specs.Access.{AreOfQueue};
ghost use Rattle.hq_job.specs.Plan.{plan};
ghost use Rattle.hq_kernels.specs.Kits.{is_work};

use hq_job::Job;
use hq_packet::Packet;
use hq_tables::Placed;

/// Whether a packet is a kernel or an agent dispatch.
pub fn is_work(packet: &Packet) -> bool
    ensures { result ≡ is_work packet.now }
{
    match packet {
        Packet::Kernel(_) => true,
        Packet::Agent(_) => true,
        Packet::And(_) => false,
        Packet::Or(_) => false,
    }
}

/// A queue's packets, by number.
pub fn packets_of(job: &Job, queue: usize) -> &[Placed]
    requires { queue < length job.now.queues }
    ensures span { (start : ℕ) × (stop : ℕ) × AreOfQueue (plan job.now) queue start stop
        × (result.now ≡ slice_range job.now.packets start stop) }
    ensures every { (start stop : ℕ) → AreOfQueue (plan job.now) queue start stop
        → result.now ≡ slice_range job.now.packets start stop }
{
    let span = job.of_queue(queue);
    if span.start < span.end {
        &job.packets()[span.start..span.end]
    } else {
        &[]
    }
}
