//! Where a packet's row lies, and what is told of it.

ghost use Rattle.std.specs.Prelude.{◌≡◌, ◌≤◌, ◌<◌, ◌^◌};
ghost use Rattle.hq_chart.specs.Chart.{agent_line, agents_drawn, height_of, line_of, spot_of};

use hq_job::Job;
use hq_model::PACKETS;
use hq_report::ShownPacket;

/// A packet as it is told of, and how far its row lies below the picture's upper edge.
#[derive(Clone, Copy, Debug)]
pub struct Spot {
    pub shown: ShownPacket,
    pub y: usize,
}

/// How far a row lies below the upper edge, behind so many packets and of this queue.
fn line_of(packets: usize, queue: usize) -> usize
    requires packets { packets ≤ PACKETS }
    requires queue { queue ≤ 65535 }
    ensures { result ≡ line_of packets queue }
{
    74 + 16 * packets + 8 * queue
}

/// The spot of a packet, if the job has it.
pub fn spot_of(job: &Job, packet: usize) -> Option<Spot>
    ensures { result ≡ spot_of job.now packet }
{
    job.valid();
    let placed = job.packets().get(packet)?;
    let queue = job.queues().get(placed.queue as usize)?;
    let shown = ShownPacket {
        number: packet,
        queue: queue.name,
        placed: *placed,
    };
    Some(Spot {
        shown,
        y: line_of(packet, placed.queue as usize),
    })
}

/// How far an agent's row lies below the upper edge.
pub fn agent_line(job: &Job, agent: usize) -> usize
    requires { agent < 2 ^ 32 }
    ensures { result ≡ agent_line job.now agent }
{
    job.valid();
    line_of(job.packets().len(), job.queues().len()) + 16 * agent
}

/// How many agents have rows: all where copies are asked for, else none.
pub fn agents_drawn(job: &Job, copies: bool) -> usize
    ensures drawn { result ≡ agents_drawn job.now copies }
    ensures few { result < 2 ^ 32 }
{
    job.valid();
    if copies { job.agents() } else { 0 }
}

/// How high the picture is.
pub fn height_of(job: &Job, copies: bool) -> usize
    ensures { result ≡ height_of job.now copies }
{
    agent_line(job, agents_drawn(job, copies))
}
