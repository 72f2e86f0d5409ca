//! How many work steps a job takes.

ghost use Rattle.std.specs.Prelude.{◌≡◌, ◌+◌, ◌*◌, ◌<◌, ◌≤◌, length, count_by, is_some, sum_by, All};
ghost use Rattle.hq_footprint.specs.Bytes.{read_entries, written_bytes};
ghost use Rattle.hq_job.specs.Plan.{plan};
ghost use Rattle.hq_model.specs.Machine.{own_steps, bound};
ghost use Rattle.hq_certcheck.specs.Brief.{IsShort};

use hq_footprint::Range;
use hq_job::Job;
use hq_model::BYTES;
use hq_tables::Placed;

/// How many bytes two ranges have, one after the other.
fn total(ranges: [Range; 2]) -> u64
    requires { All (λ r. r.len ≤ BYTES) ranges }
    ensures total { result ≡ sum_by (λ r. r.len) ranges }
    ensures few { result ≤ 2 * BYTES }
{
    ranges[0].len + ranges[1].len
}

/// How many of the slots have a signal.
fn dependencies(slots: &[Option<u16>; 5]) -> u64
    ensures count { result ≡ count_by is_some slots.now }
    ensures few { result ≤ 5 }
{
    slots.iter().filter(|slot| slot.is_some()).count() as u64
}

/// How many steps a packet takes at most: its own, an observation for each dependency, a read for each byte that it
/// reads, and a store and two pushes for each that it writes.
fn steps_of(own: u64, packet: &Placed) -> u64
    requires own { own ≤ 4 }
    requires short { IsShort packet.now }
    ensures steps { let p = packet.now in result ≡ own + count_by is_some p.slots + length
        (read_entries p.bytes) + 3 * length (written_bytes p.bytes) }
    ensures few { result ≤ 9 + 5 * BYTES }
{
    let bytes = packet.bytes;
    own + dependencies(&packet.slots) + total(bytes.reads) + 3 * bytes.write.len
}

/// How many steps of its own each packet has: a launch, an entry and a completion, and a submission where queues
/// are rings.
fn own_steps(job: &Job) -> u64
    ensures own { result ≡ own_steps (plan job.now) }
    ensures few { result ≤ 4 }
{
    if job.rings() { 4 } else { 3 }
}

/// How many work steps every run of the job takes at most.
pub fn steps(job: &Job) -> u64
    ensures { result ≡ bound (plan job.now) }
{
    job.valid();
    let own = own_steps(job);
    let mut steps = 0;
    for packet in job.packets() {
        steps += steps_of(own, packet);
    }
    steps
}
