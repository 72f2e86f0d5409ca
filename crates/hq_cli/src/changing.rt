//! Which heads `fix` and `trim` changed, in plain words on standard error.

use hq_engines::{Aim, Changed};
use hq_job::Job;
use hq_packet::Head;
use hq_plain::{HeadLines, Lowered, Place};
use hq_status::Status;

const UNFIXABLE: &str =
    "even with all barrier bits and fences of system scope a conflict isn't ordered";

/// Says what is other of a packet's head, where there is such a packet.
fn say_head(rt: &HostRuntime, job: &Job, packet: usize, old: Head) {
    if job.is_packet(packet) {
        let place = Place::of(job, packet);
        let new = job.head(packet);
        let _ = eprint!(rt; "{}", HeadLines { place, old, new });
    }
}

/// Says which heads were changed; where the job goes without what it doesn't need, how much that is. Where standard
/// error fails, nothing is said.
pub fn say_changes(rt: &HostRuntime, changed: Changed, aim: Aim) {
    for (packet, old) in changed.heads.iter().enumerate() {
        say_head(rt, &changed.job, packet, *old);
    }
    if aim == Aim::Trim {
        let _ = eprintln!(rt; "hsaq: {}", Lowered::of(&changed.heads, &changed.job));
    }
}

/// Says that nothing mends a job, where it is to be mended and a conflict stays. Where standard error fails,
/// nothing is said.
pub fn say_unmended(rt: &HostRuntime, status: &Status, aim: Aim) {
    if aim == Aim::Fix
        && let Status::Conflict { .. } = status
    {
        let _ = eprintln!(rt; "hsaq: {UNFIXABLE}");
    }
}
