//! What two runs are to show.

ghost use Rattle.std.specs.Prelude.{◌↔◌, ℕ, ◌<◌, ◌≤◌, Contains, IsTrue};
ghost use Rattle.hq_job.specs.Plan.{plan};
ghost use Rattle.hq_model.specs.Job.{packet};
ghost use Rattle.hq_witness.specs.Targets.{other_bytes, written_bytes};

use crate::packets::{reads, writes, written};
use hq_finding::{Kind, Why};
use hq_job::Job;
use std::ops::Range;

/// A conflict of packet `p` with packet `r`, `p` first, that isn't ordered, and one of the bytes that it is about.
#[derive(Clone, Copy, Debug)]
pub struct Target {
    pub p: u32,
    pub r: u32,
    pub kind: Kind,
    pub why: Why,
    pub byte: u32,
}

impl Target {
    /// The bytes among which the conflict's are: those that the one that writes writes.
    pub fn bytes(&self, job: &Job) -> Range<u32>
        ensures { (b : ℕ) → ((result.start ≤ b) × (b < result.end))
            ↔ Contains
            (written_bytes self.now.kind (packet (plan job.now) self.now.p) (packet (plan job.now) self.now.r)) b }
    {
        match self.kind {
            Kind::WriteRead | Kind::WriteWrite => written(job, self.p),
            Kind::ReadWrite => written(job, self.r),
        }
    }

    /// Whether the conflict is about its byte, where that is one of `bytes`: the other packet reads or writes it too.
    pub fn is_shared(&self, job: &Job) -> bool
        ensures { IsTrue result ↔ Contains
            (other_bytes self.now.kind (packet (plan job.now) self.now.p) (packet (plan job.now) self.now.r))
            self.now.byte }
    {
        match self.kind {
            Kind::WriteRead => reads(job, self.r, self.byte),
            Kind::WriteWrite => writes(job, self.r, self.byte),
            Kind::ReadWrite => reads(job, self.p, self.byte),
        }
    }
}
