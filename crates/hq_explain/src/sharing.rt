//! The bytes that two packets share, and where they lie.

ghost use Rattle.std.specs.Prelude.{◌≡◌};
ghost use Rattle.hq_explain.specs.Shared.{common, first_common, run_between, run_of};

use hq_finding::Kind;
use hq_footprint::{Footprint, Range};
use hq_job::Job;
use hq_report::{Spot, spot_of};

/// What two ranges have in common.
fn common(x: Range, y: Range) -> Range
    ensures { result ≡ common x y }
{
    if x.at < y.at {
        Range::new(y.at, x.len.saturating_sub(y.at - x.at).min(y.len))
    } else {
        Range::new(x.at, x.len.min(y.len.saturating_sub(x.at - y.at)))
    }
}

/// What the first of some ranges that has bytes in common with another one has in common with it.
fn first_common(ranges: &[Range], other: Range) -> Option<Range>
    ensures { result ≡ first_common ranges.now other }
{
    let (first, rest) = ranges.split_first()?;
    let run = common(*first, other);
    if run.len > 0 {
        Some(run)
    } else {
        first_common(rest, other)
    }
}

/// The first run of bytes by which two footprints conflict in this way.
fn run_of(kind: Kind, p: &Footprint, r: &Footprint) -> Option<Range>
    ensures { result ≡ run_of kind p.now r.now }
{
    match kind {
        Kind::WriteRead => first_common(&r.reads, p.write),
        Kind::WriteWrite => first_common(&[p.write], r.write),
        Kind::ReadWrite => first_common(&p.reads, r.write),
    }
}

/// A run of bytes: how many, and where the first lies.
#[derive(Clone, Copy)]
pub struct Run {
    pub len: u64,
    pub spot: Option<Spot>,
}

/// The first run of bytes by which two packets conflict in this way, and where it begins.
pub fn run_between(job: &Job, kind: Kind, p: usize, r: usize) -> Option<Run>
    ensures { result ≡ run_between job.now kind p r }
{
    let first = job.packets().get(p)?;
    let second = job.packets().get(r)?;
    let range = run_of(kind, &first.bytes, &second.bytes)?;
    Some(Run {
        len: range.len,
        spot: spot_of(job.buffers(), range.at),
    })
}
