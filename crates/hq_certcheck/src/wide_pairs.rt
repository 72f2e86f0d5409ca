//! Pair lines of a certificate, in many threads.

ghost use Rattle.std.specs.Prelude.{◌≡◌, ℕ, ◌<◌, IsTrue, MatchOption, false, map, length};
ghost use Rattle.hq_cert.specs.View.{pair_of};
ghost use Rattle.hq_job.specs.Plan.{plan};
ghost use Rattle.hq_certcheck.specs.Concluded.{bare};
ghost use Rattle.hq_certcheck.specs.Listed.{PairHoldsAt, FirstBadPlace, BadPairIs};

use crate::conclusion::Conclusion;
use crate::pairs::pair_line_holds;
use hq_cert::Pair;
use hq_job::Job;
use rayon::prelude::*;
use std::thread::Threads;

/// How many pair lines are worth a thread of their own.
const LEAST_PAIRS: usize = 8192;

/// Whether pair line k doesn't hold.
fn is_bad(job: &Job, lines: &[Conclusion], pairs: &[Pair], k: usize) -> bool
    requires { k < length pairs.now }
    ensures { (result ≡ false → PairHoldsAt (plan job.now) (map bare lines.now) (map pair_of pairs.now) k)
        × (IsTrue result → ¬ PairHoldsAt (plan job.now) (map bare lines.now) (map pair_of pairs.now) k) }
{
    !pair_line_holds(job, lines, pairs, k)
}

/// The place of the first pair line that doesn't hold.
fn first_bad_place(
    rt: &(impl Threads + Sync),
    job: &Job,
    lines: &[Conclusion],
    pairs: &[Pair],
) -> Option<usize>
    ensures { MatchOption result
        ((k : ℕ) → PairHoldsAt (plan job.now) (map bare lines.now) (map pair_of pairs.now) k)
        (FirstBadPlace (plan job.now) (map bare lines.now) (map pair_of pairs.now)) }
{
    let places = (0..pairs.len()).into_par_iter().with_min_len(LEAST_PAIRS);
    places.position_first(
        rt,
        |k: usize| -> bool
            requires { k < length pairs.now }
            ensures { (result ≡ false
                → PairHoldsAt (plan job.entry.now) (map bare lines.entry.now) (map pair_of pairs.entry.now) k)
                × (IsTrue result
                → ¬ PairHoldsAt (plan job.entry.now) (map bare lines.entry.now) (map pair_of pairs.entry.now) k) }
        { is_bad(job, lines, pairs, k) },
    )
}

/// The packets of the first pair line that doesn't hold.
pub fn first_bad_pair(
    rt: &(impl Threads + Sync),
    job: &Job,
    lines: &[Conclusion],
    pairs: &[Pair],
) -> Option<(u32, u32)>
    ensures { BadPairIs (plan job.now) (map bare lines.now) (map pair_of pairs.now) result }
{
    match first_bad_place(rt, job, lines, pairs) {
        Some(k) => {
            let pair = &pairs[k];
            Some((pair.p, pair.r))
        }
        None => None,
    }
}
