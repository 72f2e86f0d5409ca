//! What the lines of a certificate say, by what they conclude.

ghost use Rattle.std.specs.Prelude.{◌≡◌, ℕ, ◌<◌, ◌↔◌, IsTrue, Some, map};
ghost use Rattle.hq_cert.specs.View.{cited};
ghost use Rattle.hq_certcheck.specs.Concluded.{bare};
ghost use Rattle.hq_model.specs.Certificate.{Says, Cites};

use crate::conclusion::Conclusion;
use hq_cert::Citation;

/// The packet that p comes before by line k, if the line stands below the limit and speaks of p.
pub fn follower(lines: &[Conclusion], limit: usize, k: usize, p: usize) -> Option<usize>
    ensures { (r : ℕ) → (result ≡ Some r) ↔ Says (map bare lines.now) limit k p r }
{
    let line = lines.get(k)?;
    if k < limit && line.p as usize == p {
        Some(line.r as usize)
    } else {
        None
    }
}

/// Whether line k, below the limit, concludes that p comes before r.
pub fn says(lines: &[Conclusion], limit: usize, k: usize, p: usize, r: usize) -> bool
    ensures { IsTrue result ↔ Says (map bare lines.now) limit k p r }
{
    match follower(lines, limit, k, p) {
        Some(number) => number == r,
        None => false,
    }
}

/// Whether the citation concludes that p is r, or comes before it.
pub fn cites(lines: &[Conclusion], limit: usize, citation: Citation, p: usize, r: usize) -> bool
    ensures { IsTrue result ↔ Cites (map bare lines.now) limit (cited citation) p r }
{
    match citation.number() {
        Some(k) => says(lines, limit, k as usize, p, r),
        None => p == r,
    }
}
