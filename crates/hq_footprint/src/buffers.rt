//! Whether footprints lie where they may.

ghost use Rattle.std.specs.Prelude.{◌≡◌, ◌↔◌, All, Any, IsTrue, IsOk, Ok, Err, MatchResult};
ghost use Rattle.hq_footprint.specs.Bytes.{ranges_of, Fits, Passes, IsInside, IsOutside};

use crate::fault::FootFault;
use crate::footprint::{Footprint, Range};

/// Whether no range of the footprint passes the last address.
fn all_fit(foot: &Footprint) -> bool
    ensures { IsTrue result ↔ All Fits (ranges_of foot.now) }
{
    foot.reads.iter().all(|range| range.fits()) && foot.write.fits()
}

/// Overflow where a range of the footprint passes the last address.
pub(crate) fn check_fits(foot: &Footprint) -> Result<(), FootFault>
    ensures { MatchResult result (λ _. All Fits (ranges_of foot.now))
        (λ e. (e ≡ FootFault.Overflow) × Any Passes (ranges_of foot.now)) }
{
    if all_fit(foot) {
        Ok(())
    } else {
        Err(FootFault::Overflow)
    }
}

/// Whether the range has no byte, or lies within one of these.
fn is_inside(range: Range, buffers: &[Range]) -> bool
    ensures { IsTrue result ↔ IsInside buffers.now range }
{
    range.len == 0 || buffers.iter().any(|buffer| range.is_within(*buffer))
}

/// Whether each range of the footprint that has a byte lies within one of these.
fn all_inside(foot: &Footprint, buffers: &[Range]) -> bool
    ensures { IsTrue result ↔ All (IsInside buffers.now) (ranges_of foot.now) }
{
    foot.reads.iter().all(|range| is_inside(*range, buffers)) && is_inside(foot.write, buffers)
}

/// Whether each range of the footprint that has a byte lies within one of the ranges given.
///
/// # Errors
///
/// `Overflow` where a range passes the last address, else `OutsideBuffer` where one lies in none of those given.
pub fn inside(foot: &Footprint, ranges: &[Range]) -> Result<(), FootFault>
    ensures ok { IsOk result ↔ (All Fits (ranges_of foot.now) × All (IsInside ranges.now) (ranges_of foot.now)) }
    ensures overflow { (result ≡ Err FootFault.Overflow) ↔ Any Passes (ranges_of foot.now) }
    ensures outside { (result ≡ Err FootFault.OutsideBuffer)
        ↔ (All Fits (ranges_of foot.now) × Any (IsOutside ranges.now) (ranges_of foot.now)) }
{
    check_fits(foot)?;
    if !all_inside(foot, ranges) {
        return Err(FootFault::OutsideBuffer);
    }
    Ok(())
}
