//! What holds of the reports of `audit`.

ghost use Rattle.hq_judging.specs.Audit.{StuckExactly};

use hq_model::machine::{standstill_law, stuck_exact};

/// Stuck packets are exactly those that no run completes, and each run that no work is left to has completed all
/// others.
pub fn stuck_exactly()
    ensures { StuckExactly }
{
    stuck_exact();
    standstill_law();
}
