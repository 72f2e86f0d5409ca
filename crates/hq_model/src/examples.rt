//! Small jobs, worked out.

ghost use Rattle.hq_model.specs.ExamplesHold.{OrderedRows, ResultsOfRows, RefusedRows, EitherRows, MissedRows};
ghost use Rattle.hq_model.specs.ExamplesHold.{StuckRows, RunsOfRows};

/// These jobs are ordered, and these certificates hold.
pub fn rows_are_ordered()
    ensures { OrderedRows }
{}

/// What these jobs leave in memory, and their bounds.
pub fn rows_give_results()
    ensures { ResultsOfRows }
{}

/// These jobs aren't ordered, for these reasons.
pub fn rows_are_refused()
    ensures { RefusedRows }
{}

/// What a barrier-OR orders, and what it doesn't.
pub fn either_orders()
    ensures { EitherRows }
{}

/// A job whose order misses a packet that every run completes first.
pub fn order_may_miss()
    ensures { MissedRows }
{}

/// Which of these jobs have an order list, and which a stuck set.
pub fn rows_are_stuck()
    ensures { StuckRows }
{}

/// Runs that there are, among them two that read a stale byte, and one that there isn't.
pub fn rows_run()
    ensures { RunsOfRows }
{}
