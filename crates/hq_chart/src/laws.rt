//! What is drawn of a run is what packets do in it: a law, the contract of a function.

ghost use Rattle.hq_chart.specs.Runs.{RowsTellOfRuns};

/// Behind the events of a run the row of each packet, by which its bars are drawn, says whether the packet is launched,
/// active or complete in the state that the run leads to, and by which event it came to be launched or active.
pub fn rows_tell_of_runs()
    ensures { RowsTellOfRuns }
{}
