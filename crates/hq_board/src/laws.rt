//! What the rule of the board, and the histories that it speaks of, mean.

ghost use Rattle.hq_board.specs.Law.{RuleLaw};
ghost use Rattle.hq_board.specs.Told.{HistoriesRun};

/// In every state that the rule allows, the words and each queue's list agree, and the lists are parts of one history.
pub fn rule_law()
    ensures { RuleLaw }
{}

/// Each history that its queues and signals allow is told by a run of the machine.
pub fn histories_run()
    ensures { HistoriesRun }
{}
